// Worked rows at 01's limits: no code. They take long to compute, and stand apart so that a check of meaning doesn't
// wait for them.
#![tactic(auto)]
