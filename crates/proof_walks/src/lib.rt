// What the proofs by hand share: no code, only rules for walks of a function's MIR.
#![tactic(auto)]
