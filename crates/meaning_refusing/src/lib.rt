// Which texts are refused, with which number and at which place: no code, only the definition and theorems about it.
#![tactic(auto)]
