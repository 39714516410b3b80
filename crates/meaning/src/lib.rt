// What things are: the definitions that every contract builds on, and worked rows of them.
#![tactic(auto)]
