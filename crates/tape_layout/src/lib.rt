// How a table's tree lies on the tape, and a worked row of it: no code.
#![tactic(auto)]
