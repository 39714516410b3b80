// What the reader of tables accepts, refuses and reads back: no code, only theorems about the definitions.
#![tactic(auto)]
