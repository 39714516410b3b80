// Rewriting and running agree, and what follows for flat tables: no code, only theorems about the definitions.
#![tactic(auto)]
