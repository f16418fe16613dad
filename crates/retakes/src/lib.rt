// Demand 3: no code, only what `specs/` claims of the calls of `take`.
#![tactic(auto)]
