// The example of document 01's program: no code, only what `specs/` says of it.
#![tactic(auto)]
