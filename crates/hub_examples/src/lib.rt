//! Worked examples of the definitions of a hub, as theorems in `specs/`.
#![tactic(auto)]
