//! Worked examples of the definitions, as theorems in `specs/`, and explorations of all short histories.
#![tactic(auto)]
