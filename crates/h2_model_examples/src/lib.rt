//! Worked examples of the definitions of HTTP/2 sessions, as theorems in `specs/`.
#![tactic(auto)]
