//! Rulebook texts.
#![tactic(auto)]

pub mod equation;
pub mod rulebook;
