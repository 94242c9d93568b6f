//! Cutting bytes at a mark, number fields, and the fault that a reader answers.
#![tactic(auto)]

pub mod cut;
pub mod fault;
pub mod lines;
pub mod number;
