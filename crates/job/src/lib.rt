//! Jobs: a flow text and a rulebook text in one.
#![tactic(auto)]

pub mod fault;
pub mod job;
