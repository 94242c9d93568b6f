//! Lines: their kinds, their fields and the numbers in them.
#![tactic(auto)]

pub mod limits;
pub mod line;
pub mod numbers;
