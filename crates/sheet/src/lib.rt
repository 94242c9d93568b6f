//! The mark sheet of a board, written into a lent buffer.
#![tactic(auto)]

pub mod ink;
pub mod lines;
