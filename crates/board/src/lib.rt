//! The arrays of a session, without its source and its side: a book of equations, what has turned, counters, the
//! worklist, and the links from each variable to the operands that name it.
//!
//! Each method says which lists it leaves, with no condition: past the end of a list nothing is read or written.
#![tactic(auto)]

pub mod board;
pub mod decisions;
pub mod links;
pub mod reads;
pub mod renewing;
pub mod turning;
