//! The session: load, pin, run, query and sheet over any source and either side, and lists of such calls.
#![tactic(auto)]

pub mod calls;
pub mod replay;
pub mod session;
mod steps;
