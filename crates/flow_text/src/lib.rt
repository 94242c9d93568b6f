//! Flow texts.
#![tactic(auto)]

pub mod counts;
mod filling;
pub mod flow;
mod lists;
pub mod record;
