//! What the program prints for a job.
#![tactic(auto)]

pub mod answer;
pub mod printing;
