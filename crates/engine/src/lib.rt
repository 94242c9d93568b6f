//! The worklist procedure, over any source and either side, on a board.
//!
//! Taking a pair goes through the operands that name its variable, and for `<` and `[` through the predecessors of its
//! state, and through nothing else: the looks that are counted are the steps that are made.
//!
//! The board and the source go apart, and in no struct together: `&mut` and `&` say by type that the source stays.
#![tactic(auto)]

pub mod accepts;
pub mod begin;
pub mod forms;
pub mod marks;
pub mod side;
pub mod steps;
