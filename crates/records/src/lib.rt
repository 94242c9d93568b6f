//! The records that texts spell, and that sources and sessions are made from.
#![tactic(auto)]

mod letters;
mod spelling;

/// How many states, actions and atoms a flow has. Each is numbered from 0.
#[derive(Clone, Copy, Debug, PartialEq, Eq)]
pub struct Counts {
    pub states: u16,
    pub actions: u16,
    pub atoms: u16,
}

/// A transition from `source` on `action` to `target`.
#[derive(Clone, Copy, Debug, PartialEq, Eq)]
pub struct Transition {
    pub source: u16,
    pub action: u16,
    pub target: u16,
}

/// `state` is divergent (undefined) on `action`.
#[derive(Clone, Copy, Debug, PartialEq, Eq)]
pub struct Divergence {
    pub state: u16,
    pub action: u16,
}

/// The atomic proposition `atom` holds at `state`.
#[derive(Clone, Copy, Debug, PartialEq, Eq)]
pub struct Label {
    pub atom: u16,
    pub state: u16,
}

/// The side of an equation system: which of its solutions is meant.
#[derive(Clone, Copy, Debug, PartialEq, Eq)]
pub enum Fixpoint {
    Greatest,
    Least,
}

/// The form of an equation, one of the characters `t f A | & < [`.
#[derive(Clone, Copy, Debug, PartialEq, Eq)]
pub enum Form {
    True,
    False,
    Atom,
    Or,
    And,
    Diamond,
    Box,
}

/// An equation as it is written: its form is one of the characters `t f A | & < [`.
#[derive(Clone, Copy, Debug, PartialEq, Eq)]
pub struct EquationRecord {
    /// A character and no `Form`: a session is given records of any form, and refuses an unknown one.
    pub form: char,
    pub first: u16,
    pub second: u16,
}

/// A character that names no side, or no form.
#[derive(Clone, Copy, Debug, PartialEq, Eq)]
pub struct UnknownLetter(pub char);
