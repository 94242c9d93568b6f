//! Records as a text spells them: a line without the byte 10 that ends it.

ghost use Rattle.std.specs.Prelude.{Some};
ghost use Rattle.records.specs.Spelling.{counts_text, transition_text, divergence_text, label_text};

use crate::{Counts, Divergence, Label, Transition};
use std::fmt;

impl fmt::Display for Counts {
    ghost output = { λ n. Some (counts_text n) };

    fn fmt<W: fmt::Write>(&self, f: &mut fmt::Formatter<W>) -> fmt::Result {
        write!(f, "F,{},{},{}", self.states, self.actions, self.atoms)
    }
}

impl fmt::Display for Transition {
    ghost output = { λ x. Some (transition_text x) };

    fn fmt<W: fmt::Write>(&self, f: &mut fmt::Formatter<W>) -> fmt::Result {
        write!(f, "T,{},{},{}", self.source, self.action, self.target)
    }
}

impl fmt::Display for Divergence {
    ghost output = { λ x. Some (divergence_text x) };

    fn fmt<W: fmt::Write>(&self, f: &mut fmt::Formatter<W>) -> fmt::Result {
        write!(f, "U,{},{}", self.state, self.action)
    }
}

impl fmt::Display for Label {
    ghost output = { λ x. Some (label_text x) };

    fn fmt<W: fmt::Write>(&self, f: &mut fmt::Formatter<W>) -> fmt::Result {
        write!(f, "P,{},{}", self.atom, self.state)
    }
}
