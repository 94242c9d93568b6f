use records::{Counts, Divergence, Label, Transition};

/// The counts of a flow text and the lists of its records.
#[derive(Clone, Copy)]
pub(crate) struct Records<'a> {
    pub counts: Counts,
    pub transitions: &'a [Transition],
    pub divergences: &'a [Divergence],
    pub labels: &'a [Label],
}
