use records::Counts;

/// What a flow text says: its counts, and how many records of each kind stand in the caller's lists. The lists are lent, since
/// a reader has no heap: so what is told of them is how many of their places are used.
#[derive(Clone, Copy, Debug, PartialEq, Eq)]
pub struct Flow {
    pub counts: Counts,
    pub transitions: usize,
    pub divergences: usize,
    pub labels: usize,
}
