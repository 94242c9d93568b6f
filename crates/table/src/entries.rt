ghost use Rattle.std.specs.Prelude.{◌≡◌, ℕ, ◌+◌, ◌*◌, ◌<◌, ◌≤◌, Bool, ◌&&◌, ◌||◌, length, IfOk, ◌==◌, nat_lt, slice_index_or};
ghost use Rattle.records.specs.declared.Counts.{Counts as CountsOf};
ghost use Rattle.lts.specs.Sets.{member};
ghost use Rattle.table.specs.Records.{has, each, repeated as repeated_in, transition_inside, divergence_inside, label_inside};
ghost use Rattle.table.specs.TableAnswers.{empty_set};

use lts::sets::SmallSet;
use records::{Counts, Divergence, Label, Transition};
use sorting::repeats::repeated;
use std::alloc::{AllocError, Global};

/// A record as two numbers: a state, and what the record says of it.
pub(crate) trait Entry {
    ghost inside: { CountsOf → Self → Bool };

    ghost key: { Self → ℕ };

    ghost value: { Self → ℕ };

    /// Whether its numbers are below the counts.
    fn inside(&self, counts: Counts) -> bool
        ensures { result ≡ inside counts self.now };

    /// The two numbers.
    fn pair(&self) -> (usize, usize)
        ensures { (result.0 ≡ key self.now) × (result.1 ≡ value self.now) };
}

impl Entry for Transition {
    ghost inside = { transition_inside };

    ghost key = { λ x. x.source };

    ghost value = { λ x. x.action * 1024 + x.target };

    fn inside(&self, counts: Counts) -> bool {
        self.source < counts.states && self.action < counts.actions && self.target < counts.states
    }

    fn pair(&self) -> (usize, usize) {
        (
            usize::from(self.source),
            usize::from(self.action) * 1024 + usize::from(self.target),
        )
    }
}

impl Entry for Divergence {
    ghost inside = { divergence_inside };

    ghost key = { λ x. x.state };

    ghost value = { λ x. x.action };

    fn inside(&self, counts: Counts) -> bool {
        self.state < counts.states && self.action < counts.actions
    }

    fn pair(&self) -> (usize, usize) {
        (usize::from(self.state), usize::from(self.action))
    }
}

impl Entry for Label {
    ghost inside = { label_inside };

    ghost key = { λ x. x.state };

    ghost value = { λ x. x.atom };

    fn inside(&self, counts: Counts) -> bool {
        self.atom < counts.atoms && self.state < counts.states
    }

    fn pair(&self) -> (usize, usize) {
        (usize::from(self.state), usize::from(self.atom))
    }
}

/// Whether every record lies within the counts.
pub(crate) fn all_inside<E: Entry>(entries: &[E], counts: Counts) -> bool
    ensures { result ≡ each (E.Entry.inside counts) entries.now }
{
    entries.iter().all(|entry| entry.inside(counts))
}

/// Whether some record stands in the list twice, by its two numbers. No memory is asked for.
pub(crate) fn repeats<E: Entry>(entries: &[E]) -> bool
    requires few { length entries.now ≤ 2048 }
    requires small { (k : ℕ) (d : E) → k < length entries.now → (E.Entry.key (slice_index_or entries.now k d) < 1024) × (E.Entry.value (slice_index_or entries.now k d) < 65536) }
    ensures { result ≡ repeated_in (λ x y. (E.Entry.key x == E.Entry.key y) && E.Entry.value x == E.Entry.value y) entries.now }
{
    let mut pairs = [(0, 0); 2048];
    // by index, since a proof knows no element after a zip of `iter_mut`
    for (k, entry) in entries.iter().enumerate() {
        pairs[k] = entry.pair();
    }
    repeated(&pairs[..entries.len()]).unwrap_or(false)
}

/// Puts the value of each record into the set of its key.
fn note<E: Entry>(entries: &[E], sets: &mut [SmallSet])
    ensures { (s i : ℕ) → s < length sets.new → member (slice_index_or sets.new s empty_set) i ≡ (member (slice_index_or sets.old s empty_set) i || (nat_lt i 64 && has (λ x. (E.Entry.key x == s) && E.Entry.value x == i) entries.now)) }
{
    for entry in entries {
        let (key, value) = entry.pair();
        // by index, since a proof knows no element of a slice after `get_mut` (of a `Vec` it does)
        if key < sets.len() {
            sets[key] = sets[key].with(value);
        }
    }
}

/// For each number below `n` the set of the values that the records have with it as their key.
pub(crate) fn noted<E: Entry>(
    heap: Global,
    entries: &[E],
    n: usize,
) -> Result<Vec<SmallSet>, AllocError>
    ensures { IfOk result (λ v. (length v.items ≡ n) × ((s i : ℕ) → s < n → member (slice_index_or v.items s empty_set) i ≡ (nat_lt i 64 && has (λ x. (E.Entry.key x == s) && E.Entry.value x == i) entries.now))) }
{
    let mut sets = vec![in heap; SmallSet::empty(); n]?;
    note(entries, &mut sets);
    Ok(sets)
}
