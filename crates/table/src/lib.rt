//! A source held in memory: the records of a flow text.
#![tactic(auto)]

ghost use Rattle.std.specs.Prelude.{◌≡◌, ℕ, ◌+◌, ◌-◌, ◌*◌, length, Some, None, MatchResult};
ghost use Rattle.table.specs.declared.TableRefusal.TheVariants.{Memory};
ghost use Rattle.table.specs.Table.{table_lts, table_refusal, Refuses, table_refusal_number};
ghost use Rattle.table.specs.TableAnswers.{table_means, table_says, TableReady, in_set, place_of};
ghost use Rattle.table.specs.Tables.{table_shows};

use crate::build::build;
use crate::lists::Records;
use lts::Source;
use lts::sets::SmallSet;
use records::{Counts, Divergence, Label, Transition};
use sorting::Rows;
use std::alloc::{AllocError, Global};

mod build;
mod checks;
mod entries;
mod lists;

/// A system in memory, where there are n states.
#[derive(Drop)]
pub struct Table {
    counts: Counts,
    /// the states that the transitions on a into t leave, in row a × n + t
    rows: Rows,
    /// the out-degree of s on a, at a × n + s
    degrees: Vec<usize>,
    // two lists, each made by `noted` from records of its own: a list of pairs would be filled in two passes, each with a
    // closure that says which half it fills
    /// for each state, the actions on which it is divergent
    gaps: Vec<SmallSet>,
    /// for each state, the atoms that hold
    marks: Vec<SmallSet>,
}

/// Why a table is refused: the first of these that applies.
#[derive(Clone, Copy, Debug, PartialEq, Eq)]
pub enum TableRefusal {
    /// Number 6: over 2,048 transitions, 1,024 divergences or 2,048 labels.
    Limit,
    /// Number 4: not 1 to 1,024 states, 1 to 64 actions and at most 64 atoms, or a record has a number that is not
    /// below its count.
    Range,
    /// Number 5: a record stands in its list twice.
    Repeated,
    /// There is no memory for the table. It has no number, and comes only where nothing else is amiss.
    Memory,
}

impl TableRefusal {
    /// The number of the refusal, where it has one.
    pub fn number(&self) -> Option<u8>
        ensures { result ≡ table_refusal_number self.now }
    {
        // A match and no discriminants: want of memory has no number.
        match self {
            TableRefusal::Limit => Some(6),
            TableRefusal::Range => Some(4),
            TableRefusal::Repeated => Some(5),
            TableRefusal::Memory => None,
        }
    }
}

impl From<AllocError> for TableRefusal {
    ghost from_gives = { λ _ e. e ≡ Memory };

    fn from(_error: AllocError) -> TableRefusal {
        TableRefusal::Memory
    }
}

impl Table {
    /// The table of the records; or the first cause to refuse them. The lists are only lent and stay as they were, and
    /// nothing is given by value but the counts, which are copied: so there is nothing to hand back. They are parameters of
    /// their own, so that a caller needs no type of this crate to call.
    pub fn new(
        heap: Global,
        counts: Counts,
        transitions: &[Transition],
        divergences: &[Divergence],
        labels: &[Label],
    ) -> Result<Table, TableRefusal>
        ensures { MatchResult result (λ x. (table_refusal counts transitions.now divergences.now labels.now ≡ None) × (table_means x ≡ table_lts counts transitions.now divergences.now labels.now) × TableReady x) (λ e. Refuses (table_refusal counts transitions.now divergences.now labels.now) e) }
    {
        let records = Records {
            counts,
            transitions,
            divergences,
            labels,
        };
        records.check()?;
        Ok(build(heap, &records)?)
    }

    /// The place of action `a` and state `s`, where there is one.
    fn place(&self, a: usize, s: usize) -> Option<usize>
        ensures { result ≡ place_of self.now.counts.states self.now.counts.actions a s }
    {
        let states = usize::from(self.counts.states);
        (a < usize::from(self.counts.actions) && s < states).then(|| a * states + s)
    }
}

/// Whether set `s` has `i`, below `most`.
fn in_set(sets: &[SmallSet], most: u16, s: usize, i: usize) -> bool
    ensures { result ≡ in_set (length sets.now) most sets.now s i }
{
    sets.get(s)
        .is_some_and(|set| i < usize::from(most) && set.has(i))
}

impl Source for Table {
    ghost answers = { table_says };

    ghost meaning = { table_means };

    ghost ready = { TableReady };

    ghost shows = { λ x r. table_shows x.counts.states x.counts.actions x.counts.atoms x.rows.ends.items x.rows.items.items x.degrees.items x.gaps.items x.marks.items r };

    fn states(&self) -> usize {
        usize::from(self.counts.states)
    }

    fn actions(&self) -> usize {
        usize::from(self.counts.actions)
    }

    fn atoms(&self) -> usize {
        usize::from(self.counts.atoms)
    }

    fn divergent(&self, s: usize, a: usize) -> bool {
        in_set(&self.gaps, self.counts.actions, s, a)
    }

    fn holds(&self, p: usize, s: usize) -> bool {
        in_set(&self.marks, self.counts.atoms, s, p)
    }

    fn out_degree(&self, s: usize, a: usize) -> usize {
        self.place(a, s)
            .and_then(|i| self.degrees.get(i))
            .copied()
            .unwrap_or(0)
    }

    fn in_degree(&self, t: usize, a: usize) -> usize {
        self.place(a, t).map_or(0, |i| self.rows.row(i).len())
    }

    fn transitions(&self, a: usize) -> usize {
        let states = usize::from(self.counts.states);
        if a < usize::from(self.counts.actions) {
            let i = a * states;
            self.rows
                .start(i + states)
                .saturating_sub(self.rows.start(i))
        } else {
            0
        }
    }

    fn predecessor(&self, t: usize, a: usize, k: usize) -> Option<usize> {
        let i = self.place(a, t)?;
        self.rows.row(i).get(k).copied()
    }
}
