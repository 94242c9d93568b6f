ghost use Rattle.std.specs.Prelude.{◌≡◌, ℕ, ◌+◌, ◌*◌, ◌<◌, IfOk, None, map};
ghost use Rattle.table.specs.Lists.{refusal_of, lts_of};
ghost use Rattle.table.specs.TableAnswers.{arrival, departure, table_means, TableReady};

use crate::Table;
use crate::entries::noted;
use crate::lists::Records;
use sorting::{counted, sorted};
use std::alloc::{AllocError, Global};

// Two chains, each as its definition says it: one function that took a closure would have to say of each record what the
// closure answers.
impl Records<'_> {
    /// The row of each transition by its action and its target, and its source.
    fn arrivals(&self, heap: Global) -> Result<Vec<(usize, usize)>, AllocError>
        ensures { IfOk result (λ v. v.items ≡ map (arrival self.now.counts.states) self.now.transitions.now) }
    {
        let states = usize::from(self.counts.states);
        self.transitions
            .iter()
            .map(|arriving| (
                usize::from(arriving.action) * states + usize::from(arriving.target),
                usize::from(arriving.source),
            ))
            .collect(heap)
    }

    /// The row of each transition by its action and its source, and its target.
    fn departures(&self, heap: Global) -> Result<Vec<(usize, usize)>, AllocError>
        ensures { IfOk result (λ v. v.items ≡ map (departure self.now.counts.states) self.now.transitions.now) }
    {
        let states = usize::from(self.counts.states);
        self.transitions
            .iter()
            .map(|leaving| (
                usize::from(leaving.action) * states + usize::from(leaving.source),
                usize::from(leaving.target),
            ))
            .collect(heap)
    }
}

/// The table, where nothing is amiss with its records.
pub(crate) fn build(heap: Global, records: &Records<'_>) -> Result<Table, AllocError>
    requires { refusal_of records.now ≡ None }
    ensures { IfOk result (λ x. (table_means x ≡ lts_of records.now) × TableReady x) }
{
    let states = usize::from(records.counts.states);
    let arrivals = records.arrivals(heap)?;
    let departures = records.departures(heap)?;
    let places = usize::from(records.counts.actions) * states;
    Ok(Table {
        counts: records.counts,
        rows: sorted(heap, &arrivals, places)?,
        degrees: counted(heap, &departures, places)?,
        gaps: noted(heap, records.divergences, states)?,
        marks: noted(heap, records.labels, states)?,
    })
}
