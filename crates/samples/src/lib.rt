//! Small systems: what the definitions compute on them, and sources nested in one another.
#![tactic(auto)]

ghost use Rattle.std.specs.Prelude.{◌≡◌, ℕ, IfOk};
ghost use Rattle.semantics.specs.Lts.{all};
ghost use Rattle.samples.specs.Samples.{TwoQueues, TwoLoops, nested_lts, sample_counts, sample_transitions, sample_divergences, sample_labels};
ghost use Rattle.table.specs.Table.{table_lts};
ghost use Rattle.table.specs.TableAnswers.{table_means, TableReady};

use crate::refusals::NotMade;
use fenced::Fenced;
use joined::Joined;
use lts::queue::Queue;
use lts::sets::SmallSet;
use lts::totals::{all_transitions, transitions_between};
use records::{Counts, Divergence, Label, Transition};
use std::alloc::Global;
use table::Table;

pub mod refusals;

/// Two queues for one message, joined.
pub fn two_queues() -> u8
    ensures { TwoQueues }
{
    0
}

/// Two states with a transition to themselves, joined.
pub fn two_loops() -> u8
    ensures { TwoLoops }
{
    0
}

/// The table of the sample.
fn table(heap: Global) -> Result<Table, NotMade>
    ensures { IfOk result (λ x. (table_means x ≡ table_lts sample_counts sample_transitions sample_divergences sample_labels) × TableReady x) }
{
    let counts = Counts {
        states: 2,
        actions: 3,
        atoms: 1,
    };
    let transitions = [
        Transition {
            source: 0,
            action: 1,
            target: 1,
        },
        Transition {
            source: 1,
            action: 2,
            target: 0,
        },
    ];
    let divergences = [Divergence {
        state: 1,
        action: 1,
    }];
    let labels = [Label { atom: 0, state: 0 }];
    Ok(Table::new(heap, counts, &transitions, &divergences, &labels)?)
}

/// All transitions of a queue beside a fenced layer over a table joined to a queue, and those on action 1 from its
/// state 0 to its state 3.
pub fn nested(heap: Global) -> Result<(usize, usize), NotMade>
    ensures { IfOk result (λ n. (n.0 ≡ all nested_lts) × (n.1 ≡ nested_lts.transitions 0 1 3)) }
{
    let sets = vec![in heap; SmallSet::from_bits(3)]?;
    let both = Joined::new(
        table(heap)?,
        Queue::new(1, 3, 1, 2)?,
        SmallSet::from_bits(2),
    )?;
    let fenced = Fenced::new(both, sets)?;
    let all: Joined<Queue, Fenced<Joined<Table, Queue>>> = Joined::new(
        Queue::new(2, 3, 2, 0)?,
        fenced,
        SmallSet::from_bits(4),
    )?;
    Ok((all_transitions(&all), transitions_between(&all, 0, 1, 3)))
}
