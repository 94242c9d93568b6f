//! Asks every question of a table, a queue, a joined pair, a fenced source and a nested one, and prints the answers.
//!
//! Standard input is a script: numbers parted by white space. The first is how many cases follow. A case is a table
//! (states, actions, atoms; a number of transitions and three numbers for each; a number of divergences and two for
//! each; a number of labels and two for each), a queue (capacity, actions, put, take), the shared actions as bits, and
//! a number of action sets as bits. A source that is refused is printed as `refused` with its number.
#![tactic(auto)]

use crate::report::report;
use crate::script::Script;
use crate::unmade::Unmade;
use fenced::Fenced;
use joined::Joined;
use lts::Source;
use lts::queue::Queue;
use lts::sets::SmallSet;
use records::{Counts, Divergence, Label, Transition};
use std::alloc::{AllocError, Global};
use std::io;
use table::Table;

mod report;
mod script;
mod unmade;

/// What a case describes: the table and the queue are made anew for each source that holds them.
#[derive(Drop)]
struct Case {
    counts: Counts,
    transitions: Vec<Transition>,
    divergences: Vec<Divergence>,
    labels: Vec<Label>,
    capacity: usize,
    actions: usize,
    put: usize,
    take: usize,
    shared: SmallSet,
    sets: Vec<SmallSet>,
}

impl Case {
    fn read(heap: Global, script: &mut Script) -> Result<Case, AllocError> {
        Ok(Case {
            counts: script.counts(),
            transitions: script.transitions(heap)?,
            divergences: script.divergences(heap)?,
            labels: script.labels(heap)?,
            capacity: script.next(),
            actions: script.next(),
            put: script.next(),
            take: script.next(),
            shared: script.set(),
            sets: script.sets(heap)?,
        })
    }

    fn table(&self, heap: Global) -> Result<Table, Unmade> {
        Ok(Table::new(
            heap,
            self.counts,
            &self.transitions,
            &self.divergences,
            &self.labels,
        )?)
    }

    fn queue(&self) -> Result<Queue, Unmade> {
        Ok(Queue::new(self.capacity, self.actions, self.put, self.take)?)
    }

    fn joined(&self, heap: Global) -> Result<Joined<Table, Queue>, Unmade> {
        let table = self.table(heap).map_err(Unmade::within)?;
        let queue = self.queue().map_err(Unmade::within)?;
        Ok(Joined::new(table, queue, self.shared)?)
    }

    fn fenced(&self, heap: Global, sets: Vec<SmallSet>) -> Result<Fenced<Table>, Unmade> {
        let table = self.table(heap).map_err(Unmade::within)?;
        Ok(Fenced::new(table, sets)?)
    }

    /// The queue joined to a fenced layer over the table joined to the queue.
    fn nested(&self, heap: Global) -> Result<Joined<Queue, Fenced<Joined<Table, Queue>>>, Unmade> {
        let sets = self.sets.clone().map_err(|_| Unmade::Memory)?;
        let queue = self.queue().map_err(Unmade::within)?;
        let both = self.joined(heap).map_err(Unmade::within)?;
        let layer = Fenced::new(both, sets).map_err(|_| Unmade::Within)?;
        Joined::new(queue, layer, self.shared).map_err(|_| Unmade::Within)
    }
}

/// The report of a source, or of its refusal.
fn told<S: Source + Drop>(
    heap: Global,
    name: &str,
    made: Result<S, Unmade>,
) -> Result<String, AllocError> {
    match made {
        Ok(source) => report(heap, name, &source),
        Err(why) => format!(in heap; "{name} refused {why}\n"),
    }
}

fn run(rt: &HostRuntime) -> anyhow::Result<()> {
    let heap = rt.alloc();
    let text = io::read_to_string(heap, rt.stdin())?;
    let mut script = Script::new(heap, text.as_str())?;
    for _ in 0..script.next() {
        let case = Case::read(heap, &mut script)?;
        rt.print(told(heap, "table", case.table(heap))?)?;
        rt.print(told(heap, "queue", case.queue())?)?;
        rt.print(told(heap, "joined", case.joined(heap))?)?;
        rt.print(told(heap, "fenced", case.fenced(heap, case.sets.clone()?))?)?;
        rt.print(told(heap, "nested", case.nested(heap))?)?;
    }
    Ok(())
}

fn main(rt: HostRuntime) -> anyhow::Result<()> {
    run(&rt)
}
