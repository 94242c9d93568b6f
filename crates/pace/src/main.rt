//! Makes a table of 2,048 transitions and asks all its questions, and the same of the table joined to a queue, as
//! often as standard input says. It prints a sum of the answers, which another program computes too: `bench/sources`
//! times the two.
#![tactic(auto)]

use joined::Joined;
use lts::Source;
use lts::queue::Queue;
use lts::sets::SmallSet;
use records::{Counts, Divergence, Label, Transition};
use std::alloc::{AllocError, Global};
use std::io;
use table::Table;

/// 2,048 transitions among 512 states and 8 actions: state s on action a goes to (s × 7 + a × 13 + 1) mod 512.
fn transitions(heap: Global) -> Result<Vec<Transition>, AllocError> {
    (0..2048u16)
        .map(|k| {
            let source = k % 512;
            let action = (k / 512) * 2;
            let target = (source * 7 + action * 13 + 1) % 512;
            Transition {
                source,
                action,
                target,
            }
        })
        .collect(heap)
}

/// The predecessors of `t` on `a`, summed. Here and below a `for`: what is timed is the sources' answers, and the same sums
/// by chains of iterators took twice the time.
fn predecessors<S: Source>(source: &S, t: usize, a: usize) -> usize {
    let mut sum = 0usize;
    for k in 0..source.in_degree(t, a) {
        if let Some(s) = source.predecessor(t, a, k) {
            sum = sum.wrapping_add(s);
        }
    }
    sum
}

/// All answers about a state, summed.
fn ask_state<S: Source>(source: &S, s: usize) -> usize {
    let mut sum = 0usize;
    for a in 0..source.actions() {
        sum = sum.wrapping_add(source.out_degree(s, a));
        sum = sum.wrapping_add(source.in_degree(s, a));
        sum = sum.wrapping_add(usize::from(source.divergent(s, a)));
        sum = sum.wrapping_add(predecessors(source, s, a));
    }
    for p in 0..source.atoms() {
        sum = sum.wrapping_add(usize::from(source.holds(p, s)));
    }
    sum
}

/// All answers, summed.
fn ask<S: Source>(source: &S) -> usize {
    let mut sum = 0usize;
    for a in 0..source.actions() {
        sum = sum.wrapping_add(source.transitions(a));
    }
    for s in 0..source.states() {
        sum = sum.wrapping_add(ask_state(source, s));
    }
    sum
}

/// The table of the transitions, where there is memory for it.
fn table(heap: Global, list: &[Transition]) -> Option<Table> {
    let counts = Counts {
        states: 512,
        actions: 8,
        atoms: 1,
    };
    let divergences = [Divergence {
        state: 3,
        action: 1,
    }];
    let labels = [Label { atom: 0, state: 5 }];
    Table::new(heap, counts, list, &divergences, &labels).ok()
}

/// A round: make the table, or join it to a queue, and ask that.
fn round(heap: Global, list: &[Transition], joins: bool) -> Option<usize> {
    let table = table(heap, list)?;
    if !joins {
        return Some(ask(&table));
    }
    let queue = Queue::new(3, 8, 0, 1).ok()?;
    let both = Joined::new(table, queue, SmallSet::from_bits(4)).ok()?;
    Some(ask(&both))
}

fn run(rt: &HostRuntime) -> anyhow::Result<()> {
    let heap = rt.alloc();
    let text = io::read_to_string(heap, rt.stdin())?;
    let mut words = text.split_whitespace();
    let rounds = words.next().unwrap_or("1").parse::<usize>().unwrap_or(1);
    let joins = words.next().unwrap_or("table") == "joined";
    let list = transitions(heap)?;
    let sum = (0..rounds)
        .map(|_| round(heap, &list, joins).unwrap_or(0))
        .fold(0, usize::wrapping_add);
    println!(rt; "{sum}")?;
    Ok(())
}

fn main(rt: HostRuntime) -> anyhow::Result<()> {
    run(&rt)
}
