// The text and the source are parameters of each function: a struct of both would be made and taken apart in `report` alone.

use lts::Source;
use lts::totals::transitions_between;
use std::alloc::{AllocError, Global};
use std::fmt::Write;

/// What is asked of a state and an action: `divergent`, `out`, `in`, and `past`, whether there is a predecessor whose
/// number is the in-degree.
fn ask_state<S: Source>(
    text: &mut String,
    source: &S,
    s: usize,
    a: usize,
) -> Result<(), AllocError> {
    let divergent = u8::from(source.divergent(s, a));
    let out = source.out_degree(s, a);
    let into = source.in_degree(s, a);
    let past = u8::from(source.predecessor(s, a, into).is_some());
    writeln!(
        text,
        "state {s} action {a} divergent {divergent} out {out} in {into} past {past} "
    )
}

/// How many transitions go from `s` on `a` to `t`, by the predecessors of `t`, where there is one.
fn ask_target<S: Source>(
    text: &mut String,
    source: &S,
    s: usize,
    a: usize,
    t: usize,
) -> Result<(), AllocError> {
    match transitions_between(source, s, a, t) {
        0 => Ok(()),
        count => writeln!(text, "from {s} on {a} to {t} count {count} "),
    }
}

/// What is asked of a state, on every action and one more.
fn ask_actions<S: Source>(text: &mut String, source: &S, s: usize) -> Result<(), AllocError> {
    for a in 0..source.actions().saturating_add(1) {
        ask_state(text, source, s, a)?;
        for t in 0..source.states() {
            ask_target(text, source, s, a, t)?;
        }
    }
    Ok(())
}

/// Which atoms hold at a state, of every atom and one more.
fn ask_atoms<S: Source>(text: &mut String, source: &S, s: usize) -> Result<(), AllocError> {
    for p in 0..source.atoms().saturating_add(1) {
        let holds = u8::from(source.holds(p, s));
        writeln!(text, "atom {p} state {s} holds {holds} ")?;
    }
    Ok(())
}

/// How many transitions there are on every action and one more.
fn ask_transitions<S: Source>(text: &mut String, source: &S) -> Result<(), AllocError> {
    for a in 0..source.actions().saturating_add(1) {
        let count = source.transitions(a);
        writeln!(text, "on {a} count {count} ")?;
    }
    Ok(())
}

/// Asks every question of every state and one more, and writes the answers, a line each.
pub(crate) fn report<S: Source>(
    heap: Global,
    name: &str,
    source: &S,
) -> Result<String, AllocError> {
    let (states, actions, atoms) = (source.states(), source.actions(), source.atoms());
    let mut text = format!(in heap; "{name} states {states} actions {actions} atoms {atoms} \n")?;
    ask_transitions(&mut text, source)?;
    for s in 0..states.saturating_add(1) {
        ask_atoms(&mut text, source, s)?;
        ask_actions(&mut text, source, s)?;
    }
    Ok(text)
}
