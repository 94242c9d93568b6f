ghost use Rattle.std.specs.Prelude.{◌≡◌, ℕ};
ghost use Rattle.records.specs.declared.Counts.{Counts};
ghost use Rattle.flow_text.specs.Flows.{lent, Puts};
ghost use Rattle.flow_text.specs.Filling.{Fills, flow};

use crate::filling::Filling;
use crate::record::{Record, read_record};
use fields::fault::Fault;
use fields::lines::{Lines, RawLine};
use records::{Counts, Divergence, Label, Transition};

const MOST_TRANSITIONS: usize = 2048;

const MOST_DIVERGENCES: usize = 1024;

const MOST_LABELS: usize = 2048;

/// The lent list of transitions.
pub type Transitions<'a> = Filling<'a, Transition, MOST_TRANSITIONS>;

/// The lent list of divergences.
pub type Divergences<'a> = Filling<'a, Divergence, MOST_DIVERGENCES>;

/// The lent list of labels.
pub type Labels<'a> = Filling<'a, Label, MOST_LABELS>;

// The three lists are no struct: a proof loses a slice that lies in a struct in a struct.

/// Puts the record behind those of its kind.
fn put(
    x: Record,
    line: RawLine<'_>,
    transitions: &mut Transitions<'_>,
    divergences: &mut Divergences<'_>,
    labels: &mut Labels<'_>,
) -> Result<(), Fault>
    ensures put { (counts : Counts) → Puts (lent transitions.old.places.now divergences.old.places.now labels.old.places.now) (lent transitions.new.places.now divergences.new.places.now labels.new.places.now) (flow counts transitions.old.used divergences.old.used labels.old.used) (flow counts transitions.new.used divergences.new.used labels.new.used) x line.entry.number result }
    ensures names { (transitions.new.places.ghost_name ≡ transitions.old.places.ghost_name) × (divergences.new.places.ghost_name ≡ divergences.old.places.ghost_name) × (labels.new.places.ghost_name ≡ labels.old.places.ghost_name) }
{
    match x {
        Record::Transition(x) => transitions.add(x, line),
        Record::Divergence(x) => divergences.add(x, line),
        Record::Label(x) => labels.add(x, line),
    }
}

/// Reads the lines after the first and puts their records into the lists.
pub fn fill(
    lines: Lines<'_>,
    counts: Counts,
    transitions: &mut Transitions<'_>,
    divergences: &mut Divergences<'_>,
    labels: &mut Labels<'_>,
) -> Result<(), Fault>
    ensures fills { Fills (lent transitions.old.places.now divergences.old.places.now labels.old.places.now) (lent transitions.new.places.now divergences.new.places.now labels.new.places.now) (flow counts transitions.old.used divergences.old.used labels.old.used) (flow counts transitions.new.used divergences.new.used labels.new.used) lines.entry.rest.now lines.entry.count result }
    ensures names { (transitions.new.places.ghost_name ≡ transitions.old.places.ghost_name) × (divergences.new.places.ghost_name ≡ divergences.old.places.ghost_name) × (labels.new.places.ghost_name ≡ labels.old.places.ghost_name) }
{
    let mut lines = lines;
    while let Some(line) = lines.next_line() {
        let line = line?;
        let x = read_record(line, counts)?;
        put(x, line, transitions, divergences, labels)?;
    }
    Ok(())
}
