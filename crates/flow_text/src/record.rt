ghost use Rattle.std.specs.Prelude.{◌≡◌, [], ◌∷◌};
ghost use Rattle.fields.specs.Pieces.{pieces};
ghost use Rattle.lines.specs.Kinds.{says, Reports};
ghost use Rattle.flow_text.specs.Flows.{flow_kind, record_kinds};

use fields::fault::{Cause, Fault};
use fields::lines::RawLine;
use lines::limits::Limits;
use lines::line::{Line, read_line};
use lines::numbers::all_within;
use records::{Counts, Divergence, Label, Transition};

/// What a line after the first says.
#[derive(Clone, Copy)]
pub enum Record {
    Transition(Transition),
    Divergence(Divergence),
    Label(Label),
}

/// The counts that the first line says.
pub fn read_counts(line: RawLine<'_>) -> Result<Counts, Fault>
    ensures { Reports (says (flow_kind ∷ []) (pieces 44 line.entry.bytes.now)) line.entry.number result }
{
    let Line::Flow {
        states,
        actions,
        atoms,
    } = read_line(line)?
    else {
        return Err(line.fault(Cause::Form, 0));
    };
    let numerals = [
        Limits { low: 1, past: 1025 }.read(line, 2, states)?,
        Limits { low: 1, past: 65 }.read(line, 3, actions)?,
        Limits { low: 0, past: 65 }.read(line, 4, atoms)?,
    ];
    let [states, actions, atoms] = all_within(line, numerals)?;
    Ok(Counts {
        states,
        actions,
        atoms,
    })
}

/// The numbers below a count.
fn below(count: u16) -> Limits
    ensures { (result.low ≡ 0) × (result.past ≡ count) }
{
    Limits {
        low: 0,
        past: u32::from(count),
    }
}

/// The record that a later line says.
pub fn read_record(line: RawLine<'_>, counts: Counts) -> Result<Record, Fault>
    ensures { Reports (says (record_kinds counts) (pieces 44 line.entry.bytes.now)) line.entry.number result }
{
    let states = below(counts.states);
    let actions = below(counts.actions);
    let atoms = below(counts.atoms);
    match read_line(line)? {
        Line::Transition {
            source,
            action,
            target,
        } => {
            let numerals = [
                states.read(line, 2, source)?,
                actions.read(line, 3, action)?,
                states.read(line, 4, target)?,
            ];
            let [source, action, target] = all_within(line, numerals)?;
            Ok(Record::Transition(Transition {
                source,
                action,
                target,
            }))
        }
        Line::Divergence { state, action } => {
            let numerals = [states.read(line, 2, state)?, actions.read(line, 3, action)?];
            let [state, action] = all_within(line, numerals)?;
            Ok(Record::Divergence(Divergence { state, action }))
        }
        Line::Label { atom, state } => {
            let numerals = [atoms.read(line, 2, atom)?, states.read(line, 3, state)?];
            let [atom, state] = all_within(line, numerals)?;
            Ok(Record::Label(Label { atom, state }))
        }
        _ => Err(line.fault(Cause::Form, 0)),
    }
}
