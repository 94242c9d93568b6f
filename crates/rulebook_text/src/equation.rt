ghost use Rattle.std.specs.Prelude.{◌≡◌, [], ◌∷◌, ◌≤◌, Some, Ok, Err, MatchResult};
ghost use Rattle.records.specs.Letters.{form_letter};
ghost use Rattle.records.specs.declared.Fixpoint.TheVariants.{Greatest, Least};
ghost use Rattle.fields.specs.Pieces.{pieces};
ghost use Rattle.lines.specs.Kinds.{says, Reports};
ghost use Rattle.rulebook_text.specs.Rulebooks.{rulebook_kind, head_text, equation_kinds, first_past, second_past, as_equation};

use fields::fault::{Cause, Fault};
use fields::lines::RawLine;
use lines::limits::Limits;
use lines::line::{Line, read_line};
use lines::numbers::all_within;
use records::{EquationRecord, Fixpoint, Form};
use std::fmt;

/// What the first line of a rulebook text says.
#[derive(Clone, Copy, Debug, PartialEq, Eq)]
pub struct Rulebook {
    pub side: Fixpoint,
    pub equations: u16,
}

impl fmt::Display for Rulebook {
    ghost output = { λ b. Some (head_text b) };

    /// The first line of the text, without the byte 10 that ends it.
    fn fmt<W: fmt::Write>(&self, f: &mut fmt::Formatter<W>) -> fmt::Result {
        write!(f, "R,{},{}", char::from(self.side), self.equations)
    }
}

/// The side and the number of equations that the first line says.
pub fn read_head(line: RawLine<'_>) -> Result<Rulebook, Fault>
    ensures { Reports (says (rulebook_kind Greatest ∷ rulebook_kind Least ∷ []) (pieces 44 line.entry.bytes.now)) line.entry.number result }
{
    let Line::Rulebook { side, count } = read_line(line)? else {
        return Err(line.fault(Cause::Form, 0));
    };
    let numeral = Limits { low: 1, past: 1025 }.read(line, 3, count)?;
    let equations = numeral.within(line)?;
    Ok(Rulebook { side, equations })
}

/// The first number past those of an equation's first place.
fn first_past(form: Form) -> u32
    ensures { result ≡ first_past (form_letter form) }
{
    match form {
        Form::True | Form::False => 1,
        _ => 65536,
    }
}

/// The first number past those of an equation's second place.
fn second_past(form: Form) -> u32
    ensures { result ≡ second_past (form_letter form) }
{
    match form {
        Form::True | Form::False | Form::Atom => 1,
        _ => 65536,
    }
}

/// The numbers below `past`. It is of 32 bits, since all numbers of 16 bits are 65,536; a flow text's counts are of 16, and
/// ask for no bound.
fn below(past: u32) -> Limits
    requires { past ≤ 65536 }
    ensures { (result.low ≡ 0) × (result.past ≡ past) }
{
    Limits { low: 0, past }
}

/// The numbers of an equation of that form.
fn read_places(
    line: RawLine<'_>,
    index: &[u8],
    form: Form,
    first: &[u8],
    second: &[u8],
) -> Result<(u16, EquationRecord), Fault>
    ensures { Reports (as_equation (form_letter form) index.now first.now second.now) line.entry.number result }
{
    let numerals = [
        below(65536).read(line, 2, index)?,
        below(first_past(form)).read(line, 4, first)?,
        below(second_past(form)).read(line, 5, second)?,
    ];
    let [index, first, second] = all_within(line, numerals)?;
    let equation = EquationRecord {
        form: char::from(form),
        first,
        second,
    };
    Ok((index, equation))
}

/// The equation that a later line says, and its number there.
pub fn read_equation(line: RawLine<'_>) -> Result<(u16, EquationRecord), Fault>
    ensures { Reports (says equation_kinds (pieces 44 line.entry.bytes.now)) line.entry.number result }
{
    let Line::Equation {
        index,
        form,
        first,
        second,
    } = read_line(line)?
    else {
        return Err(line.fault(Cause::Form, 0));
    };
    read_places(line, index, form, first, second)
}
