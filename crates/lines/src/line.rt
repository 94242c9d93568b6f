ghost use Rattle.std.specs.Prelude.{◌≡◌, ℕ, true, false, List, [], ◌∷◌, ◌++◌, MatchOption, MatchResult};
ghost use Rattle.fields.specs.Faults.{fault};
ghost use Rattle.fields.specs.Pieces.{pieces};
ghost use Rattle.fields.specs.declared.fault.Cause.TheVariants as cause;
ghost use Rattle.lines.specs.Kinds.{is_byte};
ghost use Rattle.lines.specs.Forms.{forms, fits_one, fields_of, LineOf, unread};

use fields::cut::cut;
use fields::fault::{Cause, Fault};
use fields::lines::RawLine;
use records::{Fixpoint, Form};

/// A line by its kind. Its number fields are parts of the text, not yet read.
#[derive(Clone, Copy, Debug)]
pub enum Line<'a> {
    Flow {
        states: &'a [u8],
        actions: &'a [u8],
        atoms: &'a [u8],
    },
    Transition {
        source: &'a [u8],
        action: &'a [u8],
        target: &'a [u8],
    },
    Divergence {
        state: &'a [u8],
        action: &'a [u8],
    },
    Label {
        atom: &'a [u8],
        state: &'a [u8],
    },
    Rulebook {
        side: Fixpoint,
        count: &'a [u8],
    },
    Equation {
        index: &'a [u8],
        form: Form,
        first: &'a [u8],
        second: &'a [u8],
    },
}

/// The one character of a field.
fn only_char(field: &[u8]) -> Option<char>
    ensures { MatchOption result ((b : ℕ) → is_byte b field.now ≡ false) (λ c. field.now ≡ c ∷ []) }
{
    let [b] = field else {
        return None;
    };
    Some(char::from(*b))
}

/// The fields of a line that are still to be read.
#[derive(Clone, Copy)]
struct Fields<'a> {
    rest: Option<&'a [u8]>,
}

impl<'a> Fields<'a> {
    /// The next of the fields that commas part; none after the last.
    fn next_field(&mut self) -> Option<&'a [u8]>
        ensures { MatchOption result (unread self.old.rest ≡ []) (λ x. unread self.old.rest ≡ x.now ∷ unread self.new.rest) }
    {
        let bytes = self.rest?;
        let (field, rest) = match cut(bytes, b',') {
            Some((field, rest)) => (field, Some(rest)),
            None => (bytes, None),
        };
        self.rest = rest;
        Some(field)
    }
}

/// Reads the fields of a line by its kind; none where they are of no known form.
fn read_fields<'a>(fields: &mut Fields<'a>) -> Option<Line<'a>>
    ensures { MatchOption result (fits_one forms (unread fields.old.rest) ≡ false) (λ l. unread fields.old.rest ≡ fields_of l ++ unread fields.new.rest) }
{
    match only_char(fields.next_field()?)? {
        'F' => Some(Line::Flow {
            states: fields.next_field()?,
            actions: fields.next_field()?,
            atoms: fields.next_field()?,
        }),
        'T' => Some(Line::Transition {
            source: fields.next_field()?,
            action: fields.next_field()?,
            target: fields.next_field()?,
        }),
        'U' => Some(Line::Divergence {
            state: fields.next_field()?,
            action: fields.next_field()?,
        }),
        'P' => Some(Line::Label {
            atom: fields.next_field()?,
            state: fields.next_field()?,
        }),
        'R' => Some(Line::Rulebook {
            side: Fixpoint::try_from(only_char(fields.next_field()?)?).ok()?,
            count: fields.next_field()?,
        }),
        'Q' => Some(Line::Equation {
            index: fields.next_field()?,
            form: Form::try_from(only_char(fields.next_field()?)?).ok()?,
            first: fields.next_field()?,
            second: fields.next_field()?,
        }),
        _ => None,
    }
}

/// The line by its kind, or none where it is of no known form.
fn known_line(bytes: &[u8]) -> Option<Line<'_>>
    ensures { MatchOption result (fits_one forms (pieces 44 bytes.now) ≡ false) (λ l. LineOf (pieces 44 bytes.now) l) }
{
    let mut fields = Fields { rest: Some(bytes) };
    let line = read_fields(&mut fields)?;
    match fields.rest {
        None => Some(line),
        Some(_) => None,
    }
}

/// A line of a text, by its kind.
pub fn read_line(line: RawLine<'_>) -> Result<Line<'_>, Fault>
    ensures { MatchResult result (λ l. LineOf (pieces 44 line.entry.bytes.now) l) (λ f. (fits_one forms (pieces 44 line.entry.bytes.now) ≡ false) × (f ≡ fault cause.Form line.entry.number 0)) }
{
    known_line(line.bytes).ok_or(line.fault(Cause::Form, 0))
}
