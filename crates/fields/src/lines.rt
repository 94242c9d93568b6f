ghost use Rattle.std.specs.Prelude.{◌≡◌, ℕ, ◌+◌, ◌^◌, ◌<◌, ◌≤◌, List, [], ◌∷◌, ◌⊎◌, length, MatchOption, MatchResult};
ghost use Rattle.fields.specs.Faults.{fault};
ghost use Rattle.fields.specs.Pieces.{pieces};
ghost use Rattle.fields.specs.declared.fault.Cause.TheVariants.{Size, Form};

use crate::cut::cut;
use crate::fault::{Cause, Fault};

/// How many bytes a text may have.
pub const MOST_BYTES: usize = 32768;

/// Refuses a text that is empty or too long. Here and in `of_text` the two bounds are written out: a name would be no shorter.
pub fn check_size(text: &[u8]) -> Result<(), Fault>
    ensures { MatchResult result
        (λ _. (0 < length text.now) × (length text.now ≤ 32768))
        (λ f. ((0 < length text.now) × (length text.now ≤ 32768) → ⊥) × (f ≡ fault Size 0 0)) }
{
    if (1..=MOST_BYTES).contains(&text.len()) {
        Ok(())
    } else {
        Err(Cause::Size.at(0, 0))
    }
}

/// A line of a text without the byte 10 that ends it, and its number. Lines count from 1.
#[derive(Clone, Copy, Debug)]
pub struct RawLine<'a> {
    pub bytes: &'a [u8],
    pub number: usize,
}

impl RawLine<'_> {
    /// The fault of that cause at field `field` of the line.
    pub fn fault(self, cause: Cause, field: usize) -> Fault
        ensures { result ≡ fault cause self.entry.number field }
    {
        cause.at(self.number, field)
    }
}

/// The lines of a text that are still to be read, and how many were.
// No `Iterator`: a last line that byte 10 does not end stays, so it would come for ever, and a `for` over the lines would
// have no end to prove.
#[derive(Clone, Copy, Debug)]
pub struct Lines<'a> {
    rest: &'a [u8],
    count: usize,
    ghost few: { count + length rest.now < 2 ^ 64 },
}

impl<'a> Lines<'a> {
    /// All lines of the text.
    pub fn new(text: &'a [u8]) -> Lines<'a>
        ensures { (result.rest.now ≡ text.now) × (result.count ≡ 0) }
    {
        Lines {
            rest: text,
            count: 0,
        }
    }

    /// The first line of a text of 1 to 32,768 bytes, and the lines after it.
    pub fn of_text(text: &'a [u8]) -> Result<(RawLine<'a>, Lines<'a>), Fault>
        ensures { MatchResult result
            (λ p. (0 < length text.now) × (length text.now ≤ 32768) × (pieces 10 text.now ≡ p.0.bytes.now ∷ pieces 10 p.1.rest.now) × (p.0.number ≡ 1) × (p.1.count ≡ 1) × (length p.1.rest.now < length text.now))
            (λ f. (((0 < length text.now) × (length text.now ≤ 32768) → ⊥) × (f ≡ fault Size 0 0))
            ⊎ ((0 < length text.now) × (length text.now ≤ 32768) × (pieces 10 text.now ≡ text.now ∷ []) × (f ≡ fault Form 1 0))) }
    {
        check_size(text)?;
        let mut lines = Lines::new(text);
        let first = lines.next_line().ok_or(Cause::Size.at(0, 0))??;
        Ok((first, lines))
    }

    /// How many lines were read.
    pub fn done(&self) -> usize
        ensures { result ≡ self.now.count }
    {
        self.count
    }

    /// The next line, none at the end of the text.
    /// A last line that byte 10 does not end is a fault, and stays.
    pub fn next_line(&mut self) -> Option<Result<RawLine<'a>, Fault>>
        ensures { MatchOption result
            ((length self.old.rest.now ≡ 0) × (self.new ≡ self.old))
            (λ x. MatchResult x
            (λ l. (pieces 10 self.old.rest.now ≡ l.bytes.now ∷ pieces 10 self.new.rest.now) × (l.number ≡ self.new.count) × (self.new.count ≡ self.old.count + 1) × (length self.new.rest.now < length self.old.rest.now))
            (λ f. (pieces 10 self.old.rest.now ≡ self.old.rest.now ∷ []) × (0 < length self.old.rest.now) × (f ≡ fault Form (self.old.count + 1) 0) × (self.new ≡ self.old))) }
    {
        if self.rest.is_empty() {
            return None;
        }
        let number = self.done() + 1;
        let Some((bytes, rest)) = cut(self.rest, b'\n') else {
            return Some(Err(Cause::Form.at(number, 0)));
        };
        *self = Lines {
            rest,
            count: number,
        };
        Some(Ok(RawLine { bytes, number }))
    }
}
