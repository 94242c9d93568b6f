ghost use Rattle.std.specs.Prelude.{◌≡◌, ◌≤◌, true, false, [], ◌∷◌, Ok, Err, MatchResult};
ghost use Rattle.fields.specs.Faults.{fault};
ghost use Rattle.fields.specs.Numbers.{number?, Spells};
ghost use Rattle.fields.specs.declared.fault.Cause.TheVariants.{Malformed, Range};
ghost use Rattle.lines.specs.Kinds.{number, checked, Reports};
ghost use Rattle.lines.specs.Ranges.{in_range, ranged};

pub use crate::limits::Limits;
use fields::fault::{Cause, Fault};
use fields::lines::RawLine;
use fields::number::read_number;

/// The number that a field spells, the field's place, and the range that the number has to be in.
#[derive(Clone, Copy, Debug)]
pub struct Numeral {
    pub value: u32,
    pub at: usize,
    pub limits: Limits,
}

impl Limits {
    /// The number that field `at` of the line spells, which has to be in this range.
    pub fn read(self, line: RawLine<'_>, at: usize, field: &[u8]) -> Result<Numeral, Fault>
        ensures { MatchResult result
            (λ x. Spells field.now x.value × (x.at ≡ at) × (x.limits ≡ self))
            (λ f. (number? field.now ≡ false) × (f ≡ fault Malformed line.entry.number at)) }
    {
        let value = read_number(field, line.number, at)?;
        Ok(Numeral {
            value,
            at,
            limits: self,
        })
    }
}

impl Numeral {
    /// The number, where it is in its range.
    pub fn within(self, line: RawLine<'_>) -> Result<u16, Fault>
        ensures { MatchResult result
            (λ n. (n ≡ self.value) × (in_range self ≡ true))
            (λ f. (in_range self ≡ false) × (f ≡ fault Range line.entry.number self.at)) }
    {
        let Limits { low, past } = self.limits;
        if (low..past).contains(&self.value) {
            Ok(self.value as u16)
        } else {
            Err(line.fault(Cause::Range, self.at))
        }
    }
}

/// The numbers, where each is in its range; else the first that is not is at fault.
pub fn all_within<const N: usize>(
    line: RawLine<'_>,
    numerals: [Numeral; N],
) -> Result<[u16; N], Fault>
    ensures { Reports (ranged numerals.entry) line.entry.number result }
{
    let mut numbers = [0; N];
    // By index: the clause of `try_map` does not say that the error is the first one, and under an iterator of `numerals` the
    // proof does not know their number where the loop begins.
    for i in 0..N {
        numbers[i] = numerals[i].within(line)?;
    }
    Ok(numbers)
}

/// The numbers of fields 2 and 3 of line `line`.
pub fn two_numbers(
    a: &[u8],
    b: &[u8],
    la: Limits,
    lb: Limits,
    line: usize,
) -> Result<(u16, u16), Fault>
    ensures { MatchResult result
        (λ p. checked 2 (number la.low la.past ∷ number lb.low lb.past ∷ []) (a.now ∷ b.now ∷ []) ≡ Ok (p.0 ∷ p.1 ∷ []))
        (λ f. (checked 2 (number la.low la.past ∷ number lb.low lb.past ∷ []) (a.now ∷ b.now ∷ []) ≡ Err (f.cause, f.field)) × (f.line ≡ line)) }
{
    // of the line, only its number counts
    let raw = RawLine {
        bytes: a,
        number: line,
    };
    let x = la.read(raw, 2, a)?;
    let y = lb.read(raw, 3, b)?;
    let [x, y] = all_within(raw, [x, y])?;
    Ok((x, y))
}

/// The numbers of fields 2, 3 and 4 of line `line`.
pub fn three_numbers(
    a: &[u8],
    b: &[u8],
    d: &[u8],
    la: Limits,
    lb: Limits,
    ld: Limits,
    line: usize,
) -> Result<(u16, u16, u16), Fault>
    ensures { MatchResult result
        (λ p. checked 2 (number la.low la.past ∷ number lb.low lb.past ∷ number ld.low ld.past ∷ []) (a.now ∷ b.now ∷ d.now ∷ []) ≡ Ok (p.0 ∷ p.1 ∷ p.2 ∷ []))
        (λ f. (checked 2 (number la.low la.past ∷ number lb.low lb.past ∷ number ld.low ld.past ∷ []) (a.now ∷ b.now ∷ d.now ∷ []) ≡ Err (f.cause, f.field)) × (f.line ≡ line)) }
{
    // of the line, only its number counts
    let raw = RawLine {
        bytes: a,
        number: line,
    };
    let x = la.read(raw, 2, a)?;
    let y = lb.read(raw, 3, b)?;
    let z = ld.read(raw, 4, d)?;
    let [x, y, z] = all_within(raw, [x, y, z])?;
    Ok((x, y, z))
}
