ghost use Rattle.std.specs.Prelude.{◌≡◌, ◌-◌, ◌<◌, true, false, MatchOption, MatchResult};
ghost use Rattle.fields.specs.Faults.{fault};
ghost use Rattle.fields.specs.Numbers.{digit?, number?, Spells};
ghost use Rattle.fields.specs.declared.fault.Cause.TheVariants.{Malformed};

use crate::fault::{Cause, Fault};

/// The value of a digit.
fn digit(b: u8) -> Option<u32>
    ensures { MatchOption result (digit? b ≡ false) (λ d. (digit? b ≡ true) × (d ≡ b - 48) × (d < 10)) }
{
    char::from(b).to_digit(10)
}

/// The number that field `at` of line `line` spells. No `parse`: that takes a sign, and any number of digits.
pub fn read_number(field: &[u8], line: usize, at: usize) -> Result<u32, Fault>
    ensures { MatchResult result (λ n. Spells field.now n) (λ f. (number? field.now ≡ false) × (f ≡ fault Malformed line at)) }
{
    let malformed = Cause::Malformed.at(line, at);
    if !(1..=5).contains(&field.len()) {
        return Err(malformed);
    }
    let mut n = 0;
    for b in field {
        n = n * 10 + digit(*b).ok_or(malformed)?;
    }
    Ok(n)
}
