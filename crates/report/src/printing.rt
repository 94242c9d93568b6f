ghost use Rattle.std.specs.Prelude.{◌≡◌, [], ◌++◌, IsSome, unwrap_or, codes, string_bytes, refl, OnOk};
ghost use Rattle.std.specs.List.{All};
ghost use Rattle.report.specs.Lines.{all_lines, equation_lines};

use job::fault::JobFault;
use records::{Counts, Divergence, EquationRecord, Label, Transition};
use rulebook_text::equation::Rulebook;
use std::alloc::AllocError;
use std::fmt::{Display, Write};

/// What is printed as one line: a value whose text is known, which `Display` alone leaves open.
pub trait Printed: Display {
    /// The text of every value is known.
    ghost known: { (x : Self) → IsSome (Self.output x) };
}

impl Printed for JobFault {
    ghost known = { λ _. refl };
}

impl Printed for Counts {
    ghost known = { λ _. refl };
}

impl Printed for Transition {
    ghost known = { λ _. refl };
}

impl Printed for Divergence {
    ghost known = { λ _. refl };
}

impl Printed for Label {
    ghost known = { λ _. refl };
}

impl Printed for Rulebook {
    ghost known = { λ _. refl };
}

/// Adds a line for each item: what it displays, and the byte 10. The bytes are told where each text is known.
pub fn push_lines<T: Display>(out: &mut String, items: &[T]) -> Result<(), AllocError>
    ensures { OnOk result (All (λ x. IsSome (T.output x)) items.now → string_bytes out.new ≡ string_bytes out.old ++ all_lines (λ x. unwrap_or (T.output x) [] ++ codes "\n") items.now) }
{
    for shown in items {
        writeln!(out, "{shown}")?;
    }
    Ok(())
}

/// The same for items whose texts are all known.
pub fn push_printed<T: Printed>(out: &mut String, items: &[T]) -> Result<(), AllocError>
    ensures { OnOk result (string_bytes out.new ≡ string_bytes out.old ++ all_lines (λ x. unwrap_or (T.output x) [] ++ codes "\n") items.now) }
{
    for item in items {
        writeln!(out, "{item}")?;
    }
    Ok(())
}

/// Adds a line for each equation, numbered from 0.
pub fn push_equations(out: &mut String, items: &[EquationRecord]) -> Result<(), AllocError>
    ensures { OnOk result (string_bytes out.new ≡ string_bytes out.old ++ equation_lines 0 items.now) }
{
    for (i, e) in items.iter().enumerate() {
        writeln!(out, "Q,{i},{},{},{}", e.form, e.first, e.second)?;
    }
    Ok(())
}

#[cfg(test)]
mod tests {
    use super::*;

    // A number displays, and is no `Printed`.
    #[test]
    fn adds_lines_of_numbers(rt: HostRuntime) {
        let numbers: [u16; 3] = [7, 0, 8192];
        let mut out = String::new(rt.alloc());
        assert!(rt; push_lines(&mut out, &numbers).is_ok());
        assert_eq!(rt; out.as_str(), "7\n0\n8192\n");
    }
}
