ghost use Rattle.std.specs.Prelude.{◌≡◌, ℕ, ◌+◌, true, IfOk, MatchResult};
ghost use Rattle.lines.specs.Texts.{Exact};
ghost use Rattle.rulebook_text.specs.Placing.{Puts};
ghost use Rattle.rulebook_text.specs.Reading.{Accepts, Refuses};
ghost use Rattle.rulebook_text.specs.Rulebooks.{rulebook_grammar};

use crate::equation::{Rulebook, read_equation, read_head};
use fields::fault::{Cause, Fault};
use fields::lines::{Lines, RawLine};
use records::EquationRecord;

/// The list that a caller lends, and how many equations stand at its front: there is no heap. An equation goes in by its
/// turn, and no repetition is sought, so this is no list of records of a flow text.
#[derive(Drop)]
struct Equations<'a> {
    list: &'a mut [EquationRecord],
    done: usize,
}

impl Equations<'_> {
    /// Puts the equation behind the others, where it is next in turn.
    fn put(
        &mut self,
        book: Rulebook,
        x: (u16, EquationRecord),
        line: RawLine<'_>,
    ) -> Result<(), Fault>
        ensures put { Puts self.old.list.now self.new.list.now self.old.done book x line.entry.number result }
        ensures done { IfOk result (λ _. self.new.done ≡ self.old.done + 1) }
        ensures name { self.new.list.ghost_name ≡ self.old.list.ghost_name }
    {
        let (index, equation) = x;
        if self.done >= usize::from(book.equations) {
            return Err(line.fault(Cause::Turn, 0));
        }
        if usize::from(index) != self.done {
            return Err(line.fault(Cause::Turn, 2));
        }
        if self.done >= self.list.len() {
            return Err(line.fault(Cause::Full, 0));
        }
        self.list[self.done] = equation;
        self.done += 1;
        Ok(())
    }
}

/// Reads a rulebook text. Its equations go to the front of the list; on a refusal the list holds the equations of the
/// lines before the fault. Other places stay as they were.
pub fn read_rulebook(text: &[u8], equations: &mut [EquationRecord]) -> Result<Rulebook, Fault>
    ensures { MatchResult result
        (λ book. Accepts text.now book equations.old equations.new)
        (λ f. Refuses text.now f equations.old equations.new) }
{
    let (first, mut lines) = Lines::of_text(text)?;
    let book = read_head(first)?;
    let mut equations = Equations {
        list: equations,
        done: 0,
    };
    while let Some(line) = lines.next_line() {
        let line = line?;
        let x = read_equation(line)?;
        equations.put(book, x, line)?;
    }
    if equations.done < usize::from(book.equations) {
        return Err(Cause::Turn.at(lines.done() + 1, 0));
    }
    Ok(book)
}

/// A rulebook text has at most one reading. It is accepted exactly where it has one that the list has places for, and
/// else refused at its first fault.
pub fn rulebook_reading_is_exact() -> bool
    ensures answer { result ≡ true }
    ensures law { (room : ℕ) → Exact (rulebook_grammar room) }
{
    true
}

#[cfg(test)]
mod tests {
    use super::*;
    use records::Fixpoint;

    fn read(text: &[u8]) -> Result<Rulebook, Fault> {
        let mut equations = [EquationRecord {
            form: '?',
            first: 9,
            second: 9,
        }; 2];
        read_rulebook(text, &mut equations)
    }

    fn refused(line: usize, field: usize) -> Result<Rulebook, Fault> {
        let cause = Cause::Turn;
        Err(Fault { cause, line, field })
    }

    #[test]
    fn asks_for_equations_in_turn(rt: HostRuntime) {
        let side = Fixpoint::Least;
        let two = Rulebook { side, equations: 2 };
        assert_eq!(rt; read(b"R,L,2\nQ,0,t,0,0\nQ,1,<,65535,0\n"), Ok(two));
        assert_eq!(rt; read(b"R,G,2\nQ,0,f,0,0\n"), refused(3, 0));
        assert_eq!(rt; read(b"R,G,1\nQ,0,f,0,0\nQ,1,f,0,0\n"), refused(3, 0));
        assert_eq!(rt; read(b"R,G,2\nQ,1,f,0,0\n"), refused(2, 2));
    }
}
