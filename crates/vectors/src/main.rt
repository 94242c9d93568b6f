//! Reads a file of cases from standard input and prints the answer to each; tests/README.md says how the file is laid out.
#![tactic(auto)]

use records::{Divergence, EquationRecord, Label, Transition};
use report::answer::answer_with;
use report::printing::{push_equations, push_printed};
use std::alloc::{AllocError, Global};
use std::io;
use std::io::Read;

/// What is still to be read of the file.
#[derive(Clone, Copy)]
struct Cases<'a> {
    rest: &'a [u8],
}

impl<'a> Cases<'a> {
    /// The next number, with the byte that ends it.
    fn number(&mut self) -> usize {
        let rest = self.rest;
        let length = rest
            .iter()
            .position(|b| !b.is_ascii_digit())
            .unwrap_or(rest.len());
        let (digits, behind) = rest.split_at(length);
        self.rest = behind.get(1..).unwrap_or(&[]);
        digits.iter().fold(0, |n: usize, b| {
            n.saturating_mul(10)
                .saturating_add(usize::from(b.saturating_sub(b'0')))
        })
    }

    /// The next `n` bytes, with the byte behind them.
    fn bytes(&mut self, n: usize) -> &'a [u8] {
        let rest = self.rest;
        let (bytes, behind) = rest.split_at(n.min(rest.len()));
        self.rest = behind.get(1..).unwrap_or(&[]);
        bytes
    }
}

/// The items before the first blank one.
fn used<T: Copy + PartialEq>(items: &[T], blank: T) -> &[T] {
    let length = items
        .iter()
        .position(|item| *item == blank)
        .unwrap_or(items.len());
    &items[..length]
}

/// How long the lists are that a case lends.
#[derive(Clone, Copy)]
struct Lengths {
    transitions: usize,
    divergences: usize,
    labels: usize,
    equations: usize,
}

/// The answer to a case: what is printed for the job and, where it is refused, what the lists hold then.
fn case_answer(heap: Global, job: &[u8], lengths: Lengths) -> Result<String, AllocError> {
    let transition = Transition {
        source: 65535,
        action: 0,
        target: 0,
    };
    let divergence = Divergence {
        state: 65535,
        action: 0,
    };
    let label = Label {
        atom: 65535,
        state: 0,
    };
    let equation = EquationRecord {
        form: '?',
        first: 0,
        second: 0,
    };
    let mut transitions = vec![in heap; transition; lengths.transitions]?;
    let mut divergences = vec![in heap; divergence; lengths.divergences]?;
    let mut labels = vec![in heap; label; lengths.labels]?;
    let mut equations = vec![in heap; equation; lengths.equations]?;
    let mut out = answer_with(
        heap,
        job,
        &mut transitions,
        &mut divergences,
        &mut labels,
        &mut equations,
    )?;
    if out.as_bytes().first() == Some(&b'E') {
        push_printed(&mut out, used(&transitions, transition))?;
        push_printed(&mut out, used(&divergences, divergence))?;
        push_printed(&mut out, used(&labels, label))?;
        push_equations(&mut out, used(&equations, equation))?;
    }
    out.push_str(".\n")?;
    Ok(out)
}

fn main(rt: HostRuntime) -> io::Result<()> {
    let heap = rt.alloc();
    let mut file = Vec::new(heap);
    rt.stdin().read_to_end(&mut file)?;
    let mut cases = Cases { rest: &file };
    for _ in 0..cases.number() {
        let length = cases.number();
        let lengths = Lengths {
            transitions: cases.number(),
            divergences: cases.number(),
            labels: cases.number(),
            equations: cases.number(),
        };
        let out = case_answer(heap, cases.bytes(length), lengths)?;
        print!(rt; "{out}")?;
    }
    Ok(())
}
