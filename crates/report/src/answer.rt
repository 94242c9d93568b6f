ghost use Rattle.std.specs.Prelude.{◌≡◌, ◌++◌, length, IfOk, string_bytes, OnOk};
ghost use Rattle.flow_text.specs.Flows.{room};
ghost use Rattle.report.specs.Answers.{Answers, AnswersWithin};
ghost use Rattle.report.specs.Lines.{counts_line, transition_line, divergence_line, label_line, rulebook_line, all_lines, equation_lines};

use crate::printing::{push_equations, push_printed};
use flow_text::counts::Flow;
use job::job::read_job;
use records::{Counts, Divergence, EquationRecord, Label, Transition};
use rulebook_text::equation::Rulebook;
use std::alloc::{AllocError, Global};
use std::fmt::Write;

/// The lines of a flow.
fn flow_account(
    heap: Global,
    counts: Counts,
    transitions: &[Transition],
    divergences: &[Divergence],
    labels: &[Label],
) -> Result<String, AllocError>
    ensures { IfOk result (λ s. string_bytes s ≡ counts_line counts ++ (all_lines transition_line transitions.now ++ (all_lines divergence_line divergences.now ++ all_lines label_line labels.now))) }
{
    let mut out = format!(in heap; "{counts}\n")?;
    push_printed(&mut out, transitions)?;
    push_printed(&mut out, divergences)?;
    push_printed(&mut out, labels)?;
    Ok(out)
}

/// Adds the lines of a rulebook.
fn push_rulebook(
    out: &mut String,
    book: Rulebook,
    equations: &[EquationRecord],
) -> Result<(), AllocError>
    ensures { OnOk result (string_bytes out.new ≡ string_bytes out.old ++ (rulebook_line book ++ equation_lines 0 equations.now)) }
{
    writeln!(out, "{book}")?;
    push_equations(out, equations)
}

/// The same with lists that the caller lends, each a parameter of its own as in `read_job`.
pub fn answer_with(
    heap: Global,
    job: &[u8],
    transitions: &mut [Transition],
    divergences: &mut [Divergence],
    labels: &mut [Label],
    equations: &mut [EquationRecord],
) -> Result<String, AllocError>
    ensures { IfOk result (λ s. AnswersWithin (room (length transitions.old) (length divergences.old) (length labels.old)) (length equations.old) job.now (string_bytes s)) }
{
    match read_job(job, transitions, divergences, labels, equations) {
        Err(fault) => format!(in heap; "{fault}\n"),
        Ok((flow, book)) => {
            let Flow {
                counts,
                transitions: t,
                divergences: u,
                labels: p,
            } = flow;
            let n = book.equations as usize;
            let mut out = flow_account(
                heap,
                counts,
                &transitions[0..t],
                &divergences[0..u],
                &labels[0..p],
            )?;
            push_rulebook(&mut out, book, &equations[0..n])?;
            Ok(out)
        }
    }
}

/// What the program prints for a job: an account of what it says, or the line of its first fault.
pub fn answer(heap: Global, job: &[u8]) -> Result<String, AllocError>
    ensures { IfOk result (λ s. Answers job.now (string_bytes s)) }
{
    let mut transitions = vec![in heap; Transition {
        source: 0,
        action: 0,
        target: 0
    }; 2048]?;
    let mut divergences = vec![in heap; Divergence {
        state: 0,
        action: 0
    }; 1024]?;
    let mut labels = vec![in heap; Label { atom: 0, state: 0 }; 2048]?;
    let mut equations = vec![in heap; EquationRecord {
        form: 't',
        first: 0,
        second: 0
    }; 1024]?;
    answer_with(
        heap,
        job,
        &mut transitions,
        &mut divergences,
        &mut labels,
        &mut equations,
    )
}
