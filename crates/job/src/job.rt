ghost use Rattle.std.specs.Prelude.{◌≡◌, ℕ, ◌<◌, ◌≤◌, true, List, length, MatchResult};
ghost use Rattle.fields.specs.Faults.{fault};
ghost use Rattle.fields.specs.declared.fault.Cause.TheVariants.{Size};
ghost use Rattle.lines.specs.Texts.{Sized};
ghost use Rattle.flow_text.specs.Flows.{Room, lent};
ghost use Rattle.job.specs.Parts.{job_fault};
ghost use Rattle.job.specs.Jobs.{RulebookBegins, Splits, OneOutcome};
ghost use Rattle.job.specs.Reading.{AcceptsTexts, RefusesTexts, Accepts, Refuses};
ghost use Rattle.job.specs.declared.fault.Part.TheVariants.{Whole};

use crate::fault::{JobFault, Part};
use fields::lines::{Lines, check_size};
use flow_text::counts::Flow;
use flow_text::flow::read_flow;
use records::{Divergence, EquationRecord, Label, Transition};
use rulebook_text::equation::Rulebook;
use rulebook_text::rulebook::read_rulebook;

/// Where the first line that begins with R begins, or the text's length.
fn rulebook_at(text: &[u8]) -> usize
    ensures within { result ≤ length text.now }
    ensures before { (j : ℕ) → j < result → RulebookBegins text.now j → ⊥ }
    ensures there { result < length text.now → RulebookBegins text.now result }
{
    // A chain over `windows(2)` would want the text's first byte apart, and is no plainer.
    let mut begins = true;
    for (at, b) in text.iter().enumerate() {
        if begins && *b == b'R' {
            return at;
        }
        begins = *b == b'\n';
    }
    text.len()
}

/// The two texts of a job.
#[derive(Clone, Copy)]
pub struct Job<'a> {
    flow: &'a [u8],
    rulebook: &'a [u8],
}

impl<'a> Job<'a> {
    /// Cuts a job of 1 to 32,768 bytes in two.
    pub fn new(text: &'a [u8]) -> Result<Job<'a>, JobFault>
        ensures { MatchResult result
            (λ j. Sized text.now × Splits text.now j.flow.now j.rulebook.now)
            (λ e. (Sized text.now → ⊥) × (e ≡ job_fault Whole (fault Size 0 0))) }
    {
        Part::Whole.hold(check_size(text))?;
        let (flow, rulebook) = text.split_at(rulebook_at(text));
        Ok(Job { flow, rulebook })
    }

    /// The lines of the flow text.
    pub fn flow_lines(&self) -> Lines<'a>
        ensures { (result.rest.now ≡ self.now.flow.now) × (result.count ≡ 0) }
    {
        Lines::new(self.flow)
    }

    /// The lines of the rulebook text.
    pub fn rulebook_lines(&self) -> Lines<'a>
        ensures { (result.rest.now ≡ self.now.rulebook.now) × (result.count ≡ 0) }
    {
        Lines::new(self.rulebook)
    }

    /// Reads the flow text and then the rulebook text. The lists are slices of their own, as in `read_flow`.
    pub fn read(
        &self,
        transitions: &mut [Transition],
        divergences: &mut [Divergence],
        labels: &mut [Label],
        equations: &mut [EquationRecord],
    ) -> Result<(Flow, Rulebook), JobFault>
        ensures { MatchResult result
            (λ p. AcceptsTexts self.now.flow.now self.now.rulebook.now p.0 p.1 (lent transitions.old divergences.old labels.old) (lent transitions.new divergences.new labels.new) equations.old equations.new)
            (λ e. RefusesTexts self.now.flow.now self.now.rulebook.now e (lent transitions.old divergences.old labels.old) (lent transitions.new divergences.new labels.new) equations.old equations.new) }
    {
        let flow = Part::Flow.hold(read_flow(self.flow, transitions, divergences, labels))?;
        let book = Part::Book.hold(read_rulebook(self.rulebook, equations))?;
        Ok((flow, book))
    }
}

/// Reads a job: cuts it in two, and reads its flow text and then its rulebook text.
pub fn read_job(
    text: &[u8],
    transitions: &mut [Transition],
    divergences: &mut [Divergence],
    labels: &mut [Label],
    equations: &mut [EquationRecord],
) -> Result<(Flow, Rulebook), JobFault>
    ensures { MatchResult result
        (λ p. Accepts text.now p.0 p.1 (lent transitions.old divergences.old labels.old) (lent transitions.new divergences.new labels.new) equations.old equations.new)
        (λ e. Refuses text.now e (lent transitions.old divergences.old labels.old) (lent transitions.new divergences.new labels.new) equations.old equations.new) }
{
    let job = Job::new(text)?;
    job.read(transitions, divergences, labels, equations)
}

/// A job has at most one reading, and at most one fault, and not both.
pub fn job_reading_is_exact() -> bool
    ensures answer { result ≡ true }
    ensures law { (most : Room) (room : ℕ) (text : List ℕ) → OneOutcome most room text }
{
    true
}
