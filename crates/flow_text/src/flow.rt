ghost use Rattle.std.specs.Prelude.{◌≡◌, true, MatchResult};
ghost use Rattle.flow_text.specs.Reading.{Accepts, Refuses};
ghost use Rattle.lines.specs.Texts.{Exact};
ghost use Rattle.flow_text.specs.Flows.{Room, flow_grammar, lent};

use crate::counts::Flow;
use crate::filling::Filling;
use crate::lists::fill;
use crate::record::read_counts;
use fields::fault::Fault;
use fields::lines::Lines;
use records::{Divergence, Label, Transition};

/// Reads a flow text. Its records go to the front of the lists; on a refusal the lists hold the records of the
/// lines before the fault. Other places stay as they were.
// The lists are three slices: a clause names what stands in a struct of them afterwards only by place, as `exit.1.1.0`.
pub fn read_flow(
    text: &[u8],
    transitions: &mut [Transition],
    divergences: &mut [Divergence],
    labels: &mut [Label],
) -> Result<Flow, Fault>
    ensures { MatchResult result
        (λ flow. Accepts text.now flow (lent transitions.old divergences.old labels.old) (lent transitions.new divergences.new labels.new))
        (λ f. Refuses text.now f (lent transitions.old divergences.old labels.old) (lent transitions.new divergences.new labels.new)) }
{
    let (first, lines) = Lines::of_text(text)?;
    let counts = read_counts(first)?;
    let mut transitions = Filling::new(transitions);
    let mut divergences = Filling::new(divergences);
    let mut labels = Filling::new(labels);
    fill(
        lines,
        counts,
        &mut transitions,
        &mut divergences,
        &mut labels,
    )?;
    Ok(Flow {
        counts,
        transitions: transitions.used,
        divergences: divergences.used,
        labels: labels.used,
    })
}

/// A flow text has at most one reading. It is accepted exactly where it has one within the room, and else refused at
/// its first fault.
pub fn flow_reading_is_exact() -> bool
    ensures answer { result ≡ true }
    ensures law { (most : Room) → Exact (flow_grammar most) }
{
    true
}

#[cfg(test)]
mod tests {
    use super::*;
    use fields::fault::Cause;

    const NO_TRANSITION: Transition = Transition {
        source: 9,
        action: 9,
        target: 9,
    };

    const NO_DIVERGENCE: Divergence = Divergence {
        state: 9,
        action: 9,
    };

    const NO_LABEL: Label = Label { atom: 9, state: 9 };

    fn read(text: &[u8]) -> Result<Flow, Fault> {
        let mut transitions = [NO_TRANSITION; 1];
        let mut divergences = [NO_DIVERGENCE; 1];
        let mut labels = [NO_LABEL; 1];
        read_flow(text, &mut transitions, &mut divergences, &mut labels)
    }

    fn refused(cause: Cause, line: usize, field: usize) -> Result<Flow, Fault> {
        Err(Fault { cause, line, field })
    }

    #[test]
    fn refuses_its_examples(rt: HostRuntime) {
        assert_eq!(rt; read(b""), refused(Cause::Size, 0, 0));
        assert_eq!(rt; read(b"F,2,1,0\nT,0,1\n"), refused(Cause::Form, 2, 0));
        assert_eq!(rt; read(b"F,2,2,0\nU,0,1a\n"), refused(Cause::Malformed, 2, 3));
        assert_eq!(rt; read(b"F,2,0,0\n"), refused(Cause::Range, 1, 3));
        assert_eq!(rt;
            read(b"F,2,1,0\nT,0,0,1\nT,0,0,1\n"),
            refused(Cause::Repeated, 3, 0)
        );
        assert_eq!(rt;
            read(b"F,2,1,0\nT,0,0,1\nT,0,0,0\n"),
            refused(Cause::Full, 3, 0)
        );
    }
}
