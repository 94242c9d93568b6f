ghost use Rattle.std.specs.Prelude.{◌≡◌, IfOk, MatchResult};
ghost use Rattle.semantics.specs.Calls.{call_of, reply_of};
ghost use Rattle.session.specs.Sessions.{Kept, Answered};
ghost use Rattle.session.specs.Standing.{Replays, Begins};

use crate::session::{Session, Unmade};
use crate::steps::{Step, pages};
use engine::side::Side;
use lts::Source;
use semantics::{Answer, Call, Refusal};
use std::alloc::{AllocError, Global};

impl<S: Source, D: Side> Session<S, D> {
    // Makes the call of one step, and writes the sheet that it may ask for onto the step's page.
    fn make(&mut self, step: Step) -> Result<Answer, Refusal>
        ensures call { Answered S.ready S.meaning D.FIXPOINT self.old (call_of step.entry.call) (reply_of result) self.new }
        ensures kept { Kept self.old self.new }
    {
        let Step { call, mut page } = step;
        match call {
            Call::Load(records) => self.load(records).map(|()| Answer::Loaded),
            Call::Pin(s, i) => self.pin(s, i).map(Answer::Pinned),
            Call::Run(budget) => {
                let (settled, taken, looks) = self.run(budget)?;
                Ok(Answer::Ran(settled, taken, looks))
            }
            Call::Query(s, i) => {
                let (mark, pinned) = self.query(s, i)?;
                Ok(Answer::Told(mark, pinned))
            }
            Call::Sheet(_) => {
                let length = self.sheet(&mut page)?;
                page.truncate(length);
                Ok(Answer::Written(page))
            }
        }
    }

    /// Makes each call in turn, and hands back the answers. All memory is claimed before the first call; where there is
    /// none, nothing has changed.
    pub fn replay(
        &mut self,
        heap: Global,
        calls: &[Call],
    ) -> Result<Vec<Result<Answer, Refusal>>, AllocError>
        ensures law { MatchResult result (λ v. S.ready self.old.source → Replays (S.meaning self.old.source) D.FIXPOINT self.old.board calls.now v.items self.new.board) (λ _. self.new.board ≡ self.old.board) }
        ensures kept { Kept self.old self.new }
    {
        let pages = pages(heap, calls)?;
        let mut answers = Vec::with_capacity(heap, calls.len())?;
        // Side by side: a list of steps would hold each call once more.
        for (call, page) in calls.iter().zip(pages) {
            let answer = self.make(Step { call: *call, page });
            answers.push_reserved(answer);
        }
        Ok(answers)
    }
}

/// Makes a new session and then each call in turn: the session and the answers. Where there is no memory, the source and
/// the side come back.
pub fn replay_new<S: Source, D: Side>(
    heap: Global,
    source: S,
    side: D,
    calls: &[Call],
) -> Result<(Session<S, D>, Vec<Result<Answer, Refusal>>), Unmade<S, D>>
    ensures kept { MatchResult result (λ x. (x.0.source ≡ source) × (x.0.side ≡ side)) (λ e. (e.source ≡ source) × (e.side ≡ side)) }
    ensures law { S.ready source → IfOk result (λ x. Begins (S.meaning source) D.FIXPOINT calls.now x.1.items x.0.board) }
{
    let mut session = Session::new(heap, source, side)?;
    // By `match`: want of memory hands the source and the side back, which `?` would drop.
    match session.replay(heap, calls) {
        Ok(answers) => Ok((session, answers)),
        Err(_) => {
            let Session {
                source,
                side,
                board,
            } = session;
            drop(board);
            Err(Unmade { source, side })
        }
    }
}

#[cfg(test)]
mod tests {
    use super::*;
    use engine::side::Greatest;
    use lts::queue::Queue;
    use records::EquationRecord;
    use semantics::Mark;

    // Variable 1 is false and 0 is it or it: at each of two states, both pairs are taken, with 3 looks and with 1.
    #[test]
    fn replays_a_job(rt: HostRuntime) {
        let book = [
            EquationRecord {
                form: '|',
                first: 1,
                second: 1,
            },
            EquationRecord {
                form: 'f',
                first: 0,
                second: 0,
            },
        ];
        let calls = [
            Call::Sheet(28),
            Call::Load(&book),
            Call::Run(1),
            Call::Run(9),
            Call::Query(1, 0),
            Call::Pin(1, 0),
            Call::Query(2, 0),
            Call::Sheet(27),
            Call::Sheet(28),
        ];
        let queue = Queue::new(1, 2, 0, 1).ok().expect(&rt, "a queue");
        let (_, answers) = replay_new(rt.alloc(), queue, Greatest, &calls)
            .ok()
            .expect(&rt, "memory");
        let sheet = Vec::from_slice(rt.alloc(), b"M,G,2,2,1,8\nV,0,0,0\nV,1,0,0\n").expect(
            &rt, "memory",
        );
        assert_eq!(rt; answers.len(), 9);
        assert_eq!(rt; answers[0], Err(Refusal::NoBook));
        assert_eq!(rt; answers[1], Ok(Answer::Loaded));
        assert_eq!(rt; answers[2], Ok(Answer::Ran(false, 1, 3)));
        assert_eq!(rt; answers[3], Ok(Answer::Ran(true, 3, 5)));
        assert_eq!(rt; answers[4], Ok(Answer::Told(Mark::Lost, false)));
        assert_eq!(rt; answers[5], Ok(Answer::Pinned(false)));
        assert_eq!(rt; answers[6], Err(Refusal::NoPair));
        assert_eq!(rt; answers[7], Err(Refusal::ShortBuffer));
        assert_eq!(rt; answers[8], Ok(Answer::Written(sheet)));
    }
}
