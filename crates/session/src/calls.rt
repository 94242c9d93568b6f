ghost use Rattle.std.specs.Prelude.{length};
ghost use Rattle.semantics.specs.Plain.{load, pin, run, query, sheet};
ghost use Rattle.session.specs.Sessions.{Kept, Answered};
ghost use Rattle.session.specs.Replies.{load_reply, pin_reply, run_reply, query_reply, sheet_reply, RestKept};

use crate::session::Session;
use engine::accepts::{fits, proper};
use engine::begin::begin;
use engine::marks::mark_of;
use engine::side::Side;
use engine::steps::run;
use lts::Source;
use records::EquationRecord;
use semantics::{Mark, Refusal};
use sheet::lines::write;

impl<S: Source, D: Side> Session<S, D> {
    /// Loads a book of equations. Pins, pairs taken and looks of an earlier one are dropped.
    pub fn load(&mut self, records: &[EquationRecord]) -> Result<(), Refusal>
        ensures call { Answered S.ready S.meaning D.FIXPOINT self.old (load records.now) (load_reply result) self.new }
        ensures kept { Kept self.old self.new }
    {
        if !proper(&self.source, records) {
            return Err(Refusal::BadEquation);
        }
        if !fits(&self.source, records) {
            return Err(Refusal::TooManyPairs);
        }
        begin::<S, D>(&mut self.board, &self.source, records);
        Ok(())
    }

    /// Pins a pair, and says whether it turned now. A pair is its two numbers, here and in `query`: whoever calls has those.
    pub fn pin(&mut self, s: u16, i: u16) -> Result<bool, Refusal>
        ensures call { Answered S.ready S.meaning D.FIXPOINT self.old (pin s i) (pin_reply result) self.new }
        ensures kept { Kept self.old self.new }
    {
        let at = self.board.place(s, i)?;
        let turned = self.board.turned_at(at);
        self.board.pin_at(at);
        Ok(!turned)
    }

    /// Takes waiting pairs, `budget` at most: whether the session is settled then, the pairs taken and the looks made. A tuple:
    /// the three are one answer, and nothing else is made of them.
    pub fn run(&mut self, budget: u16) -> Result<(bool, u16, u64), Refusal>
        ensures call { Answered S.ready S.meaning D.FIXPOINT self.old (run budget) (run_reply result) self.new }
        ensures kept { Kept self.old self.new }
    {
        if !self.board.loaded() {
            return Err(Refusal::NoBook);
        }
        let taken = self.board.taken();
        let looks = self.board.looks();
        run::<S, D>(&mut self.board, &self.source, usize::from(budget));
        let taken = self.board.taken().saturating_sub(taken) as u16;
        let looks = self.board.looks().saturating_sub(looks);
        Ok((!self.board.waiting(), taken, looks))
    }

    /// The mark of a pair, and whether it is pinned.
    pub fn query(&self, s: u16, i: u16) -> Result<(Mark, bool), Refusal>
        ensures { Answered S.ready S.meaning D.FIXPOINT self.now (query s i) (query_reply result) self.now }
    {
        let at = self.board.place(s, i)?;
        let on = self.board.turned_at(at) != D::START;
        let mark = mark_of::<D>(on, !self.board.waiting());
        Ok((mark, self.board.pinned_at(at)))
    }

    /// Writes the mark sheet at the front of the buffer, and says how long it is; or refuses, and leaves the buffer
    /// untouched.
    pub fn sheet(&self, out: &mut [u8]) -> Result<usize, Refusal>
        ensures call { Answered S.ready S.meaning D.FIXPOINT self.now (sheet (length out.old)) (sheet_reply out.new result) self.now }
        ensures rest { RestKept out.old out.new result }
    {
        if !self.board.loaded() {
            return Err(Refusal::NoBook);
        }
        // Into no room at all it only measures.
        let length = write::<D>(&self.board, &mut []);
        if length > out.len() {
            return Err(Refusal::ShortBuffer);
        }
        Ok(write::<D>(&self.board, out))
    }
}
