ghost use Rattle.std.specs.Prelude.{◌≡◌, ◌*◌, ◌≤◌, length, replicate, IfOk, vec_len, vec_capacity, if◌then◌else◌};
ghost use Rattle.std.specs.Result.{is_ok};
ghost use Rattle.records.specs.Letters.{form_of};
ghost use Rattle.semantics.specs.Plain.{equation_of, book_of};
ghost use Rattle.board.specs.State.{blank};
ghost use Rattle.board.specs.Renewing.{fresh, room?, renewed};

use crate::board::{Board, Cell, NoRoom};
use records::EquationRecord;
use semantics::Equation;
use std::alloc::{AllocError, Global};

// Fills with `n` copies of `x`, in the room that there is.
fn refill<T: Copy>(v: &mut Vec<T>, n: usize, x: T)
    requires { n ≤ vec_capacity v.old }
    ensures items { v.new.items ≡ replicate n x }
    ensures len { vec_len v.new ≡ n }
    ensures room { vec_capacity v.old ≤ vec_capacity v.new }
{
    v.clear();
    // within the room, so that it is `Ok`
    let _ = v.resize(n, x);
}

// The equation that a record spells.
#[tactic(auto, unfolding(semantics::specs::Plain::equation_of))]
fn read_equation(written: &EquationRecord) -> Equation
    ensures { result ≡ equation_of (form_of written.now.form) written.now.first written.now.second }
{
    Equation::try_from(*written).unwrap_or(Equation::NONE)
}

// The equations of the records, in the room that there is: `push_reserved` claims no memory, and `extend` may.
fn fill(equations: &mut Vec<Equation>, records: &[EquationRecord])
    requires { length records.now ≤ vec_capacity equations.old }
    ensures items { equations.new.items ≡ book_of records.now }
    ensures len { vec_len equations.new ≡ length records.now }
    ensures room { vec_capacity equations.old ≤ vec_capacity equations.new }
{
    equations.clear();
    for written in records {
        equations.push_reserved(read_equation(written));
    }
}

impl Board {
    /// A board with no book. All its memory is claimed here.
    pub fn new(heap: Global) -> Result<Board, AllocError>
        ensures { IfOk result (λ b. b ≡ blank) }
    {
        let equations = Vec::with_capacity(heap, 1024)?;
        let cells = Vec::with_capacity(heap, 8192)?;
        let counts = Vec::with_capacity(heap, 8192)?;
        let work = Vec::with_capacity(heap, 8192)?;
        let head = Vec::with_capacity(heap, 1024)?;
        let next = Vec::with_capacity(heap, 2048)?;
        Ok(Board {
            states: None,
            equations,
            cells,
            counts,
            work,
            taken: 0,
            looks: 0,
            head,
            next,
        })
    }

    // The book of the records, with its links, and nothing turned.
    fn renew_within(&mut self, states: usize, records: &[EquationRecord])
        requires few_states { states ≤ 8192 }
        requires few_equations { length records.now ≤ 1024 }
        requires few_pairs { states * length records.now ≤ 8192 }
        ensures { self.new ≡ fresh states (book_of records.now) }
    {
        let n = records.len();
        let untouched = Cell {
            turned: false,
            pinned: false,
        };
        self.work.clear();
        refill(&mut self.cells, states * n, untouched);
        refill(&mut self.counts, states * n, 0);
        refill(&mut self.head, n, None);
        self.next.clear();
        fill(&mut self.equations, records);
        self.states = Some(states);
        self.taken = 0;
        self.looks = 0;
        self.link_all();
    }

    /// The book of the records, with its links, and nothing turned; or, where there is no room for it, a refusal and no
    /// change.
    #[tactic(auto, unfolding(crate::specs::Renewing::renewed))]
    pub fn renew(&mut self, states: usize, records: &[EquationRecord]) -> Result<(), NoRoom>
        ensures answer { is_ok result ≡ room? states (length records.now) }
        ensures after { self.new ≡ renewed states records.now self.old }
    {
        let n = records.len();
        if states > 8192 || n > 1024 || states * n > 8192 {
            return Err(NoRoom);
        }
        self.renew_within(states, records);
        Ok(())
    }
}
