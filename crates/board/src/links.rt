ghost use Rattle.std.specs.Prelude.{◌≡◌, ◌+◌, ◌*◌, ◌<◌, [], ◌∷◌, ◌++◌, length, slice_index, slice_set};
ghost use Rattle.std.specs.Bool.{then_some};
ghost use Rattle.board.specs.Each.{each};
ghost use Rattle.board.specs.State.{with_links};
ghost use Rattle.board.specs.Links.{variable?, variable, is_first, relink};
ghost use Rattle.board.specs.View.{link_number};
ghost use Rattle.board.specs.Room.{Bounded};

use crate::board::Board;
use records::Form;
use semantics::Equation;

// The variable that operand `p` of an equation is, if it is one.
fn variable(equation: Equation, p: usize) -> Option<usize>
    ensures { result ≡ then_some (variable? equation (is_first p)) (variable equation (is_first p)) }
{
    let is_first = p % 2 == 0;
    match equation.form {
        Form::Or | Form::And if is_first => Some(usize::from(equation.first)),
        Form::Or | Form::And => Some(usize::from(equation.second)),
        Form::Diamond | Form::Box if !is_first => Some(usize::from(equation.second)),
        _ => None,
    }
}

impl Board {
    /// The last operand that names variable `v`, if one does.
    pub fn head_at(&self, v: usize) -> Option<usize>
        ensures value { link_number result ≡ slice_index self.now.head v }
        ensures bounds { Bounded self.now }
    {
        self.head.get(v).copied().flatten().map(usize::from)
    }

    /// The operand before `p` that names the same variable, if there is one.
    pub fn next_at(&self, p: usize) -> Option<usize>
        ensures value { link_number result ≡ slice_index self.now.next p }
        ensures bounds { Bounded self.now }
    {
        self.next.get(p).copied().flatten().map(usize::from)
    }

    // Operand `p` becomes the last that names variable `v`; the one before it comes back.
    #[tactic(auto, using(crate::proofs::Cells::writes))]
    fn replace_head(&mut self, v: usize, p: u16) -> Option<u16>
        ensures before { link_number result ≡ slice_index self.old.head v }
        ensures after { self.new ≡ with_links self.old (slice_set self.old.head v (p + 1)) self.old.next }
    {
        self.head.get_mut(v)?.replace(p)
    }

    fn push_next(&mut self, before: Option<u16>)
        requires { length self.old.next < 2048 }
        ensures { self.new ≡ with_links self.old self.old.head (self.old.next ++ (link_number before ∷ [])) }
    {
        self.next.push_reserved(before);
    }

    // Links operand `p`.
    #[tactic(auto, unfolding(crate::specs::Links::relink))]
    fn link(&mut self, p: usize)
        requires room { length self.old.next < 2048 }
        requires few { p < 2048 }
        ensures { self.new ≡ relink p self.old }
    {
        let Some(v) = variable(self.equation(p / 2), p) else {
            self.push_next(None);
            return;
        };
        let before = self.replace_head(v, p as u16);
        self.push_next(before);
    }

    // Links every operand of a new book.
    #[tactic(auto, using(crate::proofs::Folds::turns, crate::proofs::Relinking::relinks_long))]
    pub(crate) fn link_all(&mut self)
        requires { self.old.next ≡ [] }
        ensures { self.new ≡ each (2 * length self.old.book) relink self.old }
    {
        for p in 0..2 * self.equations() {
            self.link(p);
        }
    }
}
