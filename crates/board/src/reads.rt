ghost use Rattle.std.specs.Prelude.{◌≡◌, ◌≤◌, false, length, slice_index_or};
ghost use Rattle.semantics.specs.Equations.{nth};
ghost use Rattle.board.specs.State.{place_of, waiting};
ghost use Rattle.board.specs.Room.{Bounded};

use crate::board::Board;
use semantics::{Equation, Refusal};

impl Board {
    /// Whether a book is loaded.
    pub fn loaded(&self) -> bool
        ensures value { result ≡ self.now.loaded }
        ensures bounds { Bounded self.now }
    {
        self.states.is_some()
    }

    /// How many states the book was loaded for.
    pub fn states(&self) -> usize
        ensures value { result ≡ self.now.states }
        ensures bound { result ≤ 8192 }
        ensures bounds { Bounded self.now }
    {
        self.states.unwrap_or(0)
    }

    /// How many equations there are.
    pub fn equations(&self) -> usize
        ensures value { result ≡ length self.now.book }
        ensures bound { result ≤ 1024 }
        ensures bounds { Bounded self.now }
    {
        self.equations.len()
    }

    /// How many pairs are taken.
    pub fn taken(&self) -> usize
        ensures value { result ≡ self.now.taken }
        ensures bounds { Bounded self.now }
    {
        self.taken
    }

    /// The looks made since the book was loaded.
    pub fn looks(&self) -> u64
        ensures value { result ≡ self.now.looks }
        ensures bounds { Bounded self.now }
    {
        self.looks
    }

    /// The equation of variable `j`.
    #[tactic(auto, using(crate::proofs::Books::reads))]
    pub fn equation(&self, j: usize) -> Equation
        ensures value { result ≡ nth self.now.book j }
        ensures bounds { Bounded self.now }
    {
        self.equations.get(j).copied().unwrap_or(Equation::NONE)
    }

    /// The place of a pair, or why there is none.
    pub fn place(&self, s: u16, i: u16) -> Result<usize, Refusal>
        ensures value { result ≡ place_of self.now s i }
        ensures bounds { Bounded self.now }
    {
        if !self.loaded() {
            return Err(Refusal::NoBook);
        }
        self.pair_place(usize::from(s), usize::from(i))
            .ok_or(Refusal::NoPair)
    }

    /// Whether the pair at a place has turned.
    pub fn turned_at(&self, at: usize) -> bool
        ensures value { result ≡ slice_index_or self.now.turned at false }
        ensures bounds { Bounded self.now }
    {
        self.cells.get(at).is_some_and(|cell| cell.turned)
    }

    /// Whether the pair at a place is pinned.
    pub fn pinned_at(&self, at: usize) -> bool
        ensures value { result ≡ slice_index_or self.now.pinned at false }
        ensures bounds { Bounded self.now }
    {
        self.cells.get(at).is_some_and(|cell| cell.pinned)
    }

    /// Whether a pair waits.
    pub fn waiting(&self) -> bool
        ensures value { result ≡ waiting self.now }
        ensures bounds { Bounded self.now }
    {
        self.taken < self.work.len()
    }
}
