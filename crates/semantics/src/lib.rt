//! The definitions that the flow checker is held to, and the laws that follow from them.
//! This crate has the types that engines share, and a public function for each law; the
//! definitions stand in specs/, and docs/SEMANTICS.md says each in words.
#![tactic(auto)]

pub mod laws;

ghost use Rattle.std.specs.Prelude.{◌≡◌, None, IsSome, MatchResult};
ghost use Rattle.records.specs.Letters.{form_of};
ghost use Rattle.semantics.specs.Calls.{number_of};
ghost use Rattle.semantics.specs.Plain.{equation_of};

pub use records::Form;
use records::{EquationRecord, UnknownLetter};

/// An equation that is in a book. `Or` and `And` have two variables, `Diamond` and `Box` an action
/// and a variable, `Atom` an atom; an unused place is 0. No enum with parts of its own for each form:
/// the definitions and the links go by the two places, whatever stands in them.
#[derive(Clone, Copy, Debug, PartialEq, Eq)]
pub struct Equation {
    pub form: Form,
    pub first: u16,
    pub second: u16,
}

impl Equation {
    /// What stands where a book has no equation.
    pub const NONE: Equation = Equation {
        form: Form::False,
        first: 0,
        second: 0,
    };
}

impl TryFrom<EquationRecord> for Equation {
    type Error = UnknownLetter;

    ghost try_from_gives = { λ written r. MatchResult r
        (λ e. IsSome (form_of written.form) × (e ≡ equation_of (form_of written.form) written.first written.second))
        (λ _. form_of written.form ≡ None) };

    #[tactic(auto, unfolding(crate::specs::Plain::equation_of))]
    fn try_from(written: EquationRecord) -> Result<Equation, UnknownLetter> {
        Ok(Equation {
            form: Form::try_from(written.form)?,
            first: written.first,
            second: written.second,
        })
    }
}

/// A state and a variable.
#[derive(Clone, Copy, Debug, PartialEq, Eq)]
pub struct Pair {
    pub state: u16,
    pub variable: u16,
}

/// What query tells of a pair.
#[derive(Clone, Copy, Debug, PartialEq, Eq)]
pub enum Mark {
    Lost,
    Held,
    Open,
}

/// Why a call is refused.
#[derive(Clone, Copy, Debug, PartialEq, Eq)]
pub enum Refusal {
    /// No book is loaded.
    NoBook = 10,
    /// The session has no such pair.
    NoPair = 11,
    /// There are over 8,192 pairs: states times equations.
    TooManyPairs = 12,
    /// The number of equations, a form, a name or an unused place is wrong.
    BadEquation = 13,
    /// The buffer is too short for the sheet.
    ShortBuffer = 16,
}

impl Refusal {
    /// The number of the refusal.
    pub fn number(self) -> u8
        ensures { result ≡ number_of self }
    {
        self as u8
    }
}

/// A call of a session.
#[derive(Clone, Copy)]
pub enum Call<'a> {
    Load(&'a [EquationRecord]),
    Pin(u16, u16),
    /// How many pairs the run may take.
    Run(u16),
    Query(u16, u16),
    /// The length of the buffer.
    Sheet(usize),
}

/// What a call that is not refused answers.
#[derive(Drop, Debug, PartialEq)]
pub enum Answer {
    Loaded,
    /// Whether the pair turned now.
    Pinned(bool),
    /// Whether the session is settled, the pairs taken, and the looks made.
    Ran(bool, u16, u64),
    /// The mark, and whether the pair is pinned.
    Told(Mark, bool),
    /// The bytes of the sheet.
    Written(Vec<u8>),
}
