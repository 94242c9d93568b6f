//! The laws: each function answers `true`, and its contract is the law.

ghost use Rattle.std.specs.Prelude.{◌≡◌, true};
ghost use Rattle.semantics.specs.Comparisons.{Comparisons};
ghost use Rattle.semantics.specs.Law.{SolvedByRounds, AlwaysStands, Agree, Progress, AllRuns};
ghost use Rattle.semantics.specs.Lts.{AlwaysBalanced};
ghost use Rattle.semantics.specs.MarkedRuns.{MarkedRuns};
ghost use Rattle.semantics.specs.Preorder.{IsPreorder, RelatedByRounds, Characterised};

/// In every system, the in-degrees of all states and the out-degrees of all states on an action both sum to the
/// transitions on it.
pub fn always_balanced() -> bool
    ensures answer { result ≡ true }
    ensures law { AlwaysBalanced }
{
    true
}

/// The solution by iteration solves the equations, and is the greatest or the least that does.
pub fn solved_by_rounds() -> bool
    ensures answer { result ≡ true }
    ensures law { SolvedByRounds }
{
    true
}

/// After every history of calls that has loaded a book, its session stands.
pub fn always_stands() -> bool
    ensures answer { result ≡ true }
    ensures law { AlwaysStands }
{
    true
}

/// Two settled sessions with the same book and the same pinned pairs agree.
pub fn agree() -> bool
    ensures answer { result ≡ true }
    ensures law { Agree }
{
    true
}

/// Every call can be made, a run can always be completed, and one that may take every pair settles.
pub fn progress() -> bool
    ensures answer { result ≡ true }
    ensures law { Progress }
{
    true
}

/// The whole law over runs, of every history of calls that starts with a new session.
pub fn law_of_runs() -> bool
    ensures answer { result ≡ true }
    ensures law { AllRuns }
{
    true
}

/// Prebisimulation is a preorder.
pub fn is_preorder() -> bool
    ensures answer { result ≡ true }
    ensures law { IsPreorder }
{
    true
}

/// The rounds of a model and a checked system give their largest prebisimulation.
pub fn related_by_rounds() -> bool
    ensures answer { result ≡ true }
    ensures law { RelatedByRounds }
{
    true
}

/// Every model has characteristic equations.
pub fn characterised() -> bool
    ensures answer { result ≡ true }
    ensures law { Characterised }
{
    true
}

/// The marked runs happen as they are written, call by call.
pub fn marked_runs() -> bool
    ensures answer { result ≡ true }
    ensures law { MarkedRuns }
{
    true
}

/// Small comparisons come out as they are written.
pub fn comparisons() -> bool
    ensures answer { result ≡ true }
    ensures law { Comparisons }
{
    true
}
