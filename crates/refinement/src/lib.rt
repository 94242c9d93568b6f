//! The engine as functions on lists, and the proof that it refines the plain session.
#![tactic(auto)]

ghost use Rattle.std.specs.Prelude.{◌≡◌, true};
ghost use Rattle.refinement.specs.Refines.{Refines};

/// Over any source that shows a system, a board answers every call as a plain session does.
pub fn refines() -> bool
    ensures answer { result ≡ true }
    ensures law { Refines }
{
    true
}
