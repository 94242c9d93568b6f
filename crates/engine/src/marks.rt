ghost use Rattle.std.specs.Prelude.{◌≡◌};
ghost use Rattle.semantics.specs.Plain.{mark_of};

use crate::side::Side;
use semantics::Mark;

/// What query tells of a pair that is on or off, in a session that is settled or not.
#[tactic(auto, unfolding(semantics::specs::Plain::mark_of))]
pub fn mark_of<D: Side>(on: bool, settled: bool) -> Mark
    ensures { result ≡ mark_of D.FIXPOINT on settled }
{
    if !settled && on == D::START {
        Mark::Open
    } else if on {
        Mark::Held
    } else {
        Mark::Lost
    }
}
