ghost use Rattle.std.specs.Prelude.{◌≡◌, ℕ, ◌<◌, ◌≤◌, Bool, true, ◌&&◌, ◌||◌, length, Some, None, MatchResult};
ghost use Rattle.table.specs.Records.{each, repeated, same_transition, same_divergence, same_label, counts_inside as counts_in, transition_inside, divergence_inside, label_inside};
ghost use Rattle.table.specs.Lists.{few, inside, again, refusal_of};

use crate::TableRefusal;
use crate::entries::{all_inside, repeats};
use crate::lists::Records;
use records::Counts;

/// Whether the counts are those of a flow text.
fn counts_inside(counts: Counts) -> bool
    ensures { result ≡ counts_in counts }
{
    (1..=1024).contains(&counts.states) && (1..=64).contains(&counts.actions) && counts.atoms <= 64
}

impl Records<'_> {
    /// Whether no list is over its limit.
    fn few(&self) -> bool
        ensures { result ≡ few self.now }
    {
        self.transitions.len() <= 2048
            && self.divergences.len() <= 1024
            && self.labels.len() <= 2048
    }

    /// Whether every number is in its range.
    fn in_range(&self) -> bool
        ensures { result ≡ inside self.now }
    {
        counts_inside(self.counts)
            && all_inside(self.transitions, self.counts)
            && all_inside(self.divergences, self.counts)
            && all_inside(self.labels, self.counts)
    }

    /// Whether a record is repeated in one of the lists.
    fn any_repeated(&self) -> bool
        requires few { few self.now ≡ true }
        requires inside { inside self.now ≡ true }
        ensures { result ≡ again self.now }
    {
        repeats(self.transitions) || repeats(self.divergences) || repeats(self.labels)
    }

    /// The first cause to refuse the records, where there is one.
    #[tactic(auto, unfolding(crate::specs::Table::table_refusal))]
    pub(crate) fn check(&self) -> Result<(), TableRefusal>
        ensures { MatchResult result (λ _. refusal_of self.now ≡ None) (λ e. refusal_of self.now ≡ Some e) }
    {
        if !self.few() {
            return Err(TableRefusal::Limit);
        }
        if !self.in_range() {
            return Err(TableRefusal::Range);
        }
        if self.any_repeated() {
            return Err(TableRefusal::Repeated);
        }
        Ok(())
    }
}
