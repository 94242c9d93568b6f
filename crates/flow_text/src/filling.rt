ghost use Rattle.std.specs.Prelude.{◌≡◌, ◌+◌, ◌<◌, ◌≤◌, ◌⊎◌, length, take, MatchResult, slice_set};
ghost use Rattle.std.specs.List.{ContainsAt as Has};
ghost use Rattle.flow_text.specs.Lists.{Lawful, Unplaced};

use fields::fault::{Cause, Fault};
use fields::lines::RawLine;

/// A list that a caller lends, and how many of its places are used, from its front on: there is no heap. It takes `MOST` at
/// most. That the slice stays the same one (`ghost_name`) is an equation of its own wherever a caller needs it.
#[derive(Drop)]
pub(crate) struct Filling<'a, T, const MOST: usize> {
    pub(crate) places: &'a mut [T],
    pub(crate) used: usize,
    ghost fits: { used ≤ length places.now },
}

impl<'a, T, const MOST: usize> Filling<'a, T, MOST> {
    /// The list with no place used.
    pub(crate) fn new(places: &'a mut [T]) -> Filling<'a, T, MOST>
        ensures name { result.places.ghost_name ≡ places.entry.ghost_name }
        ensures places { result.places.now ≡ places.old }
        ensures used { result.used ≡ 0 }
    {
        Filling { places, used: 0 }
    }
}

impl<T: Copy + PartialEq, const MOST: usize> Filling<'_, T, MOST> {
    /// Puts `item` behind those in the list.
    pub(crate) fn add(&mut self, item: T, line: RawLine<'_>) -> Result<(), Fault>
        requires { Lawful (λ x' y' r'. r' ≡ T.PartialEq.eq x' y') }
        ensures added { MatchResult result
            (λ _. (self.new.used ≡ self.old.used + 1) × (self.old.used < length self.old.places.now) × (self.old.used < MOST) × (Has (take self.old.used self.old.places.now) item → ⊥) × (self.new.places.now ≡ slice_set self.old.places.now self.old.used item))
            (λ f. Unplaced self.old.places.now self.old.used MOST item line.entry.number f × (self.new.places.now ≡ self.old.places.now) × (self.new.used ≡ self.old.used)) }
        ensures name { self.new.places.ghost_name ≡ self.old.places.ghost_name }
    {
        let used = self.used;
        let places = &mut *self.places;
        if places[..used].contains(&item) {
            return Err(line.fault(Cause::Repeated, 0));
        }
        if used >= places.len().min(MOST) {
            return Err(line.fault(Cause::Full, 0));
        }
        places[used] = item;
        self.used = used + 1;
        Ok(())
    }
}
