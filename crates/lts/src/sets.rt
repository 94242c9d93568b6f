ghost use Rattle.std.specs.Prelude.{◌≡◌, ℕ, false, ◌&&◌, ◌||◌, ◌==◌, nat_lt};
ghost use Rattle.lts.specs.Sets.{member, all_below, set_of};

/// A set of numbers below 64: of actions, or of atoms.
#[derive(Clone, Copy, Debug, PartialEq, Eq)]
pub struct SmallSet {
    bits: u64,
}

impl SmallSet {
    /// The set without numbers.
    pub fn empty() -> SmallSet
        ensures { (i : ℕ) → member result i ≡ false }
    {
        SmallSet { bits: 0 }
    }

    /// The set that has `i` where bit `i` of `bits` is 1.
    pub fn from_bits(bits: u64) -> SmallSet
        ensures { result ≡ set_of bits }
    {
        SmallSet { bits }
    }

    /// Whether `i` is in the set.
    pub fn has(self, i: usize) -> bool
        ensures { result ≡ member self i }
    {
        i < 64 && (self.bits >> i) % 2 == 1
    }

    /// The set with `i` as well, where `i` is below 64.
    pub fn with(self, i: usize) -> SmallSet
        ensures { (j : ℕ) → member result j ≡ (member self j || (nat_lt i 64 && j == i)) }
    {
        if i < 64 {
            SmallSet {
                bits: self.bits | (1 << i),
            }
        } else {
            self
        }
    }

    /// Whether every number in the set is below `n`.
    pub fn all_below(self, n: usize) -> bool
        ensures { result ≡ all_below self n }
    {
        (0..64).all(|i| !self.has(i) || i < n)
    }
}
