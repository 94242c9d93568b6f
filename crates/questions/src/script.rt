ghost use Rattle.std.specs.Prelude.{◌≡◌, ℕ, drop, slice_index};

use lts::sets::SmallSet;
use records::{Counts, Divergence, Label, Transition};
use std::alloc::{AllocError, Global};
use std::collections::VecDeque;

/// The numbers of a script, taken one after the other; past its end each is 0.
#[derive(Drop)]
pub struct Script {
    numbers: VecDeque<usize>,
}

impl Script {
    /// The numbers of a text, parted by white space. What is no number counts as 0.
    pub(crate) fn new(heap: Global, text: &str) -> Result<Script, AllocError> {
        let mut numbers = VecDeque::new(heap);
        for word in text.split_whitespace() {
            numbers.push_back(word.parse::<usize>().unwrap_or(0))?;
        }
        Ok(Script { numbers })
    }

    /// The next number.
    pub(crate) fn next(&mut self) -> usize
        ensures answer { result ≡ slice_index self.old.numbers.items 0 }
        ensures rest { self.new.numbers.items ≡ drop 1 self.old.numbers.items }
    {
        self.numbers.pop_front().unwrap_or(0)
    }

    /// The next number, or the largest of 16 bits.
    pub(crate) fn short(&mut self) -> u16 {
        u16::try_from(self.next()).unwrap_or(u16::MAX)
    }

    /// A number, and then as many items as it says.
    fn list<T: Drop, F: Fn(&mut Script) -> T>(
        &mut self,
        heap: Global,
        item: F,
    ) -> Result<Vec<T>, AllocError>
        requires { F.IsAlwaysCallable item }
    {
        let mut list = Vec::new(heap);
        for _ in 0..self.next() {
            list.push(item(self))?;
        }
        Ok(list)
    }

    pub(crate) fn counts(&mut self) -> Counts {
        Counts {
            states: self.short(),
            actions: self.short(),
            atoms: self.short(),
        }
    }

    /// Three numbers for each.
    pub(crate) fn transitions(&mut self, heap: Global) -> Result<Vec<Transition>, AllocError> {
        self.list(
            heap,
            |script| Transition {
                source: script.short(),
                action: script.short(),
                target: script.short(),
            },
        )
    }

    /// Two numbers for each.
    pub(crate) fn divergences(&mut self, heap: Global) -> Result<Vec<Divergence>, AllocError> {
        self.list(
            heap,
            |script| Divergence {
                state: script.short(),
                action: script.short(),
            },
        )
    }

    /// Two numbers for each.
    pub(crate) fn labels(&mut self, heap: Global) -> Result<Vec<Label>, AllocError> {
        self.list(
            heap,
            |script| Label {
                atom: script.short(),
                state: script.short(),
            },
        )
    }

    /// A set of actions, as bits.
    pub(crate) fn set(&mut self) -> SmallSet {
        SmallSet::from_bits(self.next() as u64)
    }

    /// A number for each.
    pub(crate) fn sets(&mut self, heap: Global) -> Result<Vec<SmallSet>, AllocError> {
        self.list(heap, Script::set)
    }
}
