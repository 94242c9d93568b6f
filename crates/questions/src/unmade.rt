use fenced::Unfenced;
use joined::Unjoined;
use lts::queue::QueueRefusal;
use std::fmt;
use table::TableRefusal;

/// Why a source is not made. It is printed as a number, 0 where it has none, and so holds no more of a refusal.
#[derive(Clone, Copy)]
pub(crate) enum Unmade {
    /// it is refused with a number
    Refused(u8),
    /// there is no memory
    Memory,
    /// a source within it is not made
    Within,
}

impl Unmade {
    /// What becomes of a source round one that is not made.
    pub(crate) fn within(self) -> Unmade {
        Unmade::Within
    }
}

impl From<TableRefusal> for Unmade {
    fn from(why: TableRefusal) -> Unmade {
        why.number().map_or(Unmade::Memory, Unmade::Refused)
    }
}

impl From<QueueRefusal> for Unmade {
    fn from(why: QueueRefusal) -> Unmade {
        Unmade::Refused(why.number())
    }
}

impl<L: Drop, R: Drop> From<Unjoined<L, R>> for Unmade {
    fn from(refused: Unjoined<L, R>) -> Unmade {
        Unmade::Refused(refused.why.number())
    }
}

impl<S: Drop> From<Unfenced<S>> for Unmade {
    fn from(refused: Unfenced<S>) -> Unmade {
        Unmade::Refused(refused.why.number())
    }
}

impl fmt::Display for Unmade {
    fn fmt<W: fmt::Write>(&self, f: &mut fmt::Formatter<W>) -> fmt::Result {
        match self {
            Unmade::Refused(number) => write!(f, "{number}"),
            Unmade::Memory | Unmade::Within => write!(f, "0"),
        }
    }
}
