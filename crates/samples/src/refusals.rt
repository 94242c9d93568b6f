use fenced::{FenceRefusal, Unfenced};
use joined::{JoinRefusal, Unjoined};
use lts::queue::QueueRefusal;
use std::alloc::{AllocError, AllocFailed};
use table::TableRefusal;

/// Why a source is not made.
#[derive(Clone, Copy)]
pub enum NotMade {
    Table(TableRefusal),
    Queue(QueueRefusal),
    Join(JoinRefusal),
    Fence(FenceRefusal),
    Memory,
}

impl From<TableRefusal> for NotMade {
    fn from(why: TableRefusal) -> NotMade {
        NotMade::Table(why)
    }
}

impl From<QueueRefusal> for NotMade {
    fn from(why: QueueRefusal) -> NotMade {
        NotMade::Queue(why)
    }
}

impl<L: Drop, R: Drop> From<Unjoined<L, R>> for NotMade {
    fn from(refused: Unjoined<L, R>) -> NotMade {
        NotMade::Join(refused.why)
    }
}

impl<S: Drop> From<Unfenced<S>> for NotMade {
    fn from(refused: Unfenced<S>) -> NotMade {
        NotMade::Fence(refused.why)
    }
}

impl From<AllocError> for NotMade {
    fn from(_why: AllocError) -> NotMade {
        NotMade::Memory
    }
}

impl<T: Drop> From<AllocFailed<T>> for NotMade {
    fn from(_why: AllocFailed<T>) -> NotMade {
        NotMade::Memory
    }
}
