ghost use Rattle.std.specs.Prelude.{◌≡◌, [], IfOk, MatchResult};
ghost use Rattle.semantics.specs.Plain.{no_book};
ghost use Rattle.session.specs.Standing.{StandsFor};

use board::board::Board;
use engine::side::Side;
use lts::Source;
use std::alloc::Global;

/// A session over a source, on one side. It holds a book of equations once one is loaded.
#[derive(Drop)]
pub struct Session<S, D> {
    pub(crate) source: S,
    pub(crate) side: D,
    pub(crate) board: Board,
}

/// A session that found no memory: the source and the side as they were given.
#[derive(Drop)]
pub struct Unmade<S, D> {
    pub source: S,
    pub side: D,
}

impl<S: Source, D: Side> Session<S, D> {
    /// A new session, which holds no book. All memory that its calls use is claimed here; where there is none, the source
    /// and the side come back.
    pub fn new(heap: Global, source: S, side: D) -> Result<Session<S, D>, Unmade<S, D>>
        ensures kept { MatchResult result (λ x. (x.source ≡ source) × (x.side ≡ side)) (λ e. (e.source ≡ source) × (e.side ≡ side)) }
        ensures new { IfOk result (λ x. StandsFor (S.meaning x.source) D.FIXPOINT x.board [] no_book) }
    {
        // By `match`: want of memory hands the source and the side back, which `?` would drop.
        match Board::new(heap) {
            Ok(board) => Ok(Session {
                source,
                side,
                board,
            }),
            Err(_) => Err(Unmade { source, side }),
        }
    }
}
