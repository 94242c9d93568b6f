ghost use Rattle.std.specs.Prelude.{◌≡◌, ℕ, ◌+◌, ◌*◌, ◌^◌, ◌<◌, ◌≤◌, not, [], ◌∷◌, length, if◌then◌else◌, codes, count_by, slice_index_or, false};
ghost use Rattle.std.specs.Bool.{beq};
ghost use Rattle.std.specs.List.{range_with_len};
ghost use Rattle.semantics.specs.Equations.{start};
ghost use Rattle.semantics.specs.Plain.{share, letter};
ghost use Rattle.board.specs.State.{waiting};
ghost use Rattle.refinement.specs.Sheet.{line, lines_below, top, sheet_of};
ghost use Rattle.sheet.specs.Ink.{Wrote};
ghost use Rattle.sheet.specs.Pens.{Inked};

use crate::ink::Pen;
use board::board::Board;
use engine::side::Side;

// 1,000 × marked ÷ states to the nearest whole number, an exact half going up.
#[tactic(auto, unfolding(semantics::specs::Plain::share))]
fn share(states: usize, marked: usize) -> usize
    requires { (states ≤ 8192) × (marked ≤ 8192) }
    ensures { result ≡ share states marked }
{
    if states == 0 {
        0
    } else {
        (2000 * marked + states) / (2 * states)
    }
}

// The states at which variable `i` is on: a sum, with no branch on the mark.
fn on_states<D: Side>(board: &Board, i: usize) -> usize
    requires { i < length board.now.book }
    ensures count { result ≡ count_by (λ s. not (beq (slice_index_or board.now.turned (s * length board.now.book + i) false) (start D.FIXPOINT))) (range_with_len 0 board.now.states) }
    ensures bound { result ≤ 8192 }
{
    (0..board.states())
        .map(|s| usize::from(board.turned_at(s * board.equations() + i) != D::START))
        .sum()
}

// The line of variable `i`.
fn put_line(pen: &mut Pen, states: usize, i: usize, marked: usize)
    requires room { pen.old.at + 100 < 2 ^ 32 }
    requires few { (states ≤ 8192) × (marked ≤ 8192) }
    ensures wrote { Inked pen.old pen.new (line states i marked) }
    ensures bound { pen.new.at ≤ pen.old.at + 70 }
{
    pen.bytes(b"V,");
    pen.number(i as u64);
    pen.bytes(b",");
    pen.number(marked as u64);
    pen.bytes(b",");
    pen.number(share(states, marked) as u64);
    pen.bytes(b"\n");
}

// The side in a sheet.
fn letter<D: Side>() -> u8
    ensures { result ∷ [] ≡ letter D.FIXPOINT }
{
    char::from(D::FIXPOINT) as u8
}

// 1 where no pair waits, else 0.
fn settled_digit(board: &Board) -> u8
    ensures { result ∷ [] ≡ (if not (waiting board.now) then codes "1" else codes "0") }
{
    if board.waiting() { b'0' } else { b'1' }
}

// The first line.
fn put_top<D: Side>(pen: &mut Pen, board: &Board)
    requires { pen.old.at ≡ 0 }
    ensures wrote { Inked pen.old pen.new (top D.FIXPOINT board.now) }
    ensures bound { pen.new.at ≤ 100 }
{
    pen.bytes(b"M,");
    pen.bytes(&[letter::<D>()]);
    pen.bytes(b",");
    pen.number(board.states() as u64);
    pen.bytes(b",");
    pen.number(board.equations() as u64);
    pen.bytes(b",");
    pen.bytes(&[settled_digit(board)]);
    pen.bytes(b",");
    pen.number(board.looks());
    pen.bytes(b"\n");
}

// A line for each variable.
fn put_lines<D: Side>(pen: &mut Pen, board: &Board)
    requires { pen.old.at ≤ 100 }
    ensures bound { pen.new.at ≤ 71780 }
    ensures wrote { Inked pen.old pen.new (lines_below D.FIXPOINT board.now (length board.now.book)) }
{
    for i in 0..board.equations() {
        let marked = on_states::<D>(board, i);
        put_line(pen, board.states(), i, marked);
    }
}

/// Writes the sheet of a board into the buffer, as far as there is room, and says how long it is.
pub fn write<D: Side>(board: &Board, out: &mut [u8]) -> usize
    ensures bound { result ≤ 71780 }
    ensures wrote { Wrote out.old 0 (sheet_of D.FIXPOINT board.now) out.new result }
{
    let mut pen = Pen { out, at: 0 };
    put_top::<D>(&mut pen, board);
    put_lines::<D>(&mut pen, board);
    pen.at
}
