ghost use Rattle.std.specs.Prelude.{◌≡◌, ℕ, ◌<◌, ◌≤◌, false, length, slice_index};
ghost use Rattle.sorting.specs.Sorting.{Under, Rising, Inside};
ghost use Rattle.sorting.specs.Repetition.{small, twice, some_twice, repeated_answer};

use crate::sort_into;

/// Whether the pairs are few and small enough to be tested.
fn all_small(pairs: &[(usize, usize)]) -> bool
    ensures { result ≡ small pairs.now }
{
    pairs.len() <= 2048
        && pairs
            .iter()
            .all(|(key, value)| *key < 1024 && *value < 65536)
}

/// Whether a row has a number twice. Each number of the row is stamped as it comes.
fn row_repeats(row: &[usize], stamps: &mut [u16], stamp: u16) -> bool
    requires under { Under (length stamps.old) row.now }
    requires older { Under stamp stamps.old }
    ensures exact { result ≡ twice row.now 0 (length row.now) }
    ensures stamped { result ≡ false → (v : ℕ) → v < length stamps.new → slice_index stamps.new v ≤ stamp }
{
    for v in row {
        if stamps[*v] == stamp {
            return true;
        }
        stamps[*v] = stamp;
    }
    false
}

/// Whether some row has a number twice: row by row, with a stamp for each. The rows lie in arrays on the stack, where those
/// of `Rows` lie on the heap.
fn some_row_repeats(ends: &[usize], items: &[usize]) -> bool
    requires few { length ends.now ≤ 1024 }
    requires rising { Rising ends.now }
    requires inside { Inside ends.now items.now }
    requires under { Under 65536 items.now }
    ensures { result ≡ some_twice ends.now items.now }
{
    // The stamp counts the rows in the stamps' 16 bits: under `zip(1u16..)` the loop's proof would know a row's place only by
    // the length of what two iterators have yielded.
    let mut stamps = [0u16; 65536];
    let mut stamp: u16 = 0;
    let mut from = 0;
    for to in ends {
        stamp += 1;
        if row_repeats(&items[from..*to], &mut stamps, stamp) {
            return true;
        }
        from = *to;
    }
    false
}

/// Whether some pair stands at two places, for at most 2,048 pairs with keys below 1,024 and values below 65,536.
///
/// The values are sorted into rows by their keys, in memory of the stack: this takes a number of steps of the order of
/// the pairs, and asks for no other memory. `None` says that the pairs are more or larger than that and were not tested;
/// an error type would have one value and say no more.
pub fn repeated(pairs: &[(usize, usize)]) -> Option<bool>
    ensures { result ≡ repeated_answer pairs.now }
{
    if !all_small(pairs) {
        return None;
    }
    let mut ends = [0; 1024];
    let mut items = [0; 2048];
    sort_into(pairs, &mut ends, &mut items);
    Some(some_row_repeats(&ends, &items))
}
