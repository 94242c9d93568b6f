//! Reads a job from standard input and prints what it says, or why it is refused.
#![tactic(auto)]

use report::answer::answer;
use std::alloc::Global;
use std::io;
use std::io::Read;

/// One byte more than a job may have, so that an overlong one is known.
const MOST: usize = 32769;

/// Reads the input to its end and keeps its first bytes. A loop over chunks: `take` would leave the rest unread, and whoever
/// writes it cut off.
fn read_input<R: Read>(input: &mut R, heap: Global) -> io::Result<Vec<u8>> {
    let mut kept = Vec::new(heap);
    let mut chunk = [0u8; 4096];
    for _ in 0..u64::MAX {
        let n = input.read(&mut chunk)?;
        if n == 0 {
            break;
        }
        let room = MOST.saturating_sub(kept.len());
        kept.extend_from_slice(&chunk[0..n.min(room)])?;
    }
    Ok(kept)
}

fn main(rt: HostRuntime) -> io::Result<()> {
    let heap = rt.alloc();
    let job = read_input(&mut rt.stdin(), heap)?;
    let out = answer(heap, &job)?;
    print!(rt; "{out}")
}
