ghost use Rattle.std.specs.Prelude.{◌≡◌, IfOk, map, vec_len};
ghost use Rattle.session.specs.Pages.{page_room};

use semantics::Call;
use std::alloc::{AllocError, Global};

/// No sheet has more bytes.
const LONGEST: usize = 71780;

/// A call, with a page for the sheet that it may ask for.
#[derive(Drop)]
pub(crate) struct Step<'a> {
    pub(crate) call: Call<'a>,
    pub(crate) page: Vec<u8>,
    ghost long: { vec_len page ≡ page_room call },
}

// A page for the sheet that a call asks for, if it asks for one.
fn page(heap: Global, call: &Call) -> Result<Vec<u8>, AllocError>
    ensures { IfOk result (λ v. vec_len v ≡ page_room call.now) }
{
    match call {
        Call::Sheet(room) => {
            let room = *room;
            vec![in heap; 0; room.min(LONGEST)]
        }
        _ => Ok(Vec::new(heap)),
    }
}

/// A page for each call, in order.
pub(crate) fn pages(heap: Global, calls: &[Call]) -> Result<Vec<Vec<u8>>, AllocError>
    ensures { IfOk result (λ v. map vec_len v.items ≡ map page_room calls.now) }
{
    let mut pages = Vec::with_capacity(heap, calls.len())?;
    for call in calls {
        pages.push_reserved(page(heap, call)?);
    }
    Ok(pages)
}
