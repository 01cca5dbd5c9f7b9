//! Places by marks.
ghost use Rattle.std.specs.Prelude.{◌≡◌, ◌↔◌, ◌<◌, IfOk, IsTrue, length};
ghost use Rattle.hg_graph.specs.Marks.{IsMarked};
ghost use Rattle.hg_obsstore.specs.Places.{ListsAll};

use std::alloc::{AllocError, Global};

/// The places that have a mark of the first and none of the second, ascending.
pub(crate) fn marked_but(
    alloc: Global,
    marks: &[bool],
    but: &[bool],
) -> Result<Vec<usize>, AllocError>
    requires { length but.now ≡ length marks.now }
    ensures { IfOk result
        (λ found. ListsAll (λ k. IsMarked 0 marks.now k × ¬ (IsMarked 0 but.now k)) found.items) }
{
    let mut found = Vec::new(alloc);
    for place in 0..marks.len() {
        if is_marked_but(marks, but, place) {
            found.push(place)?;
        }
    }
    Ok(found)
}

// Whether the place has a mark of the first and none of the second.
fn is_marked_but(marks: &[bool], but: &[bool], place: usize) -> bool
    requires len { length but.now ≡ length marks.now }
    requires place { place < length marks.now }
    ensures { IsTrue result ↔ (IsMarked 0 marks.now place × ¬ (IsMarked 0 but.now place)) }
{
    marks[place] && !but[place]
}
