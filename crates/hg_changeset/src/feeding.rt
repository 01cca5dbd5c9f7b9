//! What goes into a hasher.
//!
//! Bytes go in by eights. The standard hash tables mix up to eight bytes into all that came before; of longer writes
//! there are some, whatever came before, after which they start anew, so that one chosen text or id would put any
//! number of values at one place. Writes of single bytes are mixed as well, but cost as much each as eight at once.
ghost use Rattle.std.specs.Prelude.{◌≡◌, fold};
ghost use Rattle.hg_changeset.specs.Fed.{bytes_fed};

use std::hash::Hasher;

/// The bytes go into the hasher, by eights: so many times eight of them, and then the others.
///
/// The standard hash tables mix up to eight bytes into all that came before, and may forget it at a longer write.
#[tactic(auto, unfolding(crate::specs::Fed::bytes_fed))]
pub(crate) fn feed_bytes<H: Hasher>(bytes: &[u8], state: &mut H)
    ensures { state.new ≡ fold H.write state.old (bytes_fed bytes.now) }
{
    let mut rest = bytes;
    for _ in 0..bytes.len() / 8 {
        let (front, after) = rest.split_at(8);
        state.write(front);
        rest = after;
    }
    state.write(rest);
}
