//! Writing what a node holds.
ghost use Rattle.std.specs.Prelude.{◌≡◌, ◌≢◌, [], List, ℕ, IfErr, OnErr, OnOk};
ghost use Rattle.std.specs.Io.KnownBytes.{Appends};
ghost use Rattle.hg_obsstore.specs.Spelling.{store_spelling};
ghost use Rattle.hg_phaseroots.specs.Writing.{IsWritten};
ghost use Rattle.hg_phaseroots.specs.Reading.{Root};
ghost use Rattle.hg_phases.specs.Roots.{AreRoots};

use crate::fault::WriteFault;
use hg_obsstore::store_bytes;
use hg_phaseroots::roots_text;
use hg_view::Kept;
use std::io::Write;

/// Writes the markers of a node as a store of format 0, in the order in which they came.
///
/// After a fault a front of the bytes may be written.
pub fn write_store<W: Write>(kept: &Kept, writer: &mut W) -> Result<(), WriteFault>
    ensures { OnOk result
        (Appends (W.contents writer.old) (W.contents writer.new) (store_spelling kept.now.replica.markers)) }
{
    let bytes = store_bytes(kept.replica().store())?;
    write_bytes(&bytes, writer)
}

/// Writes the phases of a node as a text of roots: draft roots first, then secret ones, each in ascending order of ids.
///
/// After a fault a front of the bytes may be written.
pub fn write_roots<W: Write>(kept: &Kept, writer: &mut W) -> Result<(), WriteFault>
    ensures { OnOk result ((roots : List Root) × (text : List ℕ) × AreRoots kept.now.replica.history roots
        × IsWritten roots text × Appends (W.contents writer.old) (W.contents writer.new) text) }
{
    let roots = kept.replica().roots()?;
    let text = roots_text(&roots)?;
    write_bytes(&text, writer)
}

// How many bytes are written at once: a writer with a buffer then still has those that can't be handed on, and its next
// flush tells why.
const PIECE: usize = 4096;

/// Writes bytes as they are.
///
/// After a fault a front of them may be written.
pub fn write_bytes<W: Write>(bytes: &[u8], writer: &mut W) -> Result<(), WriteFault>
    ensures ok { OnOk result (Appends (W.contents writer.old) (W.contents writer.new) bytes.now) }
    ensures err { IfErr result (λ fault. fault ≡ WriteFault.Write) }
    ensures some { OnErr result (bytes.now ≢ []) }
{
    for piece in bytes.chunks(PIECE) {
        match writer.write_all(piece) {
            Ok(()) => {}
            Err(_) => return Err(WriteFault::Write),
        }
    }
    Ok(())
}
