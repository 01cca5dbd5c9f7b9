//! What is drawn, or told, of a node.
ghost use Rattle.std.specs.Prelude.{◌≡◌, List, ℕ, OnOk};
ghost use Rattle.std.specs.Io.KnownBytes.{Appends};
ghost use Rattle.hgfleet.specs.Drawings.{IsDrawing, IsHistory, gap_behind, log_heading};

use hg_log::{DrawFault, Look, draw_log};
use hg_show::write_bytes;
use hg_view::Kept;
use hg_why::{Remedy, write_why};
use std::alloc::Global;
use std::io::Write;

/// What is drawn, or told, of a node.
#[derive(Clone, Copy)]
pub enum Drawing {
    /// Its history as a text, which looks so.
    Log(Look),
    /// Why changesets are unstable, and this of a remedy.
    Why(Remedy),
}

/// Draws what is asked for of a node of this name.
pub fn draw<W: Write>(
    alloc: Global,
    name: &[u8],
    kept: &Kept,
    drawing: Drawing,
    writer: &mut W,
) -> Result<(), DrawFault>
    ensures { OnOk result ((text : List ℕ) × IsDrawing drawing name.now kept.now text
        × Appends (W.contents writer.old) (W.contents writer.new) text) }
{
    match drawing {
        Drawing::Log(look) => draw_below(alloc, name, kept, look, writer),
        Drawing::Why(remedy) => write_why(alloc, name, kept, remedy, writer),
    }
}

// Draws a history below a line with the node's name.
fn draw_below<W: Write>(
    alloc: Global,
    name: &[u8],
    kept: &Kept,
    look: Look,
    writer: &mut W,
) -> Result<(), DrawFault>
    ensures { OnOk result ((text : List ℕ) × IsHistory look.shows_hidden name.now kept.now text
        × Appends (W.contents writer.old) (W.contents writer.new) text) }
{
    write_heading(alloc, name, writer)?;
    draw_log(alloc, kept, look, writer)
}

// Writes the line with a node's name.
fn write_heading<W: Write>(alloc: Global, name: &[u8], writer: &mut W) -> Result<(), DrawFault>
    ensures { OnOk result (Appends (W.contents writer.old) (W.contents writer.new) (log_heading name.now)) }
{
    let mut heading = Vec::from_slice(alloc, b"log ")?;
    heading.extend_from_slice(name)?;
    heading.push(b'\n')?;
    write_drawn(&heading, writer)
}

/// Writes these bytes of a drawing.
pub fn write_drawn<W: Write>(bytes: &[u8], writer: &mut W) -> Result<(), DrawFault>
    ensures { OnOk result (Appends (W.contents writer.old) (W.contents writer.new) bytes.now) }
{
    match write_bytes(bytes, writer) {
        Ok(()) => Ok(()),
        Err(_) => Err(DrawFault::Write),
    }
}

/// What stands between this drawing and the next: an empty line, where the first has lines and none of them is an empty
/// one at its end. Why changesets are unstable follows at once.
pub fn gap_behind(drawn: &[u8], drawing: Drawing) -> &'static [u8]
    ensures { result.now ≡ gap_behind drawing drawn.now }
{
    match drawing {
        Drawing::Log(_) => {
            if drawn.is_empty() || drawn.ends_with(b"\n\n") {
                b""
            } else {
                b"\n"
            }
        }
        Drawing::Why(_) => b"",
    }
}
