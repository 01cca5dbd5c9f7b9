//! Lines of a drawing, each of which is one write.
ghost use Rattle.std.specs.Prelude.{◌≡◌, ◌++◌, [], IfErr, IsOk, OnOk};
ghost use Rattle.std.specs.Io.KnownBytes.{Appends};
ghost use Rattle.hg_log.specs.Drawings.{IsLine, Text};

use crate::fault::DrawFault;
use std::alloc::AllocError;
use std::io::Write;

/// Appends a text.
pub fn push_text(line: &mut Vec<u8>, text: &[u8]) -> Result<(), AllocError>
    ensures { OnOk result (line.new.items ≡ line.old.items ++ text.now) }
{
    line.extend_from_slice(text)
}

/// Writes a line without the blanks at its end, and empties it for the next one.
pub fn write_line<W: Write>(line: &mut Vec<u8>, writer: &mut W) -> Result<(), DrawFault>
    ensures written { OnOk result ((text : Text) × IsLine line.old.items text
        × Appends (W.contents writer.old) (W.contents writer.new) text) }
    ensures emptied { OnOk result (line.new.items ≡ []) }
{
    end_line(line)?;
    write_bytes(line, writer)?;
    line.clear();
    Ok(())
}

/// Writes a line, as [`write_line`] does, if there was memory for what was appended to it.
pub fn write_appended<W: Write>(
    appended: Result<(), AllocError>,
    line: &mut Vec<u8>,
    writer: &mut W,
) -> Result<(), DrawFault>
    ensures { OnOk result (IsOk appended × ((text : Text) × IsLine line.old.items text
        × Appends (W.contents writer.old) (W.contents writer.new) text)) }
{
    appended?;
    write_line(line, writer)
}

// Takes the blanks at the end off the line, and ends it.
fn end_line(line: &mut Vec<u8>) -> Result<(), AllocError>
    ensures { OnOk result (IsLine line.old.items line.new.items) }
{
    let len = line.trim_ascii_end().len();
    line.truncate(len);
    line.push(b'\n')?;
    Ok(())
}

/// Writes bytes: only what the writer refuses is a fault here.
pub(crate) fn write_bytes<W: Write>(bytes: &[u8], writer: &mut W) -> Result<(), DrawFault>
    ensures ok { OnOk result (Appends (W.contents writer.old) (W.contents writer.new) bytes.now) }
    ensures err { IfErr result (λ fault. fault ≡ DrawFault.Write) }
{
    match writer.write_all(bytes) {
        Ok(()) => Ok(()),
        Err(_) => Err(DrawFault::Write),
    }
}
