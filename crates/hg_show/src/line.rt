//! Lines: their pieces, and one write for each.
ghost use Rattle.std.specs.Prelude.{◌≡◌, ◌⊎◌, ◌++◌, [], IfErr, IfSome, OnOk};
ghost use Rattle.std.specs.Io.KnownBytes.{Appends};
ghost use Rattle.std.specs.Char.Escape.{escape_ascii};
ghost use Rattle.std.specs.List.{flat_map};
ghost use Rattle.hex.specs.Hex.{encode_lower};
ghost use Rattle.hg_show.specs.Printing.{braced_ids, escaped, escaped_byte, id_behind, is_other_quote, line_of};
ghost use Rattle.hg_show.specs.Printing.{listed_ids, quote_for, quoted};

use crate::fault::ShowFault;
use hg_changeset::Node;
use std::alloc::{AllocError, Global};
use std::fmt::Display;
use std::io::Write;

/// Writes a line with its LF, and empties it for the next one.
pub(crate) fn print_line<W: Write>(writer: &mut W, line: &mut Vec<u8>) -> Result<(), ShowFault>
    ensures printed { OnOk result
        (Appends (W.contents writer.old) (W.contents writer.new) (line_of line.old.items)) }
    ensures emptied { OnOk result (line.new.items ≡ []) }
    ensures err { IfErr result (λ fault. (fault ≡ ShowFault.Write) ⊎ (fault ≡ ShowFault.NoMemory)) }
{
    line.push(b'\n')?;
    match writer.write_all(line) {
        Ok(()) => {}
        Err(_) => return Err(ShowFault::Write),
    }
    line.clear();
    Ok(())
}

/// Appends a value as it is displayed.
pub(crate) fn push_shown<D: Display + Drop>(
    alloc: Global,
    line: &mut Vec<u8>,
    value: D,
) -> Result<(), AllocError>
    ensures { OnOk result (IfSome (D.output value) (λ text. line.new.items ≡ line.old.items ++ text)) }
{
    let text = format!(in alloc; "{value}")?;
    line.extend_from_slice(text.as_bytes())
}

/// Appends an id as 40 hexadecimal digits.
pub(crate) fn push_node(line: &mut Vec<u8>, node: Node) -> Result<(), AllocError>
    ensures { OnOk result (line.new.items ≡ line.old.items ++ encode_lower node.0) }
{
    line.extend_from_slice(&node.to_hex())
}

/// Appends ids in braces, with a comma and a space between them.
pub(crate) fn push_nodes(line: &mut Vec<u8>, nodes: &[Node]) -> Result<(), AllocError>
    ensures { OnOk result (line.new.items ≡ line.old.items ++ braced_ids nodes.now) }
{
    line.push(b'{')?;
    push_listed(line, nodes)?;
    line.push(b'}')?;
    Ok(())
}

fn push_listed(line: &mut Vec<u8>, nodes: &[Node]) -> Result<(), AllocError>
    ensures { OnOk result (line.new.items ≡ line.old.items ++ listed_ids nodes.now) }
{
    match nodes {
        [] => Ok(()),
        [first, others @ ..] => {
            push_node(line, *first)?;
            push_each(line, b", ", others)
        }
    }
}

/// Appends each id, with the separator before it.
pub(crate) fn push_each(
    line: &mut Vec<u8>,
    separator: &[u8],
    nodes: &[Node],
) -> Result<(), AllocError>
    ensures { OnOk result (line.new.items ≡ line.old.items ++ flat_map (id_behind separator.now) nodes.now) }
{
    for node in nodes {
        line.extend_from_slice(separator)?;
        push_node(line, *node)?;
    }
    Ok(())
}

/// Appends bytes in quotes, as Python's `repr` has them: in single quotes, or in double ones where single quotes but no
/// double ones are inside. The quote that is used and the backslash are escaped inside, and so is what isn't printable
/// ASCII.
pub(crate) fn push_quoted(line: &mut Vec<u8>, bytes: &[u8]) -> Result<(), AllocError>
    ensures { OnOk result (line.new.items ≡ line.old.items ++ quoted bytes.now) }
{
    let quote = quote_for(bytes);
    line.push(quote)?;
    push_escaped(line, bytes, Some(quote))?;
    line.push(quote)?;
    Ok(())
}

// The quote that stands around the bytes.
fn quote_for(bytes: &[u8]) -> u8
    ensures { result ≡ quote_for bytes.now }
{
    if bytes.contains(&b'\'') && !bytes.contains(&b'"') {
        b'"'
    } else {
        b'\''
    }
}

/// Appends bytes where the backslash is escaped, and what isn't printable ASCII, and this quote.
pub(crate) fn push_escaped(
    line: &mut Vec<u8>,
    bytes: &[u8],
    quote: Option<u8>,
) -> Result<(), AllocError>
    ensures { OnOk result (line.new.items ≡ line.old.items ++ escaped quote bytes.now) }
{
    for byte in bytes {
        push_escape(line, *byte, quote)?;
    }
    Ok(())
}

fn push_escape(line: &mut Vec<u8>, byte: u8, quote: Option<u8>) -> Result<(), AllocError>
    ensures { OnOk result (line.new.items ≡ line.old.items ++ escaped_byte quote byte) }
{
    if is_other_quote(byte, quote) {
        line.push(byte)?;
        return Ok(());
    }
    push_ascii_escape(line, byte)
}

fn push_ascii_escape(line: &mut Vec<u8>, byte: u8) -> Result<(), AllocError>
    ensures { OnOk result (line.new.items ≡ line.old.items ++ escape_ascii byte) }
{
    for part in byte.escape_ascii() {
        line.push(part)?;
    }
    Ok(())
}

// Whether the byte is a quote, and not the one that is used.
fn is_other_quote(byte: u8, quote: Option<u8>) -> bool
    ensures { result ≡ is_other_quote quote byte }
{
    match quote {
        Some(quote) => (byte == b'\'' || byte == b'"') && byte != quote,
        None => byte == b'\'' || byte == b'"',
    }
}
