//! Pieces of JSON, as they are appended to a line.
ghost use Rattle.std.specs.Prelude.{◌≡◌, ◌*◌, ◌∷◌, ◌++◌, [], true, false, if◌then◌else◌, codes, length, OnOk};
ghost use Rattle.std.specs.List.{flat_map};
ghost use Rattle.std.specs.Str.{is_utf8};
ghost use Rattle.hex.specs.Hex.{encode_lower};
ghost use Rattle.hg_log.specs.Json.{byte_text, ids_text, id_text, divided, string_text, truth_text};

use crate::line::push_text;
use hex::encode_to_slice;
use hg_changeset::Node;
use std::alloc::AllocError;

/// Appends bytes as a string. Where they are UTF-8, their characters stand for themselves; where they aren't, a byte
/// above 127 is the lone surrogate with its bits, as Mercurial and Python have it (`surrogateescape`). Quotes,
/// backslashes and control characters are escaped.
pub(crate) fn push_string(line: &mut Vec<u8>, bytes: &[u8]) -> Result<(), AllocError>
    ensures { OnOk result (line.new.items ≡ line.old.items ++ string_text bytes.now) }
{
    let is_text = is_text(bytes);
    push_text(line, b"\"")?;
    push_bytes(line, bytes, is_text)?;
    push_text(line, b"\"")?;
    Ok(())
}

// Whether the bytes are UTF-8.
fn is_text(bytes: &[u8]) -> bool
    ensures { result ≡ is_utf8 bytes.now }
{
    str::from_utf8(bytes).is_ok()
}

fn push_bytes(line: &mut Vec<u8>, bytes: &[u8], is_text: bool) -> Result<(), AllocError>
    ensures { OnOk result (line.new.items ≡ line.old.items ++ flat_map (byte_text is_text) bytes.now) }
{
    for byte in bytes {
        push_byte(line, *byte, is_text)?;
    }
    Ok(())
}

fn push_byte(line: &mut Vec<u8>, byte: u8, is_text: bool) -> Result<(), AllocError>
    ensures { OnOk result (line.new.items ≡ line.old.items ++ byte_text is_text byte) }
{
    if byte == b'"' || byte == b'\\' {
        push_text(line, &[b'\\', byte])
    } else if byte < b' ' || byte == 127 {
        push_code(line, b"\\u00", byte)
    } else if byte > 127 && !is_text {
        push_code(line, b"\\udc", byte)
    } else {
        push_text(line, &[byte])
    }
}

// Appends the code of a character, whose last two digits are the byte's.
fn push_code(line: &mut Vec<u8>, front: &[u8], byte: u8) -> Result<(), AllocError>
    ensures { OnOk result (line.new.items ≡ line.old.items ++ front.now ++ encode_lower (byte ∷ [])) }
{
    push_text(line, front)?;
    push_text(line, &digits_of(byte))?;
    Ok(())
}

/// Appends a truth value.
pub(crate) fn push_truth(line: &mut Vec<u8>, is_so: bool) -> Result<(), AllocError>
    ensures { OnOk result (line.new.items ≡ line.old.items ++ truth_text is_so) }
{
    push_text(line, if is_so { b"true" } else { b"false" })
}

/// Appends a divider, where something stands before, which is so from then on.
pub(crate) fn push_divider(
    line: &mut Vec<u8>,
    divider: &[u8],
    is_behind: &mut bool,
) -> Result<(), AllocError>
    ensures divider { OnOk result
        (line.new.items ≡ line.old.items ++ (if is_behind.old then divider.now else [])) }
    ensures behind { OnOk result (is_behind.new ≡ true) }
{
    if *is_behind {
        push_text(line, divider)?;
    }
    *is_behind = true;
    Ok(())
}

/// Appends a list of ids.
pub(crate) fn push_ids(line: &mut Vec<u8>, nodes: &[Node]) -> Result<(), AllocError>
    ensures { OnOk result (line.new.items ≡ line.old.items ++ ids_text nodes.now) }
{
    push_text(line, b"[")?;
    push_each_id(line, nodes)?;
    push_text(line, b"]")
}

fn push_each_id(line: &mut Vec<u8>, nodes: &[Node]) -> Result<(), AllocError>
    ensures { OnOk result (line.new.items ≡ line.old.items ++ divided false (codes ", ") id_text nodes.now) }
{
    let mut is_behind = false;
    for node in nodes {
        push_divider(line, b", ", &mut is_behind)?;
        push_id(line, *node)?;
    }
    Ok(())
}

/// Appends an id: its 40 digits between quotes.
pub(crate) fn push_id(line: &mut Vec<u8>, node: Node) -> Result<(), AllocError>
    ensures { OnOk result (line.new.items ≡ line.old.items ++ id_text node) }
{
    push_text(line, b"\"")?;
    push_text(line, &node.to_hex())?;
    push_text(line, b"\"")?;
    Ok(())
}

// The two digits of a byte.
fn digits_of(byte: u8) -> [u8; 2]
    ensures { result ≡ encode_lower (byte ∷ []) }
{
    let mut digits = [0; 2];
    write_hex(&[byte], &mut digits);
    digits
}

// Writes the digits of bytes.
fn write_hex(bytes: &[u8], text: &mut [u8])
    requires { length text.old ≡ 2 * length bytes.now }
    ensures { text.new ≡ encode_lower bytes.now }
{
    let _ = encode_to_slice(bytes, text);
}
