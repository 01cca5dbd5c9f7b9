//! Markers as text.
ghost use Rattle.std.specs.Prelude.{◌≡◌, ◌++◌, codes, OnOk};
ghost use Rattle.std.specs.FinMap.{entries};
ghost use Rattle.hg_show.specs.Printing.{IsMarkerText, Text, entry_text, flags_text, is_told_apart, metadata_text};
ghost use Rattle.hg_show.specs.Printing.{parents_text, separated};

use crate::date::Date;
use crate::line::{push_each, push_node, push_nodes, push_quoted, push_shown};
use hg_marker::{Marker, Metadata, Parents};
use std::alloc::{AllocError, Global};

/// Appends a marker as `hg debugobsolete` prints it: `PREDECESSOR [SUCCESSOR ..] FLAGS [{PARENTS}] (DATE) {METADATA}`.
/// The parents stand there where they are recorded; the date and the recorded parents aren't listed again as metadata.
pub(crate) fn push_marker(
    alloc: Global,
    line: &mut Vec<u8>,
    marker: &Marker,
) -> Result<(), AllocError>
    ensures { OnOk result ((text : Text) × IsMarkerText marker.now text
        × (line.new.items ≡ line.old.items ++ text)) }
{
    push_node(line, marker.predecessor())?;
    push_each(line, b" ", marker.successors())?;
    push_flags(alloc, line, marker.flags())?;
    push_parents(line, marker.parents())?;
    push_date(alloc, line, marker.meta())?;
    push_metadata(line, marker.meta())?;
    Ok(())
}

// Appends flags in hexadecimal digits, with a space at either side.
fn push_flags(alloc: Global, line: &mut Vec<u8>, flags: u8) -> Result<(), AllocError>
    ensures { OnOk result (line.new.items ≡ line.old.items ++ flags_text flags) }
{
    push_shown(alloc, line, format_args!(" {flags:X} "))
}

// Appends recorded parents, with a space behind them.
fn push_parents(line: &mut Vec<u8>, parents: Parents) -> Result<(), AllocError>
    ensures { OnOk result (line.new.items ≡ line.old.items ++ parents_text parents) }
{
    match parents {
        Parents::Unrecorded => return Ok(()),
        Parents::Empty => push_nodes(line, &[])?,
        Parents::One(parent) => push_nodes(line, &[parent])?,
        Parents::Two(first, second) => push_nodes(line, &[first, second])?,
    }
    line.push(b' ')?;
    Ok(())
}

// Appends the date that metadata says in parentheses, with a space behind it.
fn push_date(alloc: Global, line: &mut Vec<u8>, metadata: &Metadata) -> Result<(), AllocError>
    ensures { OnOk result ((date : Text)
        × (line.new.items ≡ line.old.items ++ (codes "(" ++ date ++ codes ") "))) }
{
    let date = Date::of_value(metadata.get(b"date")).to_text(alloc)?;
    line.push(b'(')?;
    line.extend_from_slice(date.as_bytes())?;
    line.extend_from_slice(b") ")
}

// Appends what metadata says besides the date and the parents, in the form of a Python dictionary.
fn push_metadata(line: &mut Vec<u8>, metadata: &Metadata) -> Result<(), AllocError>
    ensures { OnOk result (line.new.items ≡ line.old.items ++ metadata_text (entries metadata.now)) }
{
    line.push(b'{')?;
    push_entries(line, metadata)?;
    line.push(b'}')?;
    Ok(())
}

fn push_entries(line: &mut Vec<u8>, metadata: &Metadata) -> Result<(), AllocError>
    ensures { OnOk result (line.new.items ≡ line.old.items ++ separated (codes "") (entries metadata.now)) }
{
    let mut separator = b"".as_slice();
    for (key, value) in metadata.iter() {
        if is_told_apart(key) {
            continue;
        }
        push_entry(line, separator, key, value)?;
        separator = b", ";
    }
    Ok(())
}

// Whether a marker has what stands at this key in a place of its own.
fn is_told_apart(key: &[u8]) -> bool
    ensures { result ≡ is_told_apart key.now }
{
    key == b"date".as_slice() || key == b"p1".as_slice() || key == b"p2".as_slice()
}

fn push_entry(
    line: &mut Vec<u8>,
    separator: &[u8],
    key: &[u8],
    value: &[u8],
) -> Result<(), AllocError>
    ensures { OnOk result (line.new.items ≡ line.old.items ++ (separator.now ++ entry_text (key.now, value.now))) }
{
    line.extend_from_slice(separator)?;
    push_quoted(line, key)?;
    line.extend_from_slice(b": ")?;
    push_quoted(line, value)
}
