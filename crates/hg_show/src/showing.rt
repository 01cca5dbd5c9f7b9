//! Showing bytes.
ghost use Rattle.std.specs.Prelude.{◌≡◌, ◌⊎◌, ◌<◌, List, ℕ, IfSome, IsErrOf, OnOk, length};
ghost use Rattle.std.specs.Io.KnownBytes.{Appends};
ghost use Rattle.hg_show.specs.Answers.{IsInput, EndsInput, ShowAnswer, fault_in, input_limit};
ghost use Rattle.hg_show.specs.Printing.{AreBytesShown, Text};

use crate::fault::ShowFault;
use crate::form::Form;
use crate::input::read_input;
use crate::message::show_message;
use crate::roots::show_roots;
use crate::store::show_store;
use std::alloc::Global;
use std::io::{BufRead, Write};

/// Reads bytes to their end and prints what they say, with one write for each line.
///
/// Refuses [`ShowFault::TooLong`] where there are more than [`INPUT_LIMIT`](crate::INPUT_LIMIT) of them, and otherwise
/// as [`show_bytes`] does. [`ShowFault::Read`] is told where a read fails; an interrupted one is tried again. Want of
/// memory never stands for a fault of bytes that are all read: while they are read, it is told only where more is left.
pub fn show<R: BufRead, W: Write>(
    alloc: Global,
    form: Form,
    reader: &mut R,
    writer: &mut W,
) -> Result<(), ShowFault>
    // Either reading ended early, or what is told is so of bytes that are what the reader had, where that is known.
    ensures answer { EndsInput (R.remaining reader.old) (R.remaining reader.new) result
        ⊎ ((bytes : List ℕ) × IsInput (R.remaining reader.old) bytes × ShowAnswer (fault_in form bytes) result) }
    ensures printed { OnOk result ((bytes : List ℕ) × (text : Text) × IsInput (R.remaining reader.old) bytes
        × AreBytesShown form bytes text × Appends (W.contents writer.old) (W.contents writer.new) text) }
    ensures too_long { IsErrOf result ShowFault.TooLong
        → IfSome (R.remaining reader.old) (λ bytes. input_limit < length bytes) }
{
    let bytes = read_input(alloc, reader)?;
    show_bytes(alloc, form, &bytes, writer)
}

/// Prints what bytes say, with one write for each line.
///
/// Refuses the first fault of the bytes, before anything is printed, as the library of their format tells it: want of
/// memory never stands for it.
pub fn show_bytes<W: Write>(
    alloc: Global,
    form: Form,
    bytes: &[u8],
    writer: &mut W,
) -> Result<(), ShowFault>
    ensures answer { ShowAnswer (fault_in form bytes.now) result }

    // Nothing is printed of bytes at fault.
    ensures unprinted { IfSome (fault_in form bytes.now) (λ _. W.contents writer.new ≡ W.contents writer.old) }

    // What is printed is what the bytes say: only the text of a date, and of a changeset all but its id, is left open.
    ensures printed { OnOk result ((text : Text) × AreBytesShown form bytes.now text
        × Appends (W.contents writer.old) (W.contents writer.new) text) }
{
    match form {
        Form::Store => show_store(alloc, bytes, writer),
        Form::Roots => show_roots(alloc, bytes, writer),
        Form::Message => show_message(alloc, bytes, writer),
    }
}
