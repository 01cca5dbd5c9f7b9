//! Files, which are read and written whole.
ghost use Rattle.std.specs.Prelude.{◌≡◌, ◌≤◌, ◌↔◌, IfOk, IsTrue, codes, length};
ghost use Rattle.hgfleet.specs.Limits.{file_limit};
ghost use Rattle.hgfleet.specs.Trying.{IsFileRead, IsNamedRead};

use std::alloc::Global;
use std::io::{ErrorKind, Read};
use std::rt::Files;
use std::{fmt, fs};

/// The most bytes that a file may have: 1 GiB.
pub const FILE_LIMIT: u64 = 1_073_741_824;

/// Why a file wasn't read, or written.
#[derive(Clone, Copy, PartialEq, Eq, Debug)]
pub enum FileFault {
    /// There is none, or it can't be read, as a folder.
    Unread,
    /// It has more than [`FILE_LIMIT`] bytes.
    TooLarge,
    /// It can't be written.
    Unwritten,
    /// What is written to it is more than a message can hold.
    TooMuch,
    /// There was no memory for its bytes.
    NoMemory,
}

impl fmt::Display for FileFault {
    fn fmt<W: fmt::Write>(&self, f: &mut fmt::Formatter<W>) -> fmt::Result {
        match *self {
            FileFault::Unread => write!(f, "can't be read"),
            FileFault::TooLarge => write!(f, "is larger than 1 GiB"),
            FileFault::Unwritten => write!(f, "can't be written"),
            FileFault::TooMuch => write!(f, "this is more than a message can hold"),
            FileFault::NoMemory => write!(f, "no memory"),
        }
    }
}

/// All bytes of the file of this name, or of standard input where the name is `-`.
pub fn read_file<F: Files, R: Read>(
    alloc: Global,
    files: &F,
    name: &str,
    input: &mut R,
) -> Result<Vec<u8>, FileFault>
    ensures { IfOk result (λ bytes. IsNamedRead name.now (R.remaining input.old) bytes.items) }
{
    if names_input(name) {
        return read_bytes(alloc, input);
    }
    match fs::open(files, name) {
        Ok(mut file) => read_bytes(alloc, &mut file),
        Err(_) => Err(FileFault::Unread),
    }
}

/// Whether the name stands for standard input.
pub(crate) fn names_input(name: &str) -> bool
    ensures { IsTrue result ↔ (name.now ≡ codes "-") }
{
    name == "-"
}

// Reads to the end, and no further than to the first byte beyond the limit.
fn read_bytes<R: Read>(alloc: Global, reader: &mut R) -> Result<Vec<u8>, FileFault>
    ensures { IfOk result (λ bytes. IsFileRead (R.remaining reader.old) bytes.items) }
{
    let mut bytes = Vec::new(alloc);
    match reader.take(FILE_LIMIT + 1).read_to_end(&mut bytes) {
        Ok(_) => within_limit(bytes),
        Err(error) if error.kind() == ErrorKind::OutOfMemory => Err(FileFault::NoMemory),
        Err(_) => Err(FileFault::Unread),
    }
}

fn within_limit(bytes: Vec<u8>) -> Result<Vec<u8>, FileFault>
    ensures { IfOk result (λ kept. (kept.items ≡ bytes.items) × (length kept.items ≤ file_limit)) }
{
    if bytes.len() as u64 > FILE_LIMIT {
        Err(FileFault::TooLarge)
    } else {
        Ok(bytes)
    }
}
