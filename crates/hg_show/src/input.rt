//! Reading bytes to their end.
ghost use Rattle.std.specs.Prelude.{◌≡◌, ◌<◌, ◌≤◌, ◌⊎◌, ◌++◌, [], List, ℕ, IfOk, IfErr, IfSome, IsErrOf, OnOk, IsTrue};
ghost use Rattle.std.specs.Prelude.{MatchResult, length};
ghost use Rattle.std.specs.Io.KnownBytes.{Consumes, IsAtEnd};
ghost use Rattle.hg_show.specs.Answers.{IsInput, IsInputFault, IsMoreLeft, input_limit};
ghost use Rattle.hg_show.specs.declared.input.TheConstants.{INPUT_LIMIT};

use crate::fault::ShowFault;
use std::alloc::Global;
use std::io::{BufRead, ErrorKind, Read};

/// The most bytes that are shown: 64 MiB.
pub const INPUT_LIMIT: u64 = 67_108_864;

// The most bytes that one read takes.
const PIECE: usize = 8_192;

/// Reads to the end, and no further than to the first read that goes beyond what may be shown. An interrupted read is
/// tried again.
pub(crate) fn read_input<R: BufRead>(alloc: Global, reader: &mut R) -> Result<Vec<u8>, ShowFault>
    ensures whole { IfOk result (λ bytes. IsInput (R.remaining reader.old) bytes.items) }
    ensures fault { IfErr result (IsInputFault (R.remaining reader.old) (R.remaining reader.new)) }
    ensures too_long { IsErrOf result ShowFault.TooLong
        → IfSome (R.remaining reader.old) (λ bytes. input_limit < length bytes) }
{
    let mut bytes = Vec::new(alloc);
    for _ in 0..u64::MAX {
        let is_end = read_piece(reader, &mut bytes)?;
        if bytes.len() as u64 > INPUT_LIMIT {
            return Err(ShowFault::TooLong);
        }
        if is_end {
            return Ok(bytes);
        }
    }
    Err(ShowFault::Read)
}

// One read behind the bytes that there are, and whether that was the end. Room is made first, so no byte is lost where
// memory is refused.
fn read_piece<R: BufRead>(reader: &mut R, bytes: &mut Vec<u8>) -> Result<bool, ShowFault>
    ensures piece { OnOk result ((piece : List ℕ) × (bytes.new.items ≡ bytes.old.items ++ piece)
        × Consumes (R.remaining reader.old) (R.remaining reader.new) piece) }
    ensures end { IfOk result (λ is_end. IsTrue is_end
        → IfSome (R.remaining reader.old) (λ _. IsAtEnd (R.remaining reader.new))) }
    ensures fault { IfErr result
        (λ fault. (fault ≡ ShowFault.Read)
        ⊎ ((fault ≡ ShowFault.NoMemory) × IsMoreLeft (R.remaining reader.old) (R.remaining reader.new))) }
{
    if bytes.reserve(PIECE).is_err() {
        expect_end(reader)?;
        return Ok(true);
    }
    let mut piece = [0u8; PIECE];
    match reader.read(&mut piece) {
        Ok(len) => {
            bytes.extend_from_slice(&piece[..len]).unwrap();
            Ok(len == 0)
        }
        Err(error) if error.kind() == ErrorKind::Interrupted => Ok(false),
        Err(_) => Err(ShowFault::Read),
    }
}

// Nothing, where no byte is left. Otherwise there was no memory for what is left.
fn expect_end<R: BufRead>(reader: &mut R) -> Result<(), ShowFault>
    ensures end { OnOk result (Consumes (R.remaining reader.old) (R.remaining reader.new) []
        × IfSome (R.remaining reader.old) (λ _. IsAtEnd (R.remaining reader.new))) }
    ensures fault { IfErr result
        (λ fault. (fault ≡ ShowFault.Read)
        ⊎ ((fault ≡ ShowFault.NoMemory) × IsMoreLeft (R.remaining reader.old) (R.remaining reader.new))) }
{
    match reader.fill_buf() {
        Ok(left) if left.is_empty() => Ok(()),
        Ok(_) => Err(ShowFault::NoMemory),
        Err(_) => Err(ShowFault::Read),
    }
}
