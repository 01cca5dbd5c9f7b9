//! Reading a whole script.
ghost use Rattle.std.specs.Prelude.{◌≡◌, ◌<◌, ◌≤◌, ◌+◌, ℕ, List, Option, ◌⊎◌, length, IfOk, IfErr, IfSome, OnOk};
ghost use Rattle.std.specs.Prelude.{IsErrOf};
ghost use Rattle.std.specs.Io.KnownBytes.{Consumes, IsAtEnd};
ghost use Rattle.hg_script.specs.Inputs.{IsInputFault};
ghost use Rattle.hg_script.specs.Limits.{script_limit};

use crate::counted::{Counted, CountedRead};
use hg_line::RunFault;
use std::alloc::Global;
use std::io::Read;
use std::marker::Brand;
use std::sync::ledger::{Blank, Ledger};

// The most bytes that a script may have.
const SCRIPT_LIMIT: usize = 1_048_576;

// How many bytes a read asks for.
const CHUNK: usize = 8192;

/// Reads all that a reader has left, as [`run_script`](crate::run_script) does before it does a line. Whether the bytes
/// are lines of a script isn't looked at.
///
/// Ends with [`RunFault::ScriptTooLong`] where that is more than 1,048,576 bytes, with [`RunFault::Read`] where a read
/// fails, an interrupted one too, which isn't tried again, and with [`RunFault::NoMemory`] where memory is refused;
/// whichever comes first, and with no other fault. What was read until then is lost.
///
/// At most 1,048,577 reads are made, one more than a script may have bytes.
pub fn read_script<R: Read>(alloc: Global, reader: &mut R) -> Result<Vec<u8>, RunFault>
    ensures whole { IfOk result (λ text. IfSome (R.remaining reader.old) (λ bytes. bytes ≡ text.items)) }
    ensures limit { IfOk result (λ text. length text.items ≤ script_limit) }
    ensures fault { IfErr result IsInputFault }
    ensures too_long { IsErrOf result RunFault.ScriptTooLong
        → IfSome (R.remaining reader.old) (λ bytes. script_limit < length bytes) }
{
    count_and_read::<R, Brand>(alloc, reader, Blank::new(1))
}

// The same, by a count of reads that begins here.
fn count_and_read<R: Read, L: Ledger>(
    alloc: Global,
    reader: &mut R,
    blank: Blank,
) -> Result<Vec<u8>, RunFault>
    requires name { blank.name ≡ L.name }
    requires parts { blank.parts ≡ L.parts }
    requires some { 0 < blank.parts }
    ensures whole { IfOk result (λ text. IfSome (R.remaining reader.old) (λ bytes. bytes ≡ text.items)) }
    ensures limit { IfOk result (λ text. length text.items ≤ script_limit) }
    ensures fault { IfErr result IsInputFault }
    ensures too_long { IsErrOf result RunFault.ScriptTooLong
        → IfSome (R.remaining reader.old) (λ bytes. script_limit < length bytes) }
{
    let mut counted = Counted::<R, L>::new(reader, blank);
    read_counted(alloc, &mut counted)
}

// The same of a reader that counts its reads.
fn read_counted<R: CountedRead>(alloc: Global, reader: &mut R) -> Result<Vec<u8>, RunFault>
    ensures whole { IfOk result (λ text. IfSome (R.remaining reader.old) (λ bytes. bytes ≡ text.items)) }
    ensures limit { IfOk result (λ text. length text.items ≤ script_limit) }
    ensures fault { IfErr result IsInputFault }
    ensures too_long { IsErrOf result RunFault.ScriptTooLong
        → IfSome (R.remaining reader.old) (λ bytes. script_limit < length bytes) }
    ensures reads { R.reads reader.new ≤ R.reads reader.old + (script_limit + 1) }
{
    let mut text = Vec::new(alloc);
    for _ in 0..=SCRIPT_LIMIT {
        if read_more(reader, &mut text)? == 0 {
            return Ok(text);
        }
        if text.len() > SCRIPT_LIMIT {
            return Err(RunFault::ScriptTooLong);
        }
    }
    Err(RunFault::ScriptTooLong)
}

// One read. It answers how many bytes were appended.
fn read_more<R: CountedRead>(reader: &mut R, text: &mut Vec<u8>) -> Result<usize, RunFault>
    ensures counted { IfOk result (λ n. length text.new.items ≡ length text.old.items + n) }
    ensures bytes { OnOk result ((all : Option (List ℕ)) → Consumes all (R.remaining reader.old) text.old.items
        → Consumes all (R.remaining reader.new) text.new.items) }
    ensures end { IfOk result (λ n. n ≡ 0 → IsAtEnd (R.remaining reader.new)) }
    ensures fault { IfErr result (λ fault. (fault ≡ RunFault.Read) ⊎ (fault ≡ RunFault.NoMemory)) }
    ensures read { R.reads reader.new ≡ R.reads reader.old + 1 }
{
    let mut chunk = [0u8; CHUNK];
    let count = match reader.read_once(&mut chunk) {
        Ok(count) => count,
        Err(_) => return Err(RunFault::Read),
    };
    text.extend_from_slice(&chunk[..count])?;
    Ok(count)
}
