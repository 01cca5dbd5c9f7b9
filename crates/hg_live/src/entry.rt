//! What a node accepts, one after the other.
ghost use Rattle.std.specs.Prelude.{◌≡◌, OnOk, OnErr, IfErr};
ghost use Rattle.hg_peer.specs.declared.mark.Mark.{Mark as MarkValue};
ghost use Rattle.hg_live.specs.declared.entry.Entry.TheVariants as entry;
ghost use Rattle.hg_live.specs.After.{IsNext};
ghost use Rattle.hg_live.specs.Calls.{IsAgainstEntry};

use crate::answer::CallRefusal;
use hg_join::{Actor, JoinState};
use hg_peer::{Mark, Peer};
use hg_replica::Part;

/// What a node accepted at one call, and notes in its journal.
#[derive(Drop)]
pub enum Entry {
    /// A part, decided there or read from a message, which its replica took in.
    Part(Part),

    /// What was done to its pins.
    Mark(Mark),
}

/// Takes an entry in, or tells why not. What is refused changes nothing.
pub(crate) fn accept(peer: &mut Peer, entry: &Entry) -> Result<(), CallRefusal>
    ensures ok { OnOk result (IsNext peer.old entry.now peer.new) }
    ensures refused { IfErr result (IsAgainstEntry peer.old entry.now) }
    ensures err { OnErr result (peer.new ≡ peer.old) }
{
    match entry {
        Entry::Part(part) => take_in(peer, part),
        Entry::Mark(mark) => put_mark(peer, mark),
    }
}

// Absorbs a part.
fn take_in(peer: &mut Peer, part: &Part) -> Result<(), CallRefusal>
    ensures ok { OnOk result (IsNext peer.old (entry.Part part.now) peer.new) }
    ensures refused { IfErr result (IsAgainstEntry peer.old (entry.Part part.now)) }
    ensures err { OnErr result (peer.new ≡ peer.old) }
{
    match peer.absorb(part) {
        Ok(_) => Ok(()),
        Err(fault) => Err(fault.into()),
    }
}

// Pins a changeset, or takes its pin away.
fn put_mark(peer: &mut Peer, mark: &Mark) -> Result<(), CallRefusal>
    ensures ok { OnOk result (IsNext peer.old (entry.Mark mark.now) peer.new) }
    ensures refused { IfErr result (IsAgainstEntry peer.old (entry.Mark mark.now)) }
    ensures err { OnErr result (peer.new ≡ peer.old) }
{
    match peer.mark(mark) {
        Ok(()) => Ok(()),
        Err(refusal) => Err(refusal.into()),
    }
}
