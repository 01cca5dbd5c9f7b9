//! A replica that takes messages in, and what each changed.
ghost use Rattle.std.specs.Prelude.{◌≡◌, [], IfOk, OnErr};
ghost use Rattle.hg_replica.specs.State.{IsValid, nothing_held};
ghost use Rattle.hg_trial.specs.Trials.{TakeAnswer, AbsorbsPart};

use crate::refusal::Refusal;
use hg_instab::Instabilities;
use hg_message::Message;
use hg_node_set::IdKeys;
use hg_replica::{Change, Part, Replica};
use hg_view::Kept;
use std::alloc::{AllocError, Global};
use std::marker::Model;

/// A replica that pins nothing, and takes messages in one after the other. Contracts see it as the replica's state.
#[derive(Drop)]
pub struct Trial {
    alloc: Global,
    kept: Kept,
}

impl Model for Trial {
    ghost use Rattle.std.specs.Prelude.{◌≡◌, []};
    ghost use Rattle.std.specs.Coded.{codes};
    ghost use Rattle.hg_marker.specs.Fields.{fields_code};
    ghost use Rattle.hg_replica.specs.State.{ReplicaState};

    ghost Value = { ReplicaState };

    ghost coded = { Prim.hlevel (codes, fields_code) };

    ghost view = { λ trial. trial.kept.replica };

    ghost invariant = { λ trial. trial.kept.pins ≡ [] };
}

/// A message that was taken.
#[derive(Drop)]
pub struct Taken {
    /// What is new, and whose phase went down.
    pub change: Change,

    /// The instabilities as they were before it.
    pub before: Instabilities,
}

impl Trial {
    /// A trial that holds nothing. It hashes ids by these keys: secret ones where messages of strangers are tried.
    pub fn new(alloc: Global, keys: IdKeys) -> Result<Trial, AllocError>
        ensures { IfOk result (λ trial. trial ≡ nothing_held) }
    {
        let kept = Kept::new(alloc, Replica::with_keys(alloc, keys))?;
        Ok(Trial { alloc, kept })
    }

    /// What it holds, with its instabilities. Nothing is pinned.
    pub fn kept(&self) -> &Kept
        ensures replica { result.now.replica ≡ self.now }
        ensures pins { result.now.pins ≡ [] }
        ensures valid { IsValid self.now }
    {
        self.is_valid();
        &self.kept
    }

    // It says to proofs that what it holds is valid, and does nothing.
    #[inline(always)]
    pub(crate) fn is_valid(&self)
        ensures { IsValid self.now }
    {
        self.kept.replica().is_valid();
    }

    /// Takes a message in, whole or not at all. It costs what the message says and what that changes, and a copy of the
    /// instabilities that there are.
    ///
    /// Refuses the first fault of the bytes as [`Refusal::Message`], then that of what they say as [`Refusal::Part`].
    /// Want of memory never stands for a fault of the bytes. What is refused leaves all as it was.
    pub fn take(&mut self, bytes: &[u8]) -> Result<Taken, Refusal>
        ensures answer { TakeAnswer self.old bytes.now result self.new }
        ensures unchanged { OnErr result (self.new ≡ self.old) }
        ensures valid { IsValid self.old }
    {
        take_in(&mut self.kept, self.alloc, bytes)
    }
}

// Takes a message in.
fn take_in(kept: &mut Kept, alloc: Global, bytes: &[u8]) -> Result<Taken, Refusal>
    ensures answer { TakeAnswer kept.old.replica bytes.now result kept.new.replica }
    ensures pins { kept.new.pins ≡ kept.old.pins }
    ensures valid { IsValid kept.old.replica }
{
    match Message::part_at(alloc, kept.replica(), bytes) {
        Ok(part) => absorb(kept, part),
        Err(error) => Err(error.into()),
    }
}

// Absorbs the part of a message.
fn absorb(kept: &mut Kept, part: Part) -> Result<Taken, Refusal>
    ensures answer { AbsorbsPart kept.old.replica part result kept.new.replica }
    ensures pins { kept.new.pins ≡ kept.old.pins }
{
    let before = match kept.instabilities().copy() {
        Ok(before) => before,
        Err(AllocError) => return Err(Refusal::NoMemory),
    };
    match kept.absorb_owned(part) {
        Ok(change) => Ok(Taken { change, before }),
        Err(fault) => Err(fault.into()),
    }
}
