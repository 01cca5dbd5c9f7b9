//! Why a message isn't taken.
ghost use Rattle.std.specs.Prelude.{◌≡◌};
ghost use Rattle.hg_trial.specs.Refusals.{read_refusal, part_refusal};
ghost use Rattle.hg_trial.specs.declared.refusal.Refusal.TheVariants.{NoMemory as OutOfMemory};

use hg_history::Fault;
use hg_marker::ReadError;
use hg_message::MessageFault;
use std::alloc::AllocError;

/// Why a message isn't taken. What takes it stays as it was.
#[derive(Clone, Copy, PartialEq, Eq, Debug)]
pub enum Refusal {
    /// The bytes are no message: their first fault from the front.
    Message(MessageFault),
    /// What the message says can't be taken in: its first fault.
    Part(Fault),
    /// Memory was wanting.
    NoMemory,
}

impl From<ReadError<MessageFault>> for Refusal {
    ghost from_gives = { λ error e. e ≡ read_refusal error };

    fn from(error: ReadError<MessageFault>) -> Refusal {
        match error {
            ReadError::Fault(fault) => Refusal::Message(fault),
            ReadError::NoMemory => Refusal::NoMemory,
        }
    }
}

impl From<Fault> for Refusal {
    ghost from_gives = { λ fault e. e ≡ part_refusal fault };

    fn from(fault: Fault) -> Refusal {
        match fault {
            Fault::NoMemory => Refusal::NoMemory,
            _ => Refusal::Part(fault),
        }
    }
}

impl From<AllocError> for Refusal {
    ghost from_gives = { λ _ e. e ≡ OutOfMemory };

    fn from(_error: AllocError) -> Refusal {
        Refusal::NoMemory
    }
}
