//! What ends a script at a command, whichever its line is.
ghost use Rattle.std.specs.Prelude.{◌≡◌};
ghost use Rattle.hg_line.specs.declared.command_fault.CommandFault.TheVariants.{NoMemory};
ghost use Rattle.hg_line.specs.Faults.{at_line};

use crate::fault::{LineFault, RunFault};
use std::alloc::{AllocError, AllocFailed};

/// Why a script ends at a command: by a name of it, a write that failed, or want of memory.
#[derive(Clone, Copy, PartialEq, Eq, Debug)]
pub enum CommandFault {
    Name(LineFault),
    Write,
    NoMemory,
}

impl CommandFault {
    /// What ends the script, where the command is that of the line with this number.
    pub fn at_line(self, number: usize) -> RunFault
        ensures { result ≡ at_line number self }
    {
        match self {
            CommandFault::Name(fault) => RunFault::Line(number, fault),
            CommandFault::Write => RunFault::Write,
            CommandFault::NoMemory => RunFault::NoMemory,
        }
    }
}

impl From<AllocError> for CommandFault {
    ghost from_gives = { λ _ e. e ≡ NoMemory };

    fn from(_error: AllocError) -> CommandFault {
        CommandFault::NoMemory
    }
}

impl<T: Drop> From<AllocFailed<T>> for CommandFault {
    ghost from_gives = { λ _ e. e ≡ NoMemory };

    fn from(_error: AllocFailed<T>) -> CommandFault {
        CommandFault::NoMemory
    }
}

impl From<hg_join::NoMemory> for CommandFault {
    ghost from_gives = { λ _ e. e ≡ NoMemory };

    fn from(_error: hg_join::NoMemory) -> CommandFault {
        CommandFault::NoMemory
    }
}
