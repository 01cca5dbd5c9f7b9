//! Why a command ended early.
ghost use Rattle.std.specs.Prelude.{◌≡◌, ◌↔◌, IsTrue};
ghost use Rattle.hgfleet.specs.Commands.{IsWriteFailure, failure_status};

use crate::files::FileFault;
use hg_log::DrawFault;
use hg_obsstore::StoreFault;
use hg_script::{NotedFault, RunFault};
use hg_show::{ShowFault, WriteFault};
use std::alloc::{AllocError, AllocFailed};
use std::fmt;

/// Why a command ended early. What was printed before stays.
#[derive(Debug, Drop)]
pub enum Failure<'a> {
    /// What ended a script, a race, a drawing, or the writing of bytes.
    Run(RunFault),
    /// What ended a script with notes.
    Noted(NotedFault),
    /// So many lines of a strict run were refused.
    Refused(usize),
    /// Why bytes weren't shown.
    Show(ShowFault),
    /// The script leaves no changeset, or no message, of this name.
    UnknownName(&'a str),
    /// The script leaves no node of this name; those that it leaves are listed.
    UnknownNode(&'a str, Vec<u8>),
    /// The script has so many lines, and not the one behind which it is shown.
    FewLines(usize),
    /// The file of this name wasn't read, or written.
    File(&'a str, FileFault),
    /// A message of files was refused; what all were answered, where that isn't told otherwise.
    NotTaken(Vec<u8>),
    /// Two repositories differ.
    Differ,
    /// Of so many lines of a script something else is expected than they print.
    Unmet(usize),
    /// Nobody reads what is written any more, so that isn't told.
    OutputClosed,
}

impl Failure<'_> {
    /// The exit status.
    pub fn status(&self) -> u8
        ensures { result ≡ failure_status self.now }
    {
        match self {
            Failure::Run(fault) => fault.status(),
            Failure::Noted(fault) => fault.status(),
            Failure::Refused(_) => 1,
            Failure::Show(fault) => fault.status(),
            Failure::UnknownName(_) => 1,
            Failure::UnknownNode(_, _) => 1,
            Failure::FewLines(_) => 1,
            Failure::File(_, _) => 1,
            Failure::NotTaken(_) => 1,
            Failure::Differ => 1,
            Failure::Unmet(_) => 1,
            Failure::OutputClosed => 1,
        }
    }

    /// Whether a text couldn't be written.
    pub fn is_unwritten(&self) -> bool
        ensures { IsTrue result ↔ IsWriteFailure self.now }
    {
        match self {
            Failure::Run(fault) => *fault == RunFault::Write,
            Failure::Noted(noted) => noted.fault == RunFault::Write,
            Failure::Show(ShowFault::Write) => true,
            _ => false,
        }
    }
}

impl fmt::Display for Failure<'_> {
    fn fmt<W: fmt::Write>(&self, f: &mut fmt::Formatter<W>) -> fmt::Result {
        match self {
            Failure::Run(fault) => write!(f, "{fault}"),
            Failure::Noted(fault) => write!(f, "{fault}"),
            Failure::Refused(1) => write!(f, "hgfleet: 1 line was refused"),
            Failure::Refused(count) => write!(f, "hgfleet: {count} lines were refused"),
            Failure::Show(ShowFault::Store(fault)) => {
                write!(f, "{}", ShowFault::Store(*fault))?;
                f.write_str(tip_of(*fault))
            }
            Failure::Show(fault) => write!(f, "{fault}"),
            Failure::UnknownName(name) => write!(f, "unknown name: {name}"),
            Failure::UnknownNode(name, nodes) => {
                write!(
                    f,
                    "unknown node: {name}; the script leaves {}",
                    nodes.escape_ascii()
                )
            }
            Failure::FewLines(1) => write!(f, "hgfleet: the script has 1 line"),
            Failure::FewLines(count) => write!(f, "hgfleet: the script has {count} lines"),
            Failure::File(name, fault) => write!(f, "{name}: {fault}"),
            Failure::NotTaken(told) => {
                f.write_str(str::from_utf8(told).unwrap_or(""))?;
                write!(f, "hgfleet: a message was refused")
            }
            Failure::Differ => write!(f, "hgfleet: the repositories differ"),
            Failure::Unmet(1) => write!(f, "hgfleet: 1 line differs"),
            Failure::Unmet(count) => write!(f, "hgfleet: {count} lines differ"),
            Failure::OutputClosed => Ok(()),
        }
    }
}

// What helps where a store isn't read: a further line, or nothing.
fn tip_of(fault: StoreFault) -> &'static str {
    match fault {
        StoreFault::BadVersion(1) => {
            "\nhgfleet: Mercurial writes format 0 with --config format.obsstore-version=0; \
             tools/hg2fleet reads format 1"
        }
        _ => "",
    }
}

impl From<RunFault> for Failure<'_> {
    ghost use Rattle.hgfleet.specs.declared.failure.Failure.TheVariants.{Run};

    ghost from_gives = { λ fault e. e ≡ Run fault };

    fn from(fault: RunFault) -> Self {
        Failure::Run(fault)
    }
}

impl From<NotedFault> for Failure<'_> {
    ghost use Rattle.hgfleet.specs.declared.failure.Failure.TheVariants.{Noted};

    ghost from_gives = { λ noted e. e ≡ Noted noted };

    fn from(noted: NotedFault) -> Self {
        Failure::Noted(noted)
    }
}

impl From<ShowFault> for Failure<'_> {
    ghost use Rattle.hgfleet.specs.declared.failure.Failure.TheVariants.{Show};

    ghost from_gives = { λ fault e. e ≡ Show fault };

    fn from(fault: ShowFault) -> Self {
        Failure::Show(fault)
    }
}

impl From<WriteFault> for Failure<'_> {
    ghost use Rattle.hgfleet.specs.Commands.{IsOutputFailure};

    ghost from_gives = { λ _ e. IsOutputFailure e };

    fn from(fault: WriteFault) -> Self {
        match fault {
            WriteFault::Write => Failure::Run(RunFault::Write),
            WriteFault::NoMemory => Failure::Run(RunFault::NoMemory),
        }
    }
}

impl From<DrawFault> for Failure<'_> {
    ghost use Rattle.hgfleet.specs.Commands.{IsOutputFailure};

    ghost from_gives = { λ _ e. IsOutputFailure e };

    fn from(fault: DrawFault) -> Self {
        match fault {
            DrawFault::Write => Failure::Run(RunFault::Write),
            DrawFault::NoMemory => Failure::Run(RunFault::NoMemory),
        }
    }
}

impl From<AllocError> for Failure<'_> {
    ghost use Rattle.hgfleet.specs.Trying.{IsWantOfMemory};

    ghost from_gives = { λ _ e. IsWantOfMemory e };

    fn from(_error: AllocError) -> Self {
        Failure::Run(RunFault::NoMemory)
    }
}

impl<T: Drop> From<AllocFailed<T>> for Failure<'_> {
    ghost use Rattle.hgfleet.specs.Trying.{IsWantOfMemory};

    ghost from_gives = { λ _ e. IsWantOfMemory e };

    fn from(_error: AllocFailed<T>) -> Self {
        Failure::Run(RunFault::NoMemory)
    }
}
