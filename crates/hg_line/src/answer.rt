//! What a script goes on from: answers of its world.
ghost use Rattle.std.specs.Prelude.{◌≡◌, IfErr, IsSome, OnOk};
ghost use Rattle.hg_fleet.specs.Pulls.{IsAbsence, TellsAbsence, answers_of};
ghost use Rattle.hg_line.specs.Events.{ArePrinted, HasNumber, IsPrinted, IsUnknownWhere, TellAbsence};

use crate::command_fault::CommandFault;
use crate::fault::LineFault;
use hg_fleet::{PeerAnswer, Pulled};
use hg_history::Fault;
use hg_peer::PeerRefusal;
use hg_world::{Answer, EventRefusal};

/// Lets a script go on from what a pull was answered. What is absent is the fault `UnknownName`, and want of memory is
/// `NoMemory`.
pub fn check_pulled(pulled: &Pulled) -> Result<(), CommandFault>
    ensures printed { OnOk result (ArePrinted (answers_of pulled.now)) }
    ensures fault { IfErr result (IsUnknownWhere (TellAbsence (answers_of pulled.now))) }
{
    check_printed(&pulled.offered)?;
    match &pulled.taken {
        Some(answer) => check_printed(answer),
        None => Ok(()),
    }
}

/// Lets a script go on from an answer: the event was done, or refused for a reason that is printed. What is absent is
/// the fault `UnknownName`, and want of memory is `NoMemory`.
pub fn check_printed(answer: &PeerAnswer) -> Result<(), CommandFault>
    ensures printed { OnOk result (IsPrinted answer.now) }
    ensures fault { IfErr result (IsUnknownWhere (TellsAbsence answer.now)) }
{
    match answer {
        Answer::Refused(refusal) => check_numbered(refusal),
        Answer::Accepted(_) => Ok(()),
        Answer::Offered(_) => Ok(()),
        Answer::Marked => Ok(()),
    }
}

// What is absent ends the script as an unknown name, and want of memory as itself. Any other refusal has a number.
fn check_numbered(refusal: &EventRefusal<PeerRefusal, Fault>) -> Result<(), CommandFault>
    ensures ok { OnOk result (HasNumber refusal.now) }
    ensures err { IfErr result (IsUnknownWhere (IsAbsence refusal.now)) }
{
    match refusal {
        EventRefusal::ByActor(refusal) => check_number(refusal.number()),
        EventRefusal::ByState(fault) => check_number(fault.number()),
        EventRefusal::NoNode => Err(CommandFault::Name(LineFault::UnknownName)),
        EventRefusal::NoMessage => Err(CommandFault::Name(LineFault::UnknownName)),
    }
}

fn check_number(number: Option<u8>) -> Result<(), CommandFault>
    ensures ok { OnOk result (IsSome number) }
    ensures err { IfErr result (λ fault. fault ≡ CommandFault.NoMemory) }
{
    match number {
        Some(_) => Ok(()),
        None => Err(CommandFault::NoMemory),
    }
}
