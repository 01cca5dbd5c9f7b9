//! Why nothing of a message was taken.
ghost use Rattle.std.specs.Prelude.{OnOk};
ghost use Rattle.hg_log.specs.Drawings.{Extends};

use hg_changeset::Node;
use hg_log::push_short_id;
use hg_message::MessageFault;
use hg_trial::{Fault, Refusal};
use std::alloc::{AllocError, Global};

/// Appends why nothing was taken.
pub(crate) fn push_refusal(
    alloc: Global,
    line: &mut Vec<u8>,
    refusal: Refusal,
) -> Result<(), AllocError> {
    match refusal {
        Refusal::Message(fault) => push_message_fault(alloc, line, fault),
        Refusal::Part(Fault::UnknownParent(node)) => push_fault(line, b"unknown parent ", node),
        Refusal::Part(Fault::Collision(node)) => push_fault(line, b"another changeset is ", node),
        Refusal::Part(Fault::UnknownBound(node)) => {
            push_fault(line, b"phase of the unknown ", node)
        }
        Refusal::Part(Fault::NullBound) => line.extend_from_slice(b"phase of the null id"),
        Refusal::Part(Fault::NoMemory) | Refusal::NoMemory => line.extend_from_slice(b"no memory"),
    }
}

fn push_fault(line: &mut Vec<u8>, words: &[u8], node: Node) -> Result<(), AllocError> {
    line.extend_from_slice(words)?;
    push_short_id(line, node)
}

fn push_message_fault(
    alloc: Global,
    line: &mut Vec<u8>,
    fault: MessageFault,
) -> Result<(), AllocError> {
    let text = format!(in alloc; "no message: {} {fault}", fault.number())?;
    line.extend_from_slice(text.as_bytes())
}
