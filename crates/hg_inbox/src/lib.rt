//! Inboxes that threads share, in which they leave each other messages.
//!
//! Any number of threads put messages into an [`Inbox`] and take messages out of it, each by a [`Seat`] of its own. No
//! thread locks another out, and no message is copied.
//!
//! The accepted puts of an inbox are numbered from 0, with no number left out, and so are the takes that give a
//! message. A take gives the message of the put with its number. So messages come out in the order in which they were
//! put in, each once, whichever threads put and take them.
//!
//! A seat knows its own puts and takes, each under its number; the numbers ascend in the order of its calls. No thread
//! sees more than that while others put and take. [`Inbox::close`], which all seats come back for, sees everything: the
//! puts of all seats, by their numbers, are one list; their takes are the front of it; and what is given back is the
//! rest of it, in order.
//!
//! [`Inbox::put`] refuses only where the inbox held as many messages as it may at one moment of the call, and hands the
//! message back. [`Inbox::take`] gives none only where the inbox was empty at one moment of the call.
//!
//! All of it holds for up to 2^62 puts. The calls past them wait for ever.
//!
//! # Example
//!
//! ```text
//! fn carry<R: Wait>(rt: &R, alloc: Global, message: Vec<u8>) -> Result<Option<Vec<u8>>, InboxRefusal> {
//!     // Room for four messages, and a seat for each caller. From here on threads may share the inbox.
//!     let mut inbox = Inbox::new(alloc, 4)?;
//!     let mut sender = inbox.seat()?;
//!     let mut receiver = inbox.seat()?;
//!     // Where the inbox is full, the message comes back. Here it is let go.
//!     drop(inbox.put(rt, &mut sender, message));
//!     // The message; or none, where none lies in the inbox.
//!     Ok(inbox.take(rt, &mut receiver))
//! }
//! ```
//!
//! # What is not promised
//!
//! [`Inbox::put`], [`Inbox::take`] and [`Inbox::close`] may wait for a thread that was stopped in the midst of its own
//! call, so no contract says that they return. Nor can a contract tell a refusal that had to be from one that had not:
//! what was so at one moment of a call leaves no trace. That `put` succeeds where there is room, that `take` gives a
//! message where there is one, and that `close` succeeds where there is memory, is for tests.
#![tactic(auto)]

mod inbox;
mod refusal;
mod rule;
mod steps;

pub use inbox::{Inbox, SEAT_LIMIT, Seat, Unclosed};
pub use refusal::{Full, InboxRefusal};
