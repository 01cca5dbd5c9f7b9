//! Nodes that threads share, each a replica with a lock of its own.
//!
//! A [`Node`] is opened from a [`Blank`], which a replica was handed to, under a name that the call picks for it. A
//! thread uses it by a [`Pass`] of its own, of which 16 may be out at a time:
//!
//! ```text
//! fn work<K: NodeName, R: Wait>(rt: &R, node: &Node<K, OpenGate, Writer<K, &R>>, pass: &mut Pass<K>, op: &Op, id: Id)
//!     -> bool
//! {
//!     match node.local(rt, pass, op) {
//!         // The operation's part is in the journal, and all that was accepted before it. This pass sees it now.
//!         // A look is through the pass alone, so it is no matter what the node's gate is and what it is written by.
//!         Ok(Accepted::Shown) => Node::<K, (), ()>::read(pass, id).is_ok(),
//!         // It is in the journal, but memory was wanting to publish it. The next call does that, too.
//!         Ok(Accepted::Later) => true,
//!         // Nothing changed.
//!         Err(_) => false,
//!     }
//! }
//! ```
//!
//! What a node accepts, one [`Entry`] after the other, is its journal: the parts of operations and of messages, and the
//! marks of pins. [`Node::local`], [`Node::take`], [`Node::pin`] and [`Node::unpin`] work at the newest state, under
//! the lock; [`Node::read`], [`Node::known`] and [`Node::offer`] answer from the state that was published last, without
//! the lock, and wait for nobody.
//!
//! What a pass has seen, and what it was told, are beginnings of the one journal. So:
//!
//! - An accepted call tells its pass a list that ends with its own entry, decided at the state that the list without it
//!   leads to. That list began with all that the pass had seen or been told.
//! - A look answers from the state that a list leads to, which begins with all that the pass had seen. So what a pass
//!   sees never goes back, and whoever saw its own call answered [`Accepted::Shown`] finds it.
//! - After [`Node::meet`] two passes have seen one list, and were told one list.
//! - [`Node::close`], which needs all passes whose calls were accepted, gives the replica that a list leads to which
//!   begins with all that each of them had seen or been told, and has as many entries as these passes count accepted
//!   calls: nothing entered the journal unasked.
//!
//! Messages go from node to node by any means. An [`Inbox`], which threads share too, is one.
//!
//! The state that entries lead to is the least one above what the node opened with that covers their parts
//! ([`states_are_least`]), and an accepted call is a step of a world of one peer ([`calls_are_steps_of_a_peer`]).
//!
//! # What is not promised
//!
//! The calls of a node that take its lock wait for whoever has it, and publishing waits for readers of what is no
//! longer published. To drop a node, or to close it with success, waits for whoever is inside a look at it. So no
//! contract says that these return. A look waits for nobody, and that it returns is proved. Nothing is said of the
//! order of two calls of passes that told each other nothing. That [`Accepted::Later`] comes only where memory was
//! wanting, and a pass is refused only where there are 16, is for tests.
#![tactic(auto)]

mod answer;
mod desk;
mod entry;
mod gate;
mod laws;
mod limits;
mod name;
mod node;
mod pass;
mod store;

pub use answer::{Accepted, CallRefusal, CloseRefusal, LookRefusal, NoPass, NotOffered};
pub use desk::Desk;
pub use entry::Entry;
pub use gate::{Gate, OpenGate};
pub use hg_inbox::{Full, Inbox, InboxRefusal, Seat, Unclosed as UnclosedInbox};
pub use hg_view::Status;
pub use laws::{calls_are_steps_of_a_peer, states_are_least};
pub use limits::{CALL_LIMIT, PASS_LIMIT};
pub use name::NodeName;
pub use node::{Blank, Node, Unclosed as UnclosedNode};
pub use pass::Pass;
pub use store::{Published, Publisher, Step, Writer};
