//! A race of nodes in a ring, which shows that threads may share them.
//!
//! Each node has two threads, each with a pass of its own. The first one writes: in each round it commits a changeset,
//! amends it, reads both back and puts an offer of all that its node serves into the inbox of the next node. The second
//! one takes in what lies in the node's own inbox. When both have ended their rounds, the node is closed; after that
//! the replicas of all nodes take what the one before holds, twice round the ring, and agree.
//!
//! # Example
//!
//! ```text
//! fn small_race<R: RandomSource + Threads + Wait + Sync>(rt: &R, alloc: Global) -> Result<Vec<u8>, RunFault> {
//!     let mut lines = Vec::new(alloc);
//!     // Two nodes, of two threads each, and three rounds. It waits until all threads have ended. A line that can't be
//!     // written ends it as `RunFault::Write`, a secret that can't be drawn as `RunFault::Read`, and want of memory as
//!     // `RunFault::NoMemory`.
//!     run_race(rt, alloc, 2, 3, &mut lines)?;
//!     // Five lines: `nodes 2`, `rounds 3`, `written 12`, `read back 12` and `agreeing pairs 1 of 1`. Proved is that
//!     // the nodes, the rounds and the number of all pairs are these. The other three come where memory isn't wanting.
//!     Ok(lines)
//! }
//! ```
#![tactic(auto)]

mod agreement;
mod author;
mod race;
mod racer;
mod result;
mod rounds;
mod seating;
mod station;
mod taking;

pub use agreement::share_in_ring;
pub use race::run_race;
