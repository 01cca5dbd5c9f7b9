//! Worked rows: values, bytes and answers that were worked out by hand, or by another program, before there was any
//! code, and the calls that have to give them. Each is run literally, as a caller from outside runs it, so that one can
//! read what a call is for, and see that it comes. Nothing here is refused memory but where a test says so.
//!
//! A row that a script can ask is no test but a case of `examples/`. The rows of nodes and inboxes, which threads
//! share, are in `hg_live_tests`, with those of kept sets beside sets from scratch. Those of sets of ids and of the
//! longest text are in `hg_history_tests`, that of 3,000 markers is in `hg_replica_tests`, that of a long chain's
//! discovery in `hg_peer_tests`, and most of those of refused growth are in these three. No row is left out for the
//! time that its proof takes.
#![tactic(auto)]

#[cfg(test)]
mod calls;
#[cfg(test)]
mod cycles;
#[cfg(test)]
mod discoveries;
#[cfg(test)]
mod entries;
#[cfg(test)]
mod faults;
#[cfg(test)]
mod forms;
#[cfg(test)]
mod making;
#[cfg(test)]
mod markers;
#[cfg(test)]
mod messages;
#[cfg(test)]
mod replicas;
#[cfg(test)]
mod roots;
#[cfg(test)]
mod splits;
#[cfg(test)]
mod states;
#[cfg(test)]
mod successors;
#[cfg(test)]
mod worlds;
