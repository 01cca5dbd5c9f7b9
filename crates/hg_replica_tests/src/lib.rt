//! Tests of `hg_replica`, `hg_succ`, `hg_instab` and `hg_view`, as a caller from outside sees them, with what compares
//! sets of instabilities.
#![tactic(auto)]

#[cfg(test)]
mod halves;
#[cfg(test)]
mod instabilities;
#[cfg(test)]
mod parts;
#[cfg(test)]
mod replicas;
mod same;
#[cfg(test)]
mod successors;

pub use same::{are_same, has_exactly, is_up_to_date};
