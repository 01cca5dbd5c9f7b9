//! Tests of `hg_live`, `hg_inbox` and `hg_script`, as a caller from outside sees them. A race is a case of `examples/`.
#![tactic(auto)]

#[cfg(test)]
mod crowded;
#[cfg(test)]
mod inboxes;
#[cfg(test)]
mod kept;
#[cfg(test)]
mod making;
#[cfg(test)]
mod passes;
#[cfg(test)]
mod refusals;
#[cfg(test)]
mod scripts;
#[cfg(test)]
mod shared;
#[cfg(test)]
mod starved;
#[cfg(test)]
mod streams;
