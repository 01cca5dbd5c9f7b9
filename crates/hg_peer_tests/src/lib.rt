//! Tests of `hg_message`, `hg_discovery`, `hg_rewrite`, `hg_peer`, `hg_trial`, `hg_log`, `hg_why`, `hg_preview` and
//! `hg_show`, as a caller from outside sees them: messages, what two replicas have in common, operations, worlds of
//! peers, what becomes of a repository that takes messages in, drawings, why changesets are unstable, in what two
//! repositories differ, and what bytes are shown as.
#![tactic(auto)]

#[cfg(test)]
mod calls;
#[cfg(test)]
mod comparisons;
#[cfg(test)]
mod discovery;
#[cfg(test)]
mod drawings;
#[cfg(test)]
mod exchanges;
#[cfg(test)]
mod offers;
#[cfg(test)]
mod rewrites;
#[cfg(test)]
mod rows;
#[cfg(test)]
mod scene;
#[cfg(test)]
mod showing;
#[cfg(test)]
mod states;
#[cfg(test)]
mod trials;
#[cfg(test)]
mod unstable;
#[cfg(test)]
mod writing;
