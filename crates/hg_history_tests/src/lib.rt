//! Tests of what replicas are made of, as a caller from outside sees it: `hg_changeset`, `hg_node_set`, `hg_graph`,
//! `hg_phaseroots`, `hg_marker`, `hg_obsstore` and `hg_relevant`; and of `hg_names`.
#![tactic(auto)]

#[cfg(test)]
mod changesets;
#[cfg(test)]
mod graphs;
#[cfg(test)]
mod markers;
#[cfg(test)]
mod names;
#[cfg(test)]
mod node_sets;
#[cfg(test)]
mod nodes;
#[cfg(test)]
mod phase_roots;
#[cfg(test)]
mod relevant;
#[cfg(test)]
mod stores;
