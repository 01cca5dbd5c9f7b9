//! Tests of `hg_join`, `hg_world` and `hg_journal`, as a caller from outside sees them, with a small state that acts,
//! [`Prices`].
#![tactic(auto)]

#[cfg(test)]
mod beginnings;
mod prices;
#[cfg(test)]
mod states;
#[cfg(test)]
mod worlds;

pub use prices::{PriceRefusal, Prices, Quotes};
