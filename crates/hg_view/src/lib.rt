//! Views: which changesets are shown, and which are given to others.
//!
//! An obsolete changeset is hidden, unless something that isn't obsolete stands on it. What is visible and not secret
//! is served: others may be told of it. A node may pin what something of its own stands on: that stays in view, with
//! its ancestors, though it is obsolete. What is hidden can still be shared: [`share`] tells all that isn't secret.
//!
//! Views are found from a replica and pins alone. Who keeps its instabilities beside it, and what its pins uphold, as
//! [`Kept`] does, asks of one changeset by three look-ups whether it is visible, and by a few more all that is so of it
//! ([`Status`]).
//!
//! # Example
//!
//! ```text
//! fn move_bookmark(kept: &mut Kept, from: Node, to: Node) -> Result<bool, PinRefusal> {
//!     // What isn't held is refused as `PinRefusal::Unknown`, and nothing has changed.
//!     kept.pin(to)?;
//!     // It is visible now, obsolete or not, and so are its ancestors. `kept.is_served(to)` says whether others are
//!     // given it too, which they aren't where it is secret.
//!     // A node without a pin is refused as `PinRefusal::NotPinned`. The new pin stays then.
//!     kept.unpin(from)?;
//!     // The old place is visible still where it, or a descendant, isn't obsolete or is pinned.
//!     Ok(kept.is_visible(from))
//! }
//! ```
#![tactic(auto)]

mod above;
mod head_places;
mod head_updates;
mod heads;
mod kept;
mod laws;
mod pins;
mod refusal;
mod released;
mod shared;
mod shown;
mod status;
mod upheld;
mod view;

pub use above::places_above;
pub use kept::Kept;
pub use laws::{
    hidden_is_extinct, no_pins_change_no_view, pins_only_add_to_what_is_visible,
    states_of_one_content_have_the_same_views,
    states_of_one_content_have_the_same_views_under_pins,
    views_hold_the_ancestors_of_their_members,
    views_under_pins_hold_the_ancestors_of_their_members, what_is_hidden_under_pins_is_extinct,
    what_pins_uphold_is_visible,
};
pub use pins::Pins;
pub use refusal::PinRefusal;
pub use shared::{share, shared_marks};
pub use shown::is_visible;
pub use status::Status;
pub use view::{served, served_marks, visible};
