//! One journal that threads share, and its beginnings.
//!
//! A [`Journal`] is a list of entries that only grows, and only by whoever has it. A [`Front`] is a beginning of it
//! that was seen, and may lie anywhere: of two fronts of one journal the one that is no longer begins the other. The
//! entries exist in the proofs alone; what is stored of a journal and of a front is a count.
//!
//! # Example
//!
//! ```text
//! fn record<K: JournalName>(opened: Opened<u64>) -> (Front<K, u64>, bool)
//!     requires { opened ≡ K.book }
//! {
//!     // No entry yet. The caller has it from Opened::new, and picks its name by the call `record::<Brand>(opened)`.
//!     let mut journal = opened.named::<K>();
//!     let none = journal.front();
//!     // Adds an entry and gives it back. The two fronts, here twice the same, begin the journal as it was before.
//!     let seven = journal.extend(&none, &none, 7);
//!     let one = journal.front();
//!     // Only who has the journal can add to it. Now it is 7, 7.
//!     journal.extend(&none, &one, seven);
//!     // The longer of two fronts, which the other begins: this one has two entries.
//!     let two = one.longer(&journal.front());
//!     // True: the front that is no longer begins the other.
//!     let begins = none.begins(&two);
//!     (two, begins)
//! }
//! ```
#![tactic(auto)]

mod front;
mod journal;
mod name;
mod rule;

pub use front::Front;
pub use journal::{Journal, Opened};
pub use name::JournalName;
