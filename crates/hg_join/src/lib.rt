//! States that join: what a node of a fleet holds, and may tell to others in any order.
//!
//! A state grows in two ways and never shrinks. It absorbs *parts*, which its owner makes or which other nodes
//! send, and it *joins* whole states. To absorb a part is to go to the least valid state above that covers the
//! part; to join a state is to go to the least valid state above both. So it does not matter in which order parts
//! come, nor how often: nodes that cover what the others took in hold one content. [`JoinState`] says that by
//! contracts and laws, and the functions of this crate's root (as [`covering_is_agreeing`]) what follows for whole
//! lists of parts.
//!
//! # A state of one's own
//!
//! [`LowMap`] is the plain example: from keys to the lowest number that was given to each. This is how its members
//! are chosen, and how to choose those of another state.
//!
//! 1. **What states are equal.** `content` gives what a state says, free of how and in what order it is kept, since
//!    two states that are below each other have to have one content. `LowMap` keeps a tree; its content is the
//!    function from each key to its number, if it has one: `K → Option ℕ`. A state that keeps a list in the order
//!    in which things came takes the function from each thing's name to what is held under it. `IsValid` says which
//!    contents some state may have (for `LowMap` all).
//! 2. **When a state says more than another.** `Below a b`: `b` says all that `a` says. For `LowMap`, `LowsBelow`:
//!    each key of `a` is a key of `b`, with a number as low.
//! 3. **What parts say.** `part_content` gives what of a part matters, `Covers a p` that `a` says all of it
//!    already. For `LowMap` the pairs, and `LowsCover`: each pair's key is there with a number as low.
//! 4. **What growing leaves.** `After` and `Joined` say it by a formula, not by the code and not as "the least":
//!    `LowsAfter` takes the lower of what was there and of the lowest that the pairs give, and `LowsJoined` the
//!    lower of both sides. The laws `absorbed` and `least` then say that this is the least.
//!    `Tells` is of states: what the change says of what the part did, as the places of what came, and the order in
//!    which the state keeps it. `LowMap` keeps no order, and its change says nothing.
//! 5. **What is refused.** `Admits`, `IsFirstFault` and `Collides` say which parts and states can't be taken, and
//!    why. `LowMap` takes all, so its `Admits` always holds and the other two never do.
//! 6. **The laws.** Prove `ordered`, `stays_covered` and `absorbed` first: from these three, the lemmas
//!    `again_by_least` and `swap_by_least` of `specs/Order.antt` give `again` and `swap`.
//! 7. **The code.** Do what can be refused first, or keep what undoes it: `LowMap` notes in a log what each key had,
//!    and puts it back, the last first, where memory runs out half way. So a call costs about what it is given.
//!    `absorb_owned` takes a part that nobody needs any more. Write it where a state keeps what its parts hold, and so
//!    can move that in; by default the part is absorbed and dropped.
//!
//! # What the laws can't say
//!
//! The laws bind only what the members say. A content of one point keeps them all, and so does a state that covers
//! nothing and refuses everything. So choose members that tell states apart, as named definitions that a reader can
//! judge:
//!
//! - Two states whose calls can answer differently have different contents (`LowMap::get` is a function of the
//!   content), and `Below` is no wider than "says no more than".
//! - `Covers` holds in each content that says all of the part, and in no other. A covered part is admitted
//!   (`covered_is_admitted`), so covering what one refuses is impossible.
//! - `Joined` has an outcome for all but those that collide, and those have no valid content above both
//!   (`collides_for_good`), so a collision is no excuse for a join that could have been.
//! - `IsWantOfMemory` holds of the faults that say so, and of no fault that says more (`memory_is_no_fault`,
//!   `memory_is_no_collision`). So what succeeds was not refused, and what is refused was at fault.
//! - A law ranges over every value of `PartContent`, and not only over what parts of the program have. What a law
//!   needs to know of a part stands in `Admits`, or is no part of `PartContent`.
//!
//! [`Both`] puts two states side by side, each with its own laws.
//!
//! # States that act
//!
//! An [`Actor`] is a state that also decides what its owner asks for, offers what it holds as bytes, and reads what
//! others offered. Each of that gives a part or bytes and changes nothing, so that all a node ever does to what its
//! state says is to absorb. Beside that a state may have something of its own, as what its owner looks at, which a mark
//! changes and no other node hears of. What follows for many nodes that exchange messages is proved once for all of
//! them, in `hg_world`.
//!
//! `Prices` of the crate `hg_join_tests` is the plain example: over a [`LowMap`], the lowest price that was heard of
//! for each item. It is told of a price, tells others the prices of some items, and hears of theirs. Its own is the
//! item that it keeps back from others, if there is one.
//!
//! 1. **What an operation comes to.** `Decides s op p` gives the part by a formula over what the state says, so that
//!    states with one content decide alike (`decided_once`). For `Prices`, `Lowers`: a quote below the price that is
//!    held is the part with that one quote. The part has to be admitted where it was decided, so that an operation is
//!    refused as a whole, before anything changed.
//! 2. **What is refused, and why.** `IsAgainstOp`, `IsAgainstAsk` and `IsAgainstBytes` are the reasons, and a refusal
//!    that is none of them says that memory ran out (`IsRefusalOfMemory`). No reason stands against what succeeds, and
//!    there is always a part or a reason (the clauses `due`). So write a reason as the denial of what `Decides` asks:
//!    `IsAgainstQuote` holds of the quotes that lower nothing. Where several reasons apply, give the first.
//! 3. **What bytes spell.** `Spells bytes p` is the format, as a relation: for `Prices`, `AreBytesOf`, each item with
//!    its price after it. Bytes spell one part (`spelled_once`); a part may be spelled in several ways. Write `read_at`
//!    where what a state holds already can spare it work as it reads; by default that is `read`. To `take` bytes in is
//!    to read and absorb them. Write it where a state need not absorb what it holds already.
//! 4. **What is offered.** `Offers s ask bytes` gives one message for each state and ask. States with one content may
//!    spell it differently, as where it follows the order in which they keep things, but then it says the same
//!    (`offered_alike`). It can be read, and says no more than the state says (`offered_is_covered`): nothing is
//!    invented, and [`offers_are_known`] says what follows. `Prices` offers the quotes of those of the asked items that
//!    have a price, so it has no reason against an ask.
//! 5. **What is the state's own.** `owned` gives what a mark changes, free of order, as `content` gives what a state
//!    says; for `Prices` the item that is kept back. `own_of_empty` is what it is before the first mark; for `Prices`
//!    no item. What absorbing a part tells has to say that it leaves that (`told_leaves_own`), and a mark leaves the
//!    content (`marked_says_the_same`). Where it changes what is decided or offered, as at `Prices` what is offered,
//!    the laws of deciding and offering take it as a premise beside the content. A state without anything of its own
//!    has a mark of one value, which changes nothing.
//! 6. **Parts that no code made.** The clauses `due` hold also where memory ran out, so they speak of parts that no
//!    code made. Let contracts see a part as a plain value: `Quotes` is a list to them, while a `Vec` also has room and
//!    an address, which no formula gives.
//! 7. **Invariants.** A law ranges over every value that contracts see as a state, and not only over those that its
//!    type admits. Where a law needs the type's invariant, say in `Decides`, in `Offers` and in the reasons that it
//!    holds; the methods know it, and each clause can hand it on.
//!
//! The laws of acting have their limits too. An actor that has a reason against each operation, each ask, each mark and
//! all bytes keeps them, and so does code that always answers want of memory. The former shows in the definitions, and
//! the latter is for tests: call each method once with ample memory.
//!
//! # Example
//!
//! ```text
//! fn lowest(
//!     alloc: Global,
//!     heard: &Vec<(u32, u8)>,
//!     other: &LowMap<u32>,
//! ) -> Result<(LowMap<u32>, bool), NoMemory> {
//!     let mut lows = LowMap::new(alloc);
//!     // Each key has the lowest number that was given to it. Where memory runs out the map stays as it was.
//!     lows.absorb(heard)?;
//!     // The lower of both sides at each key. In the other order these two calls leave the same.
//!     lows.join(other)?;
//!     // What came before changes nothing when it comes again.
//!     lows.absorb(heard)?;
//!     // True: the map says all that the other says, and whatever it takes in later it still will.
//!     let is_covered = other.below(&lows)?;
//!     Ok((lows, is_covered))
//! }
//! ```
#![tactic(auto)]

mod absorbed;
mod actor;
mod both;
mod laws;
mod low_map;
mod memory;
mod state;

pub use absorbed::Absorbed;
pub use actor::Actor;
pub use both::{Both, BothFault};
pub use laws::{
    covering_is_agreeing, each_is_least, joined_is_least, least_is_agreeing, offers_are_known,
    one_outcome,
};
pub use low_map::LowMap;
pub use memory::NoMemory;
pub use state::JoinState;
