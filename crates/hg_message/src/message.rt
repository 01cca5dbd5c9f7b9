//! Messages.
ghost use Rattle.std.specs.Prelude.{◌≡◌, ◌<◌, [], IfOk, OnErr, IsErrOf, Ok, length, not, nat_lt};
ghost use Rattle.hg_marker.specs.Reading.{Gives};
ghost use Rattle.hg_obsstore.specs.Spelling.{store_spelling};
ghost use Rattle.hg_message.specs.Value.{MessageValue, IsMessage, message_of};
ghost use Rattle.hg_message.specs.Limits.{count_limit};
ghost use Rattle.hg_message.specs.Part.{part_of};
ghost use Rattle.hg_message.specs.Known.{PartAnswer};
ghost use Rattle.hg_message.specs.Message.{message_at};
ghost use Rattle.hg_message.specs.Spelling.{IsMessageSpelling, message_spelling};

use crate::copies::{copy_changesets, copy_markers, draft_bounds_onto};
use crate::error::{MessageError, MessageFault};
use crate::layout::split_message;
use crate::scope::Scope;
use crate::writing::write_message;
use hg_changeset::{Changeset, Node};
use hg_marker::{Marker, ReadError};
use hg_obsstore::markers_len;
use hg_phases::Phase;
use hg_replica::{Bounds, Part, Replica};
use std::alloc::{AllocError, Global};
use std::fmt;
use std::marker::Model;

/// The most records and bounds of a message, and the most bytes of its store.
pub(crate) const COUNT_LIMIT: usize = 4_294_967_295;

/// What one replica tells another: changesets, bounds on phases, and obsolescence markers, each in their order and as
/// often as they came, and which part of its history they are.
pub struct Message {
    scope: Scope,
    changesets: Vec<Changeset>,
    bounds: Vec<(Node, Phase)>,
    markers: Vec<Marker>,
}

// Whoever owns a message calls this once, and is proved without a look at each collection in it.
impl Drop for Message {
    fn drop(self) {
        let Message {
            scope: _,
            changesets: _,
            bounds: _,
            markers: _,
        } = self;
    }
}

impl Model for Message {
    ghost use Rattle.std.specs.Coded.{codes};
    ghost use Rattle.hg_marker.specs.Fields.{fields_code};
    ghost use Rattle.hg_message.specs.Value.{MessageValue, IsMessage};

    ghost Value = { MessageValue };

    ghost coded = { Prim.hlevel (codes, fields_code) };

    ghost view = { λ m. record {
      scope = m.scope;
      changesets = m.changesets.items;
      bounds = m.bounds.items;
      markers = m.markers.items;
    } };

    ghost invariant = { λ m. IsMessage (record {
      scope = m.scope;
      changesets = m.changesets.items;
      bounds = m.bounds.items;
      markers = m.markers.items;
    }) };
}

impl PartialEq for Message {
    ghost use Rattle.std.specs.Cmp.{partial_equiv_from_equiv};
    ghost use Rattle.hg_message.specs.Same.{same_message, message_equivalence};

    ghost eq = { same_message };

    ghost laws = { partial_equiv_from_equiv message_equivalence };

    #[tactic(auto, unfolding(crate::specs::Same::same_message))]
    fn eq(&self, other: &Message) -> bool {
        self.scope == other.scope
            && self.changesets == other.changesets
            && self.bounds == other.bounds
            && self.markers == other.markers
    }
}

impl Eq for Message {
    ghost use Rattle.hg_message.specs.Same.{message_equivalence};

    ghost laws = { message_equivalence };
}

impl fmt::Debug for Message {
    fn fmt<W: fmt::Write>(&self, f: &mut fmt::Formatter<W>) -> fmt::Result {
        f.debug_struct("Message")
            .field("scope", &self.scope)
            .field("changesets", &self.changesets)
            .field("bounds", &self.bounds)
            .field("markers", &self.markers)
            .finish()
    }
}

impl Message {
    /// The message of these. Repeats stand.
    ///
    /// Refuses [`MessageError::TooLarge`] alone.
    pub fn new(
        scope: Scope,
        changesets: Vec<Changeset>,
        bounds: Vec<(Node, Phase)>,
        markers: Vec<Marker>,
    ) -> Result<Message, MessageError>
        ensures { result ≡ message_of (record {
          scope = scope;
          changesets = changesets.items;
          bounds = bounds.items;
          markers = markers.items;
        }) }
    {
        if changesets.len() > COUNT_LIMIT || bounds.len() > COUNT_LIMIT || !fit(&markers) {
            return Err(MessageError::TooLarge);
        }
        Ok(Message {
            scope,
            changesets,
            bounds,
            markers,
        })
    }

    // The message of this scope that says nothing. It takes no memory.
    pub(crate) fn nothing(alloc: Global, scope: Scope) -> Message
        ensures { result ≡ record { scope = scope; changesets = []; bounds = []; markers = [] } }
    {
        Message::of_parts(scope, Vec::new(alloc), Vec::new(alloc), Vec::new(alloc))
    }

    // The message of parts that were read.
    pub(crate) fn of_parts(
        scope: Scope,
        changesets: Vec<Changeset>,
        bounds: Vec<(Node, Phase)>,
        markers: Vec<Marker>,
    ) -> Message
        requires { IsMessage (record {
          scope = scope;
          changesets = changesets.items;
          bounds = bounds.items;
          markers = markers.items;
        }) }
        ensures { result ≡ record {
          scope = scope;
          changesets = changesets.items;
          bounds = bounds.items;
          markers = markers.items;
        } }
    {
        Message {
            scope,
            changesets,
            bounds,
            markers,
        }
    }

    /// Which part of a history it names.
    pub fn scope(&self) -> Scope
        ensures { result ≡ self.now.scope }
    {
        self.scope
    }

    /// Its changesets.
    pub fn changesets(&self) -> &[Changeset]
        ensures changesets { result.now ≡ self.now.changesets }
        ensures message { IsMessage self.now }
    {
        &self.changesets
    }

    /// Its bounds: each node is held in this phase, or in a lower one.
    pub fn bounds(&self) -> &[(Node, Phase)]
        ensures { result.now ≡ self.now.bounds }
    {
        &self.bounds
    }

    /// Its markers.
    pub fn markers(&self) -> &[Marker]
        ensures { result.now ≡ self.now.markers }
    {
        &self.markers
    }

    /// An equal message.
    pub fn copy(&self) -> Result<Message, AllocError>
        ensures { IfOk result (λ message. message ≡ self.now) }
    {
        let alloc = *self.changesets.allocator();
        let changesets = copy_changesets(alloc, &self.changesets)?;
        let bounds = self.bounds.clone()?;
        let markers = copy_markers(alloc, &self.markers)?;
        Ok(Message {
            scope: self.scope,
            changesets,
            bounds,
            markers,
        })
    }

    /// What a replica takes in: the changesets, the bounds and then a draft bound for each changeset, since what is
    /// passed on is no longer secret, and the markers. Its scope is no part of that.
    pub fn part(&self) -> Result<Part, AllocError>
        ensures { IfOk result (λ part. part ≡ part_of self.now) }
    {
        self.copy()?.into_part()
    }

    /// The [`part`](Message::part) of a message that isn't needed any more. Nothing but the bounds is copied.
    pub fn into_part(self) -> Result<Part, AllocError>
        ensures part { IfOk result (λ part. part ≡ part_of self) }
        ensures memory { OnErr result (0 < length self.changesets) }
    {
        let Message {
            scope: _,
            changesets,
            mut bounds,
            markers,
        } = self;
        draft_bounds_onto(&mut bounds, &changesets)?;
        Ok(Part {
            changesets,
            bounds: Bounds::from_vec(bounds),
            markers,
        })
    }

    /// The bytes of the message: its one written spelling, which has version 2. They are written once, into room that
    /// is taken at once.
    pub fn to_bytes(&self) -> Result<Vec<u8>, AllocError>
        ensures written { IfOk result (λ bytes. bytes.items ≡ message_spelling self.now) }
        ensures spells { IfOk result (λ bytes. IsMessageSpelling self.now bytes.items) }
    {
        let alloc = *self.changesets.allocator();
        write_message(
            alloc,
            self.scope,
            &self.changesets,
            &self.bounds,
            &self.markers,
        )
    }

    /// The message that bytes spell, all of the bytes. Bytes of version 1 spell a message of what is served.
    ///
    /// Refuses with the first [`MessageFault`] from the front. Want of memory is told of bytes without fault alone.
    pub fn from_bytes(alloc: Global, bytes: &[u8]) -> Result<Message, ReadError<MessageFault>>
        // What is spelled so is read, unless memory runs out, and nothing else.
        ensures only { (m : MessageValue) → IsMessageSpelling m bytes.now → Gives (λ message. message) result (Ok m) }
        ensures found { IfOk result (λ message. IsMessageSpelling message bytes.now) }

        // Without a changeset, a bound or a marker no memory is taken, and the least message with one has 41 bytes.
        ensures memory { IsErrOf result ReadError.NoMemory → 40 < length bytes.now }

        // The same, field by field, up to the first fault.
        ensures exact { Gives (λ message. message) result (message_at bytes.now) }
    {
        Message::from_bytes_at(alloc, None, bytes)
    }

    /// What [`from_bytes`](Message::from_bytes) gives, where a replica holds some changesets. A record of one of them
    /// whose parents stand in normal form, as they are written, is compared with it, and not hashed.
    pub fn from_bytes_at(
        alloc: Global,
        held: Option<&Replica>,
        bytes: &[u8],
    ) -> Result<Message, ReadError<MessageFault>>
        ensures only { (m : MessageValue) → IsMessageSpelling m bytes.now → Gives (λ message. message) result (Ok m) }
        ensures found { IfOk result (λ message. IsMessageSpelling message bytes.now) }
        ensures memory { IsErrOf result ReadError.NoMemory → 40 < length bytes.now }
        ensures exact { Gives (λ message. message) result (message_at bytes.now) }
    {
        read_message(alloc, held, bytes)
    }

    /// The [`part`](Message::part) of the message that bytes spell, for this replica to take in. Where each changeset
    /// of the message is held, none as a secret, and each record spelled as it is written, the part comes without them
    /// and their draft bounds, and no record is copied or hashed. The replica answers to it as it does to the whole
    /// part: see [`what_is_left_is_absorbed_alike`](crate::what_is_left_is_absorbed_alike).
    ///
    /// Refuses as [`from_bytes`](Message::from_bytes) does.
    pub fn part_at(
        alloc: Global,
        replica: &Replica,
        bytes: &[u8],
    ) -> Result<Part, ReadError<MessageFault>>
        ensures answer { PartAnswer replica.now bytes.now result }
        ensures memory { IsErrOf result ReadError.NoMemory → 40 < length bytes.now }
    {
        match split_message(Some(replica), bytes) {
            Ok(layout) => layout.part(alloc),
            Err(cause) => Err(ReadError::Fault(cause)),
        }
    }
}

// Whether the length of the markers, as they are written, can be told in four bytes.
fn fit(markers: &[Marker]) -> bool
    ensures { result ≡ not (nat_lt count_limit (length (store_spelling markers.now))) }
{
    match markers_len(markers) {
        Some(len) => len <= COUNT_LIMIT,
        None => false,
    }
}

fn read_message(
    alloc: Global,
    held: Option<&Replica>,
    bytes: &[u8],
) -> Result<Message, ReadError<MessageFault>>
    ensures exact { Gives (λ message. message) result (message_at bytes.now) }
    ensures memory { IsErrOf result ReadError.NoMemory → 40 < length bytes.now }
{
    match split_message(held, bytes) {
        Ok(layout) => layout.read(alloc),
        Err(fault) => Err(ReadError::Fault(fault)),
    }
}
