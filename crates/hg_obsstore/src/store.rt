//! A set of markers with an index.
//!
//! The markers stand in the order in which they came. An equal one is found by the index, under its predecessor, so no
//! marker stands twice. A marker is named by its place. Places only grow, so what is new stands last, and a call
//! that is refused half way is taken back by cutting off what it added.
ghost use Rattle.std.specs.Prelude.{◌≡◌, ◌≢◌, ◌+◌, ◌<◌, ◌≤◌, ◌↔◌, ◌++◌, ◌∷◌, [], length, take, All, Contains};
ghost use Rattle.std.specs.Prelude.{IsTrue, IfOk, OnOk, OnErr, slice_get};
ghost use Rattle.std.specs.Cow.{cow_slice_items};
ghost use Rattle.std.specs.Option.{option_copied};
ghost use Rattle.std.specs.List.{IsDistinct};
ghost use Rattle.hg_changeset.specs.Node.{node_eq};
ghost use Rattle.hg_marker.specs.Grammar.{IsMarker};
ghost use Rattle.hg_marker.specs.Parents.{recorded_parents};
ghost use Rattle.hg_obsstore.specs.Places.{ListsAll};
ghost use Rattle.hg_obsstore.specs.Markers.{AreDifferent, ArePlaces, IsNamed};
ghost use Rattle.hg_obsstore.specs.Growth.{AddAnswer, AreNewPlaces, StartsWith, holds, new_among, united, with_marker};
ghost use Rattle.hg_obsstore.specs.Sets.{IsUnion};
ghost use Rattle.hg_obsstore.specs.Index.{places_of, SamePlaces};
ghost use Rattle.hg_obsstore.specs.Indexes.{AreIndexed, HaveBelow, AddMarker};
ghost use Rattle.hg_obsstore.specs.Digests.{AreDigested, IsUnderDigest, KeepsOtherDigests};
ghost use Rattle.hg_obsstore.specs.declared.index.Role.TheVariants.{Predecessor};

use crate::digests::Digests;
use crate::index::{Index, Mentions};
use hg_changeset::Node;
use hg_join::NoMemory;
use hg_marker::Marker;
use hg_node_set::{IdKeys, give_back_list};
use smallvec::SmallVec;
use std::alloc::{AllocError, Global};
use std::borrow::CowSlice;
use std::fmt;
use std::marker::Model;

/// The places of the markers that a part added, ascending. One, as most operations add, takes no memory.
pub type NewPlaces = SmallVec<usize, 1>;

/// What [`Store::add`] did.
#[derive(Clone, Copy, PartialEq, Eq, Debug)]
pub enum Added {
    /// No equal marker was held, and it stands last now.
    New,
    /// An equal marker was held, and nothing changed.
    Known,
}

/// A set of markers, in the order in which they came. Contracts see that list.
///
/// Two stores are `==` where they hold the same markers in the same order.
///
/// It joins as a [`JoinState`](hg_join::JoinState). A call that adds costs what it is given, and a refused one no more;
/// a look-up costs about one hash of an id, however many markers it tells of. Ids that were chosen to share their
/// hashes are dear, so a store that takes markers of strangers is made [`with_keys`](Store::with_keys) that they don't
/// know.
pub struct Store {
    alloc: Global,
    markers: Vec<Marker>,
    index: Index,
    digests: Digests,
}

// Whoever owns a store calls this once, and is proved without a look at each collection in it.
impl Drop for Store {
    fn drop(self) {
        let Store {
            alloc: _,
            markers: _,
            index: _,
            digests: _,
        } = self;
    }
}

impl Model for Store {
    ghost use Rattle.std.specs.Prelude.{List, All};
    ghost use Rattle.std.specs.Coded.{coded_list};
    ghost use Rattle.hg_marker.specs.Fields.{Fields, fields_code};
    ghost use Rattle.hg_marker.specs.Grammar.{IsMarker};
    ghost use Rattle.hg_obsstore.specs.Places.{ListsAll};
    ghost use Rattle.hg_obsstore.specs.Markers.{AllDistinct};
    ghost use Rattle.hg_obsstore.specs.Indexes.{AreIndexed};
    ghost use Rattle.hg_obsstore.specs.Digests.{AreDigested};

    ghost Value = { List Fields };

    ghost coded = { coded_list fields_code };

    ghost view = { λ s. s.markers.items };

    ghost invariant = { λ s. AllDistinct s.markers.items × AreIndexed s.markers.items s.index
        × All IsMarker s.markers.items × AreDigested s.markers.items s.index s.digests };
}

impl PartialEq for Store {
    ghost use Rattle.std.specs.Cmp.{partial_equiv_from_equiv};
    ghost use Rattle.hg_obsstore.specs.Same.{same_markers, markers_equivalence};

    ghost eq = { same_markers };

    ghost laws = { partial_equiv_from_equiv markers_equivalence };

    fn eq(&self, other: &Store) -> bool {
        self.markers() == other.markers()
    }
}

impl Eq for Store {
    ghost use Rattle.hg_obsstore.specs.Same.{markers_equivalence};

    ghost laws = { markers_equivalence };
}

impl fmt::Debug for Store {
    fn fmt<W: fmt::Write>(&self, f: &mut fmt::Formatter<W>) -> fmt::Result {
        fmt::Debug::fmt(self.markers(), f)
    }
}

impl Store {
    /// The store without markers. It takes its memory from the allocator, and hashes ids by the rule that everybody
    /// knows. Who takes bytes of strangers makes it [`with_keys`](Store::with_keys).
    pub fn new(alloc: Global) -> Store
        ensures { result ≡ [] }
    {
        Store::with_keys(alloc, IdKeys::known())
    }

    /// The store without markers, which hashes ids by these keys. It takes its memory from the allocator.
    pub fn with_keys(alloc: Global, keys: IdKeys) -> Store
        ensures { result ≡ [] }
    {
        Store {
            alloc,
            markers: Vec::new(alloc),
            index: Index::with_keys(alloc, keys),
            digests: Digests::new(alloc),
        }
    }

    /// What ids are hashed by.
    pub fn keys(&self) -> IdKeys {
        self.index.keys()
    }

    /// The ids that markers name, in no order that is promised. What was refused or taken back leaves no id behind.
    pub fn named(&self) -> &[Node]
        ensures exact { (n : Node) → Contains result.now n ↔ IsNamed self.now n }
        ensures different { IsDistinct node_eq result.now }
    {
        self.index.named()
    }

    /// How many markers are held.
    pub fn len(&self) -> usize
        ensures { result ≡ length self.now }
    {
        self.markers.len()
    }

    /// The marker at a place, where there is one.
    pub fn get(&self, place: usize) -> Option<&Marker>
        ensures { option_copied result ≡ slice_get self.now place }
    {
        self.markers.get(place)
    }

    /// It says to proofs that the format can spell each of its markers, and does nothing.
    #[inline(always)]
    pub fn is_valid(&self)
        ensures { All IsMarker self.now }
    {
        let _markers = &self.markers;
    }

    /// The markers, in the order in which they came.
    pub fn markers(&self) -> &[Marker]
        ensures markers { result.now ≡ self.now }

        // No two of them are equal.
        ensures different { AreDifferent self.now }

        // Each of them is one that the format can spell.
        ensures each { All IsMarker self.now }
    {
        self.markers.as_slice()
    }

    /// Whether an equal marker is held.
    pub fn contains(&self, marker: &Marker) -> bool
        ensures { IsTrue result ↔ Contains self.now marker.now }
    {
        let (held, _) = look_up(&self.markers, &self.index, &self.digests, marker);
        held
    }

    /// The places of the markers that name this node, in each role, by one look-up.
    pub fn mentions(&self, node: Node) -> Mentions<'_>
        ensures predecessor { ArePlaces (λ m. m.predecessor ≡ node) self.now result.as_predecessor }
        ensures successor { ArePlaces (λ m. Contains m.successors node) self.now result.as_successor }
        ensures parent { ArePlaces (λ m. Contains (recorded_parents m) node) self.now result.as_parent }
    {
        self.index.mentions(node)
    }

    /// The places of the markers with this predecessor, ascending.
    pub fn with_predecessor(&self, node: Node) -> &[usize]
        ensures { ArePlaces (λ m. m.predecessor ≡ node) self.now result.now }
    {
        self.mentions(node).as_predecessor()
    }

    /// The places of the markers with this successor, ascending, each once.
    pub fn with_successor(&self, node: Node) -> &[usize]
        ensures { ArePlaces (λ m. Contains m.successors node) self.now result.now }
    {
        self.mentions(node).as_successor()
    }

    /// The places of the markers that record this node as a parent of their predecessor, ascending, each once.
    pub fn with_child(&self, node: Node) -> &[usize]
        ensures { ArePlaces (λ m. Contains (recorded_parents m) node) self.now result.now }
    {
        self.mentions(node).as_parent()
    }

    /// Adds a marker last, where no equal one is held.
    pub fn add(&mut self, marker: Marker) -> Result<Added, NoMemory>
        ensures ok { IfOk result (λ added. AddAnswer self.old marker added self.new) }
        ensures err { OnErr result (self.new ≡ self.old) }

        // Where an equal marker is held no memory is taken.
        ensures memory { OnErr result (¬ Contains self.old marker) }
    {
        let (held, before) = look_up(&self.markers, &self.index, &self.digests, &marker);
        if held {
            return Ok(Added::Known);
        }
        put_last(
            self.alloc,
            &mut self.markers,
            &mut self.index,
            &mut self.digests,
            marker,
            before,
        )?;
        Ok(Added::New)
    }

    /// Forgets the markers from a place on. It costs what is forgotten, and gives room back where most of it is free
    /// then.
    ///
    /// A store never shrinks for its users: this is for states above that hold one, which take back with it what they
    /// added in a call that they then refuse.
    pub fn truncate(&mut self, len: usize)
        ensures { self.new ≡ take len self.old }
    {
        while self.len() > len {
            let place = self.len() - 1;
            self.forget(place);
        }
        self.give_back();
    }

    // Gives room back of which little is left in use.
    fn give_back(&mut self)
        ensures { self.new ≡ self.old }
    {
        give_back_all(&mut self.markers, &mut self.index);
    }

    // Forgets the last marker.
    fn forget(&mut self, place: usize)
        requires { place + 1 ≡ length self.old }
        ensures { self.new ≡ take place self.old }
    {
        let marker = &self.markers[place];
        self.index.remove(marker, place);
        let before = self
            .index
            .mentions(marker.predecessor())
            .as_predecessor()
            .len();
        self.digests.remove(marker, before, place);
        self.markers.truncate(place);
    }
}

impl Store {
    /// An equal store, with the same keys.
    pub fn copy(&self) -> Result<Store, NoMemory>
        ensures { IfOk result (λ copy. copy ≡ self.now) }
    {
        let mut copy = Store::with_keys(self.alloc, self.keys());
        copy.add_copies(self.markers())?;
        Ok(copy)
    }

    /// Takes in the markers that aren't held, each once, in their order, and tells their places, ascending. Lent ones
    /// are copied; of those that are moved in, the others are dropped.
    #[inline(always)]
    pub fn absorb(&mut self, part: CowSlice<'_, Marker>) -> Result<NewPlaces, NoMemory>
        ensures ok { OnOk result (self.new ≡ united self.old (cow_slice_items part.entry)) }
        ensures places { IfOk result (λ places. AreNewPlaces self.old self.new places.items) }
        ensures union { OnOk result (IsUnion (holds self.old) (holds (cow_slice_items part.entry)) (holds self.new)) }
        ensures err { OnErr result (self.new ≡ self.old) }

        // Where nothing is new no memory is taken.
        ensures memory { OnErr result (new_among self.old (cow_slice_items part.entry) ≢ []) }
    {
        let before = self.len();
        match self.add_and_tell(part) {
            Ok(places) => Ok(places),
            Err(NoMemory) => {
                self.truncate(before);
                Err(NoMemory)
            }
        }
    }

    /// Adds copies of the other's markers that aren't held, in their order.
    pub fn join(&mut self, other: &Store) -> Result<(), NoMemory>
        ensures ok { OnOk result (self.new ≡ united self.old other.now) }
        ensures union { OnOk result (IsUnion (holds self.old) (holds other.now) (holds self.new)) }
        ensures err { OnErr result (self.new ≡ self.old) }

        // Where nothing is new no memory is taken.
        ensures memory { OnErr result (new_among self.old other.now ≢ []) }
    {
        self.absorb(CowSlice::Borrowed(other.markers()))?;
        Ok(())
    }

    /// Whether the other holds each marker of this store. It takes no memory.
    pub fn is_below(&self, other: &Store) -> bool
        ensures { IsTrue result ↔ All (Contains other.now) self.now }
    {
        for marker in self.markers() {
            if !other.contains(marker) {
                return false;
            }
        }
        true
    }

    // Where the store's memory comes from.
    pub(crate) fn allocator(&self) -> Global {
        self.alloc
    }

    // Adds the markers that aren't held, and tells their places. After an error some of them stay.
    #[inline(always)]
    fn add_and_tell(&mut self, part: CowSlice<'_, Marker>) -> Result<NewPlaces, NoMemory>
        ensures ok { OnOk result (self.new ≡ united self.old (cow_slice_items part.entry)) }
        ensures places { IfOk result (λ places. AreNewPlaces self.old self.new places.items) }
        ensures kept { StartsWith self.old self.new }
        ensures memory { OnErr result (new_among self.old (cow_slice_items part.entry) ≢ []) }
    {
        let before = self.len();
        match part {
            CowSlice::Borrowed(markers) => self.add_copies(markers)?,
            CowSlice::Owned(markers) => self.add_owned(markers)?,
        }
        let places = places_between(self.allocator(), before, self.len())?;
        Ok(places)
    }

    // Moves in the markers that aren't held. After an error some of them stay.
    pub(crate) fn add_owned(&mut self, markers: Vec<Marker>) -> Result<(), NoMemory>
        ensures ok { OnOk result (self.new ≡ united self.old markers.items) }
        ensures kept { StartsWith self.old self.new }
        ensures memory { OnErr result (new_among self.old markers.items ≢ []) }
    {
        for marker in markers {
            self.add(marker)?;
        }
        Ok(())
    }

    // Adds copies of the markers that aren't held. After an error some of them stay.
    fn add_copies(&mut self, markers: &[Marker]) -> Result<(), NoMemory>
        ensures ok { OnOk result (self.new ≡ united self.old markers.now) }
        ensures kept { StartsWith self.old self.new }
        ensures memory { OnErr result (new_among self.old markers.now ≢ []) }
    {
        for marker in markers {
            self.add_copy(marker)?;
        }
        Ok(())
    }

    // Adds a copy of the marker, unless it is held.
    fn add_copy(&mut self, marker: &Marker) -> Result<(), NoMemory>
        ensures ok { OnOk result (self.new ≡ with_marker self.old marker.now) }
        ensures err { OnErr result (self.new ≡ self.old) }
        ensures memory { OnErr result (¬ Contains self.old marker.now) }
    {
        let (held, before) = look_up(&self.markers, &self.index, &self.digests, marker);
        if held {
            return Ok(());
        }
        let copy = marker.copy()?;
        put_last(
            self.alloc,
            &mut self.markers,
            &mut self.index,
            &mut self.digests,
            copy,
            before,
        )?;
        Ok(())
    }
}

// Whether an equal marker is held, and how many have its predecessor, by one look-up.
fn look_up(markers: &[Marker], index: &Index, digests: &Digests, marker: &Marker) -> (bool, usize)
    requires indexed { AreIndexed markers.now index.now }
    requires digested { AreDigested markers.now index.now digests.now }
    ensures held { IsTrue result.0 ↔ Contains markers.now marker.now }
    ensures before { result.1 ≡ length (places_of Predecessor index.now marker.now.predecessor) }
    ensures marker { IsMarker marker.now }
{
    let places = index.mentions(marker.predecessor()).as_predecessor();
    (digests.hold(markers, places, marker), places.len())
}

// Puts a marker last, where `before` markers have its predecessor. After an error nothing has changed.
#[inline(always)]
fn put_last(
    alloc: Global,
    markers: &mut Vec<Marker>,
    index: &mut Index,
    digests: &mut Digests,
    marker: Marker,
    before: usize,
) -> Result<(), NoMemory>
    requires indexed { AreIndexed markers.old.items index.old }
    requires digested { AreDigested markers.old.items index.old digests.old }
    requires before { before ≡ length (places_of Predecessor index.old marker.predecessor) }
    ensures ok { OnOk result (markers.new.items ≡ markers.old.items ++ marker ∷ []) }
    ensures err { OnErr result (markers.new.items ≡ markers.old.items) }
    ensures indexed { AreIndexed markers.new.items index.new }
    ensures digested { AreDigested markers.new.items index.new digests.new }
{
    let place = markers.len();
    markers.push(marker)?;
    let marker = &markers[place];
    match add_marker(alloc, index, digests, marker, before, place) {
        Ok(()) => Ok(()),
        Err(_) => {
            markers.truncate(place);
            give_back_all(markers, index);
            Err(NoMemory)
        }
    }
}

// Adds a marker at a place that is above all others, where `before` markers have its predecessor. After an error
// nothing is found elsewhere than before.
fn add_marker(
    alloc: Global,
    index: &mut Index,
    digests: &mut Digests,
    marker: &Marker,
    before: usize,
    place: usize,
) -> Result<(), AllocError>
    requires below { HaveBelow index.old place }
    requires before { before ≡ length (places_of Predecessor index.old marker.now.predecessor) }
    ensures ok { OnOk result (AddMarker marker.now place index.old index.new) }
    ensures digest { OnOk result (IsUnderDigest index.new digests.new marker.now place) }
    ensures err { OnErr result (SamePlaces index.old index.new) }
    ensures kept { KeepsOtherDigests place digests.old digests.new }
{
    digests.add(alloc, marker, before, place)?;
    match index.add(marker, place) {
        Ok(()) => Ok(()),
        Err(error) => {
            digests.remove(marker, before, place);
            Err(error)
        }
    }
}

// Gives room back of which little is left in use.
fn give_back_all(markers: &mut Vec<Marker>, index: &mut Index)
    ensures markers { markers.new.items ≡ markers.old.items }
    ensures places { SamePlaces index.old index.new }
{
    give_back_list(markers);
    index.give_back();
}

// The places from one on to before another. No memory is taken where there is none.
#[inline(always)]
fn places_between(alloc: Global, start: usize, end: usize) -> Result<NewPlaces, AllocError>
    ensures places { IfOk result (λ places. ListsAll (λ i. (start ≤ i) × (i < end)) places.items) }
    ensures memory { OnErr result (start < end) }
{
    if end <= start {
        return Ok(SmallVec::new(alloc));
    }
    (start..end).collect(alloc)
}
