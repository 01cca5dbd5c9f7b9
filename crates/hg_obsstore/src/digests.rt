//! The places of markers, by the digests of the markers.
//!
//! They tell where an equal marker may stand. Whether it does is told by the marker, so nothing rests on digests but
//! what a look-up costs.

ghost use Rattle.std.specs.Prelude.{◌≡◌, ◌≤◌, ◌++◌, ℕ, List, [], OnOk, IsTrue, Contains, Some, slice_get, drop};
ghost use Rattle.sha1.specs.Sha1.{Holds};
ghost use Rattle.hg_obsstore.specs.Digests.{nodes_bytes, texts_bytes, digest_of, scanned, under};
ghost use Rattle.hg_obsstore.specs.Digests.{KeepsOtherDigests, stands_among, stands_at};
ghost use Rattle.hg_obsstore.specs.Index.{without_last};

use crate::places::Places;
use hg_changeset::Node;
use hg_marker::{Entries, Marker};
use sha1::Sha1;
use std::alloc::{AllocError, Global};
use std::collections::BTreeMap;

// So many markers of one predecessor are looked at one by one.
const SCANNED: usize = 8;

/// For each digest the places that were put there.
#[derive(Drop)]
pub struct Digests {
    by_digest: BTreeMap<Node, Places>,
}

impl Digests {
    /// No places.
    pub fn new(alloc: Global) -> Digests {
        Digests {
            by_digest: BTreeMap::new(alloc),
        }
    }

    /// Whether an equal marker stands at one of these places, which are those of its predecessor. The first few are
    /// looked at, and then those under its digest.
    pub fn hold(&self, markers: &[Marker], places: &[usize], marker: &Marker) -> bool
        ensures sound { IsTrue result → Contains markers.now marker.now }
        ensures complete { (i : ℕ) → slice_get markers.now i ≡ Some marker.now → Contains places.now i
            → (Contains (drop scanned places.now) i → Contains (under self.now (digest_of marker.now)) i)
            → IsTrue result }
    {
        if places.len() <= SCANNED {
            return is_among(markers, places, marker);
        }
        is_among(markers, &places[..SCANNED], marker)
            || is_among(markers, self.places(digest_of(marker)), marker)
    }

    /// Puts the place of a marker under its digest, where a few or more stand before it under its predecessor.
    pub fn add(
        &mut self,
        alloc: Global,
        marker: &Marker,
        before: usize,
        place: usize,
    ) -> Result<(), AllocError>
        ensures ok { OnOk result (scanned ≤ before → Contains (under self.new (digest_of marker.now)) place) }
        ensures kept { KeepsOtherDigests place self.old self.new }
    {
        if before >= SCANNED {
            self.put(alloc, digest_of(marker), place)?;
        }
        Ok(())
    }

    /// Takes the place of a marker away that was put under its digest, where it stands last there.
    pub fn remove(&mut self, marker: &Marker, before: usize, place: usize)
        ensures taken { scanned ≤ before → under self.new (digest_of marker.now)
            ≡ without_last (under self.old (digest_of marker.now)) place }
        ensures kept { KeepsOtherDigests place self.old self.new }
    {
        if before >= SCANNED {
            self.take(digest_of(marker), place);
        }
    }

    // The places under a digest.
    fn places(&self, digest: Node) -> &[usize]
        ensures { result.now ≡ under self.now digest }
    {
        match self.by_digest.get(&digest) {
            Some(places) => places.as_slice(),
            None => &[],
        }
    }

    // Puts the place last under the digest, where it doesn't stand last.
    fn put(&mut self, alloc: Global, digest: Node, place: usize) -> Result<(), AllocError>
        ensures ok { OnOk result (Contains (under self.new digest) place) }
        ensures kept { KeepsOtherDigests place self.old self.new }
    {
        match self.by_digest.get_mut(&digest) {
            Some(places) => places.put_last(alloc, place)?,
            None => {
                self.by_digest.insert(digest, Places::One(place))?;
            }
        }
        Ok(())
    }

    // Takes the place away from the digest, where it stands last. A digest without a place is forgotten.
    fn take(&mut self, digest: Node, place: usize)
        ensures taken { under self.new digest ≡ without_last (under self.old digest) place }
        ensures kept { KeepsOtherDigests place self.old self.new }
    {
        match self.by_digest.get_mut(&digest) {
            Some(places) => {
                places.take_last(place);
                if places.as_slice().is_empty() {
                    let _ = self.by_digest.remove(&digest);
                }
            }
            None => {}
        }
    }
}

// Whether an equal marker stands at one of the places.
fn is_among(markers: &[Marker], places: &[usize], marker: &Marker) -> bool
    ensures { result ≡ stands_among markers.now marker.now places.now }
{
    places.iter().any(|place| is_at(markers, *place, marker))
}

// Whether an equal marker stands at the place.
fn is_at(markers: &[Marker], place: usize, marker: &Marker) -> bool
    ensures { result ≡ stands_at markers.now marker.now place }
{
    match markers.get(place) {
        Some(other) => marker == other,
        None => false,
    }
}

// The digest of a marker: the SHA-1 of its fields, which no two markers have alike.
#[tactic(auto, unfolding(crate::specs::Digests::digest_of))]
fn digest_of(marker: &Marker) -> Node
    ensures { result ≡ digest_of marker.now }
{
    let mut hasher = Sha1::new();
    hasher.update(&[marker.flags()]);
    hasher.update(&marker.predecessor().0);
    feed_nodes(&mut hasher, marker.successors());
    feed_texts(&mut hasher, marker.meta().iter());
    Node(hasher.finalize())
}

// The bytes of each node go into the hasher, behind a byte 1.
fn feed_nodes(hasher: &mut Sha1, nodes: &[Node])
    ensures { (m : List ℕ) → Holds hasher.old m → Holds hasher.new (m ++ nodes_bytes nodes.now) }
{
    for node in nodes {
        hasher.update(&[1]);
        hasher.update(&node.0);
    }
}

// Each key and its value go into the hasher, behind a byte 0 and with a colon between them.
fn feed_texts(hasher: &mut Sha1, texts: Entries<'_>)
    ensures { (m : List ℕ) → Holds hasher.old m → Holds hasher.new (m ++ texts_bytes texts.entry) }
{
    for (key, value) in texts {
        hasher.update(&[0]);
        hasher.update(key);
        hasher.update(&[b':']);
        hasher.update(value);
    }
}
