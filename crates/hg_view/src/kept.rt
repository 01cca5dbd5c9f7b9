//! A replica whose instabilities are kept up to date, with the pins of its node.
ghost use Rattle.std.specs.Prelude.{◌≡◌, ◌↔◌, ◌⊎◌, ℕ, [], Contains, IfOk, OnOk, OnErr, IsErrOf, IsTrue, length};
ghost use Rattle.std.specs.Cow.{cow_value};
ghost use Rattle.hg_changeset.specs.declared.node.Node.{Node};
ghost use Rattle.hg_graph.specs.Places.{IsAt};
ghost use Rattle.hg_phases.specs.State.{changesets};
ghost use Rattle.hg_history.specs.Content.{IsHeld};
ghost use Rattle.hg_replica.specs.State.{ReplicaState, IsValid};
ghost use Rattle.hg_replica.specs.Least.{part_of};
ghost use Rattle.hg_replica.specs.Answer.{AbsorbAnswer, JoinAnswer, IsGrowthBeforeFault};
ghost use Rattle.hg_replica.specs.Content.{content_of};
ghost use Rattle.hg_replica.specs.Undo.{LeadsBack};
ghost use Rattle.hg_instab.specs.Changed.{IsChangedTo};
ghost use Rattle.hg_instab.specs.Instabilities.{AreInstabilities};
ghost use Rattle.hg_view.specs.Kept.{FindsAgain, FindsHeadsAgain, KeepsHeads, KeepsUp, KeptUnpinAnswer};
ghost use Rattle.hg_view.specs.Common.{AreFree, IsCommonAt};
ghost use Rattle.hg_view.specs.Descent.{IsClosedUnderParents, IsCovered};
ghost use Rattle.hg_view.specs.Pins.{IsServedUnder, IsVisibleUnder, PinAnswer};
ghost use Rattle.hg_view.specs.HeadPlaces.{AreHeadPlaces, IsPublicAt, IsServedAt, IsHeadAmong};

use crate::head_places::HeadPlaces;
use crate::heads::{heads_in_common, stays_in_view};
use crate::pins::Pins;
use crate::refusal::PinRefusal;
use crate::released::{released, take_out};
use crate::upheld::{put_in, upheld_besides};
use crate::view::visible;
use hg_changeset::Node;
use hg_history::Fault;
use hg_instab::{Instabilities, has_phase_at, is_obsolete_at};
use hg_phases::Phase;
use hg_replica::{Absorbed, Change, NoMemory, Part, Replica, Undo};
use std::alloc::{AllocError, Global};
use std::borrow::Cow;
use std::collections::BTreeSet;
use std::marker::Model;

/// A replica with its instabilities and its heads, which are kept up to date with each part that it absorbs, and with
/// what its node pins. Contracts see it as its replica and its pins.
pub struct Kept {
    alloc: Global,
    replica: Replica,
    instabilities: Instabilities,
    pins: Pins,

    // What the pins uphold.
    upheld: BTreeSet<Node>,

    // Where what has no child stands, and what is public and has no public child.
    heads: HeadPlaces,
}

// Whoever owns one calls this once, and is proved without a look at what it holds.
impl Drop for Kept {
    fn drop(self) {
        let Kept {
            alloc: _,
            replica: _,
            instabilities: _,
            pins: _,
            upheld: _,
            heads: _,
        } = self;
    }
}

impl Model for Kept {
    ghost use Rattle.std.specs.Coded.{codes};
    ghost use Rattle.hg_marker.specs.Fields.{fields_code};
    ghost use Rattle.hg_replica.specs.State.{IsValid};
    ghost use Rattle.hg_replica.specs.Content.{content_of};
    ghost use Rattle.hg_instab.specs.Instabilities.{AreInstabilities};
    ghost use Rattle.hg_view.specs.Kept.{KeptValue};
    ghost use Rattle.hg_view.specs.HeadPlaces.{AreHeadPlaces};
    ghost use Rattle.hg_view.specs.Upheld.{AreUpheld};

    ghost Value = { KeptValue };

    ghost coded = { Prim.hlevel (codes, fields_code) };

    ghost view = { λ kept. record { replica = kept.replica; pins = kept.pins } };

    ghost invariant = { λ kept. AreInstabilities (content_of kept.replica) kept.instabilities × IsValid kept.replica
        × AreUpheld (content_of kept.replica) kept.pins kept.upheld.keys
        × AreHeadPlaces kept.replica.history kept.heads };
}

impl Kept {
    /// The replica, with its instabilities found from scratch, and no pins.
    pub fn new(alloc: Global, replica: Replica) -> Result<Kept, AllocError>
        ensures replica { IfOk result (λ kept. kept.replica ≡ replica) }
        ensures pins { IfOk result (λ kept. kept.pins ≡ []) }
    {
        let instabilities = Instabilities::from_scratch(alloc, &replica)?;
        let heads = HeadPlaces::of(alloc, &replica)?;

        replica.is_valid();
        Ok(Kept {
            alloc,
            replica,
            instabilities,
            pins: Pins::new(alloc),
            upheld: BTreeSet::new(alloc),
            heads,
        })
    }

    /// An equal replica, in the same order, with equal instabilities and equal pins.
    pub fn copy(&self) -> Result<Kept, NoMemory>
        ensures { IfOk result (λ copy. copy ≡ self.now) }
    {
        let instabilities = self.instabilities.copy()?;
        let replica = self.replica.copy()?;
        let pins = self.pins.copy()?;
        let upheld = self.upheld.clone()?;
        let heads = self.heads.copy()?;
        Ok(Kept {
            alloc: self.alloc,
            replica,
            instabilities,
            pins,
            upheld,
            heads,
        })
    }

    /// The replica.
    pub fn replica(&self) -> &Replica
        ensures replica { result.now ≡ self.now.replica }
        ensures valid { IsValid self.now.replica }
    {
        &self.replica
    }

    /// The instabilities of the replica as it is now.
    pub fn instabilities(&self) -> &Instabilities
        ensures { AreInstabilities (content_of self.now.replica) result.now }
    {
        &self.instabilities
    }

    /// The pins. What is pinned is held.
    pub fn pins(&self) -> &Pins
        ensures pins { result.now ≡ self.now.pins }
        ensures held { (n : Node) → Contains self.now.pins n → IsHeld (content_of self.now.replica).0 n }
    {
        &self.pins
    }

    /// Pins a changeset that the replica holds, as [`Pins::pin`] does. It costs those of its ancestors that aren't
    /// public and that no pin upheld before.
    ///
    /// Refuses [`PinRefusal::Unknown`] alone, where the replica doesn't hold it. The null id is held by none.
    pub fn pin(&mut self, node: Node) -> Result<(), PinRefusal>
        ensures answer { PinAnswer (content_of self.old.replica) self.old.pins node result self.new.pins }
        ensures replica { self.new.replica ≡ self.old.replica }
    {
        if self.pins.is_pinned(node) {
            return Ok(());
        }
        if !self.replica.graph().contains(node) {
            return Err(PinRefusal::Unknown(node));
        }
        let found = upheld_besides(self.alloc, &self.replica, &self.upheld, node)?;
        put_in(&mut self.upheld, &found)?;
        match self.pins.pin(&self.replica, node) {
            Ok(()) => Ok(()),
            Err(refusal) => {
                take_out(&mut self.upheld, &found);
                Err(refusal)
            }
        }
    }

    /// Takes the pin of a changeset away, as [`Pins::unpin`] does. It costs what is upheld no longer and its children,
    /// and its parents, each with its children from the last one down to the first that is upheld still. Where memory
    /// is refused nothing changes.
    ///
    /// Refuses [`PinRefusal::NotPinned`] alone, where there is none.
    pub fn unpin(&mut self, node: Node) -> Result<(), PinRefusal>
        ensures answer { KeptUnpinAnswer self.old.pins node result self.new.pins }
        ensures replica { self.new.replica ≡ self.old.replica }
    {
        if !self.pins.is_pinned(node) {
            return Err(PinRefusal::NotPinned(node));
        }
        match released(self.alloc, &self.replica, &self.pins, &self.upheld, node) {
            Ok(gone) => {
                take_out(&mut self.upheld, &gone);
                self.pins.unpin(node)
            }
            Err(AllocError) => Err(PinRefusal::NoMemory),
        }
    }

    /// Takes in a part as [`Replica::absorb`] does, and brings instabilities and heads up to date, at the cost of what
    /// the part changes. The pins stay. Where memory is refused for these, the replica takes the part back. So
    /// want of memory is told only where something grew before a fault was met, and a part that is covered is absorbed
    /// without memory.
    pub fn absorb(&mut self, part: &Part) -> Result<Change, Fault>
        ensures answer { AbsorbAnswer self.old.replica part.now result self.new.replica }
        ensures memory { IsErrOf result Fault.NoMemory → IsGrowthBeforeFault self.old.replica part.now }
        ensures pins { self.new.pins ≡ self.old.pins }
        ensures valid { IsValid self.old.replica }
        ensures still_valid { IsValid self.new.replica }
    {
        self.take_in(Cow::Borrowed(part))
    }

    /// Takes in a part as [`absorb`](Kept::absorb) does, but moves what isn't held in place of copying it, as
    /// [`Replica::absorb_owned`] does.
    pub fn absorb_owned(&mut self, part: Part) -> Result<Change, Fault>
        ensures answer { AbsorbAnswer self.old.replica part result self.new.replica }
        ensures memory { IsErrOf result Fault.NoMemory → IsGrowthBeforeFault self.old.replica part }
        ensures pins { self.new.pins ≡ self.old.pins }
        ensures valid { IsValid self.old.replica }
        ensures still_valid { IsValid self.new.replica }
    {
        self.take_in(Cow::Owned(part))
    }

    // Takes in a part, which is lent or moved in.
    #[inline(always)]
    fn take_in(&mut self, part: Cow<'_, Part>) -> Result<Change, Fault>
        ensures answer { AbsorbAnswer self.old.replica (cow_value part.entry) result self.new.replica }
        ensures memory { IsErrOf result Fault.NoMemory → IsGrowthBeforeFault self.old.replica (cow_value part.entry) }
        ensures pins { self.new.pins ≡ self.old.pins }
        ensures valid { IsValid self.old.replica }
        ensures still_valid { IsValid self.new.replica }
    {
        let answer = self.replica.absorb_with_undo(part);
        keep_up(
            &mut self.replica,
            &mut self.instabilities,
            &mut self.heads,
            answer,
        )
    }

    /// Takes in all that another replica holds, as [`Replica::join`] does, and finds the instabilities from scratch.
    /// The pins stay, and the other's are left to it. Where memory is refused for the instabilities, the replica takes
    /// the other back. What is below this one is joined without memory.
    pub fn join(&mut self, other: &Kept) -> Result<(), Fault>
        ensures answer { JoinAnswer self.old.replica other.now.replica result self.new.replica }
        ensures memory { IsErrOf result Fault.NoMemory
            → IsGrowthBeforeFault self.old.replica (part_of other.now.replica) }
        ensures pins { self.new.pins ≡ self.old.pins }
        ensures valid { IsValid self.old.replica }
        ensures other_valid { IsValid other.now.replica }
        ensures still_valid { IsValid self.new.replica }
    {
        if other.replica.is_below(&self.replica) {
            return Ok(());
        }
        let answer = self.replica.join_with_undo(&other.replica);
        find_again(
            self.alloc,
            &mut self.replica,
            &mut self.instabilities,
            &mut self.heads,
            answer,
        )
    }

    /// Whether a changeset is visible under the pins: held, and not obsolete, or suspended, or upheld by a pin. It
    /// costs four look-ups at most.
    pub fn is_visible(&self, node: Node) -> bool
        ensures { IsTrue result ↔ IsVisibleUnder (content_of self.now.replica) self.now.pins node }
    {
        match self.replica.graph().place(node) {
            Some(place) => self.is_visible_at(place, node),
            None => false,
        }
    }

    /// Whether a changeset is served under the pins: visible and not secret. It costs no look-up more.
    pub fn is_served(&self, node: Node) -> bool
        ensures { IsTrue result ↔ IsServedUnder (content_of self.now.replica) self.now.pins node }
    {
        match self.replica.graph().place(node) {
            Some(place) => self.is_served_at(place, node),
            None => false,
        }
    }

    // The same, for a look-up less where the changeset stands at this place, as in a replica that took in the same.
    pub(crate) fn is_served_by_guess(&self, place: usize, node: Node) -> bool
        ensures { IsTrue result ↔ IsServedUnder (content_of self.now.replica) self.now.pins node }
    {
        match self.replica.graph().node_at(place) {
            Some(there) if there == node => self.is_served_at(place, node),
            _ => self.is_served(node),
        }
    }

    // Whether the changeset at this place is served.
    fn is_served_at(&self, place: usize, node: Node) -> bool
        requires { IsAt (changesets self.now.replica.history) node place }
        ensures { IsTrue result ↔ IsServedUnder (content_of self.now.replica) self.now.pins node }
    {
        !has_phase_at(&self.replica, place, Phase::Secret) && self.is_visible_at(place, node)
    }

    // Whether the changeset at this place is visible.
    fn is_visible_at(&self, place: usize, node: Node) -> bool
        requires { IsAt (changesets self.now.replica.history) node place }
        ensures { IsTrue result ↔ IsVisibleUnder (content_of self.now.replica) self.now.pins node }
    {
        self.replica.is_valid();
        if is_obsolete_at(&self.replica, place) {
            return stays_in_view(&self.instabilities, &self.upheld, node);
        }
        true
    }

    /// The visible changesets under the pins. Mercurial's view `visible`. It looks at each changeset, as
    /// [`visible`](crate::visible()) does.
    pub fn visible(&self) -> Result<BTreeSet<Node>, AllocError>
        ensures { IfOk result (λ set. (n : Node) → Contains set.keys n
            ↔ IsVisibleUnder (content_of self.now.replica) self.now.pins n) }
    {
        visible(self.alloc, &self.replica, &self.pins)
    }

    /// The places of the heads of what is [served](Kept::is_served), in no promised order: what is served without a
    /// served child. What else is served is an ancestor of one of them. It costs what has no child, what is secret or
    /// hidden, and the children of the heads, whatever else is held.
    pub fn served_heads(&self) -> Result<Vec<usize>, AllocError>
        ensures exact { IfOk result (λ heads. (k : ℕ) → Contains heads.items k
            ↔ IsHeadAmong (changesets self.now.replica.history) (IsServedAt self.now.replica self.now.pins) k) }
        ensures covers { IfOk result (λ heads. (k : ℕ) → IsServedAt self.now.replica self.now.pins k
            → IsCovered (changesets self.now.replica.history) heads.items k) }
    {
        heads_in_common(self.alloc, &self.replica, self, self.heads.all())
    }

    /// The places of the heads of what isn't secret here and the other [serves](Kept::is_served), in no promised order:
    /// what is so, without a child that is. It costs what has no child, what is secret here or isn't served there,
    /// other parents of that, and the children of the heads, whatever else both hold.
    ///
    /// No changeset of the one collides with one of the other, so what both hold has the same parents there and here.
    pub fn common_heads(&self, other: &Kept) -> Result<Vec<usize>, AllocError>
        requires { AreFree (changesets self.now.replica.history) (changesets other.now.replica.history) }
        ensures exact { IfOk result (λ heads. (k : ℕ) → Contains heads.items k
            ↔ IsHeadAmong (changesets self.now.replica.history) (IsCommonAt self.now.replica other.now) k) }
        ensures closed { IsClosedUnderParents (changesets self.now.replica.history)
            (IsCommonAt self.now.replica other.now) }
    {
        other.replica().is_valid();
        heads_in_common(self.alloc, &self.replica, other, self.heads.all())
    }

    /// The places of the heads of what is public, in no promised order: what is, without a public child. It takes no
    /// memory.
    pub fn public_heads(&self) -> &[usize]
        ensures { (k : ℕ) → Contains result.now k
            ↔ IsHeadAmong (changesets self.now.replica.history) (IsPublicAt self.now.replica.history) k }
    {
        self.heads.public()
    }

    /// It can be told of each id whether it is served. Says so to proofs, and does nothing.
    pub fn tells_what_is_served(&self)
        ensures { (n : Node) → IsServedUnder (content_of self.now.replica) self.now.pins n
            ⊎ ¬ (IsServedUnder (content_of self.now.replica) self.now.pins n) }
    {
        self.replica.is_valid();
    }
}

// Brings instabilities and heads up to date with what the replica absorbed, if that is anything. Where memory is
// refused for that, the replica takes it back.
#[inline(always)]
fn keep_up(
    replica: &mut Replica,
    instabilities: &mut Instabilities,
    heads: &mut HeadPlaces,
    answer: Result<Absorbed<Change, Undo>, Fault>,
) -> Result<Change, Fault>
    requires back { IfOk answer (λ absorbed. (s : ReplicaState) × LeadsBack replica.old absorbed.undo s) }
    requires heads { IfOk answer (λ absorbed. (s : ReplicaState) × IsChangedTo s absorbed.change replica.old
        × AreHeadPlaces s.history heads.old) }
    ensures kept { KeepsUp answer replica.old instabilities.old result replica.new instabilities.new }
    ensures heads { KeepsHeads answer replica.old heads.old result heads.new }
{
    match answer {
        Ok(absorbed) => {
            let Absorbed { change, undo } = absorbed;
            if change.is_empty() {
                return Ok(change);
            }
            match follow(replica, instabilities, heads, &change) {
                Ok(()) => Ok(change),
                Err(AllocError) => {
                    replica.take_back(undo);
                    Err(Fault::NoMemory)
                }
            }
        }
        Err(fault) => Err(fault),
    }
}

// Brings instabilities and heads up to date with a change. Where memory is refused both are as they were.
#[inline(always)]
fn follow(
    replica: &Replica,
    instabilities: &mut Instabilities,
    heads: &mut HeadPlaces,
    change: &Change,
) -> Result<(), AllocError>
    requires { (s : ReplicaState) × IsChangedTo s change.now replica.now × AreHeadPlaces s.history heads.old }
    ensures kept { OnOk result ((s : ReplicaState) → IsChangedTo s change.now replica.now
        → AreInstabilities (content_of s) instabilities.old
        → AreInstabilities (content_of replica.now) instabilities.new) }
    ensures heads { OnOk result (AreHeadPlaces replica.now.history heads.new) }
    ensures unchanged { OnErr result ((instabilities.new ≡ instabilities.old) × (heads.new ≡ heads.old)) }
{
    let before = heads.len();
    heads.grow(replica.graph().len())?;
    match instabilities.update(replica, change) {
        Ok(()) => {
            heads.follow(replica, change);
            Ok(())
        }
        Err(refused) => {
            heads.truncate(before);
            Err(refused)
        }
    }
}

// Finds instabilities and heads of what the replica joined from scratch. Where memory is refused for that, the replica
// takes it back.
fn find_again(
    alloc: Global,
    replica: &mut Replica,
    instabilities: &mut Instabilities,
    heads: &mut HeadPlaces,
    answer: Result<Undo, Fault>,
) -> Result<(), Fault>
    requires { IfOk answer (λ undo. (s : ReplicaState) × LeadsBack replica.old undo s) }
    ensures found { FindsAgain answer replica.old instabilities.old result replica.new instabilities.new }
    ensures heads { FindsHeadsAgain answer replica.old heads.old result heads.new }
{
    match answer {
        Ok(undo) => match from_scratch(alloc, replica) {
            Ok((found, found_heads)) => {
                *instabilities = found;
                *heads = found_heads;
                Ok(())
            }
            Err(AllocError) => {
                replica.take_back(undo);
                Err(Fault::NoMemory)
            }
        },
        Err(fault) => Err(fault),
    }
}

// The instabilities and the heads of a replica.
fn from_scratch(alloc: Global, replica: &Replica) -> Result<(Instabilities, HeadPlaces), AllocError>
    ensures sets { IfOk result (λ found. AreInstabilities (content_of replica.now) found.0) }
    ensures heads { IfOk result (λ found. AreHeadPlaces replica.now.history found.1) }
{
    let instabilities = Instabilities::from_scratch(alloc, replica)?;
    let heads = HeadPlaces::of(alloc, replica)?;
    Ok((instabilities, heads))
}
