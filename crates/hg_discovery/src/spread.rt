//! What one round's answers decide.
//!
//! An answer is spread by a walk: the places that it decides are queued, and from each the walk goes on to what is
//! undecided beside it. So all walks together cost what they decide. They decide in a copy, since nothing changes where
//! memory is refused.
ghost use Rattle.std.specs.Prelude.{◌≡◌, ◌≢◌, ◌≤◌, true, false, Some, length, OnOk, IfOk};
ghost use Rattle.hg_discovery.specs.declared.finding.Finding.TheVariants.{Undecided, Common, Missing};
ghost use Rattle.hg_discovery.specs.Under.{IsInOrder, IsOneOf};
ghost use Rattle.hg_discovery.specs.Search.{Is, IsClosed};
ghost use Rattle.hg_discovery.specs.Answers.{TakesAnswer, TakesAnswers, IsDecided};
ghost use Rattle.hg_discovery.specs.Children.{AreChildren, Stands};
ghost use Rattle.hg_discovery.specs.Queue.{Grows, AreTaken};

use crate::children::{Children, Stretch};
use crate::finding::{Finding, PlacedNode};
use hg_graph::ParentPlaces;
use std::alloc::{AllocError, Global};

// What is decided once a sample is answered.
pub(crate) fn answered(
    alloc: Global,
    parents: &[ParentPlaces],
    children: &Children,
    asked: &[PlacedNode],
    answers: &[bool],
    decided: &[Finding],
) -> Result<Vec<Finding>, AllocError>
    requires in_order { IsInOrder parents.now }
    requires len { length decided.now ≡ length parents.now }
    requires closed { IsClosed parents.now decided.now }
    requires children { AreChildren parents.now children.now.places.items children.now.stretches.items }
    requires answers { length answers.now ≡ length asked.now }
    ensures told { IfOk result (λ new. TakesAnswers parents.now asked.now answers.now decided.now new.items) }
    ensures closed { IfOk result (λ new. IsClosed parents.now new.items) }
    ensures len { IfOk result (λ new. length new.items ≡ length decided.now) }
{
    let mut decided = Vec::from_slice(alloc, decided)?;
    let mut queue = Vec::new(alloc);
    tell_all(parents, children, asked, answers, &mut decided, &mut queue)?;
    Ok(decided)
}

// The answers to a sample, one by one, in its order.
fn tell_all(
    parents: &[ParentPlaces],
    children: &Children,
    asked: &[PlacedNode],
    answers: &[bool],
    decided: &mut [Finding],
    queue: &mut Vec<usize>,
) -> Result<(), AllocError>
    requires in_order { IsInOrder parents.now }
    requires len { length decided.old ≡ length parents.now }
    requires closed { IsClosed parents.now decided.old }
    requires children { AreChildren parents.now children.now.places.items children.now.stretches.items }
    requires answers { length answers.now ≡ length asked.now }
    ensures told { OnOk result (TakesAnswers parents.now asked.now answers.now decided.old decided.new) }
    ensures closed { OnOk result (IsClosed parents.now decided.new) }
    ensures len { length decided.new ≡ length decided.old }
{
    for i in 0..asked.len() {
        tell(
            parents,
            children,
            asked[i].place,
            answers[i],
            decided,
            queue,
        )?;
    }
    Ok(())
}

// One answer. What is decided already stays so.
fn tell(
    parents: &[ParentPlaces],
    children: &Children,
    place: usize,
    yes: bool,
    decided: &mut [Finding],
    queue: &mut Vec<usize>,
) -> Result<(), AllocError>
    requires in_order { IsInOrder parents.now }
    requires len { length decided.old ≡ length parents.now }
    requires closed { IsClosed parents.now decided.old }
    requires children { AreChildren parents.now children.now.places.items children.now.stretches.items }
    ensures told { OnOk result (TakesAnswer parents.now place yes decided.old decided.new) }
    ensures len { length decided.new ≡ length decided.old }
{
    if place < decided.len() && decided[place] == Finding::Undecided {
        if yes {
            make_common(parents, place, decided, queue)?;
        } else {
            make_missing(parents, children, place, decided, queue)?;
        }
    }
    Ok(())
}

// Makes an undecided changeset and its undecided ancestors common: a walk over parents.
fn make_common(
    parents: &[ParentPlaces],
    place: usize,
    decided: &mut [Finding],
    queue: &mut Vec<usize>,
) -> Result<(), AllocError>
    requires in_order { IsInOrder parents.now }
    requires len { length decided.old ≡ length parents.now }
    requires closed { IsClosed parents.now decided.old }
    requires undecided { Is decided.old Undecided place }
    ensures decided { OnOk result (IsDecided parents.now place true decided.old decided.new) }
    ensures len { length decided.new ≡ length decided.old }
{
    let mut next = queue.len();
    decide(place, Finding::Common, decided, queue)?;
    while next < queue.len() {
        decide_parents(parents[queue[next]], decided, queue)?;
        next += 1;
    }
    Ok(())
}

// Makes an undecided changeset and its undecided descendants missing: a walk over children.
fn make_missing(
    parents: &[ParentPlaces],
    children: &Children,
    place: usize,
    decided: &mut [Finding],
    queue: &mut Vec<usize>,
) -> Result<(), AllocError>
    requires in_order { IsInOrder parents.now }
    requires len { length decided.old ≡ length parents.now }
    requires closed { IsClosed parents.now decided.old }
    requires children { AreChildren parents.now children.now.places.items children.now.stretches.items }
    requires undecided { Is decided.old Undecided place }
    ensures decided { OnOk result (IsDecided parents.now place false decided.old decided.new) }
    ensures len { length decided.new ≡ length decided.old }
{
    let mut next = queue.len();
    decide(place, Finding::Missing, decided, queue)?;
    while next < queue.len() {
        decide_children(
            &children.places,
            children.stretches[queue[next]],
            decided,
            queue,
        )?;
        next += 1;
    }
    Ok(())
}

// Makes the undecided ones of the parents common.
fn decide_parents(
    parents: ParentPlaces,
    decided: &mut [Finding],
    queue: &mut Vec<usize>,
) -> Result<(), AllocError>
    ensures grows { Grows (IsOneOf parents) Common decided.old queue.old.items decided.new queue.new.items }
    ensures taken { OnOk result (AreTaken (IsOneOf parents) Common decided.old decided.new) }
{
    decide_parent(parents.first, decided, queue)?;
    decide_parent(parents.second, decided, queue)?;
    Ok(())
}

// Makes an undecided changeset common, where there is one.
fn decide_parent(
    place: Option<usize>,
    decided: &mut [Finding],
    queue: &mut Vec<usize>,
) -> Result<(), AllocError>
    ensures grows { Grows (λ k. place ≡ Some k) Common decided.old queue.old.items decided.new queue.new.items }
    ensures taken { OnOk result (AreTaken (λ k. place ≡ Some k) Common decided.old decided.new) }
{
    match place {
        Some(place) => {
            decide(place, Finding::Common, decided, queue)?;
            Ok(())
        }
        None => Ok(()),
    }
}

// Makes the undecided ones of a stretch of children missing.
fn decide_children(
    children: &[usize],
    stretch: Stretch,
    decided: &mut [Finding],
    queue: &mut Vec<usize>,
) -> Result<(), AllocError>
    requires { stretch.to ≤ length children.now }
    ensures grows { Grows (Stands children.now stretch.from stretch.to) Missing decided.old queue.old.items decided.new
        queue.new.items }
    ensures taken { OnOk result
        (AreTaken (Stands children.now stretch.from stretch.to) Missing decided.old decided.new) }
{
    for i in stretch.from..stretch.to {
        decide(children[i], Finding::Missing, decided, queue)?;
    }
    Ok(())
}

// Decides an undecided changeset, and queues it.
fn decide(
    one: usize,
    finding: Finding,
    decided: &mut [Finding],
    queue: &mut Vec<usize>,
) -> Result<(), AllocError>
    requires { finding ≢ Undecided }
    ensures grows { Grows (λ k. one ≡ k) finding decided.old queue.old.items decided.new queue.new.items }
    ensures taken { OnOk result (AreTaken (λ k. one ≡ k) finding decided.old decided.new) }
{
    if one < decided.len() && decided[one] == Finding::Undecided {
        queue.push(one)?;
        decided[one] = finding;
    }
    Ok(())
}
