//! What is written of one reason.
ghost use Rattle.std.specs.Prelude.{OnOk};
ghost use Rattle.std.specs.Io.KnownBytes.{Appends};
ghost use Rattle.hg_log.specs.Drawings.{Extends, Grows, HasId, IsDrawnText, Text};
ghost use Rattle.hg_why.specs.Blocks.{AreLinesOf, IsReasonText};

use crate::moves::{Move, move_by, only_of};
use crate::named::{push_each_behind, push_each_named, push_name, push_named, push_successors};
use crate::reason::Reason;
use crate::remedy::Remedy;
use hg_changeset::Node;
use hg_log::{DrawFault, push_short_id, push_text, rewriting_word, write_appended};
use hg_marker::Marker;
use hg_replica::Replica;
use hg_succ::Sets;
use hg_view::Kept;
use std::alloc::{AllocError, Global};
use std::io::Write;

// What is said of an id that leads to more changesets than are told.
const OVERFULL: &[u8] = b"  content-divergent: too many changesets are successors of ";

// What is said of an id that became different changesets, with the same one in each way.
const SHARED: &[u8] = b"  content-divergent: it is in each successors set of ";

/// Of what reasons are told, what that is called, and what is told of a remedy.
#[derive(Clone, Copy)]
pub(crate) struct Telling<'a> {
    pub(crate) alloc: Global,
    pub(crate) name: &'a [u8],
    pub(crate) kept: &'a Kept,
    pub(crate) remedy: Remedy,
}

impl<'a> Telling<'a> {
    /// Writes lines with a reason, of which the earlier ones are given, by means of the empty line that is lent.
    pub(crate) fn write_reason<W: Write>(
        &self,
        node: Node,
        reason: &Reason,
        earlier: &[Reason],
        line: &mut Vec<u8>,
        writer: &mut W,
    ) -> Result<(), DrawFault>
        ensures { OnOk result ((text : Text) × IsReasonText reason.now text
            × Appends (W.contents writer.old) (W.contents writer.new) text) }
    {
        match reason {
            Reason::Orphan {
                parent,
                is_obsolete,
            } => { self.write_orphan(node, *parent, *is_obsolete, line, writer) }
            Reason::PhaseDivergent { predecessor } => {
                self.write_phase_divergent(node, *predecessor, line, writer)
            }
            Reason::ContentDivergent { predecessor, sets } => {
                self.write_content_divergent(node, *predecessor, sets, earlier, line, writer)
            }
        }
    }

    // Writes by which parent it is an orphan, and to where it is moved.
    fn write_orphan<W: Write>(
        &self,
        node: Node,
        parent: Node,
        is_obsolete: bool,
        line: &mut Vec<u8>,
        writer: &mut W,
    ) -> Result<(), DrawFault>
        ensures { OnOk result ((text : Text) × IsDrawnText parent text
            × Appends (W.contents writer.old) (W.contents writer.new) text) }
    {
        let appended = push_orphan(line, self.kept.replica(), parent, is_obsolete);
        write_appended(appended, line, writer)?;
        if !is_obsolete {
            return Ok(());
        }
        self.write_remedy(node, parent, line, writer)
    }

    // Writes to where an orphan is moved, if a remedy is told and there is such a place.
    fn write_remedy<W: Write>(
        &self,
        node: Node,
        parent: Node,
        line: &mut Vec<u8>,
        writer: &mut W,
    ) -> Result<(), DrawFault>
        ensures { OnOk result (Grows (W.contents writer.old) (W.contents writer.new)) }
    {
        match self.remedy {
            Remedy::ScriptLine => match move_by(self.alloc, self.kept, node, parent)? {
                Some(found) => {
                    let appended = self.push_move(line, node, &found);
                    write_appended(appended, line, writer)
                }
                None => Ok(()),
            },
            Remedy::Untold => Ok(()),
        }
    }

    // Appends the command by which a changeset is moved, and what is said of a choice.
    fn push_move(&self, line: &mut Vec<u8>, node: Node, found: &Move) -> Result<(), AllocError> {
        push_text(line, b"  relocate ")?;
        push_text(line, self.name)?;
        push_text(line, b" ")?;
        push_name(line, self.kept.replica(), node)?;
        push_text(line, b" NEW")?;
        push_each_behind(line, self.kept.replica(), &found.parents)?;
        push_text(line, choice(found.choices))
    }

    // Writes from which public changeset it comes.
    fn write_phase_divergent<W: Write>(
        &self,
        node: Node,
        predecessor: Node,
        line: &mut Vec<u8>,
        writer: &mut W,
    ) -> Result<(), DrawFault>
        ensures { OnOk result ((text : Text) × IsDrawnText predecessor text
            × Appends (W.contents writer.old) (W.contents writer.new) text) }
    {
        let appended = push_phase_divergent(line, self.kept.replica(), predecessor, node);
        write_appended(appended, line, writer)
    }

    // Writes from what it comes that became other changesets too, a line for each of the sets without it, unless an
    // earlier reason has that.
    fn write_content_divergent<W: Write>(
        &self,
        node: Node,
        predecessor: Node,
        sets: &Sets,
        earlier: &[Reason],
        line: &mut Vec<u8>,
        writer: &mut W,
    ) -> Result<(), DrawFault>
        ensures { OnOk result ((text : Text) × AreLinesOf predecessor text
            × Appends (W.contents writer.old) (W.contents writer.new) text) }
    {
        match sets {
            Sets::Family(family) => {
                self.write_family(node, predecessor, family, earlier, line, writer)
            }
            Sets::Overfull => self.write_about(OVERFULL, predecessor, line, writer),
        }
    }

    // Writes from what it comes that became other changesets too, by the successors sets of that.
    fn write_family<W: Write>(
        &self,
        node: Node,
        predecessor: Node,
        family: &[Vec<Node>],
        earlier: &[Reason],
        line: &mut Vec<u8>,
        writer: &mut W,
    ) -> Result<(), DrawFault>
        ensures { OnOk result ((text : Text) × AreLinesOf predecessor text
            × Appends (W.contents writer.old) (W.contents writer.new) text) }
    {
        if are_all_with(family, node) {
            return self.write_about(SHARED, predecessor, line, writer);
        }
        for set in family {
            self.write_set(node, predecessor, set, earlier, line, writer)?;
        }
        Ok(())
    }

    // Writes this of what it comes from.
    fn write_about<W: Write>(
        &self,
        words: &[u8],
        predecessor: Node,
        line: &mut Vec<u8>,
        writer: &mut W,
    ) -> Result<(), DrawFault>
        ensures { OnOk result ((text : Text) × IsDrawnText predecessor text
            × Appends (W.contents writer.old) (W.contents writer.new) text) }
    {
        let appended = push_about(line, words, self.kept.replica(), predecessor);
        write_appended(appended, line, writer)
    }

    // Writes from what it comes that became these changesets too, unless it is one of them, or an earlier reason has
    // them.
    fn write_set<W: Write>(
        &self,
        node: Node,
        predecessor: Node,
        set: &[Node],
        earlier: &[Reason],
        line: &mut Vec<u8>,
        writer: &mut W,
    ) -> Result<(), DrawFault>
        ensures { OnOk result ((text : Text) × AreLinesOf predecessor text
            × Appends (W.contents writer.old) (W.contents writer.new) text) }
    {
        if set.contains(&node) || any_has_set(earlier, set) {
            return Ok(());
        }
        let appended = self.push_other(line, node, predecessor, set);
        write_appended(appended, line, writer)
    }

    // Appends from what it comes that became these changesets too.
    fn push_other(
        &self,
        line: &mut Vec<u8>,
        node: Node,
        predecessor: Node,
        others: &[Node],
    ) -> Result<(), AllocError>
        ensures { OnOk result (HasId predecessor line.new.items) }
    {
        let replica = self.kept.replica();
        push_text(line, b"  content-divergent with ")?;
        push_each_named(line, replica, others)?;
        push_text(line, all_of(others))?;
        if !replica.graph().contains(predecessor) {
            return self.push_unheld(line, predecessor);
        }
        push_about(line, b" are successors of ", replica, predecessor)?;
        push_both_ways(line, replica, predecessor, node, others)
    }

    // Appends from what it comes, where that isn't held.
    fn push_unheld(&self, line: &mut Vec<u8>, predecessor: Node) -> Result<(), AllocError>
        ensures { OnOk result (HasId predecessor line.new.items) }
    {
        push_text(line, b" lead back to ")?;
        push_short_id(line, predecessor)?;
        push_text(line, b", which ")?;
        push_text(line, self.name)?;
        push_text(line, b" doesn't hold")
    }
}

// Appends words, and what a changeset is called.
fn push_about(
    line: &mut Vec<u8>,
    words: &[u8],
    replica: &Replica,
    node: Node,
) -> Result<(), AllocError>
    ensures { OnOk result (HasId node line.new.items) }
{
    push_text(line, words)?;
    push_named(line, replica, node)
}

// Appends by which parent a changeset is an orphan.
fn push_orphan(
    line: &mut Vec<u8>,
    replica: &Replica,
    parent: Node,
    is_obsolete: bool,
) -> Result<(), AllocError>
    ensures { OnOk result (HasId parent line.new.items) }
{
    push_about(line, b"  orphan: its parent ", replica, parent)?;
    push_fate_of_parent(line, replica, parent, is_obsolete)
}

// Appends what is so of such a parent.
fn push_fate_of_parent(
    line: &mut Vec<u8>,
    replica: &Replica,
    parent: Node,
    is_obsolete: bool,
) -> Result<(), AllocError>
    ensures { OnOk result (Extends line.old.items line.new.items) }
{
    if !is_obsolete {
        return push_text(line, b" is an orphan");
    }
    push_text(line, b" is obsolete,")?;
    push_ways(line, replica, parent)
}

// Appends from which public changeset another one comes.
fn push_phase_divergent(
    line: &mut Vec<u8>,
    replica: &Replica,
    predecessor: Node,
    node: Node,
) -> Result<(), AllocError>
    ensures { OnOk result (HasId predecessor line.new.items) }
{
    push_text(line, b"  phase-divergent: it ")?;
    push_way_from(line, replica, predecessor, node)?;
    push_named(line, replica, predecessor)?;
    push_text(line, b", which is public")
}

// Whether each of the successors sets has the changeset.
fn are_all_with(family: &[Vec<Node>], node: Node) -> bool {
    family.iter().all(|set| set.contains(&node))
}

// With the changeset itself how many there are.
fn all_of(others: &[Node]) -> &'static [u8] {
    match others.len() {
        1 => b": both",
        _ => b": all",
    }
}

// Whether one of the reasons has this successors set.
fn any_has_set(reasons: &[Reason], set: &[Node]) -> bool {
    reasons.iter().any(|reason| match reason {
        Reason::ContentDivergent {
            predecessor: _,
            sets,
        } => has_set(sets, set),
        _ => false,
    })
}

fn has_set(sets: &Sets, set: &[Node]) -> bool {
    match sets {
        Sets::Family(family) => family.iter().any(|other| other.as_slice() == set),
        Sets::Overfull => false,
    }
}

// What is said of a choice, where there is one.
fn choice(choices: usize) -> &'static [u8] {
    match choices {
        0 | 1 => b"",
        2 => b"   (two successors: choose)",
        _ => b"   (several successors: choose)",
    }
}

// Appends how a changeset was rewritten, and to what.
fn push_ways(line: &mut Vec<u8>, replica: &Replica, node: Node) -> Result<(), AllocError>
    ensures { OnOk result (Extends line.old.items line.new.items) }
{
    let mut divider: &[u8] = b"";
    let mut before: &'static [u8] = b"";
    for place in replica.store().with_predecessor(node) {
        before = push_way(line, replica, *place, divider, before)?;
        divider = b"; and";
    }
    Ok(())
}

// Appends how the marker at a place rewrites, by a word unless it is that of before, and to what. Gives the word.
fn push_way(
    line: &mut Vec<u8>,
    replica: &Replica,
    place: usize,
    divider: &[u8],
    before: &'static [u8],
) -> Result<&'static [u8], AllocError>
    ensures { OnOk result (Extends line.old.items line.new.items) }
{
    match replica.store().get(place) {
        Some(marker) => {
            let word = rewriting_word(marker);
            push_text(line, divider)?;
            push_other_word(line, word, before)?;
            push_successors(line, replica, marker.successors())?;
            Ok(word)
        }
        None => Ok(before),
    }
}

// Appends a word behind a blank, unless it is that of before.
fn push_other_word(line: &mut Vec<u8>, word: &[u8], before: &[u8]) -> Result<(), AllocError>
    ensures { OnOk result (Extends line.old.items line.new.items) }
{
    if word == before {
        return Ok(());
    }
    push_text(line, b" ")?;
    push_text(line, word)
}

// Appends how a changeset was rewritten from the other, where one marker says that.
fn push_way_from(
    line: &mut Vec<u8>,
    replica: &Replica,
    predecessor: Node,
    node: Node,
) -> Result<(), AllocError> {
    match marker_between(replica, predecessor, node) {
        Some(marker) => {
            push_text(line, b"was ")?;
            push_text(line, rewriting_word(marker))?;
            push_text(line, b" from ")
        }
        None => push_text(line, b"comes from "),
    }
}

// Appends how a changeset, and the one other, were rewritten from a third, where a marker says each.
fn push_both_ways(
    line: &mut Vec<u8>,
    replica: &Replica,
    predecessor: Node,
    node: Node,
    others: &[Node],
) -> Result<(), AllocError>
    ensures { OnOk result (Extends line.old.items line.new.items) }
{
    let Some(other) = only_of(others) else {
        return Ok(());
    };
    let Some(marker) = marker_between(replica, predecessor, node) else {
        return Ok(());
    };
    let Some(another) = marker_between(replica, predecessor, other) else {
        return Ok(());
    };
    push_words(line, rewriting_word(marker), rewriting_word(another))
}

// Appends two words in brackets.
fn push_words(line: &mut Vec<u8>, first: &[u8], second: &[u8]) -> Result<(), AllocError>
    ensures { OnOk result (Extends line.old.items line.new.items) }
{
    push_text(line, b" (")?;
    push_text(line, first)?;
    push_text(line, b", ")?;
    push_text(line, second)?;
    push_text(line, b")")
}

// The first marker that rewrote the one to the other.
fn marker_between(replica: &Replica, predecessor: Node, node: Node) -> Option<&Marker> {
    for place in replica.store().with_predecessor(predecessor) {
        match replica.store().get(*place) {
            Some(marker) => {
                if marker.successors().contains(&node) {
                    return Some(marker);
                }
            }
            None => {}
        }
    }
    None
}
