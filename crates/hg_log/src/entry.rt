//! A changeset as an object of JSON.
ghost use Rattle.std.specs.Prelude.{◌≡◌, ◌<◌, ◌++◌, All, Bool, List, OnOk, Some, codes, false, length, slice_get};
ghost use Rattle.hg_marker.specs.Fields.{Fields};
ghost use Rattle.hg_obsstore.specs.Places.{picked};
ghost use Rattle.hg_phases.specs.State.{changesets};
ghost use Rattle.hg_log.specs.Entries.{Entry, IsEntryAt, key_text, label_text, marker_text, markers_text, node_text};
ghost use Rattle.hg_log.specs.Entries.{nodes_text, object_text, only_if, operation_text, parents_of, parents_text};
ghost use Rattle.hg_log.specs.Entries.{state_text, unstable_text, unstable_words};
ghost use Rattle.hg_log.specs.Json.{AreDivided, IsAppended, divided, ids_text, list_text, string_text, truth_text};

use crate::fate::rewriting_word;
use crate::json::{push_divider, push_id, push_ids, push_string, push_truth};
use crate::line::push_text;
use crate::named::NamedNode;
use crate::titles::label_of;
use hg_changeset::{Changeset, Node};
use hg_obsstore::Store;
use hg_view::Status;
use std::alloc::AllocError;

/// Appends the object of the changeset at a place.
pub(crate) fn push_object(
    line: &mut Vec<u8>,
    node: &NamedNode<'_>,
    place: usize,
) -> Result<(), AllocError>
    requires { place < length (changesets node.now.kept.now.replica.history) }
    ensures { OnOk result ((e : Entry) × IsEntryAt node.now.name.now node.now.kept.now place e
        × IsAppended line.old.items (object_text e) line.new.items) }
{
    let replica = node.kept.replica();
    let store = replica.store();
    let changeset = replica.graph().changeset_at(place).unwrap();
    let phase = replica.phase_at(place).unwrap();
    let status = node.kept.status(changeset.node());
    let markers = store.with_predecessor(changeset.node());
    push_state(line, changeset, status)?;
    push_parents(line, changeset)?;
    push_string_field(line, b"phase", phase.word().as_bytes())?;
    push_string_field(line, b"repository", node.name)?;
    push_markers(line, store, markers)?;
    push_text(line, b"\n }")
}

// Appends the first half of an object: its label, whether it is hidden, what is unstable, its id, and whether it is
// obsolete.
fn push_state(line: &mut Vec<u8>, changeset: &Changeset, status: Status) -> Result<(), AllocError>
    ensures { OnOk result (IsAppended line.old.items (state_text changeset.now status) line.new.items) }
{
    push_label(line, label_of(changeset))?;
    push_truth_field(line, b"hidden", !status.visible)?;
    push_unstable(line, status)?;
    push_node(line, changeset.node())?;
    push_truth_field(line, b"obsolete", status.obsolete)
}

// Appends the beginning of an object, with its label.
fn push_label(line: &mut Vec<u8>, label: &[u8]) -> Result<(), AllocError>
    ensures { OnOk result (IsAppended line.old.items (label_text label.now) line.new.items) }
{
    push_text(line, b"\n {\n  \"desc\": ")?;
    push_string(line, label)
}

// Appends a key of an object, but for the first.
fn push_key(line: &mut Vec<u8>, key: &[u8]) -> Result<(), AllocError>
    ensures { OnOk result (line.new.items ≡ line.old.items ++ key_text key.now) }
{
    push_text(line, b",\n  \"")?;
    push_text(line, key)?;
    push_text(line, b"\": ")
}

// Appends a key with a string.
fn push_string_field(line: &mut Vec<u8>, key: &[u8], value: &[u8]) -> Result<(), AllocError>
    ensures { OnOk result
        (IsAppended line.old.items (key_text key.now ++ string_text value.now) line.new.items) }
{
    push_key(line, key)?;
    push_string(line, value)
}

// Appends a key with a truth value.
fn push_truth_field(line: &mut Vec<u8>, key: &[u8], is_so: bool) -> Result<(), AllocError>
    ensures { OnOk result (IsAppended line.old.items (key_text key.now ++ truth_text is_so) line.new.items) }
{
    push_key(line, key)?;
    push_truth(line, is_so)
}

// Appends what is unstable about a changeset.
fn push_unstable(line: &mut Vec<u8>, status: Status) -> Result<(), AllocError>
    ensures { OnOk result (IsAppended line.old.items (unstable_text status) line.new.items) }
{
    push_key(line, b"instabilities")?;
    push_unstable_words(line, status)
}

// Appends the words for what is unstable about a changeset.
fn push_unstable_words(line: &mut Vec<u8>, status: Status) -> Result<(), AllocError>
    ensures { OnOk result (line.new.items ≡ line.old.items ++ list_text string_text (unstable_words status)) }
{
    let mut is_behind = false;
    push_text(line, b"[")?;
    push_word_if(line, status.orphan, b"orphan", &mut is_behind)?;
    push_word_if(
        line,
        status.phase_divergent,
        b"phase-divergent",
        &mut is_behind,
    )?;
    push_word_if(
        line,
        status.content_divergent,
        b"content-divergent",
        &mut is_behind,
    )?;
    push_text(line, b"]")?;
    Ok(())
}

// Appends a word where that is so.
fn push_word_if(
    line: &mut Vec<u8>,
    is_so: bool,
    word: &[u8],
    is_behind: &mut bool,
) -> Result<(), AllocError>
    ensures { OnOk result (AreDivided is_behind.old (codes ", ") string_text (only_if is_so word.now)
        line.old.items line.new.items is_behind.new) }
{
    if is_so {
        push_divider(line, b", ", is_behind)?;
        push_string(line, word)?;
    }
    Ok(())
}

// Appends an id.
fn push_node(line: &mut Vec<u8>, node: Node) -> Result<(), AllocError>
    ensures { OnOk result (IsAppended line.old.items (node_text node) line.new.items) }
{
    push_key(line, b"node")?;
    push_id(line, node)
}

// Appends the parents' ids: that of the null changeset where there is none.
fn push_parents(line: &mut Vec<u8>, changeset: &Changeset) -> Result<(), AllocError>
    ensures { OnOk result (IsAppended line.old.items (parents_text changeset.now) line.new.items) }
{
    push_key(line, b"parents")?;
    push_parent_ids(line, changeset)
}

fn push_parent_ids(line: &mut Vec<u8>, changeset: &Changeset) -> Result<(), AllocError>
    ensures { OnOk result (line.new.items ≡ line.old.items ++ ids_text (parents_of changeset.now)) }
{
    let (first, second) = changeset.parents();
    if second.is_null() {
        push_ids(line, &[first])
    } else {
        push_ids(line, &[first, second])
    }
}

// Appends what the markers at these places say.
fn push_markers(line: &mut Vec<u8>, store: &Store, places: &[usize]) -> Result<(), AllocError>
    requires { All (λ place. place < length store.now) places.now }
    ensures { OnOk result
        (IsAppended line.old.items (markers_text (picked store.now places.now)) line.new.items) }
{
    push_key(line, b"successors")?;
    push_marker_list(line, store, places)
}

fn push_marker_list(line: &mut Vec<u8>, store: &Store, places: &[usize]) -> Result<(), AllocError>
    requires { All (λ place. place < length store.now) places.now }
    ensures { OnOk result
        (line.new.items ≡ line.old.items ++ list_text marker_text (picked store.now places.now)) }
{
    push_text(line, b"[")?;
    push_each_marker(line, store, places)?;
    push_text(line, b"]")
}

fn push_each_marker(line: &mut Vec<u8>, store: &Store, places: &[usize]) -> Result<(), AllocError>
    requires { All (λ place. place < length store.now) places.now }
    ensures { OnOk result (line.new.items
        ≡ line.old.items ++ divided false (codes ", ") marker_text (picked store.now places.now)) }
{
    let mut is_behind = false;
    for place in places {
        push_divider(line, b", ", &mut is_behind)?;
        push_marker(line, store, *place)?;
    }
    Ok(())
}

// Appends what the marker at a place says: to which others a changeset was rewritten, and how.
fn push_marker(line: &mut Vec<u8>, store: &Store, place: usize) -> Result<(), AllocError>
    requires { place < length store.now }
    ensures { OnOk result ((m : Fields) × (slice_get store.now place ≡ Some m)
        × (line.new.items ≡ line.old.items ++ marker_text m)) }
{
    let marker = store.get(place).unwrap();
    push_nodes(line, marker.successors())?;
    push_operation(line, rewriting_word(marker))?;
    Ok(())
}

fn push_nodes(line: &mut Vec<u8>, nodes: &[Node]) -> Result<(), AllocError>
    ensures { OnOk result (line.new.items ≡ line.old.items ++ nodes_text nodes.now) }
{
    push_text(line, b"{\"nodes\": ")?;
    push_ids(line, nodes)
}

fn push_operation(line: &mut Vec<u8>, word: &[u8]) -> Result<(), AllocError>
    ensures { OnOk result (line.new.items ≡ line.old.items ++ operation_text word.now) }
{
    push_text(line, b", \"operation\": ")?;
    push_string(line, word)?;
    push_text(line, b"}")
}
