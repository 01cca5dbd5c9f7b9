//! Changesets.
//!
//! A changeset has at most two parents and a text, and is named by the SHA-1 of these. Its parents are an unordered
//! pair, which is kept in normal form: an absent parent, the null id, stands last, otherwise the lesser stands first.
ghost use Rattle.std.specs.Prelude.{◌≡◌, ◌++◌, ◌↔◌, ◌≤◌, ◌-◌, ◌==◌, not, length, Some, None, IsTrue, MatchOption, IfOk};
ghost use Rattle.std.specs.Prelude.{MatchResult, Ok, Err};
ghost use Rattle.std.specs.List.{suffix_len};
ghost use Rattle.hex.specs.Hex.{IsBytes};
ghost use Rattle.hg_changeset.specs.Contents.{contents};
ghost use Rattle.hg_changeset.specs.Node.{IsNode};
ghost use Rattle.hg_changeset.specs.Changeset.{node_of, last_line, lesser, greater};
ghost use Rattle.hg_changeset.specs.Changeset.{is_given_twice, IsNormal, IsNormalFormOf};
ghost use Rattle.hg_changeset.specs.Changeset.{IsChangeset, changeset_of, changeset_fault, text_limit};
ghost use Rattle.hg_changeset.specs.Refusals.{changeset_error_number, changeset_error_name};

use crate::node::Node;
use sha1::Sha1;
use std::alloc::AllocError;
use std::cmp::Ordering;
use std::error::Error;
use std::fmt;
use std::marker::Model;

/// The most bytes that a text may have.
pub const TEXT_LIMIT: usize = 1_048_576;

/// Why two parents and a text make no changeset.
#[derive(Clone, Copy, PartialEq, Eq, Debug)]
pub enum ChangesetError {
    /// Both parents are one changeset.
    SameParent,
    /// The text has more than [`TEXT_LIMIT`] bytes.
    TextTooLong,
    /// The id would be the null id.
    NullNode,
}

impl ChangesetError {
    /// The refusal's number, from 1 in the order in which they are tried.
    pub fn number(self) -> u8
        ensures { result ≡ changeset_error_number self }
    {
        match self {
            ChangesetError::SameParent => 1,
            ChangesetError::TextTooLong => 2,
            ChangesetError::NullNode => 3,
        }
    }
}

impl fmt::Display for ChangesetError {
    ghost output = { λ refusal. Some (changeset_error_name refusal) };

    fn fmt<W: fmt::Write>(&self, f: &mut fmt::Formatter<W>) -> fmt::Result {
        match *self {
            ChangesetError::SameParent => write!(f, "SameParent"),
            ChangesetError::TextTooLong => write!(f, "TextTooLong"),
            ChangesetError::NullNode => write!(f, "NullNode"),
        }
    }
}

impl Error for ChangesetError {}

/// A changeset: at most two parents, a text, and the id that these give.
#[derive(Drop, Debug)]
pub struct Changeset {
    node: Node,
    first: Node,
    second: Node,
    text: Vec<u8>,
}

impl Model for Changeset {
    ghost use Rattle.std.specs.Prelude.{◌≡◌};
    ghost use Rattle.hg_changeset.specs.Contents.{Contents, contents};

    ghost Value = { Contents };

    ghost use Rattle.hg_changeset.specs.Changeset.{node_of, IsChangeset};

    ghost view = { λ c. contents c.first c.second c.text.items };

    ghost invariant = { λ c. (c.node ≡ node_of (contents c.first c.second c.text.items))
        × IsChangeset (contents c.first c.second c.text.items) };
}

impl PartialEq for Changeset {
    ghost use Rattle.std.specs.Cmp.{partial_equiv_from_equiv};
    ghost use Rattle.hg_changeset.specs.Same.{same_contents, contents_equivalence};

    ghost eq = { same_contents };

    ghost laws = { partial_equiv_from_equiv contents_equivalence };

    fn eq(&self, other: &Changeset) -> bool {
        self.is_same(other)
    }
}

impl Eq for Changeset {
    ghost use Rattle.hg_changeset.specs.Same.{contents_equivalence};

    ghost laws = { contents_equivalence };
}

impl Changeset {
    /// The changeset of these parents, in either order, and this text.
    ///
    /// Refuses [`ChangesetError::SameParent`], then [`ChangesetError::TextTooLong`], then
    /// [`ChangesetError::NullNode`].
    pub fn new(p: Node, q: Node, text: Vec<u8>) -> Result<Changeset, ChangesetError>
        ensures { MatchOption (changeset_fault p q text.items)
            (result ≡ Ok (changeset_of p q text.items))
            (λ fault. result ≡ Err fault) }
    {
        let Some((first, second)) = normal_form(p, q) else {
            return Err(ChangesetError::SameParent);
        };
        let node = checked_id(first, second, &text)?;
        Ok(Changeset {
            node,
            first,
            second,
            text,
        })
    }

    /// The id of the changeset of these parents, in either order, and this text. It takes no memory.
    ///
    /// Refuses as [`new`](Changeset::new) does.
    pub fn id_of(p: Node, q: Node, text: &[u8]) -> Result<Node, ChangesetError>
        ensures answer { MatchOption (changeset_fault p q text.now)
            (result ≡ Ok (node_of (changeset_of p q text.now)))
            (λ fault. result ≡ Err fault) }
        ensures node { IfOk result IsNode }
    {
        let Some((first, second)) = normal_form(p, q) else {
            return Err(ChangesetError::SameParent);
        };
        checked_id(first, second, text)
    }

    /// The changeset of these parents, in either order, and this text, where its id is known already. Nothing is
    /// hashed.
    pub fn with_id(node: Node, p: Node, q: Node, text: Vec<u8>) -> Changeset
        requires faultless { changeset_fault p q text.items ≡ None }
        requires id { node ≡ node_of (changeset_of p q text.items) }
        requires node { IsNode node }
        ensures { result ≡ changeset_of p q text.items }
    {
        let (first, second) = normal_form(p, q).unwrap();
        Changeset {
            node,
            first,
            second,
            text,
        }
    }

    /// The id.
    pub fn node(&self) -> Node
        ensures id { result ≡ node_of self.now }
        ensures changeset { IsChangeset self.now }
    {
        self.node
    }

    /// The parents, in normal form.
    pub fn parents(&self) -> (Node, Node)
        ensures parents { result ≡ (self.now.first, self.now.second) }
        ensures normal { IsNormal result.0 result.1 }
    {
        (self.first, self.second)
    }

    /// The text.
    pub fn text(&self) -> &[u8]
        ensures text { result.now ≡ self.now.text }
        ensures within { length result.now ≤ text_limit }
        ensures bytes { IsBytes result.now }
    {
        &self.text
    }

    /// What follows the last LF of the text. Where that is an entry's text, it is the last line of the description.
    pub fn last_line(&self) -> &[u8]
        ensures { result.now ≡ last_line self.now }
    {
        &self.text[start_of_last_line(&self.text)..]
    }

    /// Whether the other changeset has the same parents and the same text.
    pub fn is_same(&self, other: &Changeset) -> bool
        ensures { IsTrue result ↔ (self.now ≡ other.now) }
    {
        self.first == other.first
            && self.second == other.second
            && self.text.as_slice() == other.text.as_slice()
    }

    /// An equal changeset.
    pub fn copy(&self) -> Result<Changeset, AllocError>
        ensures { IfOk result (λ c. c ≡ self.now) }
    {
        Ok(Changeset {
            node: self.node,
            first: self.first,
            second: self.second,
            text: self.text.clone()?,
        })
    }
}

/// Whether two parents are one changeset. The null id, which stands for an absent parent, is none.
pub fn is_given_twice(p: Node, q: Node) -> bool
    ensures { result ≡ is_given_twice p q }
{
    p == q && !p.is_null()
}

// Where what follows the last LF begins.
fn start_of_last_line(text: &[u8]) -> usize
    ensures start { result ≡ length text.now - suffix_len (λ b. not (b == 10)) text.now }
    ensures within { result ≤ length text.now }
{
    let mut start = text.len();
    while start > 0 && text[start - 1] != b'\n' {
        start -= 1;
    }
    start
}

// The two parents with a null one last, otherwise the lesser first; none where one parent is given twice.
fn normal_form(p: Node, q: Node) -> Option<(Node, Node)>
    ensures { MatchOption result
        (IsTrue (is_given_twice p q))
        (λ parents. IsNormalFormOf p q parents.0 parents.1) }
{
    let p_is_null = p.is_null();
    if q.is_null() {
        return Some((p, q));
    }
    if p_is_null {
        return Some((q, p));
    }
    match p.cmp(&q) {
        Ordering::Less => Some((p, q)),
        Ordering::Equal => None,
        Ordering::Greater => Some((q, p)),
    }
}

// The id of the changeset with these parents in normal form and this text.
fn checked_id(first: Node, second: Node, text: &[u8]) -> Result<Node, ChangesetError>
    ensures answer { (p q : Node) → IsNormalFormOf p q first second → MatchResult result
        (λ node. (changeset_fault p q text.now ≡ None) × (node ≡ node_of (contents first second text.now))
        × IsChangeset (contents first second text.now))
        (λ fault. changeset_fault p q text.now ≡ Some fault) }
    ensures node { IfOk result IsNode }
{
    if text.len() > TEXT_LIMIT {
        return Err(ChangesetError::TextTooLong);
    }
    let node = id_of(first, second, text);
    if node.is_null() {
        return Err(ChangesetError::NullNode);
    }
    Ok(node)
}

// The id of the changeset with these parents and this text: its SHA-1, the lesser parent first.
fn id_of(p: Node, q: Node, text: &[u8]) -> Node
    ensures id { result ≡ node_of (contents p q text.now) }
    ensures bytes { IsBytes text.now }
{
    let mut hasher = Sha1::new();
    hasher.update(&parent_bytes(p, q));
    hasher.update(text);
    Node(hasher.finalize())
}

// The bytes of two parents, of the lesser first.
fn parent_bytes(p: Node, q: Node) -> [u8; 40]
    ensures { result ≡ (lesser p q).0 ++ (greater p q).0 }
{
    let (lesser, greater) = in_order(p, q);
    let mut bytes = [0; 40];
    bytes[..20].copy_from_slice(&lesser.0);
    bytes[20..].copy_from_slice(&greater.0);
    bytes
}

fn in_order(p: Node, q: Node) -> (Node, Node)
    ensures { result ≡ (lesser p q, greater p q) }
{
    if p.cmp(&q).is_gt() { (q, p) } else { (p, q) }
}
