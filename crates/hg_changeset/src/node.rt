//! Node ids.
//!
//! A node id is 20 bytes, and names a changeset by what it contains. Ids are ordered as byte strings. In text an
//! id is 40 hexadecimal digits, which are written in lower case and read in either case.
ghost use Rattle.std.specs.Prelude.{◌≡◌, ◌↔◌, ◌*◌, nat_eq, replicate, IsTrue, IsOk, IfOk, length, refl, Some};
ghost use Rattle.std.specs.List.{AllPass};
ghost use lib.Pointwise.{pointwise};
ghost use Rattle.hex.specs.Hex.{encode_lower, is_hex_digit, IsBytes};
ghost use Rattle.hg_changeset.specs.Node.{null_node, IsNode, id_value, node_of_hex};
ghost use Rattle.hg_changeset.specs.Refusals.{node_error_number, node_error_name};

use crate::comparing::{are_same_bytes, bytes_order};
use crate::feeding::feed_bytes;
use hex::{FromHex, encode_to_slice};
use std::cmp::Ordering;
use std::error::Error;
use std::fmt;
use std::hash::{Hash, Hasher};

/// A node id. The default is the null id.
#[derive(Clone, Copy, Default, Eq, PartialOrd, Debug)]
pub struct Node(pub [u8; 20]);

impl PartialEq for Node {
    ghost use Rattle.std.specs.Cmp.{partial_equiv_from_equiv};
    ghost use Rattle.std.specs.Cmp.Lexicographic.{on_texts_equal};
    ghost use Rattle.hg_changeset.specs.Node.{node_eq};

    ghost eq = { node_eq };

    ghost laws = { partial_equiv_from_equiv (on_texts_equal (λ n. n.0)) };

    fn eq(&self, other: &Node) -> bool {
        are_same_bytes(&self.0, &other.0)
    }
}

impl Ord for Node {
    ghost use Rattle.std.specs.Cmp.Lexicographic.{lists_agrees, on_texts, texts_ties};
    ghost use Rattle.hg_changeset.specs.Node.{node_cmp};

    ghost cmp = { node_cmp };

    ghost total = { on_texts (λ n. n.0) };

    ghost matches_partial_cmp = { λ x y. lists_agrees (λ _ _. refl) x.0 y.0 };

    ghost matches_eq = { λ x y. texts_ties x.0 y.0 };

    fn cmp(&self, other: &Node) -> Ordering {
        bytes_order(&self.0, &other.0)
    }
}

impl Hash for Node {
    ghost use Rattle.hg_changeset.specs.Fed.{node_fed, node_alike};

    ghost hash_input = { node_fed };

    ghost respects_eq = { node_alike };

    fn hash<H: Hasher>(&self, state: &mut H) {
        feed_bytes(&self.0, state);
    }
}

/// Why a text is no node id.
#[derive(Clone, Copy, PartialEq, Eq, Debug)]
pub enum NodeError {
    /// It hasn't 40 bytes.
    BadLength,
    /// It has 40 bytes, and one of them is no hexadecimal digit.
    BadDigit,
}

impl NodeError {
    /// The refusal's number, from 1 in the order in which they are tried.
    pub fn number(self) -> u8
        ensures { result ≡ node_error_number self }
    {
        match self {
            NodeError::BadLength => 1,
            NodeError::BadDigit => 2,
        }
    }
}

impl fmt::Display for NodeError {
    ghost output = { λ refusal. Some (node_error_name refusal) };

    fn fmt<W: fmt::Write>(&self, f: &mut fmt::Formatter<W>) -> fmt::Result {
        match *self {
            NodeError::BadLength => write!(f, "BadLength"),
            NodeError::BadDigit => write!(f, "BadDigit"),
        }
    }
}

impl Error for NodeError {}

impl Node {
    /// The null id: 20 zero bytes, which stand for an absent parent.
    pub const NULL: Node = Node([0; 20]);

    /// Whether this is the null id.
    pub fn is_null(self) -> bool
        ensures null { IsTrue result ↔ (self ≡ null_node) }
        ensures node { IsNode self }
    {
        are_null(&self.0)
    }

    /// Reads 40 hexadecimal digits, of either case.
    ///
    /// Refuses [`NodeError::BadLength`], then [`NodeError::BadDigit`].
    pub fn from_hex(text: &[u8]) -> Result<Node, NodeError>
        ensures exact { result ≡ node_of_hex text.now }

        // So BadDigit comes exactly where 40 bytes aren't all digits.
        ensures accepts { IsOk result ↔ ((length text.now ≡ 40) × AllPass is_hex_digit text.now) }
        ensures node { IfOk result IsNode }
    {
        if text.len() != 40 {
            return Err(NodeError::BadLength);
        }
        match <[u8; 20] as FromHex>::from_hex(text) {
            Ok(bytes) => Ok(Node(bytes)),
            Err(_) => Err(NodeError::BadDigit),
        }
    }

    /// The 40 hexadecimal digits, in lower case.
    #[inline(always)]
    pub fn to_hex(self) -> [u8; 40]
        ensures digits { result ≡ encode_lower self.0 }
        ensures reads_back { id_value result ≡ Some self }
    {
        let mut text = [0u8; 40];
        write_hex(&self.0, &mut text);
        text
    }
}

// Whether these are the bytes of the null id.
fn are_null(bytes: &[u8; 20]) -> bool
    ensures null { result ≡ pointwise nat_eq bytes.now (replicate 20 0) }
    ensures bytes { IsBytes bytes.now }
{
    are_same_bytes(bytes, &Node::NULL.0)
}

// Writes the digits of the bytes.
fn write_hex(bytes: &[u8], text: &mut [u8])
    requires { length text.old ≡ 2 * length bytes.now }
    ensures digits { text.new ≡ encode_lower bytes.now }
    ensures bytes { IsBytes bytes.now }
{
    let _ = encode_to_slice(bytes, text);
}
