//! How ids are compared.
//!
//! Their 20 bytes are read as three numbers, of eight, eight and four bytes, in which the first byte weighs most. Such
//! numbers are equal where the bytes are, and in the order of the bytes.
ghost use Rattle.std.specs.Prelude.{◌≡◌, length, take, drop, nat_eq};
ghost use Rattle.std.specs.Cmp.Lexicographic.{slice_cmp};
ghost use Rattle.std.specs.Ordering.{nat_cmp, ordering_then};
ghost use lib.Pointwise.{pointwise};
ghost use Rattle.hex.specs.Hex.{IsBytes};
ghost use Rattle.hg_changeset.specs.BigEndian.{big_endian};

use std::cmp::Ordering;

/// Whether these are the same bytes.
pub fn are_same_bytes(a: &[u8; 20], b: &[u8; 20]) -> bool
    ensures { result ≡ pointwise nat_eq a.now b.now }
{
    numbers(a) == numbers(b)
}

/// Which bytes come first. Ids mostly differ in their first byte, so it is asked before all.
pub fn bytes_order(a: &[u8; 20], b: &[u8; 20]) -> Ordering
    ensures { result ≡ slice_cmp nat_cmp a.now b.now }
{
    let first = a[0].cmp(&b[0]);
    if first.is_ne() {
        return first;
    }
    numbers_order(numbers(a), numbers(b))
}

// The first numbers that differ decide.
fn numbers_order(x: (u64, u64, u32), y: (u64, u64, u32)) -> Ordering
    ensures { result ≡ ordering_then (nat_cmp x.0 y.0) (ordering_then (nat_cmp x.1 y.1) (nat_cmp x.2 y.2)) }
{
    if x.0 != y.0 {
        return x.0.cmp(&y.0);
    }
    if x.1 != y.1 {
        return x.1.cmp(&y.1);
    }
    if x.2 != y.2 {
        return x.2.cmp(&y.2);
    }
    Ordering::Equal
}

// The three numbers that 20 bytes write.
fn numbers(bytes: &[u8]) -> (u64, u64, u32)
    requires { length bytes.now ≡ 20 }
    ensures front { result.0 ≡ big_endian (take 8 bytes.now) }
    ensures middle { result.1 ≡ big_endian (take 8 (drop 8 bytes.now)) }
    ensures back { result.2 ≡ big_endian (drop 16 bytes.now) }
    ensures bytes { IsBytes bytes.now }
{
    (eight(&bytes[..8]), eight(&bytes[8..16]), four(&bytes[16..]))
}

// The number that eight bytes write.
fn eight(bytes: &[u8]) -> u64
    requires { length bytes.now ≡ 8 }
    ensures { result ≡ big_endian bytes.now }
{
    u64::from_be_bytes([
        bytes[0], bytes[1], bytes[2], bytes[3], bytes[4], bytes[5], bytes[6], bytes[7],
    ])
}

// The number that four bytes write.
fn four(bytes: &[u8]) -> u32
    requires { length bytes.now ≡ 4 }
    ensures { result ≡ big_endian bytes.now }
{
    u32::from_be_bytes([bytes[0], bytes[1], bytes[2], bytes[3]])
}
