//! How many of sixteen bytes, from the first, are of a kind.
ghost use Rattle.std.specs.Prelude.{◌≡◌, ◌≢◌, ℕ, ◌+◌, ◌^◌, ◌<◌, ◌≤◌, ◌==◌, ◌∷◌, [], true, length, slice_index, take, drop, IsTrue};
ghost use Rattle.std.specs.List.{count_by};
ghost use Rattle.std.specs.Int.{bit_at};
ghost use Rattle.markdown_content.specs.PlainBytes.{ArePlain, is_word, spares_words, first_set, is_of_line, feed_bits};

use crate::bytes::ByteSet;
use std::simd::prelude::*;

/// How many bytes are looked at together.
pub const LANES: usize = 16;

/// How many bytes are looked at one by one, with no other look between.
pub(crate) const EIGHT: usize = 8;

// The place of the lowest bit that is set, or the number of lanes.
#[inline(always)]
fn first_set(mask: u64) -> usize
    ensures { result ≡ first_set mask }
{
    if mask == 0 {
        LANES
    } else {
        mask.trailing_zeros() as usize
    }
}

// How many of the sixteen bytes from this index on are above 13, from the first.
#[inline(always)]
pub(crate) fn ordinary_among(bytes: &[u8], at: usize) -> usize
    requires { at + LANES ≤ length bytes.now }
    ensures within { result ≤ LANES }
    ensures ordinary { ArePlain [] bytes.now at (at + result) }
{
    let lanes = u8x16::from_slice(&bytes[at..]);
    first_set(lanes.simd_le(u8x16::splat(b'\r')).to_bitmask())
}

/// How many of the sixteen bytes from this index on are line feeds or above 13, from the first, and which are line feeds: a bit for each.
#[inline(always)]
pub fn feeds_among(bytes: &[u8], at: usize) -> (usize, u64)
    requires { at + LANES ≤ length bytes.now }
    ensures within { result.0 ≤ LANES }
    ensures of_lines { (i : ℕ) → at ≤ i → i < at + result.0 → is_of_line (slice_index bytes.now i) ≡ true }
    ensures feeds { result.1 ≡ feed_bits (take LANES (drop at bytes.now)) }
{
    let group = u8x16::from_slice(&bytes[at..]);
    let feeds = group.simd_eq(u8x16::splat(b'\n'));
    let others = group.simd_le(u8x16::splat(b'\r')) & group.simd_ne(u8x16::splat(b'\n'));
    (first_set(others.to_bitmask()), feeds.to_bitmask())
}

// How many of the sixteen bytes from this index on are above 13 and none of these two, from the first.
#[inline(always)]
pub(crate) fn others_among(bytes: &[u8], at: usize, one: u8, two: u8) -> usize
    requires { at + LANES ≤ length bytes.now }
    ensures within { result ≤ LANES }
    ensures others { ArePlain (one ∷ two ∷ []) bytes.now at (at + result) }
{
    let group = u8x16::from_slice(&bytes[at..]);
    let is_of_two = group.simd_eq(u8x16::splat(one)) | group.simd_eq(u8x16::splat(two));
    first_set((group.simd_le(u8x16::splat(b'\r')) | is_of_two).to_bitmask())
}

// How many of the sixteen bytes from this index on are this one.
#[inline(always)]
pub(crate) fn same_among(bytes: &[u8], at: usize, byte: u8) -> usize
    requires { at + LANES ≤ length bytes.now }
    ensures { result ≡ count_by (λ b. b == byte) (take LANES (drop at bytes.now)) }
{
    let group = u8x16::from_slice(&bytes[at..]);
    let same = group.simd_eq(u8x16::splat(byte));
    same.to_bitmask().count_ones() as usize
}

// Which of the sixteen bytes from this index on are no letters and no spaces, and not beyond ASCII: a bit for each.
#[inline(always)]
fn signs_among(bytes: &[u8], at: usize) -> u64
    requires { at + LANES ≤ length bytes.now }
    ensures few { result < 2 ^ 16 }
    ensures words { (i : ℕ) → i < 16 → bit_at result i ≡ 0 → is_word (slice_index bytes.now (at + i)) ≡ true }
{
    let lanes = u8x16::from_slice(&bytes[at..]);
    let from_a = (lanes | u8x16::splat(0x20)) - u8x16::splat(b'a');
    let is_other = from_a.simd_ge(u8x16::splat(26)) & lanes.simd_ne(u8x16::splat(b' '));
    (is_other & lanes.simd_lt(u8x16::splat(128))).to_bitmask()
}

// The place of the lowest bit that is set.
#[inline(always)]
fn lowest(mask: u64) -> usize
    requires few { mask < 2 ^ 16 }
    requires some { mask ≢ 0 }
    ensures within { result < 16 }
    ensures below { (i : ℕ) → i < result → bit_at mask i ≡ 0 }
    ensures set { bit_at mask result ≡ 1 }
{
    mask.trailing_zeros() as usize
}

// The mask without this bit, which is set.
#[inline(always)]
fn without(mask: u64, bit: usize) -> u64
    requires within { bit < 16 }
    requires set { bit_at mask bit ≡ 1 }
    ensures less { result < mask }
    ensures others { (i : ℕ) → i < 16 → i ≢ bit → bit_at result i ≡ bit_at mask i }
{
    mask & !(1 << bit)
}

// How many of the sixteen bytes from this index on are ordinary, from the first, where words are ordinary: signs alone are looked up.
#[inline(always)]
pub(crate) fn plain_among(bytes: &[u8], at: usize, stops: &ByteSet) -> usize
    requires words { IsTrue (spares_words stops.now) }
    requires room { at + LANES ≤ length bytes.now }
    ensures within { result ≤ LANES }
    ensures plain { ArePlain stops.now bytes.now at (at + result) }
{
    let mut signs = signs_among(bytes, at);
    while signs != 0 {
        let count = lowest(signs);
        if !stops.is_plain(bytes[at + count]) {
            return count;
        }
        signs = without(signs, count);
    }
    LANES
}

// How many of the eight bytes from this index on are ordinary, from the first.
#[inline(always)]
pub(crate) fn plain_among_eight(bytes: &[u8], at: usize, stops: &ByteSet) -> usize
    requires { at + EIGHT ≤ length bytes.now }
    ensures within { result ≤ EIGHT }
    ensures plain { ArePlain stops.now bytes.now at (at + result) }
{
    for count in 0..EIGHT {
        if !stops.is_plain(bytes[at + count]) {
            return count;
        }
    }
    EIGHT
}
