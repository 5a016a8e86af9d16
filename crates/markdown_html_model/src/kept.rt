//! Bytes that stand in HTML as they are.
#![tactic(auto)]

ghost use Rattle.std.specs.Prelude.{◌≡◌, ℕ, ◌+◌, ◌<◌, ◌≤◌, length, slice_index, true};
ghost use Rattle.markdown_content.specs.PlainBytes.{first_set};
ghost use Rattle.markdown_html_model.specs.Escaped.{is_kept};

use markdown_content::lanes::LANES;
use std::simd::prelude::*;

// The place of the lowest bit that is set, or the number of lanes.
#[inline(always)]
fn first_set(mask: u64) -> usize
    ensures { result ≡ first_set mask }
{
    if mask == 0 {
        LANES
    } else {
        mask.trailing_zeros() as usize
    }
}

// How many of the sixteen bytes from this index on stand as they are, from the first.
//
// Without its second bit `>` is `<`, and without its third bit `&` is `"`. No other byte becomes either, so three looks find all five that do not stand as they are.
#[inline(always)]
pub(crate) fn kept_among(bytes: &[u8], at: usize) -> usize
    requires { at + LANES ≤ length bytes.now }
    ensures within { result ≤ LANES }
    ensures kept { (k : ℕ) → at ≤ k → k < at + result → is_kept (slice_index bytes.now k) ≡ true }
{
    let lanes = u8x16::from_slice(&bytes[at..]);
    let is_angle = (lanes & u8x16::splat(0xFD)).simd_eq(u8x16::splat(b'<'));
    let is_sign = (lanes & u8x16::splat(0xFB)).simd_eq(u8x16::splat(b'"'));
    first_set((is_angle | is_sign | lanes.simd_eq(u8x16::splat(0))).to_bitmask())
}

// Whether a byte stands as it is.
#[inline(always)]
fn is_kept(byte: u8) -> bool
    ensures { result ≡ is_kept byte }
{
    !matches!(byte, b'&' | b'<' | b'>' | b'"' | 0)
}

// Where the first byte from an index on stands that does not stand as it is, or `to` where each does. The bytes are looked at one by one.
fn kept_one_by_one(bytes: &[u8], from: usize, to: usize) -> usize
    requires low { from ≤ to }
    requires high { to ≤ length bytes.now }
    ensures low { from ≤ result }
    ensures high { result ≤ to }
    ensures kept { (k : ℕ) → from ≤ k → k < result → is_kept (slice_index bytes.now k) ≡ true }
{
    let mut at = from;
    while at < to && is_kept(bytes[at]) {
        at += 1;
    }
    at
}

// An index up to which all bytes from `from` on stand as they are. It is `to`, or a byte stands there that does not stand as it is.
//
// Sixteen bytes are looked at together, those behind `to` with them. Where fewer than sixteen are left of all the bytes, they are looked at one by one.
#[inline(always)]
pub(crate) fn kept_until(bytes: &[u8], from: usize, to: usize) -> usize
    requires low { from ≤ to }
    requires high { to ≤ length bytes.now }
    ensures low { from ≤ result }
    ensures high { result ≤ to }
    ensures kept { (k : ℕ) → from ≤ k → k < result → is_kept (slice_index bytes.now k) ≡ true }
{
    let mut at = from;
    while at < to {
        if bytes.len() - at < LANES {
            return kept_one_by_one(bytes, at, to);
        }
        let count = kept_among(bytes, at);
        if count < LANES {
            return to.min(at + count);
        }
        at += LANES;
    }
    to
}
