//! Text with references in place of markup, and addresses with what may not stand in one percent-encoded.
#![tactic(auto)]

ghost use Rattle.std.specs.Prelude.{◌≡◌, ◌++◌, ◌+◌, ◌<◌, ◌≤◌, IfOk, OnOk, ℕ, length, slice_index, slice_range, true};
ghost use Rattle.std.specs.List.{prefix_len};
ghost use Rattle.markdown_html_model.specs.Escaped.{escaped_byte, escaped, is_no_nul, replaced, address_byte, addressed, is_address_byte, is_kept, begins_encoded, hexadecimal};

use crate::kept::{kept_among, kept_until};
use markdown_content::lanes::LANES;
use std::alloc::AllocError;

// Appends a byte as HTML.
fn push_byte(out: &mut Vec<u8>, byte: u8) -> Result<(), AllocError>
    ensures { OnOk result (out.new.items ≡ out.old.items ++ escaped_byte byte) }
{
    match byte {
        b'&' => out.extend_from_slice(b"&amp;")?,
        b'<' => out.extend_from_slice(b"&lt;")?,
        b'>' => out.extend_from_slice(b"&gt;")?,
        b'"' => out.extend_from_slice(b"&quot;")?,
        0 => out.extend_from_slice(b"\xEF\xBF\xBD")?,
        other => out.push(other)?,
    }
    Ok(())
}

// Appends so many of the sixteen bytes from an index on.
//
// All sixteen are copied together, which is faster than a copy of so many, and those too many are taken off.
#[inline(always)]
fn push_front(out: &mut Vec<u8>, bytes: &[u8], at: usize, count: usize) -> Result<(), AllocError>
    requires room { at + LANES ≤ length bytes.now }
    requires few { count ≤ LANES }
    ensures { OnOk result (out.new.items ≡ out.old.items ++ slice_range bytes.now at (at + count)) }
{
    let len = out.len();
    out.extend_from_slice(&bytes[at..at + LANES])?;
    out.truncate(len + count);
    Ok(())
}

// Appends bytes from an index on that stand as they are, and answers where they end: at `to`, or at a byte that does not stand as it is.
#[inline(always)]
fn push_kept(out: &mut Vec<u8>, bytes: &[u8], from: usize, to: usize) -> Result<usize, AllocError>
    requires low { from ≤ to }
    requires high { to ≤ length bytes.now }
    ensures low { IfOk result (λ end. from ≤ end) }
    ensures high { IfOk result (λ end. end ≤ to) }
    ensures kept { IfOk result (λ end. (k : ℕ) → from ≤ k → k < end → is_kept (slice_index bytes.now k) ≡ true) }
    ensures out { IfOk result (λ end. out.new.items ≡ out.old.items ++ slice_range bytes.now from end) }
{
    if to - from <= LANES && bytes.len() - from >= LANES {
        let count = kept_among(bytes, from).min(to - from);
        push_front(out, bytes, from, count)?;
        return Ok(from + count);
    }
    let end = kept_until(bytes, from, to);
    out.extend_from_slice(&bytes[from..end])?;
    Ok(end)
}

/// Appends the bytes from one index to another as `push_escaped` appends a text.
///
/// The bytes behind the second index are looked at too, but not written: so a text of fewer than sixteen bytes costs one look where the document goes on behind it.
///
/// The error comes only where memory is refused; `out` then holds what it held, and a front of the escaped text.
#[inline(always)]
pub fn push_escaped_between(
    out: &mut Vec<u8>,
    bytes: &[u8],
    from: usize,
    to: usize,
) -> Result<(), AllocError>
    requires low { from ≤ to }
    requires high { to ≤ length bytes.now }
    ensures { OnOk result (out.new.items ≡ out.old.items ++ escaped (slice_range bytes.now from to)) }
{
    let mut at = from;
    loop {
        let kept = push_kept(out, bytes, at, to)?;
        if kept == to {
            return Ok(());
        }
        push_byte(out, bytes[kept])?;
        at = kept + 1;
    }
}

/// Appends a text with `&`, `<`, `>` and `"` as character references, and NUL as U+FFFD. The other bytes stay as they are.
///
/// The error comes only where memory is refused; `out` then holds what it held, and a front of the escaped text.
pub fn push_escaped(out: &mut Vec<u8>, text: &[u8]) -> Result<(), AllocError>
    ensures { OnOk result (out.new.items ≡ out.old.items ++ escaped text.now) }
{
    push_escaped_between(out, text, 0, text.len())
}

// How many bytes at the front are no NUL.
#[tactic(auto, using(crate::proofs::ReferenceValues::prefix_within))]
fn len_before_nul(text: &[u8]) -> usize
    ensures len { result ≡ prefix_len is_no_nul text.now }
    ensures within { result ≤ length text.now }
{
    text.iter().take_while(|byte| **byte != 0).count()
}

/// Appends a text with NUL as U+FFFD (CommonMark 2.3). The other bytes stay as they are, so raw HTML stays raw.
///
/// The only error is that an allocation failed; `out` then holds what it held, and a front of the text.
pub fn push_replaced(out: &mut Vec<u8>, text: &[u8]) -> Result<(), AllocError>
    ensures { OnOk result (out.new.items ≡ out.old.items ++ replaced text.now) }
{
    let mut left = text;
    loop {
        let (front, behind) = left.split_at(len_before_nul(left));
        out.extend_from_slice(front)?;
        let Some((_, rest)) = behind.split_first() else {
            return Ok(());
        };
        out.extend_from_slice(b"\xEF\xBF\xBD")?;
        left = rest;
    }
}

// Whether a byte stands for itself in an address.
fn is_address_byte(byte: u8) -> bool
    ensures { result ≡ is_address_byte byte }
{
    byte.is_ascii_alphanumeric()
        || matches!(
            byte,
            b'!' | b'#'
                | b'$'
                | b'\''
                | b'('
                | b')'
                | b'*'
                | b'+'
                | b','
                | b'-'
                | b'.'
                | b'/'
                | b':'
                | b';'
                | b'='
                | b'?'
                | b'@'
                | b'_'
                | b'~'
        )
}

// How many bytes at the front stand for themselves in an address.
#[tactic(auto, using(crate::proofs::ReferenceValues::prefix_within))]
fn kept_in_address(address: &[u8]) -> usize
    ensures len { result ≡ prefix_len is_address_byte address.now }
    ensures within { result ≤ length address.now }
{
    address
        .iter()
        .take_while(|byte| is_address_byte(**byte))
        .count()
}

// Whether two letters or digits stand first, as behind the `%` of a byte that is encoded already.
fn begins_encoded(rest: &[u8]) -> bool
    ensures { result ≡ begins_encoded rest.now }
{
    match rest {
        [first, second, ..] => first.is_ascii_alphanumeric() && second.is_ascii_alphanumeric(),
        _ => false,
    }
}

fn hexadecimal(digit: u8) -> u8
    requires { digit < 16 }
    ensures { result ≡ hexadecimal digit }
{
    if digit < 10 {
        b'0' + digit
    } else {
        b'A' + (digit - 10)
    }
}

// Appends a byte of an address before the rest of it.
fn push_address_byte(out: &mut Vec<u8>, byte: u8, rest: &[u8]) -> Result<(), AllocError>
    ensures { OnOk result (out.new.items ≡ out.old.items ++ address_byte byte rest.now) }
{
    match byte {
        b'&' => out.extend_from_slice(b"&amp;"),
        0 => out.extend_from_slice(b"%EF%BF%BD"),
        b'%' if begins_encoded(rest) => Ok(out.push(byte)?),
        other if is_address_byte(other) => Ok(out.push(other)?),
        other => {
            let encoded = [b'%', hexadecimal(other / 16), hexadecimal(other % 16)];
            out.extend_from_slice(&encoded)
        }
    }
}

/// Appends an address with each byte percent-encoded that may not stand in one, and `&` as a character reference. A `%` before two letters or
/// digits stays, so that what is encoded already is not encoded again; NUL is written as U+FFFD.
///
/// The error comes only where memory is refused; `out` then holds what it held, and a front of the written address.
pub fn push_address(out: &mut Vec<u8>, address: &[u8]) -> Result<(), AllocError>
    ensures { OnOk result (out.new.items ≡ out.old.items ++ addressed address.now) }
{
    let mut left = address;
    loop {
        let (kept, behind) = left.split_at(kept_in_address(left));
        out.extend_from_slice(kept)?;
        let Some((first, rest)) = behind.split_first() else {
            return Ok(());
        };
        push_address_byte(out, *first, rest)?;
        left = rest;
    }
}
