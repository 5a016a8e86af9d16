//! Escapes and character references of a text, resolved.
#![tactic(auto)]

ghost use Rattle.std.specs.Prelude.{◌≡◌, ◌≤◌, ◌+◌, ◌++◌, IfOk, IfSome, OnOk, length, option_map, drop};
ghost use Rattle.std.specs.List.{list_all, prefix_len};
ghost use Rattle.markdown_util.specs.Reference.{is_value, is_value_byte, IsReferenceMarker};
ghost use Rattle.markdown_html_model.specs.Resolved.{text_of, decoding_of, marker_ahead, value_ahead, reference_ahead, first_text, resolved, begins_with, is_literal, is_semicolon};

use markdown_content::configuration::ParseOptions;
use markdown_util::decoding::{Decoding, decode_by};
use markdown_util::util::character_reference::{known_names, value_max, value_test};
use std::alloc::{AllocError, Global};

/// How references are decoded under these options.
pub fn decoding_of(options: &ParseOptions) -> Decoding
    ensures { result ≡ decoding_of options.now }
{
    let rules = options.rules();
    Decoding {
        names: known_names(rules.html_names),
        controls_are_kept: rules.controls_are_kept,
    }
}

/// The bytes from an index on; none where there are not so many.
pub fn bytes_from(bytes: &[u8], index: usize) -> &[u8]
    ensures { result.now ≡ drop index bytes.now }
{
    if index < bytes.len() {
        bytes.split_at(index).1
    } else {
        b""
    }
}

// The marker of a reference behind its `&`, and how many bytes stand before the value.
fn marker_ahead(after: &[u8]) -> (u8, usize)
    ensures marker { result ≡ marker_ahead after.now }
    ensures is_marker { IsReferenceMarker result.0 }
    ensures few { result.1 ≤ 2 }
{
    match after {
        [b'#', b'x' | b'X', ..] => (b'x', 2),
        [b'#', ..] => (b'#', 1),
        _ => (b'&', 0),
    }
}

// How many bytes of a value stand first.
#[tactic(auto, using(crate::proofs::ReferenceValues::prefix_within))]
fn value_len(body: &[u8], marker: u8) -> usize
    requires { IsReferenceMarker marker }
    ensures len { result ≡ prefix_len (is_value_byte marker) body.now }
    ensures within { result ≤ length body.now }
{
    body.iter()
        .take_while(|byte| value_test(marker, **byte))
        .count()
}

fn are_value_bytes(value: &[u8], marker: u8) -> bool
    requires { IsReferenceMarker marker }
    ensures { result ≡ list_all (is_value_byte marker) value.now }
{
    value.iter().all(|byte| value_test(marker, *byte))
}

// Whether bytes are a value.
fn is_value(value: &[u8], marker: u8) -> bool
    requires { IsReferenceMarker marker }
    ensures { result ≡ is_value marker value.now }
{
    let len = value.len();
    len > 0 && len <= value_max(marker) && are_value_bytes(value, marker)
}

fn begins_with_semicolon(bytes: &[u8]) -> bool
    ensures { result ≡ begins_with is_semicolon bytes.now }
{
    matches!(bytes, [b';', ..])
}

// The text of the reference with this marker whose value begins here, and how many bytes the value and its `;` take.
fn value_ahead(
    alloc: Global,
    how: Decoding,
    marker: u8,
    body: &[u8],
) -> Result<Option<(String, usize)>, AllocError>
    requires { IsReferenceMarker marker }
    ensures text { IfOk result (λ r. option_map text_of r ≡ value_ahead how marker body.now) }
    ensures within { IfOk result (λ r. IfSome r (λ t. t.1 ≤ length body.now + 1)) }
{
    let len = value_len(body, marker);
    let (value, behind) = body.split_at(len);
    if !is_value(value, marker) {
        return Ok(None);
    }
    if !begins_with_semicolon(behind) {
        return Ok(None);
    }
    let text = str::from_utf8(value).unwrap();
    match decode_by(alloc, text, marker, how)? {
        Some(text) => Ok(Some((text, len + 1))),
        None => Ok(None),
    }
}

/// The text of the whole reference that an `&` begins in front of these bytes, and how many of them it takes; none where no whole reference
/// begins.
///
/// The error comes only where memory is refused.
#[tactic(auto, unfolding(crate::specs::Resolved::reference_ahead))]
pub fn reference_ahead(
    alloc: Global,
    how: Decoding,
    after: &[u8],
) -> Result<Option<(String, usize)>, AllocError>
    ensures { IfOk result (λ r. option_map text_of r ≡ reference_ahead how after.now) }
{
    let (marker, before) = marker_ahead(after);
    match value_ahead(alloc, how, marker, bytes_from(after, before))? {
        Some((text, taken)) => Ok(Some((text, before + taken))),
        None => Ok(None),
    }
}

// Appends the text of what stands first, and answers how many of the bytes behind it belong to it.
fn push_first(
    alloc: Global,
    out: &mut Vec<u8>,
    how: Decoding,
    first: u8,
    rest: &[u8],
) -> Result<usize, AllocError>
    ensures taken { IfOk result (λ n. let read = first_text how first rest.now in n ≡ read.1) }
    ensures text { let read = first_text how first rest.now in OnOk result (out.new.items ≡ out.old.items ++ read.0) }
{
    match (first, rest) {
        (b'\\', [second, ..]) if second.is_ascii_punctuation() => {
            out.push(*second)?;
            return Ok(1);
        }
        (b'&', _) => {
            if let Some((text, taken)) = reference_ahead(alloc, how, rest)? {
                out.extend_from_slice(text.as_bytes())?;
                return Ok(taken);
            }
        }
        _ => {}
    }
    out.push(first)?;
    Ok(0)
}

// Whether a byte begins neither an escape nor a reference, whatever follows it.
fn is_literal(byte: u8) -> bool
    ensures { result ≡ is_literal byte }
{
    !matches!(byte, b'\\' | b'&')
}

// How many bytes at the front begin neither an escape nor a reference.
#[tactic(auto, using(crate::proofs::ReferenceValues::prefix_within))]
fn literal_len(text: &[u8]) -> usize
    ensures len { result ≡ prefix_len is_literal text.now }
    ensures within { result ≤ length text.now }
{
    text.iter().take_while(|byte| is_literal(**byte)).count()
}

/// Appends a text with each escaped punctuation mark in place of its escape, and in place of each character reference its text.
///
/// The error comes only where memory is refused; `out` then holds what it held, and a front of the text.
pub fn push_resolved(
    alloc: Global,
    out: &mut Vec<u8>,
    how: Decoding,
    text: &[u8],
) -> Result<(), AllocError>
    ensures { OnOk result (out.new.items ≡ out.old.items ++ resolved how text.now) }
{
    let mut left = text;
    loop {
        let (literal, behind) = left.split_at(literal_len(left));
        out.extend_from_slice(literal)?;
        let Some((first, rest)) = behind.split_first() else {
            return Ok(());
        };
        let taken = push_first(alloc, out, how, *first, rest)?;
        left = bytes_from(rest, taken);
    }
}
