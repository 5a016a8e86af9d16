//! The texts of strings, with escapes and character references resolved.

ghost use Rattle.std.specs.Prelude.{◌≡◌, ◌∷◌, ◌++◌, [], IfErr, IfOk, OnOk, map};
ghost use Rattle.std.specs.List.{All};
ghost use Rattle.markdown_html_model.specs.Resolved.{resolved};
ghost use Rattle.markdown_inline_c.specs.Calls.{EndStrings, strings_of};
ghost use Rattle.markdown_inline_c.specs.FlatInput.{IsLabelRange, range_bytes};
ghost use Rattle.markdown_inline_c.specs.FlatStrings.{AreStringOptions, IsStringAt, all_written, joined, string_text, writing_by, written};
ghost use Rattle.markdown_inline_c.specs.Many.{AreFound, EndsBy};
ghost use Rattle.markdown_inline_c.specs.Refusals.{AreOptionsRefused};
ghost use Rattle.markdown_inline_c.specs.Statuses.{IsFaultUnless, IsStringAtFault};
ghost use Rattle.markdown_inline_c.specs.declared.fault.Fault.TheVariants.{NoString};

use crate::fault::Fault;
use crate::flat::Range;
use crate::input::{known_options, text_of};
use crate::outcome::Outcome;
use crate::refusal::Refusal;
use markdown_content::configuration::has_option;
use markdown_html_model::resolve::{decoding_of, push_resolved};
use markdown_util::decoding::Decoding;
use std::alloc::{AllocError, Global};

// The lowest number with a bit that says nothing of how strings are written.
const UNKNOWN_OPTION: u32 = 0x4;

/// How the texts of strings are written.
#[derive(Clone, Copy, Debug, PartialEq, Eq)]
pub struct Writing {
    /// How references are decoded.
    pub decoding: Decoding,
    /// Whether each line ending is a line feed.
    pub line_feeds: bool,
    /// Whether NUL is U+FFFD.
    pub nul_is_replaced: bool,
}

// How strings are written by these options, if each bit is known.
fn writing_by(options: u32, string_options: u32) -> Result<Writing, Refusal>
    ensures ok { IfOk result (λ how. AreStringOptions options string_options × (how ≡ writing_by options string_options)) }
    ensures err { IfErr result (AreOptionsRefused options string_options) }
{
    if string_options >= UNKNOWN_OPTION {
        return Err(Refusal::from(Fault::UnknownOption));
    }
    let options = known_options(options)?;
    Ok(Writing {
        decoding: decoding_of(&options),
        line_feeds: has_option(string_options, 0x1),
        nul_is_replaced: has_option(string_options, 0x2),
    })
}

// Appends what is written of a byte in front of others.
fn push_written(out: &mut Vec<u8>, how: Writing, byte: u8, rest: &[u8]) -> Result<(), AllocError>
    ensures { OnOk result (out.new.items ≡ out.old.items ++ written how byte rest.now) }
{
    match (byte, rest) {
        (b'\r', [b'\n', ..]) if how.line_feeds => {}
        (b'\r', _) if how.line_feeds => out.push(b'\n')?,
        (b'\0', _) if how.nul_is_replaced => out.extend_from_slice(b"\xEF\xBF\xBD")?,
        _ => out.push(byte)?,
    }
    Ok(())
}

// What is written of all bytes.
fn all_written(alloc: Global, how: Writing, bytes: &[u8]) -> Result<Vec<u8>, AllocError>
    ensures { IfOk result (λ found. found.items ≡ all_written how bytes.now) }
{
    let mut found = Vec::new(alloc);
    let mut left = bytes;
    loop {
        let Some((byte, rest)) = left.split_first() else {
            return Ok(found);
        };
        push_written(&mut found, how, *byte, rest)?;
        left = rest;
    }
}

// Appends the text of these bytes.
#[tactic(auto, using(crate::proofs::Written::as_they_stand))]
fn push_text(
    alloc: Global,
    texts: &mut Vec<u8>,
    how: Writing,
    bytes: &[u8],
) -> Result<(), AllocError>
    ensures { OnOk result (texts.new.items ≡ texts.old.items ++ resolved how.decoding (all_written how bytes.now)) }
{
    if !how.line_feeds && !how.nul_is_replaced {
        return push_resolved(alloc, texts, how.decoding, bytes);
    }
    let written = all_written(alloc, how, bytes)?;
    push_resolved(alloc, texts, how.decoding, written.as_slice())
}

// Appends the bytes of one more part.
fn push_bytes(joined: &mut Vec<u8>, part: &str) -> Result<(), AllocError>
    ensures { OnOk result (joined.new.items ≡ joined.old.items ++ part.now) }
{
    joined.extend_from_slice(part.as_bytes())
}

// The bytes of these parts, one after another.
#[tactic(auto, using(crate::proofs::Joined::all_joined))]
fn joined_parts(alloc: Global, bytes: &[u8], parts: &[Range]) -> Result<Vec<u8>, Fault>
    ensures joined { IfOk result (λ found. found.items ≡ joined bytes.now parts.now) }
    ensures parts { IfOk result (λ _. All (IsLabelRange bytes.now) parts.now) }
    ensures err { IfErr result (IsFaultUnless NoString (All (IsLabelRange bytes.now) parts.now)) }
{
    let mut found = Vec::new(alloc);
    for part in parts {
        let Some(text) = text_of(bytes, *part) else {
            return Err(Fault::NoString);
        };
        push_bytes(&mut found, text)?;
    }
    Ok(found)
}

// Appends the text of a string of several parts.
fn push_joined(
    alloc: Global,
    how: Writing,
    bytes: &[u8],
    parts: &[Range],
    texts: &mut Vec<u8>,
) -> Result<(), Fault>
    ensures text { OnOk result (texts.new.items ≡ texts.old.items ++ resolved how.decoding (all_written how (joined bytes.now parts.now))) }
    ensures parts { IfOk result (λ _. All (IsLabelRange bytes.now) parts.now) }
    ensures err { IfErr result (IsFaultUnless NoString (All (IsLabelRange bytes.now) parts.now)) }
{
    let joined = joined_parts(alloc, bytes, parts)?;
    push_text(alloc, texts, how, joined.as_slice())?;
    Ok(())
}

// Appends the text of a string of one part, which takes no memory beside it.
#[tactic(auto, using(crate::proofs::Joined::joined_one))]
fn push_one(
    alloc: Global,
    how: Writing,
    bytes: &[u8],
    part: Range,
    texts: &mut Vec<u8>,
) -> Result<(), Fault>
    ensures text { OnOk result (texts.new.items ≡ texts.old.items ++ resolved how.decoding (all_written how (joined bytes.now (part ∷ [])))) }
    ensures parts { IfOk result (λ _. All (IsLabelRange bytes.now) (part ∷ [])) }
    ensures err { IfErr result (IsFaultUnless NoString (All (IsLabelRange bytes.now) (part ∷ []))) }
{
    let Some(text) = text_of(bytes, part) else {
        return Err(Fault::NoString);
    };
    push_text(alloc, texts, how, text.as_bytes())?;
    Ok(())
}

// Appends the text of a string.
fn push_parts(
    alloc: Global,
    how: Writing,
    bytes: &[u8],
    parts: &[Range],
    texts: &mut Vec<u8>,
) -> Result<(), Fault>
    ensures text { OnOk result (texts.new.items ≡ texts.old.items ++ resolved how.decoding (all_written how (joined bytes.now parts.now))) }
    ensures parts { IfOk result (λ _. All (IsLabelRange bytes.now) parts.now) }
    ensures err { IfErr result (IsFaultUnless NoString (All (IsLabelRange bytes.now) parts.now)) }
{
    match parts {
        [part] => push_one(alloc, how, bytes, *part, texts),
        _ => push_joined(alloc, how, bytes, parts, texts),
    }
}

// The text of a string, which has these numbers of parts.
fn string_text(
    alloc: Global,
    how: Writing,
    bytes: &[u8],
    parts: &[Range],
    string: Range,
) -> Result<Vec<u8>, Fault>
    ensures text { IfOk result (λ text. text.items ≡ string_text how bytes.now parts.now string) }
    ensures string { IfOk result (λ _. IsStringAt bytes.now parts.now string) }
    ensures err { IfErr result (IsFaultUnless NoString (IsStringAt bytes.now parts.now string)) }
{
    if string.start > string.end || string.end > parts.len() {
        return Err(Fault::NoString);
    }
    let mut text = Vec::new(alloc);
    push_parts(
        alloc,
        how,
        bytes,
        &parts[string.start..string.end],
        &mut text,
    )?;
    Ok(text)
}

// Finds the texts of strings, and hands them out, or says why it stops.
fn read_all(
    alloc: Global,
    how: Writing,
    bytes: &[u8],
    parts: &[Range],
    strings: &[Range],
    texts: &mut [u8],
    ends: &mut [usize],
    outcome: &mut Outcome,
) -> Result<(), Refusal>
    requires none_yet { (outcome.old.done ≡ 0) × (outcome.old.count ≡ 0) }
    ensures { AreFound (map (string_text how bytes.now parts.now) strings.now) texts.old texts.new ends.old ends.new outcome.new
        (λ read. EndsBy (All (IsStringAt bytes.now parts.now)) (λ before. IsStringAtFault bytes.now parts.now) strings.now read result) }
{
    for at in 0..strings.len() {
        match string_text(alloc, how, bytes, parts, strings[at]) {
            Ok(text) => outcome.hand_out(at, &text, texts, ends)?,
            Err(fault) => return Err(Refusal::of(fault, at)),
        }
    }
    Ok(())
}

/// Finds the texts of strings of these bytes by these options, and hands them out, or says why it stops. A string is a range of numbers of parts.
pub fn strings(
    alloc: Global,
    options: u32,
    string_options: u32,
    bytes: &[u8],
    parts: &[Range],
    strings: &[Range],
    texts: &mut [u8],
    ends: &mut [usize],
    outcome: &mut Outcome,
) -> Result<(), Refusal>
    ensures { AreFound (strings_of options string_options bytes.now parts.now strings.now) texts.old texts.new ends.old ends.new outcome.new
        (EndStrings options string_options bytes.now parts.now strings.now result) }
{
    *outcome = Outcome::nothing();
    let how = writing_by(options, string_options)?;
    read_all(alloc, how, bytes, parts, strings, texts, ends, outcome)
}
