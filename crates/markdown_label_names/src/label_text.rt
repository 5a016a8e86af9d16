//! The texts of labels, and their identifiers: by CommonMark a text is the content's, so what the content leaves out is no part of it.
#![tactic(auto)]

ghost use Rattle.std.specs.Prelude.{◌≡◌, if◌then◌else◌, IfOk, IsTrue, IsUtf8, None, Some, false, slice_range, string_bytes, true};
ghost use Rattle.markdown_content.specs.Codes.{is_line_ending_byte};
ghost use Rattle.markdown_content.specs.PlaceInDocument.{IsPlaceOf};
ghost use Rattle.markdown_plan.specs.Characters.{bytes_of};
ghost use Rattle.markdown_label_names.specs.IdentifierFronts.{AreCuts};
ghost use Rattle.markdown_label_names.specs.LabelSetting.{setting_in};
ghost use Rattle.markdown_model.specs.LabelEnd.{begins_counted, is_blank_byte, is_too_long, label_name, name_between, text_between, with_caret};
ghost use Rattle.markdown_model.specs.Setting.{rules};

use crate::identifier::is_footnote;
use crate::lookup::boundary;
use markdown_content::util::slice::Slice;
use markdown_engine::tokenizer::{LabelKind, Tokenizer};
use markdown_util::util::normalize_identifier::identifier_by;
use std::alloc::AllocError;

// How many characters stand between the brackets of a link label at most.
const MOST: usize = 999;

// The first front of a text that is counted has two to this power bytes, a few more than characters at most.
const FIRST_BITS: u32 = 10;

// Whether the text from an index to another is that part of the document, so that no content leaves out any of it.
pub(crate) fn is_whole(tokenizer: &Tokenizer, start: usize, end: usize) -> bool
    ensures whole { IsTrue result → text_between (setting_in tokenizer.now) start end ≡ slice_range (bytes_of tokenizer.now) start end }
    ensures by_text { result ≡ false → (rules (setting_in tokenizer.now)).labels_by_text ≡ true }
{
    !tokenizer.parse_state.options.rules().labels_by_text
        || tokenizer.cursor.is_in_one_piece(start, end)
}

// The text from an index to another, by the content.
fn joined(tokenizer: &Tokenizer, start: usize, end: usize) -> Result<Vec<u8>, AllocError>
    requires cuts { AreCuts (bytes_of tokenizer.now) start end }
    requires by_text { (rules (setting_in tokenizer.now)).labels_by_text ≡ true }
    ensures { IfOk result (λ text. text.items ≡ text_between (setting_in tokenizer.now) start end) }
{
    let mut text = Vec::new(tokenizer.alloc);
    tokenizer
        .cursor
        .push_between(&mut text, tokenizer.parse_state.bytes, start, end)?;
    Ok(text)
}

// The bytes as a text.
fn utf8_text(bytes: &[u8]) -> &str
    ensures { IsUtf8 bytes.now → result.now ≡ bytes.now }
{
    match str::from_utf8(bytes) {
        Ok(text) => text,
        Err(_) => "",
    }
}

// The identifier of the text from an index to another.
pub(crate) fn name_between(
    tokenizer: &Tokenizer,
    start: usize,
    end: usize,
) -> Result<String, AllocError>
    requires cuts { AreCuts (bytes_of tokenizer.now) start end }
    requires own { IsPlaceOf (bytes_of tokenizer.now) tokenizer.now.cursor }
    ensures { IfOk result (λ name. string_bytes name ≡ name_between (setting_in tokenizer.now) start end) }
{
    let replaced = tokenizer.parse_state.options.rules().nul_is_replaced;
    if is_whole(tokenizer, start, end) {
        let between = Slice::from_indices(tokenizer.parse_state.bytes, start, end);
        return identifier_by(tokenizer.alloc, between.as_str(), replaced);
    }
    let text = joined(tokenizer, start, end)?;
    identifier_by(tokenizer.alloc, utf8_text(text.as_slice()), replaced)
}

fn is_line_ending(byte: u8) -> bool
    ensures { result ≡ is_line_ending_byte byte }
{
    matches!(byte, b'\n' | b'\r')
}

fn is_blank(byte: u8) -> bool
    ensures { result ≡ is_blank_byte byte }
{
    matches!(byte, b' ' | b'\t')
}

// Whether a byte begins a character that counts to the limit of a label: no blank one at the front of a line does, nor the line feed behind a
// carriage return.
fn begins_counted(indent: bool, returned: bool, byte: u8) -> bool
    ensures { result ≡ begins_counted indent returned byte }
{
    if is_line_ending(byte) {
        return !(returned && byte == b'\n');
    }
    !(indent && is_blank(byte)) && !(128..192).contains(&byte)
}

// Whether the text of a label of this kind is too long for a link label. The caret of a footnote start counts too.
fn is_too_long(kind: LabelKind, text: &[u8]) -> bool
    ensures { result ≡ is_too_long (with_caret kind text.now) }
{
    let mut left = MOST - usize::from(is_footnote(kind));
    let mut indent = false;
    let mut returned = false;
    for &byte in text {
        if begins_counted(indent, returned, byte) {
            if left == 0 {
                return true;
            }
            left -= 1;
        }
        indent = is_line_ending(byte) || (indent && is_blank(byte));
        returned = byte == b'\r';
    }
    false
}

// Whether a front of the text of a label of this kind, from an index to another, is too long for a link label. Each front is twice as long as the one
// before, so of a long text little more is read than a label has at most.
fn has_long_front(
    tokenizer: &Tokenizer,
    kind: LabelKind,
    start: usize,
    end: usize,
) -> Result<bool, AllocError>
    requires cuts { AreCuts (bytes_of tokenizer.now) start end }
    requires by_text { (rules (setting_in tokenizer.now)).labels_by_text ≡ true }
    requires own { IsPlaceOf (bytes_of tokenizer.now) tokenizer.now.cursor }
    ensures { IfOk result (λ long. IsTrue long → is_too_long (with_caret kind (text_between (setting_in tokenizer.now) start end)) ≡ true) }
{
    for bits in FIRST_BITS..usize::BITS {
        let size = 1usize << bits;
        if size >= end - start {
            return Ok(false);
        }
        let middle = boundary(tokenizer.parse_state.bytes, start + size, end);
        let front = joined(tokenizer, start, middle)?;
        if is_too_long(kind, front.as_slice()) {
            return Ok(true);
        }
    }
    Ok(false)
}

// Whether the text of a label of this kind, from an index to another, is too long for a link label.
fn has_long_text(
    tokenizer: &Tokenizer,
    kind: LabelKind,
    start: usize,
    end: usize,
) -> Result<bool, AllocError>
    requires cuts { AreCuts (bytes_of tokenizer.now) start end }
    requires own { IsPlaceOf (bytes_of tokenizer.now) tokenizer.now.cursor }
    ensures { IfOk result (λ long. long ≡ is_too_long (with_caret kind (text_between (setting_in tokenizer.now) start end))) }
{
    if is_whole(tokenizer, start, end) {
        let between = Slice::from_indices(tokenizer.parse_state.bytes, start, end);
        return Ok(is_too_long(kind, between.bytes));
    }
    if has_long_front(tokenizer, kind, start, end)? {
        return Ok(true);
    }
    let text = joined(tokenizer, start, end)?;
    Ok(is_too_long(kind, text.as_slice()))
}

// Whether a label of this kind, whose text goes from an index to another, has no identifier itself: it is too long for a link label.
pub(crate) fn has_no_name(
    tokenizer: &Tokenizer,
    kind: LabelKind,
    start: usize,
    end: usize,
) -> Result<bool, AllocError>
    requires cuts { AreCuts (bytes_of tokenizer.now) start end }
    requires own { IsPlaceOf (bytes_of tokenizer.now) tokenizer.now.cursor }
    ensures { IfOk result (λ none. label_name (setting_in tokenizer.now) kind start end ≡ (if none then None else Some (name_between (setting_in tokenizer.now) start end))) }
{
    let limited = tokenizer
        .parse_state
        .options
        .rules()
        .definitions_have_labels;
    Ok(limited && has_long_text(tokenizer, kind, start, end)?)
}
