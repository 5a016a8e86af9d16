//! What links and images refer to.
#![tactic(auto)]

ghost use Rattle.std.specs.Prelude.{◌≡◌, [], if◌then◌else◌, IfOk, option_map, string_bytes};
ghost use Rattle.std.specs.Str.{is_utf8};
ghost use Rattle.markdown_content.specs.Content.{IsContent, content_of};
ghost use Rattle.markdown_content.specs.ContentBytes.{bytes_within};
ghost use Rattle.markdown_html_model.specs.Html.{behind_caret, call_identifier, label_identifier, label_target, label_text, reference_target, target_of, text_identifier, undefined_footnote};
ghost use Rattle.markdown_html.specs.View.{HasContent, page_of, parts_of, target_view};

use crate::addresses::Given;
use crate::found::Found;
use crate::stretch::bytes_between;
use crate::targets::Goal;
use markdown_content::part::{is_in_one_piece, push_between};
use markdown_util::util::normalize_identifier::identifier_by;
use std::alloc::{AllocError, Global};

// The bytes as a text; those of a label are UTF-8 in every document.
fn utf8_text(bytes: &[u8]) -> &str
    ensures { result.now ≡ (if is_utf8 bytes.now then bytes.now else []) }
{
    match str::from_utf8(bytes) {
        Ok(text) => text,
        Err(_) => "",
    }
}

fn text_identifier(alloc: Global, given: &Given, text: &[u8]) -> Result<String, AllocError>
    ensures { IfOk result (λ identifier. string_bytes identifier ≡ text_identifier (page_of given.now) text.now) }
{
    identifier_by(alloc, utf8_text(text), given.rules.nul_is_replaced)
}

// What follows a caret.
fn behind_caret(text: &[u8]) -> Option<&[u8]>
    ensures { option_map (λ t. t.now) result ≡ behind_caret text.now }
{
    match text {
        [b'^', name @ ..] => Some(name),
        _ => None,
    }
}

// The identifier of a label's text where footnotes are looked for: a caret stands before the identifier of what follows it.
fn undefined_footnote(alloc: Global, given: &Given, text: &[u8]) -> Result<String, AllocError>
    ensures { IfOk result (λ identifier. string_bytes identifier ≡ undefined_footnote (page_of given.now) text.now) }
{
    let Some(name) = behind_caret(text) else {
        return text_identifier(alloc, given, text);
    };
    let name = text_identifier(alloc, given, name)?;
    let mut identifier = String::from_str(alloc, "^")?;
    identifier.push_str(name.as_str())?;
    Ok(identifier)
}

// The identifier of a text, of a label with a caret or of another.
fn label_identifier(
    alloc: Global,
    given: &Given,
    has_caret: bool,
    text: &[u8],
) -> Result<String, AllocError>
    ensures { IfOk result (λ identifier. string_bytes identifier ≡ label_identifier (page_of given.now) has_caret text.now) }
{
    if has_caret {
        undefined_footnote(alloc, given, text)
    } else {
        text_identifier(alloc, given, text)
    }
}

// The text of a label in the content, which is joined of its parts.
#[tactic(auto, using(crate::proofs::ClippedText::within_document))]
fn joined_text(alloc: Global, given: &Given, place: (usize, usize)) -> Result<Vec<u8>, AllocError>
    requires content { IsContent given.now.bytes.now given.now.pieces.now }
    ensures { IfOk result (λ text. text.items ≡ bytes_within given.now.bytes.now place.0 place.1 (content_of given.now.bytes.now given.now.pieces.now)) }
{
    let mut text = Vec::new(alloc);
    let to = place.1.min(given.bytes.len());
    push_between(
        &mut text,
        given.bytes,
        given.bytes,
        given.pieces,
        place.0,
        to,
    )?;
    Ok(text)
}

// The identifier of the text of a label or of a reference. It is a part of the document, where the content leaves out nothing of it, or where labels go by
// the document.
fn place_identifier(
    alloc: Global,
    given: &Given,
    has_caret: bool,
    place: (usize, usize),
) -> Result<String, AllocError>
    requires content { HasContent given.now }
    ensures { let p = page_of given.now in IfOk result (λ identifier. string_bytes identifier ≡ label_identifier p has_caret (label_text p place)) }
{
    let text = bytes_between(given.bytes, place.0, place.1);
    if !given.rules.labels_by_text {
        return label_identifier(alloc, given, has_caret, text);
    }
    if is_in_one_piece(given.bytes, given.pieces, place.0, place.1) {
        return label_identifier(alloc, given, has_caret, text);
    }
    let joined = joined_text(alloc, given, place)?;
    label_identifier(alloc, given, has_caret, joined.as_slice())
}

// Where the text of a label leads.
fn label_target<'a>(
    alloc: Global,
    given: &Given<'a>,
    label: Option<(usize, usize)>,
) -> Result<Goal<'a>, AllocError>
    requires content { HasContent given.now }
    ensures { IfOk result (λ to. target_view to ≡ label_target (page_of given.now) label) }
{
    let Some(place) = label else {
        return Ok(Goal::nowhere());
    };
    let identifier = place_identifier(alloc, given, given.footnotes_on, place)?;
    Ok(given.definitions.find(identifier.as_str()))
}

// Where a full reference leads, or else its label.
pub(crate) fn reference_target<'a>(
    alloc: Global,
    given: &Given<'a>,
    label: Option<(usize, usize)>,
    reference: Option<(usize, usize)>,
) -> Result<Goal<'a>, AllocError>
    requires content { HasContent given.now }
    ensures { IfOk result (λ to. target_view to ≡ reference_target (page_of given.now) label reference) }
{
    let Some(place) = reference else {
        return label_target(alloc, given, label);
    };
    let identifier = place_identifier(alloc, given, false, place)?;
    Ok(given.definitions.find(identifier.as_str()))
}

// The identifier of a footnote call, by its label.
pub(crate) fn call_identifier(
    alloc: Global,
    given: &Given,
    label: Option<(usize, usize)>,
) -> Result<String, AllocError>
    requires content { HasContent given.now }
    ensures { IfOk result (λ identifier. string_bytes identifier ≡ call_identifier (page_of given.now) label) }
{
    match label {
        Some(place) => place_identifier(alloc, given, false, place),
        None => Ok(String::new(alloc)),
    }
}

fn slice_of<'a>(text: &'a Option<Vec<u8>>) -> Option<&'a [u8]>
    ensures { option_map (λ t. t.now) result ≡ option_map (λ v. v.items) text.now }
{
    match text {
        Some(text) => Some(text.as_slice()),
        None => None,
    }
}

// Where what has been found leads.
pub(crate) fn target<'a>(
    alloc: Global,
    given: &Given<'a>,
    found: &'a Found,
) -> Result<Goal<'a>, AllocError>
    requires content { HasContent given.now }
    ensures { IfOk result (λ to. target_view to ≡ target_of (page_of given.now) (parts_of found.now)) }
{
    let Some(destination) = slice_of(&found.destination) else {
        return reference_target(alloc, given, found.label, found.reference);
    };
    Ok(Goal {
        destination,
        title: slice_of(&found.title),
    })
}
