//! What holds others: what is written around its inside, or in place of it.
#![tactic(auto)]

ghost use Rattle.std.specs.Prelude.{◌≡◌, ◌++◌, ◌==◌, codes, if◌then◌else◌, not, IfOk, OnOk, map};
ghost use Rattle.std.specs.List.{list_any};
ghost use Rattle.markdown_html_model.specs.Resolved.{resolved};
ghost use Rattle.markdown_html_model.specs.Html.{begins_with_space, check_html, closing, ends_with_space, image_html, link_html, opening, span_html, span_text, text_html, without_padding};
ghost use Rattle.markdown_html.specs.View.{page_of, target_view};

use crate::addresses::{
    Given, push_image_address, push_link_address, push_tag, push_text, push_title,
};
use crate::stretch::bytes_before;
use crate::targets::Goal;
use markdown_html_model::escape::push_escaped;
use markdown_html_model::resolve::{bytes_from, push_resolved};
use markdown_html_model::role::{Role, Within};
use std::alloc::{AllocError, Global};

// What is written before the inside.
pub(crate) fn push_opening(out: &mut Vec<u8>, within: Within, role: Role) -> Result<(), AllocError>
    ensures { OnOk result (out.new.items ≡ out.old.items ++ opening within role) }
{
    match role {
        Role::Emphasis => push_tag(out, within, b"<em>"),
        Role::Strong => push_tag(out, within, b"<strong>"),
        Role::Strikethrough => push_tag(out, within, b"<del>"),
        _ => Ok(()),
    }
}

// What is written after the inside.
pub(crate) fn push_closing(out: &mut Vec<u8>, within: Within, role: Role) -> Result<(), AllocError>
    ensures { OnOk result (out.new.items ≡ out.old.items ++ closing within role) }
{
    match role {
        Role::Emphasis => push_tag(out, within, b"</em>"),
        Role::Strong => push_tag(out, within, b"</strong>"),
        Role::Strikethrough => push_tag(out, within, b"</del>"),
        _ => Ok(()),
    }
}

fn begins_with_space(text: &[u8]) -> bool
    ensures { result ≡ begins_with_space text.now }
{
    matches!(text, [b' ', ..])
}

fn ends_with_space(text: &[u8]) -> bool
    ensures { result ≡ ends_with_space text.now }
{
    begins_with_space(bytes_from(text, text.len().saturating_sub(1)))
}

fn is_filled(text: &[u8]) -> bool
    ensures { result ≡ list_any (λ b. not (b == 32)) text.now }
{
    text.iter().any(|byte| !(*byte == b' '))
}

// Without one space at each end, where both are there and not all are spaces.
fn without_padding(text: &[u8]) -> &[u8]
    ensures { result.now ≡ without_padding text.now }
{
    if begins_with_space(text) && ends_with_space(text) && is_filled(text) {
        bytes_before(bytes_from(text, 1), text.len().saturating_sub(2))
    } else {
        text
    }
}

fn spaced(byte: u8) -> u8
    ensures { result ≡ (if byte == 10 then 32 else byte) }
{
    if byte == b'\n' { b' ' } else { byte }
}

// The text of a span with spaces in place of line endings.
fn on_one_line(alloc: Global, inside: &[u8]) -> Result<Vec<u8>, AllocError>
    ensures { IfOk result (λ text. text.items ≡ map (λ b. if b == 10 then 32 else b) inside.now) }
{
    inside.iter().map(|byte| spaced(*byte)).collect(alloc)
}

// Whether a text goes over more than one line.
fn has_line_feed(text: &[u8]) -> bool
    ensures { result ≡ list_any (λ b. b == 10) text.now }
{
    text.contains(&b'\n')
}

// Appends a span, of which this is the text.
fn push_span_text(
    out: &mut Vec<u8>,
    within: Within,
    front: &[u8],
    text: &[u8],
) -> Result<(), AllocError>
    ensures { OnOk result (out.new.items ≡ out.old.items ++ span_html within front.now text.now) }
{
    if matches!(within, Within::InText) {
        return out.extend_from_slice(text);
    }
    out.extend_from_slice(front)?;
    push_escaped(out, text)?;
    out.extend_from_slice(b"</code>")
}

// Appends a span around what is inside it. A text on one line is read where it stands, and is not copied.
pub(crate) fn push_span(
    alloc: Global,
    out: &mut Vec<u8>,
    within: Within,
    front: &[u8],
    inside: &[u8],
) -> Result<(), AllocError>
    ensures { OnOk result (out.new.items ≡ out.old.items ++ span_html within front.now (span_text inside.now)) }
{
    if !has_line_feed(inside) {
        return push_span_text(out, within, front, without_padding(inside));
    }
    let line = on_one_line(alloc, inside)?;
    push_span_text(out, within, front, without_padding(line.as_slice()))
}

pub(crate) fn push_math(
    alloc: Global,
    out: &mut Vec<u8>,
    within: Within,
    inside: &[u8],
) -> Result<(), AllocError>
    ensures { OnOk result (out.new.items ≡ out.old.items ++ span_html within (codes "<code class=\"language-math math-inline\">") (span_text inside.now)) }
{
    let front = b"<code class=\"language-math math-inline\">";
    push_span(alloc, out, within, front, inside)
}

pub(crate) fn push_link(
    given: &Given,
    out: &mut Vec<u8>,
    within: Within,
    to: Goal,
    inside: &[u8],
) -> Result<(), AllocError>
    ensures { OnOk result (out.new.items ≡ out.old.items ++ link_html (page_of given.now) within (target_view to.entry) inside.now) }
{
    if matches!(within, Within::InText) {
        return out.extend_from_slice(inside);
    }
    out.extend_from_slice(b"<a href=\"")?;
    push_link_address(given, out, to.destination)?;
    out.push(b'"')?;
    push_title(out, to.title)?;
    out.push(b'>')?;
    out.extend_from_slice(inside)?;
    out.extend_from_slice(b"</a>")
}

pub(crate) fn push_image(
    given: &Given,
    out: &mut Vec<u8>,
    within: Within,
    to: Goal,
    inside: &[u8],
) -> Result<(), AllocError>
    ensures { OnOk result (out.new.items ≡ out.old.items ++ image_html (page_of given.now) within (target_view to.entry) inside.now) }
{
    if matches!(within, Within::InText) {
        return out.extend_from_slice(inside);
    }
    out.extend_from_slice(b"<img src=\"")?;
    push_image_address(given, out, to.destination)?;
    out.extend_from_slice(b"\" alt=\"")?;
    push_escaped(out, inside)?;
    out.push(b'"')?;
    push_title(out, to.title)?;
    out.extend_from_slice(b" />")
}

// Appends the text of a character reference, which is made in `room` first.
pub(crate) fn push_reference(
    alloc: Global,
    given: &Given,
    out: &mut Vec<u8>,
    room: &mut Vec<u8>,
    within: Within,
    reference: &[u8],
) -> Result<(), AllocError>
    ensures { OnOk result (out.new.items ≡ out.old.items ++ text_html within (resolved given.now.decoding reference.now)) }
{
    room.clear();
    push_resolved(alloc, room, given.decoding, reference)?;
    push_text(out, within, room.as_slice())
}

// The check of a task, which is done where a text stands between its brackets.
pub(crate) fn push_check(out: &mut Vec<u8>, within: Within, inside: &[u8]) -> Result<(), AllocError>
    ensures { OnOk result (out.new.items ≡ out.old.items ++ check_html within inside.now) }
{
    if inside.is_empty() {
        push_tag(out, within, b"<input type=\"checkbox\" disabled=\"\" />")
    } else {
        push_tag(
            out,
            within,
            b"<input type=\"checkbox\" disabled=\"\" checked=\"\" />",
        )
    }
}
