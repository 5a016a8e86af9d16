//! Innermost things, by their text.
#![tactic(auto)]

ghost use Rattle.std.specs.Prelude.{◌≡◌, ◌≤◌, ◌++◌, OnOk, length, slice_range};
ghost use Rattle.markdown_content.specs.Content.{document_limit};
ghost use Rattle.markdown_passes.specs.TrimmedData.{IsStretch};
ghost use Rattle.markdown_html_model.specs.Html.{address, text_between, leaf_html, line_end, line_ending, own_link, own_link_outside, raw_html, text_html};
ghost use Rattle.markdown_html_model.specs.Schemes.{link_schemes};
ghost use Rattle.markdown_html.specs.View.{page_of};

use crate::addresses::{Given, push_link_address, push_tag, push_text};
use crate::stretch::text_between;
use markdown_event::event::Point;
use markdown_html_model::escape::{push_escaped, push_escaped_between, push_replaced};
use markdown_html_model::options::LineEnds;
use markdown_html_model::role::{Role, Within};
use std::alloc::{AllocError, Global};

// Appends the address of a link, whose text stands behind `before` in it.
fn push_address_behind(
    alloc: Global,
    given: &Given,
    out: &mut Vec<u8>,
    before: &[u8],
    text: &[u8],
) -> Result<(), AllocError>
    ensures { OnOk result (out.new.items ≡ out.old.items ++ address (page_of given.now) link_schemes (before.now ++ text.now)) }
{
    if before.is_empty() {
        return push_link_address(given, out, text);
    }
    let mut address = Vec::from_slice(alloc, before)?;
    address.extend_from_slice(text)?;
    push_link_address(given, out, address.as_slice())
}

// A link whose text is its address, with this before it.
fn push_own_link(
    alloc: Global,
    given: &Given,
    out: &mut Vec<u8>,
    within: Within,
    before: &[u8],
    text: &[u8],
) -> Result<(), AllocError>
    ensures { OnOk result (out.new.items ≡ out.old.items ++ own_link (page_of given.now) within before.now text.now) }
{
    if matches!(within, Within::InText) {
        return out.extend_from_slice(text);
    }
    out.extend_from_slice(b"<a href=\"")?;
    push_address_behind(alloc, given, out, before, text)?;
    out.extend_from_slice(b"\">")?;
    push_escaped(out, text)?;
    out.extend_from_slice(b"</a>")
}

// The same where links may stand, and else its text alone.
fn push_own_link_outside(
    alloc: Global,
    given: &Given,
    out: &mut Vec<u8>,
    within: Within,
    before: &[u8],
    text: &[u8],
) -> Result<(), AllocError>
    ensures { OnOk result (out.new.items ≡ out.old.items ++ own_link_outside (page_of given.now) within before.now text.now) }
{
    match within {
        Within::Outside => push_own_link(alloc, given, out, within, before, text),
        _ => push_text(out, within, text),
    }
}

fn push_raw(given: &Given, out: &mut Vec<u8>, within: Within, text: &[u8]) -> Result<(), AllocError>
    ensures { OnOk result (out.new.items ≡ out.old.items ++ raw_html (page_of given.now) within text.now) }
{
    if matches!(within, Within::InText) {
        return out.extend_from_slice(text);
    }
    if given.options.raw_html {
        push_replaced(out, text)
    } else {
        push_escaped(out, text)
    }
}

#[inline(always)]
fn push_line_ending(
    out: &mut Vec<u8>,
    ends: LineEnds,
    bytes: &[u8],
    from: usize,
    to: usize,
) -> Result<(), AllocError>
    requires low { from ≤ to }
    requires high { to ≤ length bytes.now }
    ensures { OnOk result (out.new.items ≡ out.old.items ++ line_ending ends (slice_range bytes.now from to)) }
{
    match ends {
        LineEnds::Kept => push_escaped_between(out, bytes, from, to),
        LineEnds::Lf => out.extend_from_slice(b"\n"),
        LineEnds::CrLf => out.extend_from_slice(b"\r\n"),
    }
}

// A line ending of the text, which stands from an index of these bytes to an index; one line feed where text alone is written.
#[inline(always)]
fn push_line_end(
    given: &Given,
    out: &mut Vec<u8>,
    within: Within,
    bytes: &[u8],
    from: usize,
    to: usize,
) -> Result<(), AllocError>
    requires low { from ≤ to }
    requires high { to ≤ length bytes.now }
    ensures { OnOk result (out.new.items ≡ out.old.items ++ line_end (page_of given.now) within (slice_range bytes.now from to)) }
{
    match within {
        Within::InText => out.extend_from_slice(b"\n"),
        _ => push_line_ending(out, given.options.line_ends, bytes, from, to),
    }
}

// What is written of something innermost, by its text.
fn push_leaf(
    alloc: Global,
    given: &Given,
    out: &mut Vec<u8>,
    within: Within,
    role: Role,
    text: &[u8],
) -> Result<(), AllocError>
    ensures { OnOk result (out.new.items ≡ out.old.items ++ leaf_html (page_of given.now) within role text.now) }
{
    match role {
        Role::Plain => push_text(out, within, text),
        Role::LineEnd => push_line_end(given, out, within, text, 0, text.len()),
        Role::Break => push_tag(out, within, b"<br />"),
        Role::Raw => push_raw(given, out, within, text),
        Role::Uri => push_own_link(alloc, given, out, within, b"", text),
        Role::Email => push_own_link(alloc, given, out, within, b"mailto:", text),
        Role::UriLiteral => push_own_link_outside(alloc, given, out, within, b"", text),
        Role::WwwLiteral => push_own_link_outside(alloc, given, out, within, b"http://", text),
        Role::EmailLiteral => push_own_link_outside(alloc, given, out, within, b"mailto:", text),
        _ => Ok(()),
    }
}

// Appends the text of the document from an index to an index.
#[inline(always)]
fn push_text_between(
    out: &mut Vec<u8>,
    within: Within,
    bytes: &[u8],
    from: usize,
    to: usize,
) -> Result<(), AllocError>
    requires low { from ≤ to }
    requires high { to ≤ length bytes.now }
    ensures { OnOk result (out.new.items ≡ out.old.items ++ text_html within (slice_range bytes.now from to)) }
{
    match within {
        Within::InText => out.extend_from_slice(&bytes[from..to]),
        _ => push_escaped_between(out, bytes, from, to),
    }
}

// Appends what is written of something innermost, from an index of the document to an index.
#[inline(always)]
fn push_leaf_at(
    alloc: Global,
    given: &Given,
    out: &mut Vec<u8>,
    within: Within,
    role: Role,
    from: usize,
    to: usize,
) -> Result<(), AllocError>
    requires low { from ≤ to }
    requires high { to ≤ length given.now.bytes.now }
    ensures { OnOk result (out.new.items ≡ out.old.items ++ leaf_html (page_of given.now) within role (slice_range given.now.bytes.now from to)) }
{
    match role {
        Role::Plain => push_text_between(out, within, given.bytes, from, to),
        Role::LineEnd => push_line_end(given, out, within, given.bytes, from, to),
        _ => push_leaf(alloc, given, out, within, role, &given.bytes[from..to]),
    }
}

// Appends what is written of something innermost, from a place of the document to a place.
//
// Its text is read where it stands in the document. Only where one of the ends is inside a tab, the text is made first.
#[inline(always)]
pub(crate) fn push_leaf_between(
    alloc: Global,
    given: &Given,
    out: &mut Vec<u8>,
    within: Within,
    role: Role,
    from: Point,
    to: Point,
) -> Result<(), AllocError>
    requires fits { length given.now.bytes.now ≤ document_limit }
    requires in_order { IsStretch given.now.bytes.now from to }
    ensures { OnOk result (out.new.items ≡ out.old.items ++ leaf_html (page_of given.now) within role (text_between given.now.bytes.now from to)) }
{
    if from.vs == 0 && to.vs == 0 {
        return push_leaf_at(alloc, given, out, within, role, from.index, to.index);
    }
    let text = text_between(alloc, given.bytes, from, to)?;
    push_leaf(alloc, given, out, within, role, text.as_slice())
}
