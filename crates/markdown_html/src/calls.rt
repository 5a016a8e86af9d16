//! Footnote calls: each a link to its footnote, with the footnote's number as its text.
#![tactic(auto)]

ghost use Rattle.std.specs.Prelude.{◌≡◌, ◌++◌, codes, decimal, OnOk};
ghost use Rattle.markdown_html_model.specs.Escaped.{addressed, escaped};
ghost use Rattle.markdown_html_model.specs.Html.{call_html, call_identifier, call_link, call_suffix};
ghost use Rattle.markdown_html.specs.View.{HasContent, page_of};

use crate::addresses::{Given, push_tag};
use crate::footnotes::{Footnote, FootnoteCalls};
use crate::references::call_identifier;
use itoa::Buffer;
use markdown_html_model::escape::{push_address, push_escaped};
use markdown_html_model::role::Within;
use std::alloc::{AllocError, Global};

// Behind the id of a footnote's second call and of later ones.
fn push_suffix(out: &mut Vec<u8>, times: usize) -> Result<(), AllocError>
    ensures { OnOk result (out.new.items ≡ out.old.items ++ call_suffix times) }
{
    if times == 0 {
        return Ok(());
    }
    let mut buffer = Buffer::new();
    out.extend_from_slice(b"-")?;
    out.extend_from_slice(buffer.format(times as u128 + 1).as_bytes())
}

// Where the link leads.
fn push_goal(alloc: Global, out: &mut Vec<u8>, identifier: &[u8]) -> Result<(), AllocError>
    ensures { OnOk result (out.new.items ≡ out.old.items ++ addressed (codes "#user-content-fn-" ++ identifier.now)) }
{
    let mut goal = Vec::from_slice(alloc, b"#user-content-fn-")?;
    goal.extend_from_slice(identifier)?;
    push_address(out, goal.as_slice())
}

// The id of the link.
fn push_id(
    alloc: Global,
    out: &mut Vec<u8>,
    identifier: &[u8],
    times: usize,
) -> Result<(), AllocError>
    ensures { OnOk result (out.new.items ≡ out.old.items ++ addressed (codes "user-content-fnref-" ++ identifier.now ++ call_suffix times)) }
{
    let mut id = Vec::from_slice(alloc, b"user-content-fnref-")?;
    id.extend_from_slice(identifier)?;
    push_suffix(&mut id, times)?;
    push_address(out, id.as_slice())
}

fn push_number(out: &mut Vec<u8>, number: usize) -> Result<(), AllocError>
    ensures { OnOk result (out.new.items ≡ out.old.items ++ escaped (decimal number)) }
{
    let mut buffer = Buffer::new();
    push_escaped(out, buffer.format(number).as_bytes())
}

// The link from a call to its footnote.
fn push_link(
    alloc: Global,
    out: &mut Vec<u8>,
    identifier: &[u8],
    footnote: Footnote,
) -> Result<(), AllocError>
    ensures { OnOk result (out.new.items ≡ out.old.items ++ call_link identifier.now footnote.number footnote.calls) }
{
    out.extend_from_slice(b"<a href=\"")?;
    push_goal(alloc, out, identifier)?;
    out.extend_from_slice(b"\" id=\"")?;
    push_id(alloc, out, identifier, footnote.calls)?;
    out.extend_from_slice(b"\" data-footnote-ref=\"\" aria-describedby=\"footnote-label\">")?;
    push_number(out, footnote.number)?;
    out.extend_from_slice(b"</a>")
}

// A call of a footnote.
fn push_numbered(
    alloc: Global,
    out: &mut Vec<u8>,
    identifier: &[u8],
    footnote: Footnote,
) -> Result<(), AllocError>
    ensures { OnOk result (out.new.items ≡ out.old.items ++ (codes "<sup>" ++ call_link identifier.now footnote.number footnote.calls ++ codes "</sup>")) }
{
    out.extend_from_slice(b"<sup>")?;
    push_link(alloc, out, identifier, footnote)?;
    out.extend_from_slice(b"</sup>")
}

// The call whose label stands somewhere, behind other calls.
pub(crate) fn push_call(
    alloc: Global,
    given: &Given,
    calls: &FootnoteCalls,
    out: &mut Vec<u8>,
    within: Within,
    label: Option<(usize, usize)>,
) -> Result<(), AllocError>
    requires content { HasContent given.now }
    ensures { OnOk result (out.new.items ≡ out.old.items ++ call_html within (call_identifier (page_of given.now) label) calls.now) }
{
    let identifier = call_identifier(alloc, given, label)?;
    let footnote = calls.footnote(identifier.as_str());
    let mut call = Vec::new(alloc);
    push_numbered(alloc, &mut call, identifier.as_bytes(), footnote)?;
    push_tag(out, within, call.as_slice())
}
