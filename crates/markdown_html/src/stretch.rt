//! Stretches of a document's bytes.
#![tactic(auto)]

ghost use Rattle.std.specs.Prelude.{◌≡◌, ◌++◌, ◌≤◌, IfOk, OnOk, length, replicate, take};
ghost use Rattle.markdown_content.specs.Content.{document_limit};
ghost use Rattle.markdown_passes.specs.TrimmedData.{IsStretch};
ghost use Rattle.markdown_html_model.specs.Html.{bytes_from, text_between};

use markdown_content::util::slice::{Position, Slice};
use markdown_event::event::Point;
use std::alloc::{AllocError, Global};

// The bytes before an index; all where there are not so many.
pub(crate) fn bytes_before(bytes: &[u8], index: usize) -> &[u8]
    ensures { result.now ≡ take index bytes.now }
{
    if index < bytes.len() {
        bytes.split_at(index).0
    } else {
        bytes
    }
}

// The bytes from an index to an index.
pub(crate) fn bytes_between(bytes: &[u8], from: usize, to: usize) -> &[u8]
    ensures { result.now ≡ bytes_from bytes.now from to }
{
    let behind = markdown_html_model::resolve::bytes_from(bytes, from);
    bytes_before(behind, to.saturating_sub(from))
}

fn push_spaces(alloc: Global, out: &mut Vec<u8>, count: usize) -> Result<(), AllocError>
    ensures { OnOk result (out.new.items ≡ out.old.items ++ replicate count 32) }
{
    let spaces = Vec::from_elem(alloc, b' ', count)?;
    out.extend_from_slice(spaces.as_slice())
}

// The text of the document from a place to a place.
#[tactic(auto, unfolding(markdown_html_model::specs::Html::text_between))]
pub(crate) fn text_between(
    alloc: Global,
    bytes: &[u8],
    from: Point,
    to: Point,
) -> Result<Vec<u8>, AllocError>
    requires fits { length bytes.now ≤ document_limit }
    requires in_order { IsStretch bytes.now from to }
    ensures { IfOk result (λ text. text.items ≡ text_between bytes.now from to) }
{
    let position = Position {
        start: from,
        end: to,
    };
    let slice = Slice::from_position(bytes, &position);
    let mut text = Vec::new(alloc);
    push_spaces(alloc, &mut text, slice.before)?;
    text.extend_from_slice(slice.bytes)?;
    push_spaces(alloc, &mut text, slice.after)?;
    Ok(text)
}
