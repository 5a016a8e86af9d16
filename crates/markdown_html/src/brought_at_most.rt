//! Whether definitions bring no more than a limit.
#![tactic(auto)]

ghost use Rattle.std.specs.Prelude.{◌≡◌, ◌≤◌, ◌+◌, ◌*◌, ◌↔◌, IfOk, IsTrue, length};
ghost use Rattle.markdown_content.specs.LabelTexts.{HasLabelTexts};
ghost use Rattle.markdown_content.specs.Tree.{Forest, events_of};
ghost use Rattle.markdown_html.specs.Brought.{brought};
ghost use Rattle.markdown_html.specs.BroughtAtMost.{AreFew, is_brought_to, link_ends};
ghost use Rattle.markdown_html.specs.View.{page_from};

use crate::brought::left_of_limit;
use crate::targets::Targets;
use markdown_content::parser::{ParseState, Piece};
use markdown_engine_events::event_list::EventSlice;
use markdown_html_model::options::HtmlOptions;
use markdown_html_model::role::{Role, role_of};
use std::alloc::{AllocError, Global};

// Whether a definition may bring something to what has this role.
fn is_brought_to(role: Role) -> bool
    ensures { result ≡ is_brought_to role }
{
    matches!(role, Role::Link | Role::Image)
}

// How many of these events begin or end a link or an image.
fn link_ends(events: &EventSlice) -> usize
    ensures { result ≡ link_ends events.now }
{
    let mut count = 0;
    for index in 0..events.len() {
        if is_brought_to(role_of(events.at(index).name)) {
            count += 1;
        }
    }
    count
}

// Whether so many definitions bring no more than a limit, where each brings so many bytes.
fn is_within(count: usize, bytes: usize, limit: usize) -> bool
    ensures { IsTrue result → count * bytes ≤ limit }
{
    match count.checked_mul(bytes) {
        Some(all) => all <= limit,
        None => false,
    }
}

// Whether even the longest definition brings no more than a limit, at each link and image of these events.
fn are_few(events: &EventSlice, definitions: &Targets, limit: usize) -> bool
    ensures { IsTrue result → AreFew events.now definitions.now limit }
{
    match definitions.most_brought() {
        Some(most) => {
            is_within(events.len(), most, limit) || is_within(link_ends(events), most, limit)
        }
        None => false,
    }
}

/// Whether definitions bring no more than a limit to the tree whose events these are: whether `left_of_limit` answers that something is left.
///
/// What is handed in is what `left_of_limit` takes. Where the longest definition would not pass the limit at each link and image, no reference is looked at,
/// and the call takes time in proportion to the events alone. Else it takes the time and the memory of `left_of_limit`.
///
/// The error comes only where memory is refused.
pub fn is_within_limit(
    alloc: Global,
    parse_state: &ParseState,
    pieces: &[Piece],
    events: &EventSlice,
    definitions: &Targets,
    options: HtmlOptions,
    limit: usize,
) -> Result<bool, AllocError>
    requires content { HasLabelTexts parse_state.now.options.now parse_state.now.bytes.now pieces.now }
    ensures { let page = page_from parse_state.now pieces.now definitions.now options in
        (t : Forest) → events.now ≡ events_of t → IfOk result (λ is_within. IsTrue is_within ↔ (brought page t ≤ limit)) }
{
    if are_few(events, definitions, limit) {
        return Ok(true);
    }
    let left = left_of_limit(
        alloc,
        parse_state,
        pieces,
        events,
        definitions,
        options,
        limit,
    )?;
    Ok(left.is_some())
}
