//! The strings inside nodes.
ghost use Rattle.std.specs.Prelude.{◌≡◌, ◌++◌, false, IfOk, OnOk};
ghost use Rattle.std.specs.List.{list_any};
ghost use Rattle.markdown_targets.specs.LinkTargets.{has_title, is_in_behind, is_string, is_title, next_index, part, part_text, stretch, string_in, text_inside};

use markdown_engine_events::event_list::EventSlice;
use markdown_event::event::{Event, Kind, Name};
use markdown_html_model::resolve::push_resolved;
use markdown_util::decoding::Decoding;
use std::alloc::{AllocError, Global};

/// Which string of a resource.
#[derive(Clone, Copy, Debug, PartialEq, Eq)]
pub enum Part {
    /// The destination.
    Destination,
    /// The title.
    Title,
}

// Whether a node of this name is the string.
fn is_string(part: Part, name: Name) -> bool
    ensures { result ≡ is_string part name }
{
    match part {
        Part::Destination => matches!(name, Name::ResourceDestinationString),
        Part::Title => matches!(name, Name::ResourceTitleString),
    }
}

// Whether what follows an event stands inside the string.
fn is_in_behind(part: Part, event: Event, is_in: bool) -> bool
    ensures { result ≡ is_in_behind part event is_in }
{
    if is_string(part, event.name) {
        matches!(event.kind, Kind::Enter)
    } else {
        is_in
    }
}

/// The bytes from an index to an index; none where they are not in order.
pub fn stretch(bytes: &[u8], from: usize, to: usize) -> &[u8]
    ensures { result.now ≡ stretch bytes.now from to }
{
    if from <= to && to <= bytes.len() {
        &bytes[from..to]
    } else {
        b""
    }
}

// Where the first of these events stands.
fn next_index(events: &EventSlice) -> usize
    ensures { result ≡ next_index events.now }
{
    match events.split_first() {
        Some((first, _)) => first.point.index,
        None => 0,
    }
}

// Appends what something of this name stands for.
fn push_text(
    out: &mut Vec<u8>,
    bytes: &[u8],
    name: Name,
    from: usize,
    to: usize,
) -> Result<(), AllocError>
    ensures { OnOk result (out.new.items ≡ out.old.items ++ part_text bytes.now name from to) }
{
    match name {
        Name::Data => out.extend_from_slice(stretch(bytes, from, to)),
        Name::LineEnding => out.extend_from_slice(b"\n"),
        _ => Ok(()),
    }
}

// Appends what an event gives to the string that it stands in.
fn push_part(
    out: &mut Vec<u8>,
    bytes: &[u8],
    is_in: bool,
    event: Event,
    rest: &EventSlice,
) -> Result<(), AllocError>
    ensures { OnOk result (out.new.items ≡ out.old.items ++ part bytes.now is_in event rest.now) }
{
    if is_in && matches!(event.kind, Kind::Enter) {
        push_text(out, bytes, event.name, event.point.index, next_index(rest))?;
    }
    Ok(())
}

// The text of the string inside these events, as it stands.
fn text_inside(
    alloc: Global,
    bytes: &[u8],
    string: Part,
    events: &EventSlice,
) -> Result<Vec<u8>, AllocError>
    ensures { IfOk result (λ text. text.items ≡ text_inside bytes.now string false events.now) }
{
    let mut out = Vec::new(alloc);
    let mut is_in = false;
    let mut left = events.slice(0, events.len());
    while let Some((event, rest)) = left.split_first() {
        push_part(&mut out, bytes, is_in, event, &rest)?;
        is_in = is_in_behind(string, event, is_in);
        left = rest;
    }
    Ok(out)
}

/// The string of a destination or a title inside these events, with escapes and character references resolved; empty where none stands there.
///
/// References are decoded in the given way: `decoding_of` of `markdown_html_model` says which way that is under the options of a run.
///
/// A string may stand on several lines: it is one text, without what stands between two of its lines, but with a line feed there. The error comes
/// only where memory is refused.
pub fn string_in(
    alloc: Global,
    how: Decoding,
    bytes: &[u8],
    string: Part,
    events: &EventSlice,
) -> Result<Vec<u8>, AllocError>
    ensures { IfOk result (λ text. text.items ≡ string_in how bytes.now string events.now) }
{
    let inside = text_inside(alloc, bytes, string, events)?;
    let mut text = Vec::new(alloc);
    push_resolved(alloc, &mut text, how, inside.as_slice())?;
    Ok(text)
}

// Whether an event is about a title.
fn is_title(event: Event) -> bool
    ensures { result ≡ is_title event }
{
    matches!(event.name, Name::ResourceTitle)
}

/// Whether a title stands inside these events, also an empty one.
pub fn has_title(events: &EventSlice) -> bool
    ensures { result ≡ has_title events.now }
{
    events.iter().any(|event| is_title(event))
}
