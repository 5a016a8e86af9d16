//! The events that the pairs of a run make of its markers.
#![tactic(auto)]

ghost use Rattle.std.specs.Prelude.{◌≡◌, ◌+◌, ◌<◌, ◌^◌, ◌++◌, ◌∷◌, [], IfOk, OnOk, reverse};
ghost use Rattle.std.specs.List.{All};
ghost use Rattle.markdown_content.specs.Tree.{event};
ghost use Rattle.markdown_engine_events.specs.MarkedEvents.{marked};
ghost use Rattle.markdown_event.specs.declared.event.Point.{Point};
ghost use Rattle.markdown_model.specs.BracketGroups.{pair_names};
ghost use Rattle.markdown_attention.specs.RunEvents.{shifted, total, closing_at, opening_at, closings_from, openings_from, data_at, marker_events};

use markdown_engine_events::util::edit_map::Mark;
use markdown_event::event::{Event, Kind, Name, Point};
use std::alloc::AllocError;

// What the events of a pair are named.
#[derive(Clone, Copy)]
struct PairNames {
    group: Name,
    sequence: Name,
    text: Name,
}

// The names of the events of a pair that takes so many of a marker.
fn pair_names(marker: u8, size: usize) -> PairNames
    ensures group { result.group ≡ (pair_names marker size).0 }
    ensures sequence { result.sequence ≡ (pair_names marker size).1 }
    ensures text { result.text ≡ (pair_names marker size).2 }
{
    if marker == b'~' {
        PairNames {
            group: Name::GfmStrikethrough,
            sequence: Name::GfmStrikethroughSequence,
            text: Name::GfmStrikethroughText,
        }
    } else if size == 2 {
        PairNames {
            group: Name::Strong,
            sequence: Name::StrongSequence,
            text: Name::StrongText,
        }
    } else {
        PairNames {
            group: Name::Emphasis,
            sequence: Name::EmphasisSequence,
            text: Name::EmphasisText,
        }
    }
}

/// The place so many codes further on, on the same line.
#[inline(always)]
pub(crate) fn shifted(point: Point, by: usize) -> Point
    requires column { point.column + by < 2 ^ 64 }
    requires index { point.index + by < 2 ^ 64 }
    ensures { result ≡ shifted point by }
{
    Point {
        line: point.line,
        column: point.column + by,
        index: point.index + by,
        vs: point.vs,
    }
}

// An event without a link.
#[inline(always)]
fn event(kind: Kind, name: Name, point: Point) -> Event
    ensures { result ≡ event kind name point }
{
    Event {
        kind,
        name,
        point,
        link: None,
    }
}

// A mark at a place of this number.
#[inline(always)]
fn mark(kind: Kind, name: Name, place: usize) -> Mark
    ensures { result ≡ record { kind = kind; name = name; place = place } }
{
    Mark { kind, name, place }
}

/// The marks of a closing bracket. Their places are those where it begins and where it ends.
#[inline(always)]
pub(crate) fn closing(marker: u8, size: usize) -> [Mark; 4]
    ensures events { (p : Point) → marked (p ∷ shifted p size ∷ []) result ≡ closing_at marker p size }
    ensures within { All (λ m. m.place < 2) result }
{
    let names = pair_names(marker, size);
    [
        mark(Kind::Exit, names.text, 0),
        mark(Kind::Enter, names.sequence, 0),
        mark(Kind::Exit, names.sequence, 1),
        mark(Kind::Exit, names.group, 1),
    ]
}

/// The marks of an opening bracket. Their places are those where it begins and where it ends.
#[inline(always)]
pub(crate) fn opening(marker: u8, size: usize) -> [Mark; 4]
    ensures events { (p : Point) → marked (p ∷ shifted p size ∷ []) result ≡ opening_at marker p size }
    ensures within { All (λ m. m.place < 2) result }
{
    let names = pair_names(marker, size);
    [
        mark(Kind::Enter, names.group, 0),
        mark(Kind::Enter, names.sequence, 0),
        mark(Kind::Exit, names.sequence, 1),
        mark(Kind::Enter, names.text, 1),
    ]
}

// Appends the events of marks at these places.
fn push_marks(
    events: &mut Vec<Event>,
    marks: &[Mark; 4],
    places: &[Point; 2],
) -> Result<(), AllocError>
    requires { All (λ m. m.place < 2) marks.now }
    ensures { OnOk result (events.new.items ≡ events.old.items ++ marked places.now marks.now) }
{
    for mark in marks {
        events.push(event(mark.kind, mark.name, places[mark.place]))?;
    }
    Ok(())
}

// Appends the events of a closing bracket, and answers where it ends.
fn push_closing(
    events: &mut Vec<Event>,
    marker: u8,
    from: Point,
    size: usize,
) -> Result<Point, AllocError>
    requires column { from.column + size < 2 ^ 64 }
    requires index { from.index + size < 2 ^ 64 }
    ensures end { IfOk result (λ p. p ≡ shifted from size) }
    ensures events { OnOk result (events.new.items ≡ events.old.items ++ closing_at marker from size) }
{
    let to = shifted(from, size);
    push_marks(events, &closing(marker, size), &[from, to])?;
    Ok(to)
}

// Appends the events of an opening bracket, and answers where it ends.
fn push_opening(
    events: &mut Vec<Event>,
    marker: u8,
    from: Point,
    size: usize,
) -> Result<Point, AllocError>
    requires column { from.column + size < 2 ^ 64 }
    requires index { from.index + size < 2 ^ 64 }
    ensures end { IfOk result (λ p. p ≡ shifted from size) }
    ensures events { OnOk result (events.new.items ≡ events.old.items ++ opening_at marker from size) }
{
    let to = shifted(from, size);
    push_marks(events, &opening(marker, size), &[from, to])?;
    Ok(to)
}

// Appends the events of markers that no pair takes, and answers where they end.
fn push_data(events: &mut Vec<Event>, from: Point, size: usize) -> Result<Point, AllocError>
    requires column { from.column + size < 2 ^ 64 }
    requires index { from.index + size < 2 ^ 64 }
    ensures end { IfOk result (λ p. p ≡ shifted from size) }
    ensures events { OnOk result (events.new.items ≡ events.old.items ++ data_at from size) }
{
    let to = shifted(from, size);
    if size > 0 {
        events.push(event(Kind::Enter, Name::Data, from))?;
        events.push(event(Kind::Exit, Name::Data, to))?;
    }
    Ok(to)
}

// Appends the events of closing brackets one after another, and answers where they end.
fn push_closings(
    events: &mut Vec<Event>,
    marker: u8,
    from: Point,
    sizes: &[usize],
) -> Result<Point, AllocError>
    requires column { from.column + total sizes.now < 2 ^ 64 }
    requires index { from.index + total sizes.now < 2 ^ 64 }
    ensures end { IfOk result (λ p. p ≡ shifted from (total sizes.now)) }
    ensures events { OnOk result (events.new.items ≡ events.old.items ++ closings_from marker from sizes.now) }
{
    let mut point = from;
    for size in sizes {
        point = push_closing(events, marker, point, *size)?;
    }
    Ok(point)
}

// Appends the events of opening brackets one after another, the last size first.
fn push_openings(
    events: &mut Vec<Event>,
    marker: u8,
    from: Point,
    sizes: &[usize],
) -> Result<(), AllocError>
    requires column { from.column + total sizes.now < 2 ^ 64 }
    requires index { from.index + total sizes.now < 2 ^ 64 }
    ensures { OnOk result (events.new.items ≡ events.old.items ++ openings_from marker from (reverse sizes.now)) }
{
    let mut point = from;
    for index in (0..sizes.len()).rev() {
        point = push_opening(events, marker, point, sizes[index])?;
    }
    Ok(())
}

/// Puts the events of a run, of which pairs take these sizes, as a closer and as an opener, and leave so many markers, in place of
/// those that the list had.
pub(crate) fn run_events(
    events: &mut Vec<Event>,
    marker: u8,
    from: Point,
    fronts: &[usize],
    kept: usize,
    backs: &[usize],
) -> Result<(), AllocError>
    requires column { from.column + (total fronts.now + kept + total backs.now) < 2 ^ 64 }
    requires index { from.index + (total fronts.now + kept + total backs.now) < 2 ^ 64 }
    ensures { OnOk result (events.new.items ≡ marker_events marker from fronts.now kept backs.now) }
{
    events.clear();
    let data = push_closings(events, marker, from, fronts)?;
    let openings = push_data(events, data, kept)?;
    push_openings(events, marker, openings, backs)?;
    Ok(())
}
