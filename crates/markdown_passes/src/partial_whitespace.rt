//! The pass of whitespace beside line endings: data loses its blank codes there (CommonMark 6.7 and 6.8).
//!
//!     trimmed_data ::= blank* data (blank* | hard_break_trailing)
//!     hard_break_trailing ::= space{2,} | blank* space{2}      before line_ending; the second by CommonMark's rule alone
//!
//! The blank codes in front are set apart behind a line ending, and those at the back before one. `trim_whole` asks for the same at the start
//! and at the end of the whole. Where `hard_break` asks for it, those before a line ending are a hard break if all are spaces of no tab; by
//! CommonMark's rule it is enough that the last two are. By CommonMark's rule a string, which does not ask for `trim_whole`, keeps in its data
//! those before a line ending (CommonMark 6.3).
//!
//! Events, in place of `Data` that carries no link; each where it has a code:
//!
//!     SpaceOrTab           the blank codes in front
//!     Data                 what is left
//!     SpaceOrTab           the blank codes at the back, or
//!     HardBreakTrailing    the same, where they are a hard break
//!
//! Example: `red`, two spaces and a line ending: the spaces are a hard break.
//!
//! Definition: `trimmed` in `markdown_model/specs/Passes.antt`.
#![tactic(auto)]

ghost use Rattle.std.specs.Prelude.{◌≡◌, false, ◌^◌, ◌<◌, ◌≤◌, ◌==◌, ◌&&◌, not, ◌++◌, IfOk, OnOk, OnErr, IsTrue, IsSome, Some, None, [], length, drop, true, slice_index_or};
ghost use Rattle.std.specs.List.{All, list_all};
ghost use Rattle.markdown_engine_events.specs.EventChains.{IsUnlinked};
ghost use Rattle.markdown_content.specs.Content.{document_limit};
ghost use Rattle.markdown_content.specs.DocumentWalk.{value_from, IsPoint};
ghost use Rattle.markdown_passes.specs.TrimmedData.{between, IsStretch, end_of_kept, end_of_lead, at_real_space, starts_blank, ends_blank, is_same_place, leaf_events, trimmed_events};
ghost use Rattle.markdown_passes.specs.MergedEvents.{opens_data};
ghost use Rattle.markdown_passes.specs.TrimmedEvents.{opens_ending, closes_ending, breaks_of, flag, goes_before, loses, loses_first, trim_first, trims, FirstDataHasPlaces, HasPlaces, HasParts};
ghost use Rattle.markdown_engine.specs.PastTree.{appended_from};
ghost use Rattle.markdown_content.specs.Tree.{Forest};
ghost use Rattle.markdown_content.specs.CommonMark.{rules_of};
ghost use Rattle.markdown_model.specs.CodeTests.{is_real_space};
ghost use Rattle.markdown_model.specs.Passes.{hard_breaks, breaks_where, last_spaces, is_hard_break_trailing, blank_name, trimmed};
ghost use Rattle.markdown_plan.specs.ByteTests.{at_blank};

use crate::partial_data::{next_data, opens_data};
use markdown_content::walk::{code_from, past_code};
use markdown_engine::tokenizer::Tokenizer;
use markdown_engine_events::events::Events;
use markdown_engine_events::util::edit_map::EditMap;
use markdown_event::event::{Event, Kind, Name, Point};
use markdown_util::util::constant::HARD_BREAK_PREFIX_SIZE_MIN;
use std::alloc::{AllocError, Global};

// Whether this is a space or a tab.
fn is_blank_byte(byte: u8) -> bool
    ensures { result ≡ at_blank (Some byte) }
{
    matches!(byte, b' ' | b'\t')
}

// Whether this is a space, a tab or a column of a tab.
fn is_blank(bytes: &[u8], point: Point) -> bool
    requires is_point { IsPoint bytes.now point }
    requires begins { point.index < length bytes.now }
    ensures { result ≡ at_blank (value_from bytes.now point) }
{
    is_blank_byte(code_from(bytes, point))
}

// Whether this is a space that is no column of a tab.
fn is_real_space(bytes: &[u8], point: Point) -> bool
    requires is_point { IsPoint bytes.now point }
    requires begins { point.index < length bytes.now }
    ensures { result ≡ at_real_space (value_from bytes.now point) point }
{
    code_from(bytes, point) == b' ' && point.vs == 0
}

/// Whether two points are one place.
pub fn is_same_place(left: Point, right: Point) -> bool
    ensures { result ≡ is_same_place left right }
{
    left.index == right.index && left.vs == right.vs
}

// Whether a stretch begins with a blank code.
fn starts_blank(bytes: &[u8], from: Point, to: Point) -> bool
    requires stretch { IsStretch bytes.now from to }
    ensures { result ≡ starts_blank (between bytes.now from to) }
{
    !is_same_place(from, to) && is_blank(bytes, from)
}

// Whether a stretch ends with a blank code: that inside a tab is one, and any other ends with its last byte.
fn ends_blank(bytes: &[u8], from: Point, to: Point) -> bool
    requires stretch { IsStretch bytes.now from to }
    ensures { result ≡ ends_blank (between bytes.now from to) }
{
    if is_same_place(from, to) {
        return false;
    }
    to.vs > 0 || is_blank_byte(bytes[to.index - 1])
}

// Whether a stretch loses codes, where blank ones go in front, at its back, or both.
fn loses_blank(bytes: &[u8], front: bool, back: bool, from: Point, to: Point) -> bool
    requires stretch { IsStretch bytes.now from to }
    ensures { result ≡ loses front back bytes.now from to }
{
    (front && starts_blank(bytes, from, to)) || (back && ends_blank(bytes, from, to))
}

// Answers where the codes of a stretch end, without the blank ones at its back.
fn kept_end(bytes: &[u8], from: Point, to: Point) -> Point
    requires fits { length bytes.now ≤ document_limit }
    requires stretch { IsStretch bytes.now from to }
    ensures { result ≡ end_of_kept from (between bytes.now from to) }
{
    let mut kept = from;
    let mut point = from;
    while !is_same_place(point, to) {
        let blank = is_blank(bytes, point);
        point = past_code(bytes, point);
        if !blank {
            kept = point;
        }
    }
    kept
}

// Answers where the blank codes in front of a stretch end.
fn lead_end(bytes: &[u8], from: Point, to: Point) -> Point
    requires fits { length bytes.now ≤ document_limit }
    requires stretch { IsStretch bytes.now from to }
    ensures { result ≡ end_of_lead from (between bytes.now from to) }
{
    let mut point = from;
    while !is_same_place(point, to) && is_blank(bytes, point) {
        point = past_code(bytes, point);
    }
    point
}

// Whether all codes of a stretch are spaces that are no column of a tab.
fn are_spaces(bytes: &[u8], from: Point, to: Point) -> bool
    requires fits { length bytes.now ≤ document_limit }
    requires stretch { IsStretch bytes.now from to }
    ensures { result ≡ list_all is_real_space (between bytes.now from to) }
{
    let mut point = from;
    while !is_same_place(point, to) {
        if !is_real_space(bytes, point) {
            return false;
        }
        point = past_code(bytes, point);
    }
    true
}

// Answers how many spaces that are no column of a tab stand at the end of a stretch.
fn last_spaces(bytes: &[u8], from: Point, to: Point) -> usize
    requires fits { length bytes.now ≤ document_limit }
    requires stretch { IsStretch bytes.now from to }
    ensures { result ≡ last_spaces (between bytes.now from to) }
{
    let mut spaces = 0usize;
    let mut point = from;
    while !is_same_place(point, to) {
        let space = is_real_space(bytes, point);
        point = past_code(bytes, point);
        spaces += 1;
        if !space {
            spaces = 0;
        }
    }
    spaces
}

// Whether a stretch ends in two or more spaces that are no column of a tab, and has no other code, unless the last two alone decide.
fn is_hard_break_trailing(bytes: &[u8], from: Point, to: Point, two_last: bool) -> bool
    requires fits { length bytes.now ≤ document_limit }
    requires stretch { IsStretch bytes.now from to }
    ensures { result ≡ is_hard_break_trailing two_last (between bytes.now from to) }
{
    (two_last || are_spaces(bytes, from, to))
        && last_spaces(bytes, from, to) >= HARD_BREAK_PREFIX_SIZE_MIN
}

// Which blank codes before a line ending are a hard break.
#[derive(Clone, Copy)]
struct Breaks {
    // Some are.
    on: bool,
    // The last two alone decide (CommonMark 6.7).
    two_last: bool,
    // None are, and data keeps them, as in a title (CommonMark 6.3).
    keeps: bool,
}

// Answers the name of the blank codes at the back of data; `hard` says that they may be a hard break, and `two_last` that the last two decide.
fn blank_name(bytes: &[u8], from: Point, to: Point, hard: bool, two_last: bool) -> Name
    requires fits { length bytes.now ≤ document_limit }
    requires stretch { IsStretch bytes.now from to }
    ensures { result ≡ blank_name (record { on = hard; two_last = two_last; keeps = false }) (between bytes.now from to) }
{
    if hard && is_hard_break_trailing(bytes, from, to, two_last) {
        Name::HardBreakTrailing
    } else {
        Name::SpaceOrTab
    }
}

/// Appends the events of a leaf from a place to a place, where it has a code.
pub fn push_leaf(
    events: &mut Vec<Event>,
    name: Name,
    from: Point,
    to: Point,
) -> Result<(), AllocError>
    ensures { OnOk result (events.new.items ≡ events.old.items ++ leaf_events name from to) }
{
    if !is_same_place(from, to) {
        events.push(Event {
            kind: Kind::Enter,
            name,
            point: from,
            link: None,
        })?;
        events.push(Event {
            kind: Kind::Exit,
            name,
            point: to,
            link: None,
        })?;
    }
    Ok(())
}

// Puts the events of data that loses its blank codes in front, at its back, or both, the back first, in place of those that the
// list had; `hard` says which of those at its back are a hard break, and whether they stay.
fn trimmed_data(
    events: &mut Vec<Event>,
    bytes: &[u8],
    front: bool,
    back: bool,
    hard: Breaks,
    from: Point,
    to: Point,
) -> Result<(), AllocError>
    requires fits { length bytes.now ≤ document_limit }
    requires stretch { IsStretch bytes.now from to }
    ensures { OnOk result (events.new.items ≡ trimmed_events front back (breaks_of hard) bytes.now from to) }
{
    let goes = back && !hard.keeps;
    let end = if goes { kept_end(bytes, from, to) } else { to };
    let start = if front {
        lead_end(bytes, from, end)
    } else {
        from
    };
    events.clear();
    push_leaf(events, Name::SpaceOrTab, from, start)?;
    push_leaf(events, Name::Data, start, end)?;
    push_leaf(
        events,
        blank_name(bytes, end, to, hard.on, hard.two_last),
        end,
        to,
    )?;
    Ok(())
}

// Whether this is the Enter of a line ending. The name is looked at first, since most events have another.
fn opens_ending(event: &Event) -> bool
    ensures { result ≡ opens_ending event.now }
{
    matches!(event.name, Name::LineEnding) && matches!(event.kind, Kind::Enter)
}

// Whether this is the Exit of a line ending. The name is looked at first, since most events have another.
fn closes_ending(event: &Event) -> bool
    ensures { result ≡ closes_ending event.now }
{
    matches!(event.name, Name::LineEnding) && matches!(event.kind, Kind::Exit)
}

// Whether blank codes before the event of this number go.
fn goes_before(events: &Events, index: usize, whole: bool) -> bool
    requires { index ≤ length events.now }
    ensures { result ≡ goes_before whole (drop index events.now) }
{
    if index == events.len() {
        whole
    } else {
        opens_ending(&events.bare_at(index))
    }
}

// Answers which blank codes before the event of this number are a hard break: the same before a line ending, and none elsewhere.
fn breaks_before(events: &Events, index: usize, hard: Breaks) -> Breaks
    requires { index ≤ length events.now }
    ensures { breaks_of result ≡ breaks_where (breaks_of hard) (goes_before false (drop index events.now)) }
{
    Breaks {
        on: hard.on && goes_before(events, index, false),
        two_last: hard.two_last,
        keeps: hard.keeps,
    }
}

// Whether blank codes behind what stands before the event of this number go: after a line ending, and at the start where the whole is
// trimmed.
fn front_goes(events: &Events, index: usize, whole: bool) -> bool
    requires { index ≤ length events.now }
    ensures { result ≡ flag index whole events.now }
{
    if index == 0 {
        return whole;
    }
    closes_ending(&events.bare_at(index - 1))
}

// What is trimmed besides blank codes at line endings.
#[derive(Clone, Copy)]
struct Trimming {
    // Which blank codes before a line ending are a hard break.
    hard: Breaks,
    // Blank codes at the start and at the end of the whole go.
    whole: bool,
}

/// Whether data that carries no link begins at this event and loses blank codes; `whole` says that those at the start and at the end of the
/// whole go. Most events begin no data, so nothing else is looked at before that.
#[inline(always)]
pub fn loses_first(bytes: &[u8], events: &Events, index: usize, whole: bool) -> bool
    requires fits { length bytes.now ≤ document_limit }
    requires within { index < length events.now }
    requires counted { length events.now < 2 ^ 64 }
    requires places { FirstDataHasPlaces bytes.now (drop index events.now) }
    ensures { result ≡ loses_first bytes.now whole (flag index whole events.now) (drop index events.now) }
{
    let enter = events.bare_at(index);
    if !opens_data(&enter) {
        return false;
    }
    data_loses(bytes, events, index, whole)
}

/// The same, where data that carries no link is known to begin at this event.
#[inline(always)]
pub fn data_loses(bytes: &[u8], events: &Events, index: usize, whole: bool) -> bool
    requires fits { length bytes.now ≤ document_limit }
    requires within { index < length events.now }
    requires counted { length events.now < 2 ^ 64 }
    requires places { FirstDataHasPlaces bytes.now (drop index events.now) }
    requires opens { (e : Event) → opens_data (slice_index_or events.now index e) ≡ true }
    ensures { result ≡ loses_first bytes.now whole (flag index whole events.now) (drop index events.now) }
{
    let enter = events.bare_at(index);
    let front = front_goes(events, index, whole);
    let back = goes_before(events, index + 2, whole);
    if !front && !back {
        return false;
    }
    let exit = events.bare_at(index + 1);
    loses_blank(bytes, front, back, enter.point, exit.point)
}

// Puts the trimmed events of data that begins at this event, and loses codes, in place of its own. They are made in the room, whatever it
// holds. It is kept out of line, since most data loses none.
#[inline(never)]
fn trim_data(
    room: &mut Vec<Event>,
    bytes: &[u8],
    events: &Events,
    map: &mut EditMap,
    index: usize,
    trimming: Trimming,
) -> Result<(), AllocError>
    requires fits { length bytes.now ≤ document_limit }
    requires within { index < length events.now }
    requires counted { length events.now < 2 ^ 64 }
    requires places { FirstDataHasPlaces bytes.now (drop index events.now) }
    requires loses { IsTrue (loses_first bytes.now trimming.whole (flag index trimming.whole events.now) (drop index events.now)) }
    ensures { OnOk result (map.new
        ≡ map.old ++ trim_first bytes.now (breaks_of trimming.hard) trimming.whole index (flag index trimming.whole events.now) (drop index events.now)) }
{
    let enter = events.bare_at(index);
    let exit = events.bare_at(index + 1);
    let front = front_goes(events, index, trimming.whole);
    let back = goes_before(events, index + 2, trimming.whole);
    let hard = breaks_before(events, index + 2, trimming.hard);
    trimmed_data(room, bytes, front, back, hard, enter.point, exit.point)?;
    map.add_slice(index, 2, room)?;
    Ok(())
}

// The same, where data begins at this event and loses codes.
fn trim_first(
    room: &mut Vec<Event>,
    bytes: &[u8],
    events: &Events,
    map: &mut EditMap,
    index: usize,
    trimming: Trimming,
) -> Result<(), AllocError>
    requires fits { length bytes.now ≤ document_limit }
    requires within { index < length events.now }
    requires counted { length events.now < 2 ^ 64 }
    requires places { FirstDataHasPlaces bytes.now (drop index events.now) }
    ensures { OnOk result (map.new
        ≡ map.old ++ trim_first bytes.now (breaks_of trimming.hard) trimming.whole index (flag index trimming.whole events.now) (drop index events.now)) }
{
    if !loses_first(bytes, events, index, trimming.whole) {
        return Ok(());
    }
    trim_data(room, bytes, events, map, index, trimming)
}

// Collects the edits of all data that loses codes.
fn trim_each(
    alloc: Global,
    bytes: &[u8],
    events: &Events,
    map: &mut EditMap,
    trimming: Trimming,
) -> Result<(), AllocError>
    requires fits { length bytes.now ≤ document_limit }
    requires places { HasPlaces bytes.now events.now }
    requires empty { map.old ≡ [] }
    ensures { OnOk result (map.new ≡ trims bytes.now (breaks_of trimming.hard) trimming.whole 0 trimming.whole events.now) }
{
    let mut room = Vec::new(alloc);
    let count = events.len();
    let mut index = next_data(events, 0);
    while index < count {
        trim_first(&mut room, bytes, events, map, index, trimming)?;
        index = next_data(events, index + 1);
    }
    Ok(())
}

// Trims the data in a list of events.
fn trim(
    alloc: Global,
    bytes: &[u8],
    events: &mut Events,
    map: &mut EditMap,
    trimming: Trimming,
) -> Result<(), AllocError>
    requires fits { length bytes.now ≤ document_limit }
    requires places { HasPlaces bytes.now events.old }
    requires empty { map.old ≡ [] }
    ensures trimmed { (t : Forest) → HasParts bytes.now t → events.old ≡ appended_from 0 None t
        → OnOk result (events.new ≡ appended_from 0 None (trimmed (breaks_of trimming.hard) trimming.whole trimming.whole t)) }
    ensures map { OnOk result (map.new ≡ []) }
{
    trim_each(alloc, bytes, events, map, trimming)?;
    map.consume(events)
}

/// Trims data that carries no link: beside a line ending it loses its blank codes there, and where `trim_whole` is true the whole
/// loses those at its start and at its end.
///
/// Blank codes that go become whitespace of their own; data that is all blank is renamed. Where `hard_break` is true, those before a
/// line ending become a hard break instead if the last two are spaces of no tab (CommonMark 6.7), and, unless the rules are CommonMark's,
/// all are; those at the whole's end never do. By CommonMark's rules data keeps those before a line ending where `trim_whole` is false, as in a
/// title (CommonMark 6.3). The document has at most `usize::MAX / 8` bytes, the edits are empty before and after, and
/// each data stands at places of the document. The work is that of the events and of the codes of the data. The error comes where memory is
/// refused; then `failed` is true.
pub fn resolve_whitespace(
    tokenizer: &mut Tokenizer,
    hard_break: bool,
    trim_whole: bool,
) -> Result<(), AllocError>
    requires map { tokenizer.old.map ≡ [] }
    requires fits { length tokenizer.old.parse_state.now.bytes.now ≤ document_limit }
    requires places { HasPlaces tokenizer.old.parse_state.now.bytes.now tokenizer.old.events }
    ensures same { OnOk result (tokenizer.new ≡ record tokenizer.old { events = tokenizer.new.events }) }
    ensures trimmed { (t : Forest) → HasParts tokenizer.old.parse_state.now.bytes.now t → tokenizer.old.events ≡ appended_from 0 None t
        → OnOk result (tokenizer.new.events ≡ appended_from 0 None
        (trimmed (hard_breaks hard_break trim_whole (rules_of tokenizer.old.parse_state.now.options.now)) trim_whole trim_whole t)) }
    ensures err { OnErr result (IsTrue tokenizer.new.failed) }
{
    let bytes = tokenizer.parse_state.bytes;
    let rules = tokenizer.parse_state.options.rules();
    let hard = Breaks {
        on: hard_break,
        two_last: hard_break && rules.two_last_spaces,
        keeps: !trim_whole && rules.titles_keep_spaces,
    };
    let trimmed = trim(
        tokenizer.alloc,
        bytes,
        &mut tokenizer.events,
        &mut tokenizer.map,
        Trimming {
            hard,
            whole: trim_whole,
        },
    );
    tokenizer.noted(trimmed)
}
