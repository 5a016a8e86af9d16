//! The pass `resolve`, which merges neighbouring data. The states of data stand in `markdown_partial`.
//!
//! It leaves one `Data` in place of several that carry no link and follow one another.
//!
//! Example: in `a & b` the codes `& b` are data, and the pass merges them with what stands before.
//!
//! Definition: `merged` in `markdown_model/specs/Passes.antt`.
#![tactic(auto, using(markdown_engine::proofs::OperationFields::op_rules))]

ghost use Rattle.std.specs.Prelude.{◌≡◌, ◌+◌, ◌-◌, ◌^◌, ◌<◌, ◌≤◌, ◌++◌, ℕ, IfOk, OnOk, OnErr, IsTrue, None, [], length, slice_index_or, true, false};
ghost use Rattle.markdown_event.specs.declared.event.Name.TheVariants.{Data};
ghost use Rattle.markdown_engine_events.specs.EventChains.{chained};
ghost use Rattle.markdown_engine.specs.PastTree.{appended_from};
ghost use Rattle.markdown_content.specs.Tree.{Forest};
ghost use Rattle.markdown_model.specs.Passes.{merged};
ghost use Rattle.markdown_passes.specs.MergedEvents.{opens_data, closes_data, ends_joint, marked, joints, HasData};

use markdown_engine::tokenizer::Tokenizer;
use markdown_engine_events::event_list::EventSlice;
use markdown_engine_events::events::Events;
use markdown_engine_events::subtokenize::Subresult;
use markdown_engine_events::util::edit_map::EditMap;
use markdown_event::event::{Event, Kind, Name};
use std::alloc::AllocError;

/// Whether this is the Enter of data without a link. The name is looked at first, since most events have another.
#[inline]
pub fn opens_data(event: &Event) -> bool
    ensures { result ≡ opens_data event.now }
{
    matches!(event.name, Name::Data) && matches!(event.kind, Kind::Enter) && event.link.is_none()
}

// How many events there are, by the list in which they are lent.
#[inline(always)]
fn lent_len(events: &Events, items: &EventSlice) -> usize
    requires lent { items.now ≡ chained events.now }
    ensures { result ≡ length events.now }
{
    items.len()
}

// How many events are looked at with no other look between.
const EIGHT: usize = 8;

// How many of the eight events from this index on come before the first Enter of data without a link.
#[inline(always)]
fn others_among_eight(events: &Events, items: &EventSlice, at: usize) -> usize
    requires lent { items.now ≡ chained events.now }
    requires within { at + EIGHT ≤ length events.now }
    requires counted { length events.now < 2 ^ 64 }
    ensures within { result ≤ EIGHT }
    ensures none { (i : ℕ) (e : Event) → at ≤ i → i < at + result → opens_data (slice_index_or events.now i e) ≡ false }
    ensures here { (e : Event) → result < EIGHT → opens_data (slice_index_or events.now (at + result) e) ≡ true }
{
    for count in 0..EIGHT {
        if opens_data(&items.at(at + count)) {
            return count;
        }
    }
    EIGHT
}

// As `next_lent`, where few events are left.
#[inline(always)]
fn next_of_few(events: &Events, items: &EventSlice, from: usize) -> usize
    requires lent { items.now ≡ chained events.now }
    requires order { from ≤ length events.now }
    ensures from { from ≤ result }
    ensures within { result ≤ length events.now }
    ensures none { (i : ℕ) (e : Event) → from ≤ i → i < result → opens_data (slice_index_or events.now i e) ≡ false }
    ensures here { (e : Event) → result < length events.now → opens_data (slice_index_or events.now result e) ≡ true }
{
    let count = lent_len(events, items);
    let mut at = from;
    while at < count && !opens_data(&items.at(at)) {
        at += 1;
    }
    at
}

// As `next_data`, where the events are lent already: in which form the list stands is then looked up once for many calls.
#[inline(always)]
fn next_lent(events: &Events, items: &EventSlice, from: usize) -> usize
    requires lent { items.now ≡ chained events.now }
    requires order { from ≤ length events.now }
    ensures from { from ≤ result }
    ensures within { result ≤ length events.now }
    ensures none { (i : ℕ) (e : Event) → from ≤ i → i < result → opens_data (slice_index_or events.now i e) ≡ false }
    ensures here { (e : Event) → result < length events.now → opens_data (slice_index_or events.now result e) ≡ true }
{
    let count = lent_len(events, items);
    let mut at = from;
    while count - at >= EIGHT {
        let others = others_among_eight(events, items, at);
        at += others;
        if others < EIGHT {
            return at;
        }
    }
    next_of_few(events, items, at)
}

/// The number of the first Enter of data without a link from an event on, or how many events there are.
///
/// The work is that of the events between, each of which takes one look.
#[inline(always)]
pub fn next_data(events: &Events, from: usize) -> usize
    requires { from ≤ length events.now }
    ensures from { from ≤ result }
    ensures within { result ≤ length events.now }
    ensures none { (i : ℕ) (e : Event) → from ≤ i → i < result → opens_data (slice_index_or events.now i e) ≡ false }
    ensures here { (e : Event) → result < length events.now → opens_data (slice_index_or events.now result e) ≡ true }
{
    let items = events.as_slice();
    next_lent(events, &items, from)
}

// Whether this is the Exit of data. The name is looked at first, since most events have another.
fn closes_data(event: &Event) -> bool
    ensures { result ≡ closes_data event.now }
{
    matches!(event.name, Name::Data) && matches!(event.kind, Kind::Exit) && event.link.is_none()
}

// Whether data without a link stands right before this event, where such data begins. Its Exit is looked for first, since most of these events
// have another before them.
#[inline(always)]
fn is_joint(events: &Events, items: &EventSlice, index: usize) -> bool
    requires lent { items.now ≡ chained events.now }
    requires within { index < length events.now }
    requires opens { (e : Event) → opens_data (slice_index_or events.now index e) ≡ true }
    ensures { result ≡ ends_joint index events.now }
{
    if index < 2 {
        return false;
    }
    if !closes_data(&items.at(index - 1)) {
        return false;
    }
    opens_data(&items.at(index - 2))
}

// As `mark`, where the events are lent already.
#[inline(always)]
fn mark_lent(
    events: &Events,
    items: &EventSlice,
    map: &mut EditMap,
    index: usize,
) -> Result<(), AllocError>
    requires lent { items.now ≡ chained events.now }
    requires within { index < length events.now }
    requires opens { (e : Event) → opens_data (slice_index_or events.now index e) ≡ true }
    ensures ok { OnOk result (map.new ≡ map.old ++ marked (ends_joint index events.now) (index - 1)) }
    ensures err { OnErr result (map.new ≡ map.old) }
{
    if is_joint(events, items, index) {
        map.add_slice(index - 1, 2, &[])?;
    }
    Ok(())
}

/// Where data without a link stands right before this event, at which such data begins: marks the Exit of the one and the Enter of the other to go.
///
/// The error comes where memory is refused; the edits are then as they were.
#[inline(always)]
pub fn mark(events: &Events, map: &mut EditMap, index: usize) -> Result<(), AllocError>
    requires within { index < length events.now }
    requires opens { (e : Event) → opens_data (slice_index_or events.now index e) ≡ true }
    ensures ok { OnOk result (map.new ≡ map.old ++ marked (ends_joint index events.now) (index - 1)) }
    ensures err { OnErr result (map.new ≡ map.old) }
{
    let items = events.as_slice();
    mark_lent(events, &items, map, index)
}

// Marks what is to go where data stands behind data.
fn mark_joints(events: &Events, map: &mut EditMap) -> Result<(), AllocError>
    requires { map.old ≡ [] }
    ensures { OnOk result (map.new ≡ joints 0 events.now) }
{
    let lent = events.as_slice();
    let count = lent_len(events, &lent);
    let mut index = next_lent(events, &lent, 0);
    while index < count {
        mark_lent(events, &lent, map, index)?;
        index = next_lent(events, &lent, index + 1);
    }
    Ok(())
}

// Merges neighbouring data in a list of events.
fn merge(events: &mut Events, map: &mut EditMap) -> Result<(), AllocError>
    requires { map.old ≡ [] }
    ensures merged { (t : Forest) → HasData t → events.old ≡ appended_from 0 None t → OnOk result (events.new ≡ appended_from 0 None (merged t)) }
    ensures map { OnOk result (map.new ≡ []) }
{
    mark_joints(events, map)?;
    map.consume(events)
}

// Merges neighbouring data in the events of a tokenizer.
#[inline(never)]
fn merge_events(tokenizer: &mut Tokenizer) -> Result<(), AllocError>
    requires { tokenizer.old.map ≡ [] }
    ensures same { OnOk result (tokenizer.new ≡ record tokenizer.old { events = tokenizer.new.events }) }
    ensures merged { (t : Forest) → HasData t → tokenizer.old.events ≡ appended_from 0 None t
        → OnOk result (tokenizer.new.events ≡ appended_from 0 None (merged t)) }
    ensures err { OnErr result (IsTrue tokenizer.new.failed) }
{
    let merged = merge(&mut tokenizer.events, &mut tokenizer.map);
    tokenizer.noted(merged)
}

/// Merges neighbouring data that carry no link.
///
/// The work is that of the events. The error comes where memory is refused; then `failed` is true.
#[inline]
pub fn resolve(tokenizer: &mut Tokenizer) -> Result<Option<Subresult>, AllocError>
    requires { tokenizer.old.map ≡ [] }
    ensures none { IfOk result (λ r. r ≡ None) }
    ensures same { OnOk result (tokenizer.new ≡ record tokenizer.old { events = tokenizer.new.events }) }
    ensures merged { (t : Forest) → HasData t → tokenizer.old.events ≡ appended_from 0 None t
        → OnOk result (tokenizer.new.events ≡ appended_from 0 None (merged t)) }
    ensures err { OnErr result (IsTrue tokenizer.new.failed) }
{
    if tokenizer.events.len() <= 2 {
        return Ok(None);
    }
    merge_events(tokenizer)?;
    Ok(None)
}
