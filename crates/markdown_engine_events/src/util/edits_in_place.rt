//! Edits of a list of events, applied in the list itself.
ghost use Rattle.std.specs.Prelude.{◌≡◌, ◌≤◌, ◌+◌, ◌-◌, ◌++◌, length, take, drop, MatchOption, IfOk, OnErr, IsTrue, IsFalse};
ghost use Rattle.std.specs.List.{All};
ghost use Rattle.markdown_engine_events.specs.EventChains.{IsAlone};
ghost use Rattle.markdown_engine_events.specs.Edits.{edited, edits_of, grown, kept, AreBrought, AreGrowing, StandApart};

use crate::packed::PackedList;
use crate::util::edit_map::{Entry, Kept, brought};
use std::alloc::AllocError;

// How edits that stand apart in a list fit into it.
#[derive(Clone, Copy)]
pub(crate) struct Fit {
    // How much they bring beyond what they remove, where an edit that removes more counts as none.
    pub(crate) more: usize,
    // Whether each brings as many events as it removes or more.
    pub(crate) growing: bool,
}

// How edits fit into a list of so many events. None where they do not stand apart, or bring more than the largest number.
pub(crate) fn fit_of(edits: &Kept, count: usize) -> Option<Fit>
    requires { AreBrought edits.now.comes.now edits.now.entries.now }
    ensures apart { MatchOption result (Unit {0}) (λ fit. StandApart 0 count (edits_of edits.now)) }
    ensures more { MatchOption result (Unit {0}) (λ fit. fit.more ≡ grown (edits_of edits.now)) }
    ensures growing { MatchOption result (Unit {0}) (λ fit. IsTrue fit.growing → AreGrowing (edits_of edits.now)) }
{
    let mut fit = Fit {
        more: 0,
        growing: true,
    };
    let mut next = usize::MAX;
    for index in (0..edits.entries.len()).rev() {
        let edit = &edits.entries[index];
        if edit.at > count || edit.remove > count - edit.at {
            return None;
        }
        if edit.at >= next || edit.at + edit.remove > next {
            return None;
        }
        next = edit.at;
        let comes = brought(edits.comes, edit).len();
        if comes < edit.remove {
            fit.growing = false;
        } else {
            fit.more = fit.more.checked_add(comes - edit.remove)?;
        }
    }
    Some(fit)
}

// Applies edits that bring as many events as they remove or more: the list has room for all at its end, behind the events that are
// edited, and is filled from there. Out of line, its loop has the registers to itself.
#[inline(never)]
fn spread(items: &mut PackedList, comes: &PackedList, entries: &[Entry], count: usize)
    requires brought { AreBrought comes.now entries.now }
    requires apart { StandApart 0 count (kept comes.now entries.now) }
    requires growing { AreGrowing (kept comes.now entries.now) }
    requires room { length items.old ≡ count + grown (kept comes.now entries.now) }
    requires alone { All IsAlone (take count items.old) }
    ensures { items.new ≡ edited (kept comes.now entries.now) (take count items.old) }
{
    let mut read = count;
    let mut end = items.len();
    for index in (0..entries.len()).rev() {
        let edit = &entries[index];
        let from = edit.at + edit.remove;
        end -= read - from;
        items.move_within(from, read, end);
        let given = comes.slice(edit.from, edit.to);
        end -= given.len();
        items.write(end, &given);
        read = edit.at;
    }
}

// Moves so many events from the front of a list to its end, which are linked to no other.
fn move_to_end(items: &mut PackedList, count: usize)
    requires within { count ≤ length items.old }
    requires alone { All IsAlone (take count items.old) }
    ensures size { length items.new ≡ length items.old }
    ensures moved { drop (length items.old - count) items.new ≡ take count items.old }
{
    let room = items.len() - count;
    if room > 0 {
        items.move_within(0, count, room);
    }
}

// Applies edits of the last `count` events of a list, which has room before them for what they bring beyond what they remove: it is filled from its
// front. Out of line, its loop has the registers to itself.
#[inline(never)]
fn fill(items: &mut PackedList, comes: &PackedList, entries: &[Entry], count: usize)
    requires brought { AreBrought comes.now entries.now }
    requires apart { StandApart 0 count (kept comes.now entries.now) }
    requires room { length items.old ≡ count + grown (kept comes.now entries.now) }
    requires alone { All IsAlone (drop (length items.old - count) items.old) }
    ensures { items.new ≡ edited (kept comes.now entries.now) (drop (length items.old - count) items.old) }
{
    let len = items.len();
    let room = len - count;
    let mut read = 0usize;
    let mut end = 0usize;
    for edit in entries {
        items.move_within(room + read, room + edit.at, end);
        end += edit.at - read;
        let given = comes.slice(edit.from, edit.to);
        items.write(end, &given);
        end += given.len();
        read = edit.at + edit.remove;
    }
    items.move_within(room + read, len, end);
    items.truncate(end + (count - read));
}

// Applies edits of the first `count` events of a list, which has room for what they bring beyond what they remove. Where all are known to grow, the events
// before the first edit stay where they are.
fn apply(items: &mut PackedList, comes: &PackedList, entries: &[Entry], count: usize, growing: bool)
    requires brought { AreBrought comes.now entries.now }
    requires apart { StandApart 0 count (kept comes.now entries.now) }
    requires growing { IsTrue growing → AreGrowing (kept comes.now entries.now) }
    requires room { length items.old ≡ count + grown (kept comes.now entries.now) }
    requires alone { All IsAlone (take count items.old) }
    ensures { items.new ≡ edited (kept comes.now entries.now) (take count items.old) }
{
    if growing {
        spread(items, comes, entries, count);
    } else {
        move_to_end(items, count);
        fill(items, comes, entries, count);
    }
}

// How many events are added at once, at the most: what is copied is then in the nearest cache. So many packed events take just less than 4,096 bytes, from
// which on the C library copies in another way.
const AT_ONCE: usize = 255;

// Adds so many events at the end, whichever they are: some of the first of those that are given, again and again. The answer is whether the list does not
// grow too long; where it does, it is as it was.
fn add_room(items: &mut PackedList, given: &PackedList, more: usize) -> Result<bool, AllocError>
    requires within { more ≤ length given.now }
    requires alone { All IsAlone given.now }
    ensures stays { IfOk result (λ fits. IsTrue fits → take (length items.old) items.new ≡ items.old) }
    ensures room { IfOk result (λ fits. IsTrue fits → length items.new ≡ length items.old + more) }
    ensures full { IfOk result (λ fits. IsFalse fits → items.new ≡ items.old) }
    ensures err { OnErr result (items.new ≡ items.old) }
{
    let count = items.len();
    let mut left = more;
    while left > 0 {
        let part = left.min(AT_ONCE);
        match items.extend_from_slice(&given.slice(0, part)) {
            Ok(true) => {
                left -= part;
            }
            full => {
                items.truncate(count);
                return full;
            }
        }
    }
    Ok(true)
}

// Applies edits that stand apart in the list itself, as they fit. The answer is whether the list does not grow too long; where it does, it is as it was.
pub(crate) fn apply_fit(
    items: &mut PackedList,
    comes: &PackedList,
    entries: &[Entry],
    fit: Fit,
) -> Result<bool, AllocError>
    requires brought { AreBrought comes.now entries.now }
    requires apart { StandApart 0 (length items.old) (kept comes.now entries.now) }
    requires more { fit.more ≡ grown (kept comes.now entries.now) }
    requires room { fit.more ≤ length comes.now }
    requires growing { IsTrue fit.growing → AreGrowing (kept comes.now entries.now) }
    requires alone { All IsAlone items.old }
    ensures done { IfOk result (λ done. IsTrue done → items.new ≡ edited (kept comes.now entries.now) items.old) }
    ensures stays { IfOk result (λ done. IsFalse done → items.new ≡ items.old) }
    ensures err { OnErr result (items.new ≡ items.old) }
{
    let count = items.len();
    if !add_room(items, comes, fit.more)? {
        return Ok(false);
    }
    apply(items, comes, entries, count, fit.growing);
    Ok(true)
}
