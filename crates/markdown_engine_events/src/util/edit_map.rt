//! Edits of a list of events, collected first and applied at once.
ghost use Rattle.std.specs.Prelude.{◌≡◌, ◌≢◌, ℕ, ◌<◌, ◌≤◌, ◌+◌, ◌-◌, ◌^◌, ◌++◌, ◌∷◌, ◌==◌, [], length, take, drop, slice_index_or, min, max, sum_by, OnOk, OnErr, IfOk, IsTrue, IsFalse, List, true, false};
ghost use Rattle.std.specs.List.{All};
ghost use Rattle.std.specs.List.Sorted.{IsNonDecreasingBy};
ghost use Rattle.markdown_engine_events.specs.EventChains.{bare, EndsChain, IsFresh, IsLinked, IsUnlinked};
ghost use Rattle.markdown_engine_events.specs.MarkedEvents.{marked};
ghost use Rattle.markdown_engine_events.specs.Edits.{removed_at, front_at, back_at, added_at, edit_of, kept, edits_of, number_of, renumbered, noted, edited, AreBrought, AreKept, IsRest, CanEdit};

use crate::event_list::{EventList, EventSlice};
use crate::events::Events;
use markdown_event::event::{Event, Kind, Link, Name, Point};
use markdown_event::seq::{Seq, Stack};
use std::alloc::{AllocError, Global};
use std::marker::Model;

/// One edit of a list of events, at a place in the list as it is before any edit: so contracts see what a map keeps.
#[derive(Drop)]
pub struct Edit {
    /// The place: the number of an event, or how many events there are.
    pub at: usize,
    /// How many events go, from the place on.
    pub remove: usize,
    /// The events that come, at the place.
    pub events: Seq<Event>,
    /// Whether they come before those that earlier edits put there, and not behind.
    pub before: bool,
}

/// An event without a link, whose place is one of those that are given to `EditMap::add_marked`: so what a construct brings is a table.
#[derive(Clone, Copy)]
pub struct Mark {
    /// Whether a group begins or ends.
    pub kind: Kind,
    /// The name of the group.
    pub name: Name,
    /// The number of the place among those that are given, the first at 0.
    pub place: usize,
}

// One edit, as a map keeps it.
#[derive(Clone, Copy)]
pub(crate) struct Entry {
    // The place: the number of an event, or how many events there are.
    pub(crate) at: usize,
    // How many events go, from the place on.
    pub(crate) remove: usize,
    // Where the events that come begin, in the list of all that come.
    pub(crate) from: usize,
    // Where they end.
    pub(crate) to: usize,
    // Whether they come before those that earlier edits put there, and not behind.
    before: bool,
}

/// Edits of a list of events, collected and then applied at once.
///
/// The events of all edits stand in one list, so that an edit takes no memory of its own. Contracts see
/// the map as the list of the edits, in the order of the calls that added them.
#[derive(Drop)]
pub struct EditMap {
    log: Seq<Entry>,
    // the events that come, those of an edit behind those of the edits before it
    comes: EventList,
    alloc: Global,
}

impl Model for EditMap {
    ghost use Rattle.std.specs.Prelude.{List};
    ghost use Rattle.markdown_engine_events.specs.Edits.{kept, AreKept};
    ghost use Rattle.markdown_engine_events.specs.declared.util.edit_map.Edit.{Edit};

    ghost Value = { List Edit };

    ghost view = { λ s. kept s.comes s.log };

    ghost invariant = { λ s. AreKept s.comes s.log };
}

// Edits, and the list of all events that come.
#[derive(Clone, Copy)]
pub(crate) struct Kept<'a> {
    pub(crate) entries: &'a [Entry],
    pub(crate) comes: &'a EventList,
}

// The events that an edit brings.
pub(crate) fn brought<'a>(comes: &'a EventList, edit: &Entry) -> EventSlice<'a>
    requires order { edit.now.from ≤ edit.now.to }
    requires within { edit.now.to ≤ length comes.now }
    ensures { result ≡ (edit_of comes.now edit.now).events }
{
    comes.slice(edit.from, edit.to)
}

// Whether each edit stands at a place not before that of the edit before it.
fn is_in_order(log: &[Entry]) -> bool
    ensures { IsTrue result → IsNonDecreasingBy (λ e. e.at) log.now }
{
    for index in 1..log.len() {
        if log[index].at < log[index - 1].at {
            return false;
        }
    }
    true
}

// The edits in the order of their places; those at one place in the order in which they were added. Room is filled where
// they were added in another order.
fn by_place<'a>(log: &'a [Entry], room: &'a mut Vec<Entry>) -> Result<&'a [Entry], AllocError>
    requires { room.old.items ≡ [] }
    ensures rest { (comes : List Event) → AreBrought comes log.now → IfOk result (λ v. IsRest 0 (kept comes log.now) (kept comes v.now)) }
    ensures brought { (comes : List Event) → AreBrought comes log.now → IfOk result (λ v. AreBrought comes v.now) }
{
    if is_in_order(log) {
        return Ok(log);
    }
    room.extend_from_slice(log)?;
    room.sort_by_key(|edit| edit.at)?;
    Ok(room.as_slice())
}

// Where the events end that the first edits bring.
fn end_of(log: &[Entry], n: usize) -> usize
    requires { n ≤ length log.now }
    ensures { IsNonDecreasingBy (λ e. e.to) log.now → All (λ e. e.to ≤ result) (take n log.now) }
{
    if n == 0 { 0 } else { log[n - 1].to }
}

// How many edits at the front stand at a place.
fn count_at(edits: &[Entry], at: usize) -> usize
    ensures here { All (λ e. e.at ≡ at) (take result edits.now) }
    ensures within { result ≤ length edits.now }
    ensures next { (e : Entry) → result < length edits.now → (slice_index_or edits.now result e).at ≢ at }
{
    let mut count = 0usize;
    while count < edits.len() && edits[count].at == at {
        count += 1;
    }
    count
}

// Adds the events that edits put at a place before others: the last edit's first.
fn push_fronts(done: &mut Events, edits: &Kept, at: usize) -> Result<(), AllocError>
    requires { AreBrought edits.now.comes.now edits.now.entries.now }
    ensures { OnOk result (done.new ≡ done.old ++ front_at at (edits_of edits.now)) }
{
    for index in (0..edits.entries.len()).rev() {
        let edit = &edits.entries[index];
        if edit.at == at && edit.before {
            done.extend_fresh(&brought(edits.comes, edit))?;
        }
    }
    Ok(())
}

// Adds the events that edits put at a place behind others: the last edit's last.
fn push_backs(done: &mut Events, edits: &Kept, at: usize) -> Result<(), AllocError>
    requires { AreBrought edits.now.comes.now edits.now.entries.now }
    ensures { OnOk result (done.new ≡ done.old ++ back_at at (edits_of edits.now)) }
{
    for edit in edits.entries {
        if edit.at == at && !edit.before {
            done.extend_fresh(&brought(edits.comes, edit))?;
        }
    }
    Ok(())
}

// How many events go, from a place on; a count past usize::MAX stands as usize::MAX.
fn removed_from(edits: &Kept, at: usize) -> usize
    ensures { result ≡ min (removed_at at (edits_of edits.now)) (2 ^ 64 - 1) }
{
    let mut removed = 0usize;
    for edit in edits.entries {
        if edit.at == at {
            removed = removed.saturating_add(edit.remove);
        }
    }
    removed
}

// Adds the events that edits come with, all of them at one place. The answer is how many events go, from the place on; a count past
// usize::MAX stands as usize::MAX.
#[inline]
fn push_here(done: &mut Events, edits: &Kept, at: usize) -> Result<usize, AllocError>
    requires here { All (λ e. e.at ≡ at) edits.now.entries.now }
    requires brought { AreBrought edits.now.comes.now edits.now.entries.now }
    ensures done { OnOk result (done.new ≡ done.old ++ added_at at (edits_of edits.now)) }
    ensures removed { IfOk result (λ removed. min removed (2 ^ 64 - 1) ≡ min (removed_at at (edits_of edits.now)) (2 ^ 64 - 1)) }
{
    if edits.entries.len() == 1 {
        let edit = &edits.entries[0];
        done.extend_fresh(&brought(edits.comes, edit))?;
        return Ok(edit.remove);
    }
    push_fronts(done, edits, at)?;
    push_backs(done, edits, at)?;
    Ok(removed_from(edits, at))
}

// How far a walk over the places of a list has come.
#[derive(Clone, Copy)]
struct Passed {
    // How many edits are passed, in the order of their places.
    edits: usize,
    // Where the events end that go.
    removed_to: usize,
}

// Adds the events that come at a place, and passes its edits: what `pass_place` does where there is one. The answer is how far
// the walk has then come.
#[inline(never)]
fn pass_edits(
    done: &mut Events,
    edits: &Kept,
    passed: Passed,
    at: usize,
) -> Result<Passed, AllocError>
    requires within { passed.edits ≤ length edits.now.entries.now }
    requires brought { AreBrought edits.now.comes.now edits.now.entries.now }
    requires rest { let rest = drop passed.edits (edits_of edits.now) in IsRest at rest rest }
    ensures done { OnOk result (done.new ≡ done.old ++ added_at at (drop passed.edits (edits_of edits.now))) }
    ensures within { IfOk result (λ p. p.edits ≤ length edits.now.entries.now) }
    ensures rest { IfOk result (λ p. IsRest (at + 1) (drop passed.edits (edits_of edits.now)) (drop p.edits (edits_of edits.now))) }
    ensures removed { IfOk result (λ p. p.removed_to
        ≡ max passed.removed_to (min (at + min (removed_at at (drop passed.edits (edits_of edits.now))) (2 ^ 64 - 1)) (2 ^ 64 - 1))) }
{
    let rest = &edits.entries[passed.edits..];
    let count = count_at(rest, at);
    let here = Kept {
        entries: &rest[..count],
        comes: edits.comes,
    };
    let removed = push_here(done, &here, at)?;
    Ok(Passed {
        edits: passed.edits + count,
        removed_to: passed.removed_to.max(at.saturating_add(removed)),
    })
}

// Adds the events that come at a place, and passes its edits. The answer is how far the walk has then come.
//
// Most places have no edit, so only the look whether there is one stands here.
#[inline]
fn pass_place(
    done: &mut Events,
    edits: &Kept,
    passed: Passed,
    at: usize,
) -> Result<Passed, AllocError>
    requires within { passed.edits ≤ length edits.now.entries.now }
    requires brought { AreBrought edits.now.comes.now edits.now.entries.now }
    requires rest { let rest = drop passed.edits (edits_of edits.now) in IsRest at rest rest }
    ensures done { OnOk result (done.new ≡ done.old ++ added_at at (drop passed.edits (edits_of edits.now))) }
    ensures within { IfOk result (λ p. p.edits ≤ length edits.now.entries.now) }
    ensures rest { IfOk result (λ p. IsRest (at + 1) (drop passed.edits (edits_of edits.now)) (drop p.edits (edits_of edits.now))) }
    ensures removed { IfOk result (λ p. p.removed_to
        ≡ max passed.removed_to (min (at + min (removed_at at (drop passed.edits (edits_of edits.now))) (2 ^ 64 - 1)) (2 ^ 64 - 1))) }
{
    if passed.edits < edits.entries.len() && edits.entries[passed.edits].at == at {
        return pass_edits(done, edits, passed, at);
    }
    Ok(Passed {
        edits: passed.edits,
        removed_to: passed.removed_to.max(at),
    })
}

// The number noted for an event, the newest note first; its own if there is none.
fn number_of(notes: &Stack<(usize, usize)>, event: usize) -> usize
    ensures { result ≡ number_of notes.now event }
{
    for depth in 0..notes.len() {
        let (noted, number) = *notes.at(depth);
        if noted == event {
            return number;
        }
    }
    event
}

// The event, with the number of the event before on its chain looked up.
fn renumbered(event: Event, notes: &Stack<(usize, usize)>) -> Event
    ensures { result ≡ renumbered notes.now event }
{
    let Some(link) = event.link else {
        return event;
    };
    let Some(previous) = link.previous else {
        return event;
    };
    Event {
        kind: event.kind,
        name: event.name,
        point: event.point,
        link: Some(Link {
            previous: Some(number_of(notes, previous)),
            next: link.next,
            content: link.content,
        }),
    }
}

// Adds an event that stays, and notes its number if it carries a link.
fn keep(
    done: &mut Events,
    notes: &mut Stack<(usize, usize)>,
    event: Event,
    index: usize,
) -> Result<(), AllocError>
    requires bare { bare event ≡ event }
    requires chains { IsLinked (done.old ++ renumbered notes.old event ∷ []) }
    ensures ok { OnOk result (done.new ≡ done.old ++ renumbered notes.old event ∷ []) }
    ensures notes { OnOk result (notes.new ≡ noted event index (length done.old) notes.old) }
{
    if event.link.is_none() {
        return done.push(event);
    }
    let number = done.len();
    done.push_linked(renumbered(event, notes))?;
    notes.push((index, number))
}

// The place of the next edit, or the end of the list if that comes first.
fn next_place(edits: &Kept, passed: usize, count: usize) -> usize
    requires { passed ≤ length edits.now.entries.now }
    ensures within { result ≤ count }
    ensures from { (n : ℕ) → n ≤ count → All (λ e. n ≤ e.at) (drop passed (edits_of edits.now)) → n ≤ result }
    ensures rest { IsNonDecreasingBy (λ e. e.at) (drop passed (edits_of edits.now)) → All (λ e. result ≤ e.at) (drop passed (edits_of edits.now)) }
{
    if passed < edits.entries.len() {
        edits.entries[passed].at.min(count)
    } else {
        count
    }
}

// How many events `pass_alone` adds at once, at the most: the look at each event for its link and the copy of the events then
// work on events that are in the nearest cache.
const AT_ONCE: usize = 64;

// Adds the events from a place on, up to the next edit or the next event that is linked to another, or `AT_ONCE` of them. The
// answer is the place behind them.
fn pass_alone(
    done: &mut Events,
    events: &Events,
    edits: &Kept,
    passed: usize,
    from: usize,
) -> Result<usize, AllocError>
    requires within { passed ≤ length edits.now.entries.now }
    requires from { from ≤ length events.now }
    requires rest { let rest = drop passed (edits_of edits.now) in IsRest from rest rest }
    ensures order { IfOk result (λ end. from ≤ end) }
    ensures within { IfOk result (λ end. end ≤ length events.now) }
    ensures done { IfOk result (λ end. done.new ≡ done.old ++ take (end - from) (drop from events.now)) }
    ensures fresh { IfOk result (λ end. All IsFresh (take (end - from) (drop from events.now))) }
    ensures ends { IfOk result (λ end. (j : ℕ) → from ≤ j → j < end → EndsChain j events.now) }
    ensures rest { IfOk result (λ end. All (λ e. end ≤ e.at) (drop passed (edits_of edits.now))) }
{
    let end = events.len().min(from.saturating_add(AT_ONCE));
    let to = next_place(edits, passed, end);
    let alone = events.alone(from, to);
    done.extend_fresh(&alone)?;
    Ok(from + alone.len())
}

// How many events there are after the edits, where so many come and no event goes twice.
fn count_after(count: usize, comes: usize, log: &[Entry]) -> usize
    ensures { result ≡ min (count + comes) (2 ^ 64 - 1) - min (sum_by (λ e. e.remove) log.now) (2 ^ 64 - 1) }
{
    let mut removed = 0usize;
    for edit in log {
        removed = removed.saturating_add(edit.remove);
    }
    count.saturating_add(comes).saturating_sub(removed)
}

// For how many of the events that edits bring a map makes room at first. The edits of most paragraphs bring no more.
const FIRST_ROOM: usize = 24;

// Makes room for the first of the events that come, where there is none yet. They are as they were.
#[inline(always)]
fn make_room(comes: &mut EventList) -> Result<(), AllocError>
    ensures { comes.new ≡ comes.old }
{
    if comes.len() == 0 {
        return comes.reserve(FIRST_ROOM);
    }
    Ok(())
}

// Adds the events of marks at these places.
#[inline(always)]
fn push_marks<const N: usize, const K: usize>(
    comes: &mut EventList,
    marks: &[Mark; N],
    points: &[Point; K],
) -> Result<(), AllocError>
    requires { All (λ m. m.place < K) marks.now }
    ensures ok { OnOk result (comes.new ≡ comes.old ++ marked points.now marks.now) }
    ensures err { OnErr result (comes.new ≡ comes.old) }
{
    make_room(comes)?;
    comes.push_marked(marks, points)
}

impl EditMap {
    /// No edit. Takes no memory.
    pub fn new(alloc: Global) -> EditMap
        ensures { result ≡ [] }
    {
        EditMap {
            log: Seq::new(alloc),
            comes: EventList::new(alloc),
            alloc,
        }
    }

    /// How many calls have added an edit.
    pub fn len(&self) -> usize
        ensures { result ≡ length self.now }
    {
        self.log.len()
    }

    /// Whether there is no edit.
    pub fn is_empty(&self) -> bool
        ensures { result ≡ (length self.now == 0) }
    {
        self.log.is_empty()
    }

    // Adds an edit.
    #[inline(always)]
    fn push(
        &mut self,
        at: usize,
        remove: usize,
        events: &[Event],
        before: bool,
    ) -> Result<(), AllocError>
        requires { All IsUnlinked events.now }
        ensures ok { OnOk result (self.new
            ≡ self.old ++ (record { at = at; remove = remove; events = events.now; before = before }) ∷ []) }
        ensures err { OnErr result (self.new ≡ self.old) }
    {
        let from = self.comes.len();
        self.comes.push_all(events)?;
        let entry = Entry {
            at,
            remove,
            from,
            to: self.comes.len(),
            before,
        };
        match self.log.push(entry) {
            Ok(()) => Ok(()),
            Err(_) => {
                self.comes.truncate(from);
                Err(AllocError)
            }
        }
    }

    /// Removes `remove` events from the place `at` on, and puts events there, behind those that earlier
    /// edits put there. The events carry no link.
    ///
    /// `Err` only if memory is refused; the edits are then as they were.
    pub fn add(&mut self, at: usize, remove: usize, events: Vec<Event>) -> Result<(), AllocError>
        requires { All IsUnlinked events.items }
        ensures ok { OnOk result (self.new
            ≡ self.old ++ (record { at = at; remove = remove; events = events.items; before = false }) ∷ []) }
        ensures err { OnErr result (self.new ≡ self.old) }
    {
        self.push(at, remove, &events, false)
    }

    /// Removes `remove` events from the place `at` on, and puts events there, before those that earlier
    /// edits put there. The events carry no link.
    ///
    /// `Err` only if memory is refused; the edits are then as they were.
    pub fn add_before(
        &mut self,
        at: usize,
        remove: usize,
        events: Vec<Event>,
    ) -> Result<(), AllocError>
        requires { All IsUnlinked events.items }
        ensures ok { OnOk result (self.new
            ≡ self.old ++ (record { at = at; remove = remove; events = events.items; before = true }) ∷ []) }
        ensures err { OnErr result (self.new ≡ self.old) }
    {
        self.push(at, remove, &events, true)
    }

    /// As `add`, with events that are lent: nothing is asked for but room in the map.
    ///
    /// `Err` only if memory is refused; the edits are then as they were.
    #[inline(always)]
    pub fn add_slice(
        &mut self,
        at: usize,
        remove: usize,
        events: &[Event],
    ) -> Result<(), AllocError>
        requires { All IsUnlinked events.now }
        ensures ok { OnOk result (self.new
            ≡ self.old ++ (record { at = at; remove = remove; events = events.now; before = false }) ∷ []) }
        ensures err { OnErr result (self.new ≡ self.old) }
    {
        self.push(at, remove, events, false)
    }

    /// As `add`, with the events of marks at these places: the numbers of each place are looked at once.
    ///
    /// `Err` only if memory is refused; the edits are then as they were.
    #[inline(always)]
    pub fn add_marked<const N: usize, const K: usize>(
        &mut self,
        at: usize,
        remove: usize,
        marks: &[Mark; N],
        points: [Point; K],
    ) -> Result<(), AllocError>
        requires { All (λ m. m.place < K) marks.now }
        ensures ok { OnOk result (self.new
            ≡ self.old ++ (record { at = at; remove = remove; events = marked points.entry marks.now; before = false }) ∷ []) }
        ensures err { OnErr result (self.new ≡ self.old) }
    {
        let from = self.comes.len();
        push_marks(&mut self.comes, marks, &points)?;
        let entry = Entry {
            at,
            remove,
            from,
            to: self.comes.len(),
            before: false,
        };
        match self.log.push(entry) {
            Ok(()) => Ok(()),
            Err(_) => {
                self.comes.truncate(from);
                Err(AllocError)
            }
        }
    }

    /// Keeps the edits of the first `n` calls, or all if there are fewer.
    ///
    /// The work is that of the edits that go.
    pub fn truncate(&mut self, n: usize)
        ensures { self.new ≡ take n self.old }
    {
        let log = self.log.as_slice();
        if n >= log.len() {
            return;
        }
        let end = end_of(log, n);
        self.log.truncate(n);
        self.comes.truncate(end);
    }

    // The edits in the order of their places, as `by_place` has them.
    fn in_order<'a>(&'a self, room: &'a mut Vec<Entry>) -> Result<Kept<'a>, AllocError>
        requires { room.old.items ≡ [] }
        ensures rest { IfOk result (λ k. IsRest 0 self.now (edits_of k)) }
        ensures brought { IfOk result (λ k. AreBrought k.comes.now k.entries.now) }
    {
        Ok(Kept {
            entries: by_place(self.log.as_slice(), room)?,
            comes: &self.comes,
        })
    }

    // Adds the events after all edits to an empty list.
    #[inline(always)]
    fn add_all(&self, done: &mut Events, edits: &Kept, events: &Events) -> Result<(), AllocError>
        requires can { CanEdit self.now events.now }
        requires rest { IsRest 0 self.now (edits_of edits.now) }
        requires brought { AreBrought edits.now.comes.now edits.now.entries.now }
        requires empty { done.old ≡ [] }
        ensures { OnOk result (done.new ≡ edited self.now events.now) }
    {
        let count = events.len();
        let mut notes = Stack::new(self.alloc);
        let mut passed = Passed {
            edits: 0,
            removed_to: 0,
        };
        let mut index = 0;
        while index < count {
            passed = pass_place(done, edits, passed, index)?;
            if passed.removed_to > index {
                index = next_place(edits, passed.edits, passed.removed_to.min(count));
                continue;
            }
            let alone_to = pass_alone(done, events, edits, passed.edits, index)?;
            if alone_to > index {
                index = alone_to;
            } else {
                keep(done, &mut notes, events.bare_at(index), index)?;
                index += 1;
            }
        }
        pass_place(done, edits, passed, count)?;
        Ok(())
    }

    // The events after all edits, which are given in the order of their places.
    #[inline(always)]
    fn applied_by(&self, edits: &Kept, events: &Events) -> Result<Events, AllocError>
        requires can { CanEdit self.now events.now }
        requires rest { IsRest 0 self.now (edits_of edits.now) }
        requires brought { AreBrought edits.now.comes.now edits.now.entries.now }
        ensures { IfOk result (λ done. done ≡ edited self.now events.now) }
    {
        let room = count_after(events.len(), edits.comes.len(), edits.entries);
        let mut done = Events::with_capacity(self.alloc, room)?;
        self.add_all(&mut done, edits, events)?;
        Ok(done)
    }

    // The events after all edits.
    fn applied(&self, events: &Events) -> Result<Events, AllocError>
        requires { CanEdit self.now events.now }
        ensures { IfOk result (λ done. done ≡ edited self.now events.now) }
    {
        let mut sorted = Vec::new(self.alloc);
        let edits = self.in_order(&mut sorted)?;
        self.applied_by(&edits, events)
    }

    // The edits as they were added.
    fn as_added<'a>(&'a self) -> Kept<'a>
        ensures edits { edits_of result ≡ self.now }
        ensures brought { AreBrought result.comes.now result.entries.now }
    {
        Kept {
            entries: self.log.as_slice(),
            comes: &self.comes,
        }
    }

    // Applies all edits in the list itself, where that can be: as they were added, or else in the order of their places. The answer is whether they
    // are applied. Where events may be linked to each other they are not, so that the edits are put in order once, by the walk that applies them.
    fn applied_in_place(&self, events: &mut Events) -> Result<bool, AllocError>
        ensures done { IfOk result (λ done. IsTrue done → events.new ≡ edited self.now events.old) }
        ensures stays { IfOk result (λ done. IsFalse done → events.new ≡ events.old) }
        ensures err { OnErr result (events.new ≡ events.old) }
    {
        if events.has_chains() {
            return Ok(false);
        }
        if events.edit_in_place(&self.as_added())? {
            return Ok(true);
        }
        let mut sorted = Vec::new(self.alloc);
        let edits = self.in_order(&mut sorted)?;
        let done = events.edit_in_place(&edits)?;
        Ok(done)
    }

    // Applies all edits at once, as `consume` does where there is one. It is kept out of line, so that a pass without an edit costs no more than
    // the look whether there is one.
    #[inline(never)]
    fn consume_some(&mut self, events: &mut Events) -> Result<(), AllocError>
        requires { CanEdit self.old events.old }
        ensures ok { OnOk result (events.new ≡ edited self.old events.old) }
        ensures none { OnOk result (self.new ≡ []) }
        ensures err { OnErr result (events.new ≡ events.old) }
        ensures stays { OnErr result (self.new ≡ self.old) }
    {
        if !self.applied_in_place(events)? {
            let done = self.applied(events)?;
            *events = done;
        }
        self.truncate(0);
        Ok(())
    }

    /// Applies all edits at once, in order of place, each place counted in the list before any edit; then
    /// there is no edit.
    ///
    /// At each place first the events come that the edits put there, and then follows the event that
    /// stood there, unless it goes; an event in the ranges of several edits goes once. The links follow
    /// the events that they name. `Err` only if memory is refused; events and edits are then as they
    /// were. The work is that of the events before and after, of sorting the edits by place where they are
    /// not in that order, and, for an event on a chain, of the linked events since the one before it.
    #[inline]
    pub fn consume(&mut self, events: &mut Events) -> Result<(), AllocError>
        requires { CanEdit self.old events.old }
        ensures ok { OnOk result (events.new ≡ edited self.old events.old) }
        ensures none { OnOk result (self.new ≡ []) }
        ensures err { OnErr result (events.new ≡ events.old) }
        ensures stays { OnErr result (self.new ≡ self.old) }
    {
        if self.is_empty() {
            return Ok(());
        }
        self.consume_some(events)
    }
}
