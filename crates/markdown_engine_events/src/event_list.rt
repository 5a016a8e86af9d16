//! Lists of events, each of which mostly takes 16 bytes.
ghost use Rattle.std.specs.Iterator.{YieldsFirst, item_count};
ghost use Rattle.std.specs.Prelude.{◌≡◌, ◌<◌, ◌≤◌, ◌+◌, ◌-◌, ◌++◌, ◌∷◌, ◌==◌, [], length, take, drop, OnOk, OnErr, IfOk, IsTrue, IsFalse, MatchOption, Some, None, slice_index_or};
ghost use Rattle.std.specs.List.{All};
ghost use Rattle.markdown_engine_events.specs.EventChains.{changed_at, link_previous, next_link, previous_of, with_next, with_previous, IsAlone};
ghost use Rattle.markdown_engine_events.specs.MarkedEvents.{marked};
ghost use Rattle.markdown_engine_events.specs.Edits.{edited, edits_of, grown, AreBrought, AreGrowing, StandApart};

use crate::packed::{PackedList, PackedSlice};
use crate::util::edit_map::{Kept, Mark};
use crate::util::edits_in_place::{Fit, apply_fit};
use crate::whole;
use markdown_event::event::{Event, Point};
use markdown_event::seq::Seq;
use std::alloc::{AllocError, Global};
use std::fmt;
use std::marker::Model;

// The events of a list, in the form in which they stand.
#[derive(Drop)]
enum Stored {
    // In 16 bytes each.
    Packed(PackedList),
    // As they are, since one of them did not fit, or there were too many.
    Whole(Seq<Event>),
}

/// A list of events, which takes 16 bytes for each.
///
/// Contracts see it as the list of the events. An event that does not fit into 16 bytes, as one at a place past
/// 4,294,967,295, takes the list over to events as they are, 88 bytes each; no caller sees a difference,
/// and the list stays so. Links fit that lead two places back and two places on, as those of states do.
#[derive(Drop)]
pub struct EventList {
    stored: Stored,
    alloc: Global,
}

impl Model for EventList {
    ghost use Rattle.std.specs.Prelude.{List};
    ghost use Rattle.markdown_event.specs.declared.event.Event.{Event};
    ghost use Rattle.markdown_engine_events.specs.Stored.{stored_events};

    ghost Value = { List Event };

    ghost view = { λ s. stored_events s.stored };
}

// The same place, put together anew: so what hands it on to a call that is rare has it in memory of its own, and the other does without.
#[inline(always)]
fn point_apart(point: Point) -> Point
    ensures { result ≡ point }
{
    let Point {
        line,
        column,
        index,
        vs,
    } = point;
    Point {
        line,
        column,
        index,
        vs,
    }
}

// The same event, put together anew.
#[inline(always)]
fn apart(event: Event) -> Event
    ensures { result ≡ event }
{
    Event {
        kind: event.kind,
        name: event.name,
        point: point_apart(event.point),
        link: event.link,
    }
}

// The same marks, put together anew.
#[inline(always)]
fn marks_apart<const N: usize>(marks: &[Mark; N]) -> [Mark; N]
    ensures { result ≡ marks.now }
{
    let mut anew = *marks;
    for index in 0..N {
        let Mark { kind, name, place } = marks[index];
        anew[index] = Mark { kind, name, place };
    }
    anew
}

// The same places, put together anew.
#[inline(always)]
fn points_apart<const K: usize>(points: &[Point; K]) -> [Point; K]
    ensures { result ≡ points.now }
{
    let mut anew = *points;
    for index in 0..K {
        anew[index] = point_apart(points[index]);
    }
    anew
}

impl EventList {
    /// No event. Takes no memory.
    pub fn new(alloc: Global) -> EventList
        ensures { result ≡ [] }
    {
        EventList {
            stored: Stored::Packed(PackedList::new(alloc)),
            alloc,
        }
    }

    /// No event, with room for so many.
    ///
    /// `Err` only if memory is refused.
    pub fn with_capacity(alloc: Global, capacity: usize) -> Result<EventList, AllocError>
        ensures { IfOk result (λ events. events ≡ []) }
    {
        Ok(EventList {
            stored: Stored::Packed(PackedList::with_capacity(alloc, capacity)?),
            alloc,
        })
    }

    /// How many events there are.
    #[inline]
    pub fn len(&self) -> usize
        ensures { result ≡ length self.now }
    {
        match &self.stored {
            Stored::Packed(list) => list.len(),
            Stored::Whole(list) => list.len(),
        }
    }

    /// Whether there is no event.
    #[inline]
    pub fn is_empty(&self) -> bool
        ensures { result ≡ (length self.now == 0) }
    {
        self.as_slice().is_empty()
    }

    /// An event, at an index below `len`.
    #[inline]
    pub fn at(&self, index: usize) -> Event
        requires { index < length self.now }
        ensures { result ≡ slice_index_or self.now index result }
    {
        match &self.stored {
            Stored::Packed(list) => list.at(index),
            Stored::Whole(list) => *list.at(index),
        }
    }

    /// Makes room for so many more events, so that adding them does not move the list.
    ///
    /// `Err` only if memory is refused; the events are as they were in either case.
    pub fn reserve(&mut self, more: usize) -> Result<(), AllocError>
        ensures { self.new ≡ self.old }
    {
        match &mut self.stored {
            Stored::Packed(list) => list.reserve(more),
            Stored::Whole(list) => list.reserve(more),
        }
    }

    // The events, each as it is.
    #[cold]
    fn whole(&self) -> Result<Seq<Event>, AllocError>
        ensures { IfOk result (λ events. events ≡ self.now) }
    {
        Ok(Seq::from_vec(self.as_slice().to_vec(self.alloc)?))
    }

    // Adds an event that does not fit, or one to events that stand as they are.
    #[cold]
    #[inline(never)]
    fn push_whole(&mut self, event: Event) -> Result<(), AllocError>
        ensures ok { OnOk result (self.new ≡ self.old ++ event ∷ []) }
        ensures err { OnErr result (self.new ≡ self.old) }
    {
        if let Stored::Whole(list) = &mut self.stored {
            return list.push(event);
        }
        let mut list = self.whole()?;
        list.push(event)?;
        self.stored = Stored::Whole(list);
        Ok(())
    }

    /// Adds an event at the end.
    ///
    /// `Err` only if memory is refused; the events are then as they were.
    #[inline(always)]
    pub fn push(&mut self, event: Event) -> Result<(), AllocError>
        ensures ok { OnOk result (self.new ≡ self.old ++ event ∷ []) }
        ensures err { OnErr result (self.new ≡ self.old) }
    {
        if let Stored::Packed(list) = &mut self.stored {
            if list.push(event)? {
                return Ok(());
            }
        }
        self.push_whole(apart(event))
    }

    /// Keeps the first `n` events, or all if there are fewer.
    pub fn truncate(&mut self, n: usize)
        ensures { self.new ≡ take n self.old }
    {
        match &mut self.stored {
            Stored::Packed(list) => list.truncate(n),
            Stored::Whole(list) => list.truncate(n),
        }
    }

    // Takes the last event off, if there is one.
    pub(crate) fn pop(&mut self) -> Option<Event>
        ensures cases { MatchOption result ((self.old ≡ []) × (self.new ≡ []))
            (λ x. self.old ≡ self.new ++ x ∷ []) }
        ensures rest { self.new ≡ take (length self.old - 1) self.old }
    {
        match &mut self.stored {
            Stored::Packed(list) => list.pop(),
            Stored::Whole(list) => list.pop(),
        }
    }

    // Adds an event at the end that does not fit, or one to events that stand as they are, and writes its number into the one before it on its chain.
    #[cold]
    #[inline(never)]
    fn push_whole_behind(&mut self, event: Event, previous: usize) -> Result<(), AllocError>
        requires { previous < length self.old }
        ensures ok { OnOk result (self.new ≡ changed_at (with_next (Some (length self.old))) previous (self.old ++ event ∷ [])) }
        ensures err { OnErr result (self.new ≡ self.old) }
    {
        let number = self.len();
        if let Stored::Whole(list) = &mut self.stored {
            list.push(event)?;
            whole::set_next(list, previous, Some(number));
            return Ok(());
        }
        let mut list = self.whole()?;
        list.push(event)?;
        whole::set_next(&mut list, previous, Some(number));
        self.stored = Stored::Whole(list);
        Ok(())
    }

    // Adds an event at the end, and writes its number into the one before it on its chain, which it names. `Err` only if memory is refused; the events
    // are then as they were.
    pub(crate) fn push_behind(&mut self, event: Event, previous: usize) -> Result<(), AllocError>
        requires index { previous < length self.old }
        requires names { previous_of event ≡ Some previous }
        ensures ok { OnOk result (self.new ≡ changed_at (with_next (Some (length self.old))) previous (self.old ++ event ∷ [])) }
        ensures err { OnErr result (self.new ≡ self.old) }
    {
        let number = self.len();
        if let Stored::Packed(list) = &mut self.stored {
            let fits = list.push(event)?;
            if fits {
                list.set_next(previous, Some(number));
                return Ok(());
            }
        }
        self.push_whole_behind(event, previous)
    }

    // Writes into an event which event comes after it on its chain: the one two places behind it, or none.
    #[inline]
    pub(crate) fn set_next(&mut self, index: usize, next: Option<usize>)
        requires index { index < length self.old }
        requires near { MatchOption next (Unit {0}) (λ n. n ≡ index + 2) }
        ensures { self.new ≡ changed_at (with_next next) index self.old }
    {
        match &mut self.stored {
            Stored::Packed(list) => list.set_next(index, next),
            Stored::Whole(list) => whole::set_next(list, index, next),
        }
    }

    // Writes into an event that the one two places before it comes before it on its chain.
    #[inline]
    pub(crate) fn set_previous(&mut self, index: usize, previous: usize)
        requires index { index < length self.old }
        requires near { previous + 2 ≡ index }
        ensures { self.new ≡ changed_at (with_previous (Some previous)) index self.old }
    {
        match &mut self.stored {
            Stored::Packed(list) => list.set_previous(index, previous),
            Stored::Whole(list) => whole::set_previous(list, index, previous),
        }
    }

    /// The events, lent.
    #[inline]
    pub fn as_slice(&self) -> EventSlice<'_>
        ensures { result ≡ self.now }
    {
        let lent = match &self.stored {
            Stored::Packed(list) => Lent::Packed(list.as_slice()),
            Stored::Whole(list) => Lent::Whole(list.as_slice()),
        };
        EventSlice { lent }
    }

    /// The events from `from` to `to`, lent.
    #[inline]
    pub fn slice(&self, from: usize, to: usize) -> EventSlice<'_>
        requires order { from ≤ to }
        requires within { to ≤ length self.now }
        ensures { result ≡ take (to - from) (drop from self.now) }
    {
        let lent = match &self.stored {
            Stored::Packed(list) => Lent::Packed(list.slice(from, to)),
            Stored::Whole(list) => Lent::Whole(&list.as_slice()[from..to]),
        };
        EventSlice { lent }
    }

    // Adds these events at the end, one by one. `Err` only if memory is refused; the events are then as they were.
    #[cold]
    #[inline(never)]
    fn push_each(&mut self, events: &EventSlice) -> Result<(), AllocError>
        ensures ok { OnOk result (self.new ≡ self.old ++ events.now) }
        ensures err { OnErr result (self.new ≡ self.old) }
    {
        let count = self.len();
        for index in 0..events.len() {
            if self.push(events.at(index)).is_err() {
                self.truncate(count);
                return Err(AllocError);
            }
        }
        Ok(())
    }

    // Adds these events at the end, which are linked to no other. `Err` only if memory is refused; the events are then as they were.
    pub(crate) fn extend_from_slice(&mut self, events: &EventSlice) -> Result<(), AllocError>
        requires { All IsAlone events.now }
        ensures ok { OnOk result (self.new ≡ self.old ++ events.now) }
        ensures err { OnErr result (self.new ≡ self.old) }
    {
        if let (Stored::Packed(list), Lent::Packed(slice)) = (&mut self.stored, &events.lent) {
            if list.extend_from_slice(slice)? {
                return Ok(());
            }
        }
        self.push_each(events)
    }

    // Adds these events at the end, one by one. `Err` only if memory is refused; the events are then as they were.
    pub(crate) fn push_all(&mut self, events: &[Event]) -> Result<(), AllocError>
        ensures ok { OnOk result (self.new ≡ self.old ++ events.now) }
        ensures err { OnErr result (self.new ≡ self.old) }
    {
        let count = self.len();
        for index in 0..events.len() {
            if self.push(events[index]).is_err() {
                self.truncate(count);
                return Err(AllocError);
            }
        }
        Ok(())
    }

    // Adds the events of marks at the end, one by one. `Err` only if memory is refused; the events are then as they were.
    #[cold]
    #[inline(never)]
    fn push_each_mark(&mut self, marks: &[Mark], points: &[Point]) -> Result<(), AllocError>
        requires { All (λ m. m.place < length points.now) marks.now }
        ensures ok { OnOk result (self.new ≡ self.old ++ marked points.now marks.now) }
        ensures err { OnErr result (self.new ≡ self.old) }
    {
        let count = self.len();
        for index in 0..marks.len() {
            let mark = marks[index];
            let event = Event {
                kind: mark.kind,
                name: mark.name,
                point: points[mark.place],
                link: None,
            };
            if self.push(event).is_err() {
                self.truncate(count);
                return Err(AllocError);
            }
        }
        Ok(())
    }

    // Adds the events of marks at the end. `Err` only if memory is refused; the events are then as they were.
    #[inline(always)]
    pub(crate) fn push_marked<const N: usize, const K: usize>(
        &mut self,
        marks: &[Mark; N],
        points: &[Point; K],
    ) -> Result<(), AllocError>
        requires { All (λ m. m.place < K) marks.now }
        ensures ok { OnOk result (self.new ≡ self.old ++ marked points.now marks.now) }
        ensures err { OnErr result (self.new ≡ self.old) }
    {
        if let Stored::Packed(list) = &mut self.stored {
            if list.push_marked(marks, points)? {
                return Ok(());
            }
        }
        self.push_each_mark(&marks_apart(marks), &points_apart(points))
    }

    // Applies edits that stand apart in the list itself, where the list and what the edits bring stand packed. The answer is whether they are applied.
    // `Err` only if memory is refused; the events are then as they were.
    pub(crate) fn edit_packed(&mut self, edits: &Kept, fit: Fit) -> Result<bool, AllocError>
        requires brought { AreBrought edits.now.comes.now edits.now.entries.now }
        requires apart { StandApart 0 (length self.old) (edits_of edits.now) }
        requires more { fit.more ≡ grown (edits_of edits.now) }
        requires room { fit.more ≤ length edits.now.comes.now }
        requires growing { IsTrue fit.growing → AreGrowing (edits_of edits.now) }
        requires alone { All IsAlone self.old }
        ensures done { IfOk result (λ done. IsTrue done → self.new ≡ edited (edits_of edits.now) self.old) }
        ensures stays { IfOk result (λ done. IsFalse done → self.new ≡ self.old) }
        ensures err { OnErr result (self.new ≡ self.old) }
    {
        let comes = edits.comes;
        let Stored::Packed(comes) = &comes.stored else {
            return Ok(false);
        };
        match &mut self.stored {
            Stored::Packed(list) => apply_fit(list, comes, edits.entries, fit),
            Stored::Whole(_) => Ok(false),
        }
    }

    /// The events one by one, in order.
    #[inline]
    pub fn iter(&self) -> EventIter<'_>
        ensures { result ≡ self.now }
    {
        EventIter {
            left: self.as_slice(),
        }
    }

    /// The events, each as it is. `Err` only if memory is refused.
    pub fn into_vec(self, alloc: Global) -> Result<Vec<Event>, AllocError>
        ensures { IfOk result (λ events. events.items ≡ self) }
    {
        let EventList { stored, alloc: _ } = self;
        match stored {
            Stored::Packed(list) => list.as_slice().to_vec(alloc),
            Stored::Whole(list) => Ok(list.into_vec()),
        }
    }
}

impl fmt::Debug for EventList {
    fn fmt<W: fmt::Write>(&self, f: &mut fmt::Formatter<W>) -> fmt::Result {
        f.debug_list().entries(self.iter()).finish()
    }
}

// Events of a list, lent in the form in which they stand.
#[derive(Drop)]
enum Lent<'a> {
    // In 16 bytes each.
    Packed(PackedSlice<'a>),
    // As they are.
    Whole(&'a [Event]),
}

/// Events of a list, lent: what `&[Event]` is to a `Vec<Event>`.
///
/// Contracts see it as the list of these events.
#[derive(Drop)]
pub struct EventSlice<'a> {
    lent: Lent<'a>,
}

impl<'a> Model for EventSlice<'a> {
    ghost use Rattle.std.specs.Prelude.{List};
    ghost use Rattle.markdown_event.specs.declared.event.Event.{Event};
    ghost use Rattle.markdown_engine_events.specs.Stored.{lent_events};

    ghost Value = { List Event };

    ghost view = { λ s. lent_events s.lent };
}

impl<'a> EventSlice<'a> {
    /// Events that stand as they are, lent as those of a list. Takes no memory.
    #[inline]
    pub fn over(events: &'a [Event]) -> EventSlice<'a>
        ensures { result ≡ events.now }
    {
        EventSlice {
            lent: Lent::Whole(events),
        }
    }

    /// How many events there are.
    #[inline]
    pub fn len(&self) -> usize
        ensures { result ≡ length self.now }
    {
        match &self.lent {
            Lent::Packed(events) => events.len(),
            Lent::Whole(events) => events.len(),
        }
    }

    /// Whether there is no event.
    #[inline]
    pub fn is_empty(&self) -> bool
        ensures { result ≡ (length self.now == 0) }
    {
        self.len() == 0
    }

    /// An event, at an index below `len`.
    #[inline]
    pub fn at(&self, index: usize) -> Event
        requires { index < length self.now }
        ensures { result ≡ slice_index_or self.now index result }
    {
        match &self.lent {
            Lent::Packed(events) => events.at(index),
            Lent::Whole(events) => whole::event_at(events, index),
        }
    }

    /// The events from `from` to `to`, lent.
    #[inline]
    pub fn slice(&self, from: usize, to: usize) -> EventSlice<'a>
        requires order { from ≤ to }
        requires within { to ≤ length self.now }
        ensures { result ≡ take (to - from) (drop from self.now) }
    {
        let lent = match &self.lent {
            Lent::Packed(events) => Lent::Packed(events.slice(from, to)),
            Lent::Whole(events) => Lent::Whole(&events[from..to]),
        };
        EventSlice { lent }
    }

    /// The first event and those behind it, if there is one.
    #[inline]
    pub fn split_first(&self) -> Option<(Event, EventSlice<'a>)>
        ensures { MatchOption result (self.now ≡ []) (λ parts. self.now ≡ parts.0 ∷ parts.1) }
    {
        match &self.lent {
            Lent::Packed(events) => {
                let (first, others) = events.split_first()?;
                Some((
                    first,
                    EventSlice {
                        lent: Lent::Packed(others),
                    },
                ))
            }
            Lent::Whole(events) => {
                let (first, others) = events.split_first()?;
                Some((
                    *first,
                    EventSlice {
                        lent: Lent::Whole(others),
                    },
                ))
            }
        }
    }

    /// The events one by one, in order.
    #[inline]
    pub fn iter(&self) -> EventIter<'a>
        ensures { result ≡ self.now }
    {
        EventIter {
            left: self.slice(0, self.len()),
        }
    }

    /// The events, each as it is. `Err` only if memory is refused.
    pub fn to_vec(&self, alloc: Global) -> Result<Vec<Event>, AllocError>
        ensures { IfOk result (λ events. events.items ≡ self.now) }
    {
        match &self.lent {
            Lent::Packed(events) => events.to_vec(alloc),
            Lent::Whole(events) => events.to_vec(alloc),
        }
    }

    // Whether an event is known to name no event before it and none after it.
    #[inline(always)]
    pub(crate) fn is_alone(&self, index: usize) -> bool
        requires { index < length self.now }
        ensures previous { IsTrue result → (e : Event) → link_previous (slice_index_or self.now index e).link ≡ None }
        ensures next { IsTrue result → (e : Event) → next_link None (slice_index_or self.now index e).link ≡ (slice_index_or self.now index e).link }
    {
        match &self.lent {
            Lent::Packed(events) => events.is_alone(index),
            Lent::Whole(events) => whole::is_alone(whole::event_at(events, index)),
        }
    }

    // The first `n` events.
    #[inline]
    pub(crate) fn front(&self, n: usize) -> EventSlice<'a>
        requires { n ≤ length self.now }
        ensures { result ≡ take n self.now }
    {
        self.slice(0, n)
    }
}

/// The events of a list one by one, in order. Contracts see those that are left.
#[derive(Drop)]
pub struct EventIter<'a> {
    left: EventSlice<'a>,
}

impl<'a> Model for EventIter<'a> {
    ghost use Rattle.std.specs.Prelude.{List};
    ghost use Rattle.markdown_event.specs.declared.event.Event.{Event};

    ghost Value = { List Event };

    ghost view = { λ s. s.left };
}

impl<'a> Iterator for EventIter<'a> {
    type Item = Event;

    ghost next_gives = { YieldsFirst (λ s. s) };

    ghost remaining = { item_count (λ s. s) };

    #[inline]
    fn next(&mut self) -> Option<Event> {
        let (first, others) = self.left.split_first()?;
        self.left = others;
        Some(first)
    }
}
