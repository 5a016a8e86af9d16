//! The events so far.
ghost use Rattle.std.specs.Prelude.{◌≡◌, ◌<◌, ◌≤◌, ◌+◌, ◌-◌, ◌^◌, ◌++◌, ◌∷◌, ◌==◌, [], ℕ, length, take, drop, OnOk, OnErr, IfOk, IsFalse, IsTrue, Some, None, true, slice_index_or};
ghost use Rattle.markdown_engine_events.specs.EventChains.{bare, chained, changed_at, next_link, with_next, with_previous, link_previous, previous_at, linked_at, EndsChain, IsAlone, IsLinked, IsFresh};
ghost use Rattle.markdown_engine_events.specs.Edits.{edited, edits_of, AreBrought};
ghost use Rattle.std.specs.List.{All};

use crate::event_list::{EventList, EventSlice};
use crate::util::edit_map::Kept;
use crate::util::edits_in_place::fit_of;
use crate::whole::with_next;
use markdown_event::event::Event;
use std::alloc::{AllocError, Global};
use std::marker::Model;

/// The events so far, in order, with the chains on which the linked ones stand.
///
/// Contracts see each event with the event before it on its chain, and without the event after: that
/// one follows, since it is the event that names this one as the event before. So the list that
/// contracts see only grows and shrinks at its end, and no event in it changes when a later one is
/// linked to it. `as_slice` and `into_list` give the events with both numbers.
#[derive(Drop)]
pub struct Events {
    items: EventList,
    // whether two of the events may be linked; where not, no event need be looked at for its link
    chains: bool,
}

impl Model for Events {
    ghost use Rattle.std.specs.Prelude.{List};
    ghost use Rattle.markdown_engine_events.specs.EventChains.{bares, IsNoted};
    ghost use Rattle.markdown_event.specs.declared.event.Event.{Event};

    ghost Value = { List Event };

    ghost view = { λ s. bares s.items };

    ghost invariant = { λ s. IsNoted s.chains s.items };
}

// The number of the event before on the chain.
fn previous_of(event: &Event) -> Option<usize>
    ensures { result ≡ link_previous event.now.link }
{
    match event.link {
        None => None,
        Some(link) => link.previous,
    }
}

// How many events are looked at with no other look between.
const FOUR: usize = 4;

// How many of the four events from this index on are linked to no other, from the first.
#[inline(always)]
fn alone_among_four(items: &EventSlice, at: usize) -> usize
    requires within { at + FOUR ≤ length items.now }
    requires small { at + FOUR < 2 ^ 64 }
    ensures within { result ≤ FOUR }
    ensures previous { (i : ℕ) (e : Event) → at ≤ i → i < at + result → link_previous (slice_index_or items.now i e).link ≡ None }
    ensures next { (i : ℕ) (e : Event) → at ≤ i → i < at + result → next_link None (slice_index_or items.now i e).link ≡ (slice_index_or items.now i e).link }
{
    for count in 0..FOUR {
        if !items.is_alone(at + count) {
            return count;
        }
    }
    FOUR
}

// How many events at the front are linked to no other, or up to where fewer than four are left.
#[inline(always)]
fn alone_fours(items: &EventSlice) -> usize
    ensures within { result ≤ length items.now }
    ensures previous { All (λ e. link_previous e.link ≡ None) (take result items.now) }
    ensures next { All (λ e. next_link None e.link ≡ e.link) (take result items.now) }
{
    let mut count = 0usize;
    while items.len() - count >= FOUR {
        let more = alone_among_four(items, count);
        count += more;
        if more < FOUR {
            return count;
        }
    }
    count
}

// How many events at the front are linked to no other.
fn alone_count(items: &EventSlice) -> usize
    ensures within { result ≤ length items.now }
    ensures previous { All (λ e. link_previous e.link ≡ None) (take result items.now) }
    ensures next { All (λ e. next_link None e.link ≡ e.link) (take result items.now) }
{
    let mut count = alone_fours(items);
    while count < items.len() && items.is_alone(count) {
        count += 1;
    }
    count
}

// How many events at the front are linked to no other: all of them where no chain is noted.
#[inline]
fn alone_front(items: &EventSlice, chains: bool) -> usize
    requires { IsFalse chains → All IsAlone items.now }
    ensures within { result ≤ length items.now }
    ensures previous { All (λ e. link_previous e.link ≡ None) (take result items.now) }
    ensures next { All (λ e. next_link None e.link ≡ e.link) (take result items.now) }
{
    if chains {
        alone_count(items)
    } else {
        items.len()
    }
}

impl Events {
    /// No event. Takes no memory.
    pub fn new(alloc: Global) -> Events
        ensures { result ≡ [] }
    {
        Events {
            items: EventList::new(alloc),
            chains: false,
        }
    }

    /// How many events there are.
    pub fn len(&self) -> usize
        ensures { result ≡ length self.now }
    {
        self.items.len()
    }

    /// Whether there is no event.
    pub fn is_empty(&self) -> bool
        ensures { result ≡ (length self.now == 0) }
    {
        self.items.is_empty()
    }

    /// The events, lent, with both numbers of each link.
    pub fn as_slice(&self) -> EventSlice<'_>
        ensures events { result ≡ chained self.now }
        ensures chains { IsLinked self.now }
    {
        self.items.as_slice()
    }

    /// An event, at an index below `len`, with both numbers of its link.
    #[inline]
    pub fn at(&self, index: usize) -> Event
        requires { index < length self.now }
        ensures { result ≡ slice_index_or (chained self.now) index result }
    {
        self.as_slice().at(index)
    }

    /// An event, at an index below `len`, without the event after on its chain.
    #[inline]
    pub fn bare_at(&self, index: usize) -> Event
        requires { index < length self.now }
        ensures event { result ≡ slice_index_or self.now index result }
        ensures bare { bare result ≡ result }
        ensures chains { IsLinked self.now }
    {
        with_next(self.items.at(index), None)
    }

    /// Makes room for so many more events, so that adding them does not move the list.
    ///
    /// `Err` only if memory is refused; the events are as they were in either case.
    pub fn reserve(&mut self, more: usize) -> Result<(), AllocError>
        ensures { self.new ≡ self.old }
    {
        self.items.reserve(more)
    }

    /// Adds an event that is linked to no other yet. Only an Enter may carry a link.
    ///
    /// `Err` only if memory is refused; the events are then as they were.
    #[inline(always)]
    pub fn push(&mut self, event: Event) -> Result<(), AllocError>
        requires { IsFresh event }
        ensures ok { OnOk result (self.new ≡ self.old ++ event ∷ []) }
        ensures err { OnErr result (self.new ≡ self.old) }
    {
        self.items.push(event)?;
        Ok(())
    }

    // No event, with room for so many.
    pub(crate) fn with_capacity(alloc: Global, capacity: usize) -> Result<Events, AllocError>
        ensures { IfOk result (λ events. events ≡ []) }
    {
        Ok(Events {
            items: EventList::with_capacity(alloc, capacity)?,
            chains: false,
        })
    }

    // Whether two of the events may be linked. Where they may, `edit_in_place` applies nothing.
    #[inline]
    pub(crate) fn has_chains(&self) -> bool {
        self.chains
    }

    // Applies edits in the list itself, where that can be: no event is linked to another, and the edits stand apart. The answer is whether they are
    // applied. It is kept out of line, since it is called from two places.
    #[inline(never)]
    pub(crate) fn edit_in_place(&mut self, edits: &Kept) -> Result<bool, AllocError>
        requires { AreBrought edits.now.comes.now edits.now.entries.now }
        ensures done { IfOk result (λ done. IsTrue done → self.new ≡ edited (edits_of edits.now) self.old) }
        ensures stays { IfOk result (λ done. IsFalse done → self.new ≡ self.old) }
        ensures err { OnErr result (self.new ≡ self.old) }
    {
        let count = self.items.len();
        if self.chains {
            return Ok(false);
        }
        let Some(fit) = fit_of(edits, count) else {
            return Ok(false);
        };
        if fit.more > edits.comes.len() {
            return Ok(false);
        }
        if !self.items.edit_packed(edits, fit)? {
            return Ok(false);
        }
        Ok(true)
    }

    // The events from `from` on that are linked to no other, up to the first that is, or up to `to`; lent.
    pub(crate) fn alone(&self, from: usize, to: usize) -> EventSlice<'_>
        requires order { from ≤ to }
        requires within { to ≤ length self.now }
        ensures here { result ≡ take (length result) (drop from self.now) }
        ensures fresh { All IsFresh result }
        ensures ends { (j : ℕ) → from ≤ j → j < from + length result → EndsChain j self.now }
        ensures end { from + length result ≤ to }
    {
        let items = self.items.slice(from, to);
        items.front(alone_front(&items, self.chains))
    }

    // Adds events that are linked to no other yet. `Err` only if memory is refused; the events are then as they were.
    pub(crate) fn extend_fresh(&mut self, items: &EventSlice) -> Result<(), AllocError>
        requires { All IsFresh items.now }
        ensures ok { OnOk result (self.new ≡ self.old ++ items.now) }
        ensures err { OnErr result (self.new ≡ self.old) }
    {
        if items.is_empty() {
            return Ok(());
        }
        self.items.extend_from_slice(items)?;
        Ok(())
    }

    /// Adds an event whose link may name the event before on its chain, an earlier one.
    ///
    /// `Err` only if memory is refused; the events are then as they were.
    pub fn push_linked(&mut self, linked: Event) -> Result<(), AllocError>
        requires bare { bare linked ≡ linked }
        requires chains { IsLinked (self.old ++ linked ∷ []) }
        ensures ok { OnOk result (self.new ≡ self.old ++ linked ∷ []) }
        ensures err { OnErr result (self.new ≡ self.old) }
    {
        let Some(previous) = previous_of(&linked) else {
            self.items.push(linked)?;
            return Ok(());
        };
        self.items.push_behind(linked, previous)?;
        self.chains = true;
        Ok(())
    }

    // Links the event at `index` back to the event at `previous`, two places before it: both carry a link, the one has no event before yet, and the
    // other no event after.
    pub(crate) fn connect(&mut self, previous: usize, index: usize)
        requires near { previous + 2 ≡ index }
        requires from { linked_at self.old previous ≡ true }
        requires to { linked_at self.old index ≡ true }
        requires first { previous_at self.old index ≡ None }
        requires last { EndsChain previous self.old }
        ensures { self.new ≡ changed_at (with_previous (Some previous)) index self.old }
    {
        self.items.set_next(previous, Some(index));
        self.items.set_previous(index, previous);
        self.chains = true;
    }

    // Takes the last event off, and with it the link on to it.
    fn drop_last(&mut self)
        ensures { self.new ≡ take (length self.old - 1) self.old }
    {
        let Some(event) = self.items.pop() else {
            return;
        };
        if let Some(previous) = previous_of(&event) {
            self.items.set_next(previous, None);
        }
    }

    /// Keeps the first `n` events, or all if there are fewer, with their links to each other.
    ///
    /// The work is that of the events that go.
    pub fn truncate(&mut self, n: usize)
        ensures { self.new ≡ take n self.old }
    {
        while self.len() > n {
            self.drop_last();
        }
    }

    /// The events, with both numbers of each link.
    pub fn into_list(self) -> EventList
        ensures { result ≡ chained self }
    {
        let Events { items, chains: _ } = self;
        items
    }
}
