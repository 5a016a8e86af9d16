//! Lists of events in 16 bytes each.
//!
//! A packed event has all that an event has, in smaller numbers. Of its links it says only whether they lead to the event two places before it, and to the
//! one two places behind it, as those of states do: between two linked `Enter` events stands the `Exit` of the first. So what a packed event stands for
//! depends on its number in the list. An event that does not fit is refused, and the caller keeps the list in another form.
#![tactic(auto, using(crate::proofs::PackedLemmas::length_unpacked))]

ghost use lib.Seq.{paste};
ghost use Rattle.std.specs.Prelude.{◌≡◌, ◌<◌, ◌≤◌, ◌+◌, ◌-◌, ◌^◌, ◌++◌, ◌∷◌, ◌==◌, ℕ, List, [], map, length, take, drop, OnErr, IfOk, IsTrue, IsFalse, MatchOption, Some, None, slice_index_or, true};
ghost use Rattle.std.specs.List.{All};
ghost use Rattle.markdown_engine_events.specs.EventChains.{changed_at, link_previous, next_link, previous_of, with_next, with_previous, IsAlone};
ghost use Rattle.markdown_engine_events.specs.MarkedEvents.{bare_at, marked};
ghost use Rattle.markdown_engine_events.specs.Packed.{all_unpacked, content_in, content_of, kind_of, link_kept, link_next, next_if, next_kept, previous_if, previous_kept, unpacked};

use crate::util::edit_map::Mark;
use markdown_event::event::{Content, Event, Kind, Link, Name, Point};
use markdown_event::seq::Seq;
use std::alloc::{AllocError, Global};
use std::marker::Model;

// The kind of an event; of an Enter also whether it carries a link, and how its content is to be read.
#[derive(Clone, Copy)]
enum Shape {
    Exit,
    Enter,
    EnterString,
    EnterText,
}

// Which events an event is linked to: the one two places before it, the one two places behind it, both or none.
#[derive(Clone, Copy)]
enum Chain {
    Alone,
    First,
    Inner,
    Last,
}

// An event in 16 bytes.
#[derive(Clone, Copy)]
pub(crate) struct Packed {
    line: u32,
    column: u32,
    index: u32,
    vs: u8,
    name: Name,
    shape: Shape,
    chain: Chain,
}

// The largest number that is kept: a place, or how many events a list has.
const LARGEST: usize = 4_294_967_295;

// The largest number of codes of a tab that is kept.
const MOST_OF_TAB: usize = 255;

// How many places an event stands behind the one before it on its chain.
const STEP: usize = 2;

// The kind of an event of this shape.
#[inline(always)]
fn kind_of(shape: Shape) -> Kind
    ensures { result ≡ kind_of shape }
{
    match shape {
        Shape::Exit => Kind::Exit,
        Shape::Enter | Shape::EnterString | Shape::EnterText => Kind::Enter,
    }
}

// How the content of an event of this shape is to be read, if it carries a link.
#[inline(always)]
fn content_of(shape: Shape) -> Option<Content>
    ensures { result ≡ content_of shape }
{
    match shape {
        Shape::Exit | Shape::Enter => None,
        Shape::EnterString => Some(Content::String),
        Shape::EnterText => Some(Content::Text),
    }
}

// The number of the event before, on the chain of the event of this number.
#[inline(always)]
fn previous_of(chain: Chain, number: usize) -> Option<usize>
    ensures { result ≡ previous_kept chain number }
{
    match chain {
        Chain::Alone | Chain::First => None,
        Chain::Inner | Chain::Last => Some(number.saturating_sub(STEP)),
    }
}

// The number of the event behind, on the chain of the event of this number.
#[inline(always)]
fn next_of(chain: Chain, number: usize) -> Option<usize>
    requires { number < 2 ^ 32 }
    ensures { result ≡ next_kept chain number }
{
    match chain {
        Chain::Alone | Chain::Last => None,
        Chain::First | Chain::Inner => Some(number + STEP),
    }
}

// The link of the event of this number, which stands packed.
#[inline(always)]
fn link_of(packed: Packed, number: usize) -> Option<Link>
    requires { number < 2 ^ 32 }
    ensures { result ≡ link_kept (content_of packed.shape) (previous_kept packed.chain number) (next_kept packed.chain number) }
{
    match content_of(packed.shape) {
        None => None,
        Some(content) => Some(Link {
            previous: previous_of(packed.chain, number),
            next: next_of(packed.chain, number),
            content,
        }),
    }
}

// The event of this number, which stands packed.
#[inline(always)]
fn unpack(packed: Packed, number: usize) -> Event
    requires { number < 2 ^ 32 }
    ensures { result ≡ unpacked number packed }
{
    Event {
        point: Point {
            line: packed.line as usize,
            column: packed.column as usize,
            index: packed.index as usize,
            vs: packed.vs as usize,
        },
        kind: kind_of(packed.shape),
        name: packed.name,
        link: link_of(packed, number),
    }
}

// The shape of an event of this kind, with this link. None for an Exit with a link.
#[inline(always)]
fn shape_of(kind: Kind, link: Option<Link>) -> Option<Shape>
    ensures kind { MatchOption result (Unit {0}) (λ shape. kind_of shape ≡ kind) }
    ensures content { MatchOption result (Unit {0}) (λ shape. content_of shape ≡ content_in link) }
{
    match (kind, link) {
        (Kind::Exit, None) => Some(Shape::Exit),
        (Kind::Exit, Some(_)) => None,
        (Kind::Enter, None) => Some(Shape::Enter),
        (Kind::Enter, Some(link)) => match link.content {
            Content::String => Some(Shape::EnterString),
            Content::Text => Some(Shape::EnterText),
        },
    }
}

// Whether there is an event before the event of this number. None where it is not the one two places before.
#[inline(always)]
fn has_previous(number: usize, previous: Option<usize>) -> Option<bool>
    ensures is { MatchOption result (Unit {0}) (λ has. previous_if has number ≡ previous) }
    ensures near { MatchOption result (Unit {0}) (λ has. MatchOption previous (Unit {0}) (λ p. p + 2 ≡ number)) }
{
    match previous {
        None => Some(false),
        Some(previous) => {
            if number >= STEP && previous == number - STEP {
                Some(true)
            } else {
                None
            }
        }
    }
}

// Whether there is an event behind the event of this number. None where it is not the one two places behind.
#[inline(always)]
fn has_next(number: usize, next: Option<usize>) -> Option<bool>
    requires { number < 2 ^ 32 }
    ensures { MatchOption result (Unit {0}) (λ has. next_if has number ≡ next) }
{
    match next {
        None => Some(false),
        Some(next) => {
            if next == number + STEP {
                Some(true)
            } else {
                None
            }
        }
    }
}

// Where an event stands on its chain that has an event before it there, or behind it.
#[inline(always)]
fn chain_with(previous: bool, next: bool) -> Chain
    ensures previous { (n : ℕ) → previous_kept result n ≡ previous_if previous n }
    ensures next { (n : ℕ) → next_kept result n ≡ next_if next n }
{
    match (previous, next) {
        (false, false) => Chain::Alone,
        (false, true) => Chain::First,
        (true, true) => Chain::Inner,
        (true, false) => Chain::Last,
    }
}

// Where the event of this number stands on its chain, by its link. None where that leads to other events than those two places before and behind.
#[inline(always)]
fn chain_of(number: usize, link: Option<Link>) -> Option<Chain>
    requires { number < 2 ^ 32 }
    ensures previous { MatchOption result (Unit {0}) (λ chain. previous_kept chain number ≡ link_previous link) }
    ensures next { MatchOption result (Unit {0}) (λ chain. next_kept chain number ≡ link_next link) }
    ensures near { MatchOption result (Unit {0}) (λ chain. MatchOption (link_previous link) (Unit {0}) (λ p. p + 2 ≡ number)) }
{
    let Some(link) = link else {
        return Some(Chain::Alone);
    };
    let previous = has_previous(number, link.previous)?;
    let next = has_next(number, link.next)?;
    Some(chain_with(previous, next))
}

// What stands where a packed event is to be written.
const NOWHERE: Packed = Packed {
    line: 0,
    column: 0,
    index: 0,
    vs: 0,
    name: Name::Data,
    shape: Shape::Enter,
    chain: Chain::Alone,
};

// A place, as an event of data that begins there. None where one of its numbers is too large.
#[inline(always)]
fn pack_place(point: Point) -> Option<Packed>
    ensures { MatchOption result (Unit {0}) (λ packed. unpacked 0 packed ≡ bare_at point) }
{
    let Point {
        line,
        column,
        index,
        vs,
    } = point;
    if line > LARGEST || column > LARGEST || index > LARGEST || vs > MOST_OF_TAB {
        return None;
    }
    Some(Packed {
        line: line as u32,
        column: column as u32,
        index: index as u32,
        vs: vs as u8,
        ..NOWHERE
    })
}

// Places, each as an event of data that begins there. None where a number is too large.
#[inline(always)]
fn pack_places<const K: usize>(points: &[Point; K]) -> Option<[Packed; K]>
    ensures { MatchOption result (Unit {0}) (λ places. all_unpacked places ≡ map bare_at points.now) }
{
    let mut places = [NOWHERE; K];
    for index in 0..K {
        places[index] = pack_place(points[index])?;
    }
    Some(places)
}

// The shape of an event of this kind without a link.
#[inline(always)]
fn plain_shape(kind: Kind) -> Shape
    ensures kind { kind_of result ≡ kind }
    ensures plain { content_of result ≡ None }
{
    match kind {
        Kind::Enter => Shape::Enter,
        Kind::Exit => Shape::Exit,
    }
}

// The events of marks, packed.
#[inline(always)]
fn pack_marks<const N: usize, const K: usize>(
    marks: &[Mark; N],
    places: &[Packed; K],
) -> [Packed; N]
    requires { All (λ m. m.place < K) marks.now }
    ensures { (points : List Point) → all_unpacked places.now ≡ map bare_at points → all_unpacked result ≡ marked points marks.now }
{
    let mut events = [NOWHERE; N];
    for index in 0..N {
        let mark = marks[index];
        events[index] = Packed {
            name: mark.name,
            shape: plain_shape(mark.kind),
            ..places[mark.place]
        };
    }
    events
}

// The event of this number, packed. None where it does not fit.
#[inline(always)]
fn pack(event: Event, number: usize) -> Option<Packed>
    requires { number < 2 ^ 32 }
    ensures is { MatchOption result (Unit {0}) (λ packed. unpacked number packed ≡ event) }
    ensures near { MatchOption result (Unit {0}) (λ packed. MatchOption (previous_of event) (Unit {0}) (λ p. p + 2 ≡ number)) }
{
    let place = pack_place(event.point)?;
    let shape = shape_of(event.kind, event.link)?;
    let chain = chain_of(number, event.link)?;
    Some(Packed {
        name: event.name,
        shape,
        chain,
        ..place
    })
}

// The same place on the chain, with an event behind it there, or without one.
#[inline]
fn chain_with_next(chain: Chain, next: bool) -> Chain
    ensures previous { (n : ℕ) → previous_kept result n ≡ previous_kept chain n }
    ensures next { (n : ℕ) → next_kept result n ≡ next_if next n }
{
    match chain {
        Chain::Alone | Chain::First => chain_with(false, next),
        Chain::Inner | Chain::Last => chain_with(true, next),
    }
}

// The same place on the chain, with an event before it there.
#[inline]
fn chain_with_previous(chain: Chain) -> Chain
    ensures previous { (n : ℕ) → previous_kept result n ≡ previous_if true n }
    ensures next { (n : ℕ) → next_kept result n ≡ next_kept chain n }
{
    match chain {
        Chain::Alone | Chain::Last => Chain::Last,
        Chain::First | Chain::Inner => Chain::Inner,
    }
}

// Events in 16 bytes each, fewer than 2 ^ 32 of them. Contracts see it as the list of the events.
#[derive(Drop)]
pub(crate) struct PackedList {
    items: Seq<Packed>,
}

impl Model for PackedList {
    ghost use Rattle.std.specs.Prelude.{List, ◌<◌, ◌^◌, length};
    ghost use Rattle.markdown_engine_events.specs.Packed.{unpacked_from};
    ghost use Rattle.markdown_event.specs.declared.event.Event.{Event};

    ghost Value = { List Event };

    ghost view = { λ s. unpacked_from 0 s.items };

    ghost invariant = { λ s. length s.items < 2 ^ 32 };
}

impl PackedList {
    // No event. Takes no memory.
    pub(crate) fn new(alloc: Global) -> PackedList
        ensures { result ≡ [] }
    {
        PackedList {
            items: Seq::new(alloc),
        }
    }

    // No event, with room for so many.
    pub(crate) fn with_capacity(alloc: Global, capacity: usize) -> Result<PackedList, AllocError>
        ensures { IfOk result (λ events. events ≡ []) }
    {
        Ok(PackedList {
            items: Seq::from_vec(Vec::with_capacity(alloc, capacity)?),
        })
    }

    // How many events there are.
    #[inline]
    pub(crate) fn len(&self) -> usize
        ensures { result ≡ length self.now }
    {
        self.items.len()
    }

    // An event, at an index below `len`.
    #[inline]
    pub(crate) fn at(&self, index: usize) -> Event
        requires { index < length self.now }
        ensures { result ≡ slice_index_or self.now index result }
    {
        unpack(*self.items.at(index), index)
    }

    // Makes room for so many more events. `Err` only if memory is refused; the events are as they were in either case.
    pub(crate) fn reserve(&mut self, more: usize) -> Result<(), AllocError>
        ensures { self.new ≡ self.old }
    {
        self.items.reserve(more)
    }

    // Adds an event at the end, where it fits. The answer is whether it does.
    #[inline(always)]
    pub(crate) fn push(&mut self, event: Event) -> Result<bool, AllocError>
        ensures added { IfOk result (λ fits. IsTrue fits → self.new ≡ self.old ++ event ∷ []) }
        ensures near { IfOk result (λ fits. IsTrue fits → MatchOption (previous_of event) (Unit {0}) (λ p. p + 2 ≡ length self.old)) }
        ensures stays { IfOk result (λ fits. IsFalse fits → self.new ≡ self.old) }
        ensures err { OnErr result (self.new ≡ self.old) }
    {
        let number = self.items.len();
        if number >= LARGEST {
            return Ok(false);
        }
        let Some(item) = pack(event, number) else {
            return Ok(false);
        };
        self.items.push(item)?;
        Ok(true)
    }

    // Adds the events of marks at the end, where their numbers fit. The answer is whether they do.
    #[inline(always)]
    pub(crate) fn push_marked<const N: usize, const K: usize>(
        &mut self,
        marks: &[Mark; N],
        points: &[Point; K],
    ) -> Result<bool, AllocError>
        requires { All (λ m. m.place < K) marks.now }
        ensures added { IfOk result (λ fits. IsTrue fits → self.new ≡ self.old ++ marked points.now marks.now) }
        ensures stays { IfOk result (λ fits. IsFalse fits → self.new ≡ self.old) }
        ensures err { OnErr result (self.new ≡ self.old) }
    {
        if N > LARGEST - self.items.len() {
            return Ok(false);
        }
        let Some(places) = pack_places(points) else {
            return Ok(false);
        };
        self.items.extend_from_slice(&pack_marks(marks, &places))?;
        Ok(true)
    }

    // Keeps the first `n` events, or all if there are fewer.
    pub(crate) fn truncate(&mut self, n: usize)
        ensures { self.new ≡ take n self.old }
    {
        self.items.truncate(n);
    }

    // Takes the last event off, if there is one.
    pub(crate) fn pop(&mut self) -> Option<Event>
        ensures cases { MatchOption result ((self.old ≡ []) × (self.new ≡ []))
            (λ x. self.old ≡ self.new ++ x ∷ []) }
        ensures rest { self.new ≡ take (length self.old - 1) self.old }
    {
        let item = self.items.pop()?;
        Some(unpack(item, self.items.len()))
    }

    // Writes the event after into an event: the one two places behind it, or none.
    #[inline]
    pub(crate) fn set_next(&mut self, index: usize, next: Option<usize>)
        requires index { index < length self.old }
        requires near { MatchOption next (Unit {0}) (λ n. n ≡ index + 2) }
        ensures { self.new ≡ changed_at (with_next next) index self.old }
    {
        let item = *self.items.at(index);
        let chain = chain_with_next(item.chain, next.is_some());
        self.items.put(index, Packed { chain, ..item });
    }

    // Writes the event two places before it into an event.
    #[inline]
    pub(crate) fn set_previous(&mut self, index: usize, previous: usize)
        requires index { index < length self.old }
        requires near { previous + 2 ≡ index }
        ensures { self.new ≡ changed_at (with_previous (Some previous)) index self.old }
    {
        let item = *self.items.at(index);
        let chain = chain_with_previous(item.chain);
        self.items.put(index, Packed { chain, ..item });
    }

    // The events, lent.
    #[inline]
    pub(crate) fn as_slice(&self) -> PackedSlice<'_>
        ensures { result ≡ self.now }
    {
        PackedSlice {
            items: self.items.as_slice(),
            from: 0,
        }
    }

    // The events from `from` to `to`, lent.
    #[inline]
    pub(crate) fn slice(&self, from: usize, to: usize) -> PackedSlice<'_>
        requires order { from ≤ to }
        requires within { to ≤ length self.now }
        ensures { result ≡ take (to - from) (drop from self.now) }
    {
        PackedSlice {
            items: &self.items.as_slice()[from..to],
            from,
        }
    }

    // Adds these events at the end, which are linked to no other, where the list does not grow too long. The answer is whether they are added.
    pub(crate) fn extend_from_slice(&mut self, events: &PackedSlice) -> Result<bool, AllocError>
        requires { All IsAlone events.now }
        ensures added { IfOk result (λ fits. IsTrue fits → self.new ≡ self.old ++ events.now) }
        ensures stays { IfOk result (λ fits. IsFalse fits → self.new ≡ self.old) }
        ensures err { OnErr result (self.new ≡ self.old) }
    {
        if events.items.len() > LARGEST - self.items.len() {
            return Ok(false);
        }
        self.items.extend_from_slice(events.items)?;
        Ok(true)
    }

    // Writes the events from `from` to `to`, which are linked to no other, once more, at another place, over what stands there.
    #[inline(always)]
    pub(crate) fn move_within(&mut self, from: usize, to: usize, place: usize)
        requires order { from ≤ to }
        requires within { to ≤ length self.old }
        requires room { place + (to - from) ≤ length self.old }
        requires alone { All IsAlone (take (to - from) (drop from self.old)) }
        ensures { self.new ≡ paste self.old place (drop from self.old) (to - from) }
    {
        self.items.move_within(from, to, place);
    }

    // Writes these events, which are linked to no other, at a place, over what stands there.
    #[inline]
    pub(crate) fn write(&mut self, place: usize, events: &PackedSlice)
        requires room { place + length events.now ≤ length self.old }
        requires alone { All IsAlone events.now }
        ensures { self.new ≡ paste self.old place events.now (length events.now) }
    {
        self.items.write(place, events.items);
    }
}

// Events of a packed list, lent. Contracts see it as the list of these events.
#[derive(Drop)]
pub(crate) struct PackedSlice<'a> {
    items: &'a [Packed],
    // The number of the first of them.
    from: usize,
}

impl<'a> Model for PackedSlice<'a> {
    ghost use Rattle.std.specs.Prelude.{List, ◌<◌, ◌^◌, ◌+◌, length};
    ghost use Rattle.markdown_engine_events.specs.Packed.{unpacked_from};
    ghost use Rattle.markdown_event.specs.declared.event.Event.{Event};

    ghost Value = { List Event };

    ghost view = { λ s. unpacked_from s.from s.items.now };

    ghost invariant = { λ s. s.from + length s.items.now < 2 ^ 32 };
}

impl<'a> PackedSlice<'a> {
    // How many events there are.
    #[inline]
    pub(crate) fn len(&self) -> usize
        ensures { result ≡ length self.now }
    {
        self.items.len()
    }

    // An event, at an index below `len`.
    #[inline]
    pub(crate) fn at(&self, index: usize) -> Event
        requires { index < length self.now }
        ensures { result ≡ slice_index_or self.now index result }
    {
        let items = self.items;
        unpack(items[index], self.from + index)
    }

    // The first event and those behind it, if there is one.
    #[inline]
    pub(crate) fn split_first(&self) -> Option<(Event, PackedSlice<'a>)>
        ensures { MatchOption result (self.now ≡ []) (λ parts. self.now ≡ parts.0 ∷ parts.1) }
    {
        let (first, others) = self.items.split_first()?;
        Some((
            unpack(*first, self.from),
            PackedSlice {
                items: others,
                from: self.from + 1,
            },
        ))
    }

    // The events from `from` to `to`, lent.
    #[inline]
    pub(crate) fn slice(&self, from: usize, to: usize) -> PackedSlice<'a>
        requires order { from ≤ to }
        requires within { to ≤ length self.now }
        ensures { result ≡ take (to - from) (drop from self.now) }
    {
        PackedSlice {
            items: &self.items[from..to],
            from: self.from + from,
        }
    }

    // The events, each as it is. `Err` only if memory is refused.
    pub(crate) fn to_vec(&self, alloc: Global) -> Result<Vec<Event>, AllocError>
        ensures { IfOk result (λ events. events.items ≡ self.now) }
    {
        let count = self.len();
        let mut events = Vec::with_capacity(alloc, count)?;
        for index in 0..count {
            events.push_reserved(self.at(index));
        }
        Ok(events)
    }

    // Whether an event is known to name no event before it and none after it.
    #[inline(always)]
    pub(crate) fn is_alone(&self, index: usize) -> bool
        requires { index < length self.now }
        ensures previous { IsTrue result → (e : Event) → link_previous (slice_index_or self.now index e).link ≡ None }
        ensures next { IsTrue result → (e : Event) → next_link None (slice_index_or self.now index e).link ≡ (slice_index_or self.now index e).link }
    {
        let items = self.items;
        let item = items[index];
        matches!(item.chain, Chain::Alone)
    }
}
