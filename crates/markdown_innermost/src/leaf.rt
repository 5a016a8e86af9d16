//! Innermost events, one by one.
#![tactic(auto)]

ghost use Rattle.std.specs.Prelude.{◌≡◌, ◌∷◌, ◌+◌, ◌<◌, ◌≤◌, [], length, drop, map, slice_get, IfSome, IfNone, Some};
ghost use Rattle.std.specs.Iterator.{YieldsFirstBy, item_count};
ghost use Rattle.std.specs.List.{All};
ghost use Rattle.markdown_content.specs.Content.{document_limit};
ghost use Rattle.markdown_event.specs.declared.event.Event.{Event};
ghost use Rattle.markdown_innermost.specs.InnermostEvents.{Lent, innermost, has_nothing_inside, span_of, lent, IsSpanInOrder, BeginsInnermost};
ghost use Rattle.markdown_innermost.specs.LeafView.{lent_by};

use markdown_content::util::slice::{Position, Slice};
use markdown_engine_events::event_list::EventSlice;
use markdown_event::event::{Event, Kind, Name, Point};
use std::marker::Model;

/// An innermost event: its name, where it begins and ends, and what stands there.
#[derive(Clone, Copy, Debug)]
pub struct Leaf<'a> {
    /// What the event is about.
    pub name: Name,
    /// The place of its Enter.
    pub start: Point,
    /// The place of its Exit.
    pub end: Point,
    /// What is lent of the document from the one to the other.
    pub slice: Slice<'a>,
}

/// The innermost events that are left, from the first on.
///
/// Contracts see it as the list of what is lent for each of them.
#[derive(Drop)]
pub struct Leaves<'a> {
    bytes: &'a [u8],
    events: EventSlice<'a>,
}

impl<'a> Model for Leaves<'a> {
    ghost use Rattle.std.specs.Prelude.{◌≤◌, List, length, map};
    ghost use Rattle.std.specs.List.{All};
    ghost use Rattle.markdown_content.specs.Content.{document_limit};
    ghost use Rattle.markdown_innermost.specs.InnermostEvents.{Lent, innermost, lent, IsSpanInOrder};

    ghost Value = { List Lent };

    ghost view = { λ l. map (lent l.bytes.now) (innermost l.events) };

    ghost invariant = { λ l. (length l.bytes.now ≤ document_limit) × All (IsSpanInOrder l.bytes.now) (innermost l.events) };
}

// Whether these two events are an Enter and its Exit, where the one stands right behind the other.
fn has_nothing_inside(enter: Event, exit: Event) -> bool
    ensures { result ≡ has_nothing_inside enter.kind exit.kind }
{
    matches!((enter.kind, exit.kind), (Kind::Enter, Kind::Exit))
}

// The number of the first Exit that stands right behind an Enter.
fn first_exit(events: &EventSlice) -> Option<usize>
    ensures found { IfSome result (BeginsInnermost events.now) }
    ensures none { IfNone result (innermost events.now ≡ []) }
{
    for index in 1..events.len() {
        if has_nothing_inside(events.at(index - 1), events.at(index)) {
            return Some(index);
        }
    }
    None
}

// What is lent for an event, from its Enter to its Exit.
fn lend<'a>(bytes: &'a [u8], enter: Event, exit: Event) -> Leaf<'a>
    requires fits { length bytes.now ≤ document_limit }
    requires places { IsSpanInOrder bytes.now (span_of enter exit) }
    ensures { lent_by result ≡ lent bytes.entry.now (span_of enter exit) }
{
    let position = Position {
        start: enter.point,
        end: exit.point,
    };
    Leaf {
        name: enter.name,
        start: position.start,
        end: position.end,
        slice: Slice::from_position(bytes, &position),
    }
}

impl<'a> Leaves<'a> {
    pub(crate) fn new(bytes: &'a [u8], events: &EventSlice<'a>) -> Leaves<'a>
        requires fits { length bytes.now ≤ document_limit }
        requires places { All (IsSpanInOrder bytes.now) (innermost events.now) }
        ensures { result ≡ map (lent bytes.entry.now) (innermost events.now) }
    {
        Leaves {
            bytes,
            events: events.slice(0, events.len()),
        }
    }
}

impl<'a> Iterator for Leaves<'a> {
    type Item = Leaf<'a>;

    ghost next_gives = { YieldsFirstBy lent_by (λ rest. rest) };

    ghost remaining = { item_count (λ rest. rest) };

    fn next(&mut self) -> Option<Leaf<'a>> {
        let exit = first_exit(&self.events)?;
        let leaf = lend(self.bytes, self.events.at(exit - 1), self.events.at(exit));
        self.events = self.events.slice(exit, self.events.len());
        Some(leaf)
    }
}
