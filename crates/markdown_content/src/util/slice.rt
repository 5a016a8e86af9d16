//! What is lent of a document for a position.
ghost use Rattle.std.specs.Prelude.{◌≡◌, ◌<◌, ◌≤◌, ◌^◌, ◌-◌, ◌&&◌, ◌==◌, nat_lt, if◌then◌else◌, length, slice_range, IsTrue, IsUtf8, IsSome, Some};
ghost use Rattle.std.specs.Option.{option_and_then};
ghost use Rattle.markdown_content.specs.Nesting.{own_enter, point_at};
ghost use Rattle.markdown_content.specs.Codes.{place_of, is_at_or_after, tab_width};
ghost use Rattle.markdown_content.specs.Content.{document_limit};
ghost use Rattle.markdown_content.specs.Slices.{byte_from, position_bytes, spaces_before, spaces_after};
ghost use Rattle.markdown_content.specs.DocumentWalk.{IsPoint};

use crate::walk::TAB_SIZE;
use markdown_event::event::{Event, Kind, Point};

/// From a place of a document to a place.
#[derive(Clone, Copy, Debug, PartialEq, Eq)]
pub struct Position {
    /// The place of the first code.
    pub start: Point,
    /// The place after the last code.
    pub end: Point,
}

impl Position {
    /// Where the event begins and ends whose Exit stands at `index`. Its Enter is the one that is open and innermost there, whatever the
    /// names of the events between.
    pub fn from_exit_event(events: &[Event], index: usize) -> Position
        requires within { index < length events.now }
        requires own { IsSome (own_enter events.now index) }
        ensures start { option_and_then (point_at events.now) (own_enter events.now index) ≡ Some result.start }
        ensures end { point_at events.now index ≡ Some result.end }
    {
        // how many Enters are still to come
        let mut awaited = 1usize;
        let mut at = index;
        while awaited > 0 {
            at -= 1;
            match events[at].kind {
                Kind::Enter => awaited -= 1,
                Kind::Exit => awaited += 1,
            }
        }
        Position {
            start: events[at].point,
            end: events[index].point,
        }
    }
}

/// Bytes of a document, with virtual spaces of the tabs at both ends.
#[derive(Clone, Copy, Debug, PartialEq, Eq)]
pub struct Slice<'a> {
    /// The bytes.
    pub bytes: &'a [u8],
    /// How many virtual spaces stand before the bytes, of a tab that is not among them.
    pub before: usize,
    /// How many virtual spaces of the tab that ends the bytes belong to the slice.
    pub after: usize,
}

impl<'a> Slice<'a> {
    /// Lends the bytes from an index to an index.
    pub fn from_indices(bytes: &'a [u8], start: usize, end: usize) -> Slice<'a>
        requires in_order { start ≤ end }
        requires in_bytes { end ≤ length bytes.now }
        ensures bytes { result.bytes.now ≡ slice_range bytes.entry.now start end }
        ensures before { result.before ≡ 0 }
        ensures after { result.after ≡ 0 }
    {
        Slice {
            bytes: &bytes[start..end],
            before: 0,
            after: 0,
        }
    }

    /// Lends the codes of a position.
    ///
    /// If it starts inside a tab, `before` counts the virtual spaces from there to the tab's end and the bytes begin after the tab.
    /// If it ends inside a tab, the tab's byte belongs to the bytes and `after` counts the virtual spaces before the end.
    /// If it starts and ends inside the same tab, there are no bytes, `before` counts the codes between and `after` is 0.
    ///
    /// Both ends are places of the document, the end not before the start, and the document has at most `usize::MAX / 8` bytes.
    pub fn from_position(bytes: &'a [u8], position: &Position) -> Slice<'a>
        requires fits { length bytes.now ≤ document_limit }
        requires start { IsPoint bytes.now position.now.start }
        requires end { IsPoint bytes.now position.now.end }
        requires in_order { IsTrue (is_at_or_after (place_of position.now.start) (place_of position.now.end)) }
        ensures bytes { result.bytes.now ≡ position_bytes bytes.entry.now position.now.start position.now.end }
        ensures before { result.before ≡ spaces_before bytes.entry.now position.now.start position.now.end }
        ensures after { result.after ≡ spaces_after bytes.entry.now position.now.start position.now.end }
    {
        let start = position.start;
        let end = position.end;
        Slice {
            bytes: &bytes[first_byte(start)..first_byte(end)],
            before: columns_before(start, end),
            after: columns_after(start, end),
        }
    }

    /// Lends the bytes as text.
    ///
    /// They are the UTF-8 of some characters, as the bytes between two characters of a text are.
    pub fn as_str(&self) -> &'a str
        requires { IsUtf8 self.now.bytes.now }
        ensures { result.now ≡ self.now.bytes.now }
    {
        str::from_utf8(self.bytes).unwrap()
    }
}

// The first byte that begins at a place or after it.
fn first_byte(point: Point) -> usize
    requires { point.index < 2 ^ 63 }
    ensures { result ≡ byte_from point }
{
    if point.vs > 0 {
        point.index + 1
    } else {
        point.index
    }
}

// The virtual spaces from a place inside a tab to the end of that tab, or to a place in it.
fn columns_before(start: Point, end: Point) -> usize
    requires from_one { 1 ≤ start.column }
    requires in_order { start.index ≡ end.index → start.vs ≤ end.vs }
    ensures { result ≡ (if nat_lt 0 start.vs then (if start.index == end.index then end.vs - start.vs else tab_width start) else 0) }
{
    if start.vs == 0 {
        0
    } else if start.index == end.index {
        end.vs - start.vs
    } else {
        TAB_SIZE - (start.column - 1) % TAB_SIZE
    }
}

// The virtual spaces up to a place inside a tab, if that tab begins at the start or after it.
fn columns_after(start: Point, end: Point) -> usize
    ensures { result ≡ (if start.index == end.index && nat_lt 0 start.vs then 0 else end.vs - 1) }
{
    if end.vs == 0 || (start.index == end.index && start.vs > 0) {
        0
    } else {
        end.vs - 1
    }
}
