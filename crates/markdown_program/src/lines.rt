//! Each event on a line: whether it begins or ends, its name, its place, and its link if it has one.
ghost use Rattle.std.specs.Prelude.{◌≡◌, [], ◌++◌, ◌+◌, ◌-◌, ◌<◌, ◌≤◌, codes, decimal, drop, length, take, IfOk, Some};
ghost use Rattle.markdown_program.specs.PrintedLines.{words_text, content_text, number_text, point_text, rest_text, link_text, line_of, lines_of};

use itoa::{Buffer, write_digits};
use markdown_engine_events::event_list::EventSlice;
use markdown_event::event::{Content, Event, Kind, Link, NAMES, Name, Point};
use markdown_event::event_names;
use std::alloc::{AllocError, Global};
use std::marker::Model;

// The bytes of the words of an event that are copied: at least as many as count. A line has 84 more of its place, 54 of its link, and its line ending.
const WORDS: usize = 48;

// The most bytes of a line.
const LINE: usize = WORDS + 84 + 54 + 1;

// Most lines are a little shorter: room for the output is asked for at once, so many bytes for each event.
const MOSTLY: usize = 40;

// How many bytes of lines are collected before they are added to the output.
const COLLECTED: usize = 4096;

// The words of the events of one kind, by the numbers of their names. Spaces stand behind them, so that all are as long as what a line copies.
macro_rules! padded {
    ($kind:literal $($of_all:ident)*) => {
        [$(concat!($kind, " ", stringify!($of_all), "                                       "),)*]
    };
}

static ENTERS: [&str; NAMES] = event_names!(padded "Enter");

static EXITS: [&str; NAMES] = event_names!(padded "Exit");

// How long these words are, without the spaces.
macro_rules! lengths {
    ($kind:literal $($of_all:ident)*) => {
        [$(concat!($kind, " ", stringify!($of_all)).len(),)*]
    };
}

static ENTER_LENGTHS: [usize; NAMES] = event_names!(lengths "Enter");

static EXIT_LENGTHS: [usize; NAMES] = event_names!(lengths "Exit");

// Whether an event begins or ends, its name, and spaces, at least 48 bytes; and how many bytes the words are, without the spaces behind them.
fn words_of(kind: Kind, name: Name) -> (&'static str, usize)
    ensures long { 48 ≤ length result.0.now }
    ensures short { result.1 ≤ 48 }
    ensures length { result.1 ≡ length (words_text kind name) }
    ensures words { take (length (words_text kind name)) result.0.now ≡ words_text kind name }
{
    let (words, lengths) = match kind {
        Kind::Enter => (&ENTERS, &ENTER_LENGTHS),
        Kind::Exit => (&EXITS, &EXIT_LENGTHS),
    };
    let number = name as usize;
    (words[number], lengths[number])
}

fn content_text(content: Content) -> &'static str
    ensures { result.now ≡ content_text content }
{
    match content {
        Content::String => "String",
        Content::Text => "Text",
    }
}

// Writes bytes at an index of the lines, and answers where those end that count, the first n. The rest is written over later.
#[inline(always)]
fn write_bytes(bytes: &[u8], n: usize, lines: &mut [u8], at: usize) -> usize
    requires { (n ≤ length bytes.now) × (at + length bytes.now ≤ length lines.old) }
    ensures end { result ≡ at + n }
    ensures length { length lines.new ≡ length lines.old }
    ensures written { take result lines.new ≡ take at lines.old ++ take n bytes.now }
{
    lines[at..at + bytes.len()].copy_from_slice(bytes);
    at + n
}

// Writes all bytes.
fn write_all(bytes: &[u8], lines: &mut [u8], at: usize) -> usize
    requires { at + length bytes.now ≤ length lines.old }
    ensures end { result ≡ at + length bytes.now }
    ensures length { length lines.new ≡ length lines.old }
    ensures written { take result lines.new ≡ take at lines.old ++ bytes.now }
{
    write_bytes(bytes, bytes.len(), lines, at)
}

// Writes the number of an event, or `-` where there is none.
fn write_event_number(number: Option<usize>, lines: &mut [u8], at: usize) -> usize
    requires { at + 20 ≤ length lines.old }
    ensures short { result ≤ at + 20 }
    ensures length { length lines.new ≡ length lines.old }
    ensures written { take result lines.new ≡ take at lines.old ++ number_text number }
{
    match number {
        Some(number) => write_all(Buffer::new().format(number).as_bytes(), lines, at),
        None => write_all(b"-", lines, at),
    }
}

// Writes the content of a link, and the numbers of the events before and after.
fn write_link(link: &Link, lines: &mut [u8], at: usize) -> usize
    requires { at + 54 ≤ length lines.old }
    ensures short { result ≤ at + 54 }
    ensures length { length lines.new ≡ length lines.old }
    ensures written { take result lines.new ≡ take at lines.old ++ link_text (Some link.now) }
{
    let at = write_all(b" link ", lines, at);
    let at = write_all(content_text(link.content).as_bytes(), lines, at);
    let at = write_all(b" ", lines, at);
    let at = write_event_number(link.previous, lines, at);
    let at = write_all(b" ", lines, at);
    write_event_number(link.next, lines, at)
}

// Numbers as they are printed, each behind a space. Contracts see these bytes alone.
//
// The digits of a number are found from the last one on, so numbers are written from back to front: they end at byte 64, and begin as far before it
// as they need. A number has at most 20 digits and its space, which are 21 bytes. Three numbers, which a place has behind its line, take 63 of the 64.
#[derive(Drop)]
struct Numbers {
    // The numbers end at 64. As many bytes stand behind them, so that from where they begin there are always as many as a line copies.
    bytes: [u8; 128],
    // Where they begin.
    start: usize,
}

impl Model for Numbers {
    ghost use Rattle.std.specs.Prelude.{List, ℕ, ◌-◌, ◌≤◌, drop, take};

    ghost Value = { List ℕ };

    ghost view = { λ s. take (64 - s.start) (drop s.start s.bytes) };

    ghost invariant = { λ s. s.start ≤ 64 };
}

impl Numbers {
    // None yet.
    fn new() -> Numbers
        ensures { result ≡ [] }
    {
        Numbers {
            bytes: [b' '; 128],
            start: 64,
        }
    }

    // Drops them.
    fn clear(&mut self)
        ensures { self.new ≡ [] }
    {
        self.start = 64;
    }

    // Drops all but the last n bytes.
    #[inline(always)]
    fn keep_last(&mut self, n: usize)
        requires { (n ≤ 64) × (n ≤ length self.old) }
        ensures { self.new ≡ drop (length self.old - n) self.old }
    {
        self.start = 64 - n;
    }

    // Puts a number, with the space before it, in front of the others: its last digit stands right before them, and its first one where that brings it.
    //
    // The others leave room for the longest number, 20 digits and a space.
    #[inline(always)]
    fn push_first(&mut self, number: usize)
        requires { length self.old + 21 ≤ 64 }
        ensures short { length self.new ≤ length self.old + 21 }
        ensures first { self.new ≡ codes " " ++ decimal number ++ self.old }
    {
        let at = write_digits(number as u64, &mut self.bytes, self.start) - 1;
        self.bytes[at] = b' ';
        self.start = at;
    }

    // Writes them, of which there are at most so many bytes.
    #[inline(always)]
    fn write(&self, most: usize, lines: &mut [u8], at: usize) -> usize
        requires { (length self.now ≤ most) × (most ≤ 64) × (at + most ≤ length lines.old) }
        ensures end { result ≡ at + length self.now }
        ensures length { length lines.new ≡ length lines.old }
        ensures written { take result lines.new ≡ take at lines.old ++ self.now }
    {
        write_bytes(
            &self.bytes[self.start..self.start + most],
            64 - self.start,
            lines,
            at,
        )
    }
}

// A place as it is printed. Contracts see the place alone.
#[derive(Drop)]
struct Printed {
    point: Point,
    // The line, which often is that of the place before.
    line: Numbers,
    // Column, byte, and the codes of a tab before it.
    rest: Numbers,
}

impl Model for Printed {
    ghost use Rattle.markdown_event.specs.declared.event.Point.{Point};
    ghost use Rattle.markdown_program.specs.PrintedLines.{IsPrinted};

    ghost Value = { Point };

    ghost view = { λ s. s.point };

    ghost invariant = { λ s. IsPrinted s.point s.line s.rest };
}

impl Printed {
    // Prints a place.
    fn new(point: Point) -> Printed
        ensures { result ≡ point }
    {
        let mut line = Numbers::new();
        line.push_first(point.line);
        let mut rest = Numbers::new();
        rest.push_first(point.vs);
        push_place(&mut rest, point);
        Printed { point, line, rest }
    }

    // Prints another place, where it is another.
    #[inline(always)]
    fn turn_to(&mut self, point: Point)
        ensures { self.new ≡ point }
    {
        if self.point == point {
            return;
        }
        if self.point.line != point.line {
            self.line.clear();
            self.line.push_first(point.line);
        }
        turn_codes(&mut self.rest, self.point, point.vs);
        push_place(&mut self.rest, point);
        self.point = point;
    }

    // Writes the place.
    #[inline(always)]
    fn write(&self, lines: &mut [u8], at: usize) -> usize
        requires { at + 85 ≤ length lines.old }
        ensures short { result ≤ at + 84 }
        ensures length { length lines.new ≡ length lines.old }
        ensures written { take result lines.new ≡ take at lines.old ++ point_text self.now }
    {
        let at = self.line.write(32, lines, at);
        self.rest.write(64, lines, at)
    }
}

// Leaves the codes of a tab alone, where those of another place stand behind its column and byte. As a rule there are none, at both places.
#[inline(always)]
fn turn_codes(rest: &mut Numbers, other: Point, vs: usize)
    requires { rest.old ≡ rest_text other }
    ensures short { length rest.new ≤ 21 }
    ensures codes { rest.new ≡ codes " " ++ decimal vs }
{
    if other.vs == 0 && vs == 0 {
        rest.keep_last(2);
        return;
    }
    rest.clear();
    rest.push_first(vs);
}

// Puts column and byte of a place before the codes of a tab before it.
#[inline(always)]
fn push_place(rest: &mut Numbers, point: Point)
    requires short { length rest.old ≤ 21 }
    requires codes { rest.old ≡ codes " " ++ decimal point.vs }
    ensures short { length rest.new ≤ 63 }
    ensures rest { rest.new ≡ rest_text point }
{
    rest.push_first(point.index);
    rest.push_first(point.column);
}

// Writes a link, if there is one.
#[inline(always)]
fn write_link_of(event: &Event, lines: &mut [u8], at: usize) -> usize
    requires { at + 54 ≤ length lines.old }
    ensures short { result ≤ at + 54 }
    ensures length { length lines.new ≡ length lines.old }
    ensures written { take result lines.new ≡ take at lines.old ++ link_text event.now.link }
{
    match &event.link {
        Some(link) => write_link(link, lines, at),
        None => at,
    }
}

// Writes an event, in a line of its own. The place is the one that was printed last.
#[inline(always)]
fn write_event(event: &Event, place: &mut Printed, lines: &mut [u8], at: usize) -> usize
    requires { at + 187 ≤ length lines.old }
    ensures short { result ≤ at + 187 }
    ensures length { length lines.new ≡ length lines.old }
    ensures written { take result lines.new ≡ take at lines.old ++ line_of event.now }
{
    let (words, length) = words_of(event.kind, event.name);
    let at = write_bytes(&words.as_bytes()[..WORDS], length, lines, at);
    place.turn_to(event.point);
    let at = place.write(lines, at);
    let at = write_link_of(event, lines, at);
    write_all(b"\n", lines, at)
}

// Adds the lines that are collected to the output where another might not fit behind them, and answers where the next one begins.
#[inline(always)]
fn make_room(text: &mut Vec<u8>, lines: &[u8], at: usize) -> Result<usize, AllocError>
    requires { at ≤ length lines.now }
    ensures room { IfOk result (λ end. (end ≤ 3909) × (end ≤ at)) }
    ensures kept { IfOk result (λ end. text.new.items ++ take end lines.now ≡ text.old.items ++ take at lines.now) }
{
    if at <= COLLECTED - LINE {
        return Ok(at);
    }
    text.extend_from_slice(&lines[..at])?;
    Ok(0)
}

/// The lines of all events, in order. The only error is that memory was refused.
///
/// Lines are collected, and added to the output many at a time. Room for it is asked for at once, and more only where lines are long. Events
/// often stand where the one before them does, so the place that was printed last is kept.
pub fn lines_of(alloc: Global, events: &[Event]) -> Result<Vec<u8>, AllocError>
    ensures { IfOk result (λ text. text.items ≡ lines_of events.now) }
{
    lines_of_list(alloc, &EventSlice::over(events))
}

/// As `lines_of`, of events that a list lends.
pub fn lines_of_list(alloc: Global, events: &EventSlice) -> Result<Vec<u8>, AllocError>
    ensures { IfOk result (λ text. text.items ≡ lines_of events.now) }
{
    let count = events.len();
    let mut text = Vec::with_capacity(alloc, count.saturating_mul(MOSTLY))?;
    let mut lines = [0; COLLECTED];
    let mut at = 0;
    let mut place = Printed::new(Point {
        line: 1,
        column: 1,
        index: 0,
        vs: 0,
    });
    for index in 0..count {
        at = make_room(&mut text, &lines, at)?;
        let event = events.at(index);
        at = write_event(&event, &mut place, &mut lines, at);
    }
    text.extend_from_slice(&lines[..at])?;
    Ok(text)
}
