//! The known places of a document, in which many contents are read: each is found by a short walk from one of them.
ghost use Rattle.std.specs.Prelude.{◌≡◌, ℕ, ◌+◌, ◌<◌, ◌≤◌, ◌↔◌, length, take, drop, slice_index, true, IfOk, IsTrue, MatchOption};
ghost use Rattle.markdown_content.specs.Codes.{place_of, is_at_or_after};
ghost use Rattle.markdown_content.specs.Content.{document_limit, IsContent, IsTextContent};
ghost use Rattle.markdown_content.specs.KnownPlaces.{IsDocument, AreMarks, IsFirst};
ghost use Rattle.markdown_content.specs.Place.{start_of_content};
ghost use Rattle.markdown_content.specs.DocumentWalk.{IsPoint};
ghost use Rattle.markdown_content.specs.PlainBytes.{is_of_line, feed_bits};

use markdown_content::content::{
    DOCUMENT_LIMIT, are_between_characters, are_pieces_from, has_text_lines, reach,
};
use markdown_content::cursor::Cursor;
use markdown_content::lanes::{LANES, feeds_among};
use markdown_content::parser::Piece;
use markdown_content::walk::{DOCUMENT_START, past_code, walk_to};
use markdown_event::event::Point;
use std::alloc::{AllocError, Global};
use std::marker::Model;

// How many bytes apart the places are that are known.
const STRIDE: usize = 128;

/// A document: UTF-8 of at most `usize::MAX / 8` bytes, with the lines and columns of some of its places, 128 bytes apart.
///
/// Contracts see its bytes.
#[derive(Drop)]
pub struct Places<'a> {
    bytes: &'a [u8],
    marks: Vec<Point>,
}

impl<'a> Model for Places<'a> {
    ghost use Rattle.std.specs.Prelude.{List, ℕ};
    ghost use Rattle.markdown_content.specs.KnownPlaces.{IsDocument, AreMarks};

    ghost Value = { List ℕ };

    ghost view = { λ d. d.bytes.now };

    ghost invariant = { λ d. IsDocument d.bytes.now × AreMarks d.bytes.now d.marks.items };
}

// The place behind so many of the sixteen bytes from a place on. All of these are line feeds or above 13, and the set bits say which of the sixteen are line
// feeds.
#[inline(always)]
fn behind_group(bytes: &[u8], point: Point, count: usize, group: u64) -> Point
    requires fits { length bytes.now ≤ document_limit }
    requires is_point { IsPoint bytes.now point }
    requires at_byte { point.vs ≡ 0 }
    requires room { point.index + LANES ≤ length bytes.now }
    requires few { count ≤ LANES }
    requires of_lines { (i : ℕ) → point.index ≤ i → i < point.index + count → is_of_line (slice_index bytes.now i) ≡ true }
    requires feeds { group ≡ feed_bits (take LANES (drop point.index bytes.now)) }
    ensures is_point { IsPoint bytes.now result }
    ensures at_byte { result.vs ≡ 0 }
    ensures index { result.index ≡ point.index + count }
{
    let feeds = group & ((1 << count) - 1);
    if feeds == 0 {
        Point {
            line: point.line,
            column: point.column + count,
            index: point.index + count,
            vs: 0,
        }
    } else {
        Point {
            line: point.line + feeds.count_ones() as usize,
            column: count - feeds.ilog2() as usize,
            index: point.index + count,
            vs: 0,
        }
    }
}

// Walks on over the line feeds and bytes above 13 that are first among sixteen bytes, as far as an index.
#[inline(always)]
fn pass_group(bytes: &[u8], point: Point, to: usize) -> Point
    requires fits { length bytes.now ≤ document_limit }
    requires is_point { IsPoint bytes.now point }
    requires at_byte { point.vs ≡ 0 }
    requires forward { point.index ≤ to }
    requires room { point.index + LANES ≤ length bytes.now }
    ensures is_point { IsPoint bytes.now result }
    ensures at_byte { result.vs ≡ 0 }
    ensures from { point.index ≤ result.index }
    ensures forward { result.index ≤ to }
{
    let (ordinary, group) = feeds_among(bytes, point.index);
    let count = ordinary.min(to - point.index);
    behind_group(bytes, point, count, group)
}

// Walks on over the next sixteen bytes, if all are line feeds or above 13.
#[inline(always)]
fn pass_whole_group(bytes: &[u8], point: Point) -> Option<Point>
    requires fits { length bytes.now ≤ document_limit }
    requires is_point { IsPoint bytes.now point }
    requires at_byte { point.vs ≡ 0 }
    requires room { point.index + LANES ≤ length bytes.now }
    ensures { MatchOption result (Unit {0}) (λ next. IsPoint bytes.now next × ((next.vs ≡ 0) × (next.index ≡ point.index + LANES))) }
{
    let (ordinary, group) = feeds_among(bytes, point.index);
    if ordinary < LANES {
        return None;
    }
    Some(behind_group(bytes, point, LANES, group))
}

// As `pass_bytes`, while the next sixteen bytes are passed together.
#[inline(always)]
fn pass_whole_groups(bytes: &[u8], point: Point, to: usize) -> Point
    requires fits { length bytes.now ≤ document_limit }
    requires is_point { IsPoint bytes.now point }
    requires at_byte { point.vs ≡ 0 }
    requires forward { point.index ≤ to }
    requires within { to ≤ length bytes.now }
    ensures is_point { IsPoint bytes.now result }
    ensures at_byte { result.vs ≡ 0 }
    ensures from { point.index ≤ result.index }
    ensures forward { result.index ≤ to }
{
    let mut point = point;
    while to - point.index >= LANES {
        let Some(next) = pass_whole_group(bytes, point) else {
            return point;
        };
        point = next;
    }
    point
}

// As `pass_bytes`, while sixteen bytes are left in the document.
#[inline(always)]
fn pass_groups(bytes: &[u8], point: Point, to: usize) -> Point
    requires fits { length bytes.now ≤ document_limit }
    requires is_point { IsPoint bytes.now point }
    requires at_byte { point.vs ≡ 0 }
    requires forward { point.index ≤ to }
    requires within { to ≤ length bytes.now }
    ensures is_point { IsPoint bytes.now result }
    ensures at_byte { result.vs ≡ 0 }
    ensures from { point.index ≤ result.index }
    ensures forward { result.index ≤ to }
{
    let mut point = pass_whole_groups(bytes, point, to);
    while point.index < to && bytes.len() - point.index >= LANES {
        let next = pass_group(bytes, point, to);
        if next.index == point.index {
            return point;
        }
        point = next;
    }
    point
}

// Walks on over line feeds and bytes above 13, as far as an index.
fn pass_bytes(bytes: &[u8], point: Point, to: usize) -> Point
    requires fits { length bytes.now ≤ document_limit }
    requires is_point { IsPoint bytes.now point }
    requires at_byte { point.vs ≡ 0 }
    requires forward { point.index ≤ to }
    requires within { to ≤ length bytes.now }
    ensures is_point { IsPoint bytes.now result }
    ensures at_byte { result.vs ≡ 0 }
    ensures from { point.index ≤ result.index }
    ensures forward { result.index ≤ to }
{
    let mut point = pass_groups(bytes, point, to);
    while point.index < to {
        let byte = bytes[point.index];
        if byte > b'\r' {
            point = Point {
                line: point.line,
                column: point.column + 1,
                index: point.index + 1,
                vs: 0,
            };
        } else if byte == b'\n' {
            point = Point {
                line: point.line + 1,
                column: 1,
                index: point.index + 1,
                vs: 0,
            };
        } else {
            return point;
        }
    }
    point
}

// Walks forward to a place that is not behind the start of the code at an index: as a rule to that.
fn near(bytes: &[u8], point: Point, index: usize) -> Point
    requires fits { length bytes.now ≤ document_limit }
    requires is_point { IsPoint bytes.now point }
    requires forward { IsTrue (is_at_or_after (place_of point) (index, 0)) }
    ensures is_point { IsPoint bytes.now result }
    ensures forward { IsTrue (is_at_or_after (place_of result) (index, 0)) }
{
    let to = index.min(bytes.len());
    let mut point = point;
    while point.index < to {
        if point.vs == 0 {
            point = pass_bytes(bytes, point, to);
        }
        if point.index >= to {
            return point;
        }
        let next = past_code(bytes, point);
        if next.index > index || (next.index == index && next.vs > 0) {
            return point;
        }
        point = next;
    }
    point
}

// The places of a document so many bytes apart.
fn marks_of(alloc: Global, bytes: &[u8]) -> Result<Vec<Point>, AllocError>
    requires { length bytes.now ≤ document_limit }
    ensures { IfOk result (λ marks. AreMarks bytes.now marks.items) }
{
    let count = bytes.len() / STRIDE;
    let mut marks = Vec::with_capacity(alloc, count + 1)?;
    let mut last = DOCUMENT_START;
    marks.push(last)?;
    for number in 0..count {
        last = near(bytes, last, (number + 1) * STRIDE);
        marks.push(last)?;
    }
    Ok(marks)
}

impl<'a> Places<'a> {
    /// The places of a document; none where it is not UTF-8, or too long.
    ///
    /// The only error is that memory was refused.
    pub fn over(alloc: Global, bytes: &'a [u8]) -> Result<Option<Places<'a>>, AllocError>
        ensures { IfOk result (λ found.
            MatchOption found (IsDocument bytes.entry.now → ⊥) (λ places. IsDocument bytes.entry.now × (places ≡ bytes.entry.now))) }
    {
        if bytes.len() > DOCUMENT_LIMIT || str::from_utf8(bytes).is_err() {
            return Ok(None);
        }
        let marks = marks_of(alloc, bytes)?;
        Ok(Some(Places { bytes, marks }))
    }

    // A place of the document that is not behind a place, nor far before it.
    fn before(&self, place: (usize, usize)) -> Point
        ensures is_point { IsPoint self.now result }
        ensures forward { IsTrue (is_at_or_after (place_of result) place) }
    {
        let number = (place.0 / STRIDE).min(self.marks.len() - 1);
        near(self.bytes, self.marks[number], place.0)
    }

    // Where the first code of the pieces begins, if that is a place of the document.
    fn first_point(&self, pieces: &[Piece]) -> Option<Point>
        ensures { IsFirst self.now pieces.now result }
    {
        if pieces.is_empty() {
            return Some(DOCUMENT_START);
        }
        let start = pieces[0].start;
        let stretch = reach(self.bytes, self.before(start), start)?;
        Some(stretch.point)
    }

    /// A cursor at the start of these pieces, if they are a content of the document.
    pub fn content<'b>(&'b self, pieces: &'b [Piece]) -> Option<Cursor<'b>>
        ensures { MatchOption result (IsContent self.now pieces.entry.now → ⊥)
            (λ cursor. IsContent self.now pieces.entry.now × (cursor ≡ start_of_content self.now pieces.entry.now)) }
    {
        let point = self.first_point(pieces)?;
        if are_between_characters(self.bytes, pieces)
            && are_pieces_from(self.bytes, point, pieces)
        {
            Some(Cursor::starting_at(self.bytes, pieces, point))
        } else {
            None
        }
    }

    /// A cursor at the start of pieces that are a content of the document.
    pub fn start<'b>(&'b self, pieces: &'b [Piece]) -> Cursor<'b>
        requires { IsContent self.now pieces.now }
        ensures { result ≡ start_of_content self.now pieces.entry.now }
    {
        let point = if pieces.is_empty() {
            DOCUMENT_START
        } else {
            walk_to(self.bytes, self.before(pieces[0].start), pieces[0].start)
        };
        Cursor::starting_at(self.bytes, pieces, point)
    }

    /// As `content::is_content`, of the document's bytes.
    pub fn is_content(&self, pieces: &[Piece]) -> bool
        ensures { IsTrue result ↔ IsContent self.now pieces.now }
    {
        self.content(pieces).is_some()
    }

    /// As `content::is_text`, of the document's bytes.
    pub fn is_text(&self, pieces: &[Piece]) -> bool
        ensures { IsTrue result ↔ IsTextContent self.now pieces.now }
    {
        match self.content(pieces) {
            Some(cursor) => has_text_lines(&cursor),
            None => false,
        }
    }
}
