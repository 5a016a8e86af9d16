//! Tests whether pieces of a document are a content, and a text.
ghost use Rattle.std.specs.Prelude.{◌≡◌, ◌≤◌, ◌^◌, ◌&&◌, ◌||◌, ◌==◌, ◌↔◌, nat_lt, not, false, if◌then◌else◌, ◌-◌, ◌<◌, [], length, All, IsTrue, IsCharBoundary};
ghost use Rattle.std.specs.Str.{byte};
ghost use Rattle.markdown_content.specs.Codes.{place_of, is_at_or_after};
ghost use Rattle.markdown_content.specs.Content.{document_limit, has_no_blank_line, is_text_codes, is_place, is_piece, IsContent, IsTextContent, IsBetweenCharacters, are_pieces};
ghost use Rattle.markdown_content.specs.ContentTest.{ReachesStretch, longer_by, PassesPiece, PassesNext};
ghost use Rattle.markdown_content.specs.KnownPlaces.{first_place};
ghost use Rattle.markdown_content.specs.Place.{ahead_at};
ghost use Rattle.markdown_content.specs.PlainBytes.{ArePlain};
ghost use Rattle.markdown_content.specs.DocumentWalk.{IsPoint};

use crate::bytes::{ByteSet, NO_BYTES};
use crate::cursor::{Cursor, plain_end};
use crate::parser::Piece;
use crate::walk::{DOCUMENT_START, code_from, past_code};
use markdown_event::event::Point;

/// The longest document, in bytes: an eighth of what a `usize` holds, so that the columns of its tabs can be counted.
pub const DOCUMENT_LIMIT: usize = usize::MAX / 8;

/// A stretch of codes.
#[derive(Clone, Copy)]
pub struct Stretch {
    /// Where it ends.
    pub point: Point,
    /// Whether a code of it is a line ending.
    pub has_line_ending: bool,
    /// Whether the last code of it is a line ending.
    pub ends_line: bool,
}

// Whether the first place stands before the second.
fn is_before(place: (usize, usize), other: (usize, usize)) -> bool
    ensures { result ≡ (nat_lt place.0 other.0 || (place.0 == other.0 && nat_lt place.1 other.1)) }
{
    place.0 < other.0 || (place.0 == other.0 && place.1 < other.1)
}

// Walks on over the ordinary bytes that come next, as far as an index.
fn pass_ordinary(bytes: &[u8], stretch: Stretch, to: usize) -> Stretch
    requires fits { length bytes.now ≤ document_limit }
    requires is_point { IsPoint bytes.now stretch.point }
    ensures longer { result ≡ longer_by (result.point.index - stretch.point.index) stretch }
    ensures forward { stretch.point.index ≤ result.point.index }
    ensures within { stretch.point.index < result.point.index → (result.point.index ≤ to) × (result.point.index ≤ length bytes.now) }
    ensures plain { ArePlain [] bytes.now stretch.point.index result.point.index }
{
    let start = stretch.point.index;
    let end = to.min(bytes.len());
    if end <= start {
        return stretch;
    }
    let count = plain_end(bytes, start, end, &ByteSet::new(&NO_BYTES)) - start;
    if count == 0 {
        return stretch;
    }
    Stretch {
        point: Point {
            line: stretch.point.line,
            column: stretch.point.column + count,
            index: start + count,
            vs: 0,
        },
        has_line_ending: stretch.has_line_ending,
        ends_line: false,
    }
}

// Walks forward to a place, if it is one of the document, whichever codes come before it.
#[inline(never)]
fn walk_on(bytes: &[u8], point: Point, place: (usize, usize)) -> Option<Stretch>
    requires fits { length bytes.now ≤ document_limit }
    requires is_point { IsPoint bytes.now point }
    requires forward { IsTrue (is_at_or_after (place_of point) place) }
    ensures { ReachesStretch bytes.now point place result }
{
    let mut stretch = Stretch {
        point,
        has_line_ending: false,
        ends_line: false,
    };
    while stretch.point.index < bytes.len()
        && is_before((stretch.point.index, stretch.point.vs), place)
    {
        let ends_line = code_from(bytes, stretch.point) == b'\n';
        let next = Stretch {
            point: past_code(bytes, stretch.point),
            has_line_ending: stretch.has_line_ending | ends_line,
            ends_line,
        };
        stretch = pass_ordinary(bytes, next, place.0);
    }
    if (stretch.point.index, stretch.point.vs) == place {
        Some(stretch)
    } else {
        None
    }
}

/// Walks forward from a point to a place not before it, if that is one of the document, over the stretch between: mostly it is the point.
#[inline(always)]
pub fn reach(bytes: &[u8], point: Point, place: (usize, usize)) -> Option<Stretch>
    requires fits { length bytes.now ≤ document_limit }
    requires is_point { IsPoint bytes.now point }
    requires forward { IsTrue (is_at_or_after (place_of point) place) }
    ensures { ReachesStretch bytes.now point place result }
{
    if (point.index, point.vs) == place {
        Some(Stretch {
            point,
            has_line_ending: false,
            ends_line: false,
        })
    } else {
        walk_on(bytes, point, place)
    }
}

// Whether a byte's index, or that of the end, is a place of the document: none is between the bytes of a CR LF.
fn is_place_of_byte(bytes: &[u8], index: usize) -> bool
    ensures { result ≡ is_place bytes.now (index, 0) }
{
    if index >= bytes.len() {
        return index == bytes.len();
    }
    if index == 0 {
        return true;
    }
    if bytes[index] != b'\n' {
        return true;
    }
    bytes[index - 1] != b'\r'
}

// Whether a place that is not before a point is one of the document.
fn is_place(bytes: &[u8], point: Point, place: (usize, usize)) -> bool
    requires fits { length bytes.now ≤ document_limit }
    requires is_point { IsPoint bytes.now point }
    requires forward { IsTrue (is_at_or_after (place_of point) place) }
    ensures { result ≡ is_place bytes.now place }
{
    if place.1 == 0 {
        is_place_of_byte(bytes, place.0)
    } else {
        reach(bytes, point, place).is_some()
    }
}

// Whether a piece that does not start before a point is one of the document.
fn is_piece(bytes: &[u8], point: Point, piece: &Piece) -> bool
    requires fits { length bytes.now ≤ document_limit }
    requires is_point { IsPoint bytes.now point }
    requires forward { IsTrue (is_at_or_after (place_of point) piece.now.start) }
    ensures { result ≡ is_piece bytes.now piece.now }
{
    let Some(start) = reach(bytes, point, piece.start) else {
        return false;
    };
    !is_before(piece.end, piece.start) && is_place(bytes, start.point, piece.end)
}

// Walks forward over a piece, if it is one.
fn pass_piece(bytes: &[u8], point: Point, piece: &Piece) -> Option<Stretch>
    requires fits { length bytes.now ≤ document_limit }
    requires is_point { IsPoint bytes.now point }
    requires forward { IsTrue (is_at_or_after (place_of point) piece.now.start) }
    ensures { PassesPiece bytes.now piece.now result }
{
    let start = reach(bytes, point, piece.start)?;
    if is_before(piece.end, piece.start) {
        return None;
    }
    reach(bytes, start.point, piece.end)
}

// Walks on over the piece after one that ends here, if it may follow that one.
fn pass_next(bytes: &[u8], before: Stretch, piece: &Piece) -> Option<Stretch>
    requires fits { length bytes.now ≤ document_limit }
    requires is_point { IsPoint bytes.now before.point }
    ensures { PassesNext bytes.now before.ends_line before.point piece.now result }
{
    if !before.ends_line {
        return None;
    }
    if is_before(piece.start, (before.point.index, before.point.vs)) {
        return None;
    }
    let gap = reach(bytes, before.point, piece.start)?;
    if gap.has_line_ending {
        return None;
    }
    pass_piece(bytes, gap.point, piece)
}

// Whether the pieces are in order, each a piece of the document.
fn are_pieces(bytes: &[u8], pieces: &[Piece]) -> bool
    requires { length bytes.now ≤ document_limit }
    ensures { result ≡ are_pieces bytes.now pieces.now }
{
    are_pieces_from(bytes, DOCUMENT_START, pieces)
}

/// Whether the pieces, which do not start before a point, are in order, each a piece of the document.
pub fn are_pieces_from(bytes: &[u8], point: Point, pieces: &[Piece]) -> bool
    requires fits { length bytes.now ≤ document_limit }
    requires is_point { IsPoint bytes.now point }
    requires forward { IsTrue (is_at_or_after (place_of point) (first_place (place_of point) pieces.now)) }
    ensures { result ≡ are_pieces bytes.now pieces.now }
{
    let [first, rest @ ..] = pieces else {
        return true;
    };
    if rest.is_empty() {
        return is_piece(bytes, point, first);
    }
    let Some(mut last) = pass_piece(bytes, point, first) else {
        return false;
    };
    for piece in rest {
        let Some(next) = pass_next(bytes, last, piece) else {
            return false;
        };
        last = next;
    }
    true
}

// Whether an index stands between two characters, or at an end of them.
fn is_char_boundary(bytes: &[u8], index: usize) -> bool
    ensures { IsTrue result ↔ IsCharBoundary bytes.now index }
{
    if index < bytes.len() {
        bytes[index] < 128 || bytes[index] >= 192
    } else {
        index == bytes.len()
    }
}

/// Whether both ends of each piece stand between characters, or at an end of the document.
pub fn are_between_characters(bytes: &[u8], pieces: &[Piece]) -> bool
    ensures { IsTrue result ↔ All (IsBetweenCharacters bytes.now) pieces.now }
{
    pieces.iter().all(|piece| {
        is_char_boundary(bytes, piece.start.0) && is_char_boundary(bytes, piece.end.0)
    })
}

/// Whether the pieces are a content of the document.
///
/// The document is UTF-8 of at most `usize::MAX / 8` bytes.
/// The ends of a piece are places of the document on character boundaries, its end not before its start.
/// Each piece but the last ends just after a line ending, and the next one starts on the line after it.
pub fn is_content(bytes: &[u8], pieces: &[Piece]) -> bool
    ensures { IsTrue result ↔ IsContent bytes.now pieces.now }
{
    bytes.len() <= DOCUMENT_LIMIT
        && str::from_utf8(bytes).is_ok()
        && are_between_characters(bytes, pieces)
        && are_pieces(bytes, pieces)
}

// Whether a line has a code that is not blank once this one is read, if `filled` says so before it.
fn is_filled_by(filled: bool, code: u8) -> bool
    ensures { result ≡ (if code == byte "\n" then false else (filled || not (code == byte " " || code == byte "\t"))) }
{
    match code {
        b'\n' => false,
        b' ' | b'\t' => filled,
        _ => true,
    }
}

// Moves past filled lines, the one at the place if `filled` says that it has a code that is not blank, and answers that of the line there.
fn pass_filled(cursor: &mut Cursor, filled: bool) -> bool
    ensures lines { has_no_blank_line result (ahead_at cursor.new) ≡ has_no_blank_line filled (ahead_at cursor.old) }
    ensures left { length (ahead_at cursor.new) ≤ length (ahead_at cursor.old) }
{
    (filled || cursor.stands_at_ink()) && cursor.pass_filled_lines()
}

/// Whether no line of a content is blank, and the last one has no line ending.
pub fn has_text_lines(content: &Cursor) -> bool
    ensures { result ≡ is_text_codes content.now.codes }
{
    let mut cursor = content.restart();
    let is_empty = cursor.current().is_none();
    let mut filled = pass_filled(&mut cursor, is_empty);
    while !(filled && cursor.stands_at_last_byte()) {
        let Some(code) = cursor.current() else {
            return filled;
        };
        if code == b'\n' && !filled {
            return false;
        }
        filled = is_filled_by(filled, code);
        cursor.consume();
        filled = pass_filled(&mut cursor, filled);
    }
    true
}

/// Whether the pieces are a content of the document that is text.
///
/// No line of a text is blank: each has a code besides spaces and tabs. Its last line has no line ending.
pub fn is_text(bytes: &[u8], pieces: &[Piece]) -> bool
    ensures { IsTrue result ↔ IsTextContent bytes.now pieces.now }
{
    is_content(bytes, pieces) && has_text_lines(&Cursor::new(bytes, pieces))
}
