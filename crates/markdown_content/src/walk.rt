//! Walks over the codes of a document.
ghost use Rattle.std.specs.Prelude.{◌≡◌, ◌<◌, ◌≤◌, ◌+◌, ◌^◌, length, true, false, IsTrue, slice_index, drop};
ghost use Rattle.markdown_content.specs.Codes.{line_ending_len, line_feed, space_value, tab_value, is_line_ending_byte, place_of, point_at, is_at_or_after};
ghost use Rattle.markdown_content.specs.Content.{document_limit, is_place};
ghost use Rattle.markdown_content.specs.DocumentWalk.{IsPoint, next_point, value_from};

use markdown_event::event::Point;

/// How many columns apart tab stops are.
pub const TAB_SIZE: usize = 4;

/// The place before all codes of a document.
pub const DOCUMENT_START: Point = Point {
    line: 1,
    column: 1,
    index: 0,
    vs: 0,
};

/// Answers the place after the code that begins at a place.
///
/// The point is a place of the document before its end, and the document has at most `usize::MAX / 8` bytes.
pub fn past_code(bytes: &[u8], point: Point) -> Point
    requires fits { length bytes.now ≤ document_limit }
    requires is_point { IsPoint bytes.now point }
    requires begins { point.index < length bytes.now }
    ensures next { result ≡ next_point bytes.now point }
    ensures is_point { IsPoint bytes.now result }
{
    let byte = bytes[point.index];
    if byte == b'\n' || byte == b'\r' {
        Point {
            line: point.line + 1,
            column: 1,
            index: point.index + line_ending_len(bytes, point.index),
            vs: 0,
        }
    } else if byte == b'\t' && point.column % TAB_SIZE != 0 {
        Point {
            line: point.line,
            column: point.column + 1,
            index: point.index,
            vs: point.vs + 1,
        }
    } else {
        Point {
            line: point.line,
            column: point.column + 1,
            index: point.index + 1,
            vs: 0,
        }
    }
}

/// Answers the code that begins at a place: a line feed for each line ending, a space for each column of a tab but its first.
///
/// The point is a place of the document before its end.
#[inline(always)]
pub fn code_from(bytes: &[u8], point: Point) -> u8
    requires is_point { IsPoint bytes.now point }
    requires begins { point.index < length bytes.now }
    ensures { value_from bytes.now point ≡ Some result }
{
    let byte = bytes[point.index];
    if byte > b'\r' {
        return byte;
    }
    if byte == b'\n' {
        return b'\n';
    }
    control_from(byte, point.vs)
}

// The code that begins with a byte, of which so many codes stand before, where it is a tab. It is kept out of line, since few bytes are controls.
#[inline(never)]
fn control_from(byte: u8, vs: usize) -> u8
    ensures ending { is_line_ending_byte byte ≡ true → result ≡ line_feed }
    ensures space { byte ≡ tab_value → 0 < vs → result ≡ space_value }
    ensures same { is_line_ending_byte byte ≡ false → (byte ≡ tab_value → vs ≤ 0) → result ≡ byte }
{
    if byte == b'\n' || byte == b'\r' {
        b'\n'
    } else if byte == b'\t' && vs > 0 {
        b' '
    } else {
        byte
    }
}

// The number of bytes of the line ending that begins at an index.
fn line_ending_len(bytes: &[u8], index: usize) -> usize
    requires { index < length bytes.now }
    ensures { result ≡ line_ending_len (slice_index bytes.now index) (drop (index + 1) bytes.now) }
{
    if bytes[index..].starts_with(b"\r\n") {
        2
    } else {
        1
    }
}

/// Walks from a place forward to a place given by its index and the codes of the tab there.
///
/// Both are places of the document, the second not before the first.
pub fn walk_to(bytes: &[u8], point: Point, place: (usize, usize)) -> Point
    requires fits { length bytes.now ≤ document_limit }
    requires is_point { IsPoint bytes.now point }
    requires is_place { IsTrue (is_place bytes.now place) }
    requires forward { IsTrue (is_at_or_after (place_of point) place) }
    ensures point { result ≡ point_at bytes.now place }
    ensures place { place_of result ≡ place }
    ensures is_point { IsPoint bytes.now result }
{
    let mut point = point;
    while (point.index, point.vs) != place {
        point = past_code(bytes, point);
    }
    point
}

/// Walks from a place forward to the byte of this index.
///
/// Both are places of the document, the second not before the first.
pub fn move_to(bytes: &[u8], point: Point, index: usize) -> Point
    requires fits { length bytes.now ≤ document_limit }
    requires is_point { IsPoint bytes.now point }
    requires is_place { IsTrue (is_place bytes.now (index, 0)) }
    requires forward { IsTrue (is_at_or_after (place_of point) (index, 0)) }
    ensures point { result ≡ point_at bytes.now (index, 0) }
    ensures place { place_of result ≡ (index, 0) }
    ensures is_point { IsPoint bytes.now result }
{
    walk_to(bytes, point, (index, 0))
}
