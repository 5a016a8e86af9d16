//! The lines of a document (CommonMark 2.1 and 2.2), as values of codes.

ghost use Rattle.std.specs.Prelude.{◌≡◌, ◌≤◌, ◌<◌, ◌+◌, ℕ, length, take, slice_range, slice_index, IfSome, IfOk};
ghost use Rattle.markdown_content.specs.Codes.{place_of, stop_of};
ghost use Rattle.markdown_content.specs.Content.{document_limit};
ghost use Rattle.markdown_content.specs.DocumentWalk.{IsPoint, codes_after};
ghost use Rattle.markdown_model.specs.CodeTests.{values_of};
ghost use Rattle.markdown_block_line.specs.DocumentLines.{line_from, IsLine, IsLineOf};

use markdown_content::bytes::{ByteSet, NO_BYTES};
use markdown_content::cursor::plain_end;
use markdown_content::walk::{code_from, past_code};
use markdown_event::event::Point;
use std::alloc::AllocError;

/// A line of a document.
#[derive(Clone, Copy)]
pub struct Line<'a> {
    /// The values of its codes.
    pub values: &'a [u8],
    /// Where it ends.
    pub stop: Point,
}

/// Returns the line that begins at a place of the document.
///
/// Where its bytes are its codes, they are borrowed. Any other line is copied into the buffer, whose old content goes.
pub fn line_at<'a>(
    bytes: &'a [u8],
    start: Point,
    buffer: &'a mut Vec<u8>,
) -> Result<Line<'a>, AllocError>
    requires fits { length bytes.now ≤ document_limit }
    requires is_point { IsPoint bytes.now start }
    requires begins { start.index < length bytes.now }
    ensures line { IfOk result (λ l. IsLine bytes.now start l.stop) }
    ensures values { IfOk result (λ l. values_of (line_from bytes.now start) ≡ l.values.now) }
{
    if let Some(stop) = plain_line_end(bytes, start) {
        return Ok(Line {
            values: &bytes[start.index..stop.index],
            stop,
        });
    }
    let stop = fill_line(bytes, start, buffer)?;
    Ok(Line {
        values: buffer.as_slice(),
        stop,
    })
}

// Where a line ends whose bytes are its codes, or `None` for another line.
fn plain_line_end(bytes: &[u8], start: Point) -> Option<Point>
    requires fits { length bytes.now ≤ document_limit }
    requires is_point { IsPoint bytes.now start }
    requires begins { start.index < length bytes.now }
    ensures { IfSome result (λ q. IsLineOf bytes.now start q (slice_range bytes.now start.index q.index)) }
{
    let end = plain_end(bytes, start.index, bytes.len(), &ByteSet::new(&NO_BYTES));
    let stop = Point {
        line: start.line,
        column: start.column + (end - start.index),
        index: end,
        vs: 0,
    };
    if end == bytes.len() {
        return Some(stop);
    }
    if bytes[end] != b'\n' {
        return None;
    }
    Some(past_code(bytes, stop))
}

// Copies the values of the codes of a line into the buffer. Returns where it ends.
fn fill_line(bytes: &[u8], start: Point, buffer: &mut Vec<u8>) -> Result<Point, AllocError>
    requires fits { length bytes.now ≤ document_limit }
    requires is_point { IsPoint bytes.now start }
    requires begins { start.index < length bytes.now }
    ensures { IfOk result (λ q. IsLineOf bytes.now start q buffer.new.items) }
{
    buffer.clear();
    let mut point = start;
    while point.index < bytes.len() {
        let value = code_from(bytes, point);
        buffer.push(value)?;
        point = past_code(bytes, point);
        if value == b'\n' {
            return Ok(point);
        }
    }
    Ok(point)
}

// How many bytes from a place on, at most so many, are above 13.
fn plain_len(bytes: &[u8], start: Point, most: usize) -> usize
    requires { IsPoint bytes.now start }
    ensures within { result ≤ most }
    ensures inside { start.index + result ≤ length bytes.now }
    ensures plain { (i : ℕ) → start.index ≤ i → i < start.index + result → 13 < slice_index bytes.now i }
{
    let most = most.min(bytes.len() - start.index);
    plain_end(
        bytes,
        start.index,
        start.index + most,
        &ByteSet::new(&NO_BYTES),
    ) - start.index
}

/// Returns the place behind so many codes.
pub fn past_codes(bytes: &[u8], start: Point, count: usize) -> Point
    requires fits { length bytes.now ≤ document_limit }
    requires is_point { IsPoint bytes.now start }
    requires within { count ≤ length (codes_after bytes.now (place_of start)) }
    ensures place { result ≡ stop_of start (take count (codes_after bytes.now (place_of start))) }
    ensures is_point { IsPoint bytes.now result }
{
    let plain = plain_len(bytes, start, count);
    let mut point = Point {
        column: start.column + plain,
        index: start.index + plain,
        ..start
    };
    for _ in plain..count {
        point = past_code(bytes, point);
    }
    point
}
