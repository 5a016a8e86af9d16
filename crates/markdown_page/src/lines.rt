//! Lines of code and of HTML (CommonMark 4.4 to 4.6).

ghost use Rattle.std.specs.Prelude.{◌≡◌, ◌≤◌, ◌<◌, ◌+◌, ◌++◌, ◌∷◌, [], ◌&&◌, ◌||◌, not, ℕ, OnOk, IfOk, length, slice_range, slice_index, drop, true, false, nat_lt, if◌then◌else◌};
ghost use Rattle.markdown_content.specs.Codes.{codes_of, is_line_ending_byte, line_ending_len};
ghost use Rattle.markdown_content.specs.Content.{piece_codes};
ghost use Rattle.markdown_block_definitions.specs.TextCopies.{IsSpot, codes_left, is_spot_before, spot_place};
ghost use Rattle.markdown_page_model.specs.PageTexts.{block_ending, line_html, lines_html, own_ending, text_of};
ghost use Rattle.markdown_page.specs.CodeLines.{text_as, lines_in, begins_before, IsPastColumns};
ghost use Rattle.markdown_page.specs.GivenPage.{bytes_of, page_of};

use crate::given::Given;
use crate::tags::push_ending;
use markdown_block_definitions::copy::{
    Spot, first_spot, is_before, is_line_ending, line_ending_len, read,
};
use markdown_content::bytes::{ByteSet, NO_BYTES};
use markdown_content::cursor::plain_end;
use markdown_content::parser::Piece;
use markdown_html_model::escape::{push_escaped, push_escaped_between, push_replaced};
use markdown_html_model::options::LineEnds;
use std::alloc::AllocError;

// Appends a text as raw HTML, or escaped.
pub(crate) fn push_as(out: &mut Vec<u8>, raw: bool, text: &[u8]) -> Result<(), AllocError>
    ensures { OnOk result (out.new.items ≡ out.old.items ++ text_as raw text.now) }
{
    if raw {
        return push_replaced(out, text);
    }
    push_escaped(out, text)
}

// Appends the codes of a piece that are columns of a tab at a place, and returns the index of the byte behind them.
fn push_columns(
    out: &mut Vec<u8>,
    raw: bool,
    bytes: &[u8],
    piece: Piece,
    from: Spot,
) -> Result<usize, AllocError>
    requires stands { IsSpot bytes.now from }
    requires started { from.index < length bytes.now → is_spot_before from piece.start ≡ false }
    ensures { IfOk result (λ i. IsPastColumns bytes.now piece raw (spot_place from) out.old.items out.new.items i) }
{
    let mut spot = from;
    while spot.vs > 0 {
        let (value, behind) = read(bytes, spot);
        if is_before(spot, piece.end) {
            push_as(out, raw, &[value])?;
        }
        spot = behind;
    }
    Ok(spot.index)
}

// How many bytes begin before a place.
fn bytes_before(place: (usize, usize), len: usize) -> usize
    ensures within { result ≤ len }
    ensures before { (i : ℕ) → i < result → begins_before i place ≡ true }
    ensures behind { (i : ℕ) → result ≤ i → i < len → begins_before i place ≡ false }
{
    if place.0 >= len {
        return len;
    }
    if place.1 > 0 { place.0 + 1 } else { place.0 }
}

// Where the first line ending from an index on stands, or an index that is not before the stop.
fn text_end(bytes: &[u8], from: usize, stop: usize) -> usize
    requires from { from ≤ length bytes.now }
    requires stop { stop ≤ length bytes.now }
    ensures low { from ≤ result }
    ensures high { result ≤ length bytes.now }
    ensures before { from < result → result ≤ stop }
    ensures plain { (i : ℕ) → from ≤ i → i < result → is_line_ending_byte (slice_index bytes.now i) ≡ false }
    ensures ending { result < stop → is_line_ending_byte (slice_index bytes.now result) ≡ true }
{
    let set = ByteSet::new(&NO_BYTES);
    let mut to = from;
    while to < stop {
        to = plain_end(bytes, to, stop, &set);
        if to == stop || is_line_ending(bytes[to]) {
            return to;
        }
        to += 1;
    }
    to
}

// Appends the line ending that begins at an index.
pub(crate) fn push_ending_at(
    given: &Given,
    out: &mut Vec<u8>,
    bytes: &[u8],
    at: usize,
) -> Result<(), AllocError>
    requires { at < length bytes.now }
    ensures { let len = line_ending_len (slice_index bytes.now at) (drop (at + 1) bytes.now) in OnOk result (out.new.items ≡ out.old.items ++ block_ending (page_of given.now) (slice_range bytes.now at (at + len))) }
{
    let len = line_ending_len(bytes, at);
    match given.options.line_ends {
        LineEnds::Kept if len == 1 => push_escaped(out, b"\n"),
        LineEnds::Kept => push_escaped_between(out, bytes, at, at + len),
        LineEnds::Lf => out.extend_from_slice(b"\n"),
        LineEnds::CrLf => out.extend_from_slice(b"\r\n"),
    }
}

// Appends the line ending that begins at an index, or the page's own where the line stops there.
fn push_line_end(
    given: &Given,
    out: &mut Vec<u8>,
    bytes: &[u8],
    at: usize,
    stop: usize,
) -> Result<(), AllocError>
    requires { stop ≤ length bytes.now }
    ensures own { stop ≤ at → OnOk result (out.new.items ≡ out.old.items ++ own_ending (page_of given.now)) }
    ensures ending { at < stop → let len = line_ending_len (slice_index bytes.now at) (drop (at + 1) bytes.now) in OnOk result (out.new.items ≡ out.old.items ++ block_ending (page_of given.now) (slice_range bytes.now at (at + len))) }
{
    if at < stop {
        return push_ending_at(given, out, bytes, at);
    }
    push_ending(given, out)
}

// Appends a line.
fn push_line(given: &Given, out: &mut Vec<u8>, raw: bool, line: Piece) -> Result<(), AllocError>
    ensures { let g = given.now in OnOk result (out.new.items ≡ out.old.items ++ line_html (page_of g) (text_as raw) (piece_codes (codes_of (bytes_of g)) line)) }
{
    let bytes = given.document.parse_state().bytes;
    let from = push_columns(out, raw, bytes, line, first_spot(bytes, line))?;
    let stop = bytes_before(line.end, bytes.len());
    let to = text_end(bytes, from, stop);
    push_as(out, raw, &bytes[from..to])?;
    push_line_end(given, out, bytes, to, stop)
}

// Appends lines.
pub(crate) fn push_lines(
    given: &Given,
    out: &mut Vec<u8>,
    raw: bool,
    lines: &[Piece],
) -> Result<(), AllocError>
    ensures { let g = given.now in OnOk result (out.new.items ≡ out.old.items ++ lines_html (page_of g) (text_as raw) (lines_in (bytes_of g) lines.now)) }
{
    for line in lines {
        push_line(given, out, raw, *line)?;
    }
    Ok(())
}

// Whether all codes up to one are later columns of a tab, where all before it are or not.
pub(crate) fn is_leading(leading: bool, spot: Spot) -> bool
    ensures { result ≡ (leading && nat_lt 0 spot.vs) }
{
    leading && spot.vs > 0
}

// Appends the value of a code, unless it is a later column of a tab behind another code.
fn push_code(out: &mut Vec<u8>, leading: bool, spot: Spot, value: u8) -> Result<(), AllocError>
    ensures { OnOk result (out.new.items ≡ out.old.items ++ (if leading || not (nat_lt 0 spot.vs) then value ∷ [] else [])) }
{
    if leading || spot.vs == 0 {
        out.push(value)?;
    }
    Ok(())
}

// Appends the text of a piece.
pub(crate) fn push_piece_text(
    out: &mut Vec<u8>,
    bytes: &[u8],
    piece: Piece,
) -> Result<(), AllocError>
    ensures { OnOk result (out.new.items ≡ out.old.items ++ text_of (piece_codes (codes_of bytes.now) piece)) }
{
    let mut spot = first_spot(bytes, piece);
    let mut leading = true;
    while spot.index < bytes.len() {
        if !is_before(spot, piece.end) {
            return Ok(());
        }
        let (value, behind) = read(bytes, spot);
        leading = is_leading(leading, spot);
        push_code(out, leading, spot, value)?;
        spot = behind;
    }
    Ok(())
}
