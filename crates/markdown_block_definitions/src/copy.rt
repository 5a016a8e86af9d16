//! The codes of a document, one by one, and those of a text, copied: their values, and which of them are no later columns of a tab.

ghost use Rattle.std.specs.Prelude.{◌≡◌, ◌<◌, ◌≤◌, ◌+◌, length, drop, true, false, [], IfOk, MatchOption, slice_index};
ghost use Rattle.markdown_content.specs.Codes.{codes_of, is_line_ending_byte, line_ending_len};
ghost use Rattle.markdown_content.specs.Content.{content_of, piece_codes};
ghost use Rattle.markdown_model.specs.CodeTests.{is_value, next_is};
ghost use Rattle.markdown_block_definitions.specs.TextCopies.{IsSpot, IsRead, EndsLine, IsLonger, IsCopied, IsPlainRun, codes_left, is_spot_before, line_spot, past_tab, spot_place};

use markdown_content::bytes::{ByteSet, NO_BYTES};
use markdown_content::cursor::plain_end;
use markdown_content::parser::Piece;
use std::alloc::AllocError;

/// A place of a document in its line.
#[derive(Clone, Copy)]
pub struct Spot {
    /// The index of a byte.
    pub index: usize,
    /// How many codes of the tab there stand before.
    pub vs: usize,
    /// How many columns stand behind the last tab stop.
    pub phase: usize,
}

/// Returns whether a byte is a line feed or a carriage return.
pub fn is_line_ending(byte: u8) -> bool
    ensures { result ≡ is_line_ending_byte byte }
{
    byte == b'\n' || byte == b'\r'
}

/// Returns how many bytes the line ending has that begins at an index (CommonMark 2.1).
pub fn line_ending_len(bytes: &[u8], index: usize) -> usize
    requires { index < length bytes.now }
    ensures { result ≡ line_ending_len (slice_index bytes.now index) (drop (index + 1) bytes.now) }
{
    if bytes[index..].starts_with(b"\r\n") {
        2
    } else {
        1
    }
}

// Whether a line ends right before the byte of an index.
fn ends_line(bytes: &[u8], index: usize) -> bool
    requires some { 0 < index }
    requires within { index ≤ length bytes.now }
    ensures { result ≡ true → EndsLine bytes.now index }
{
    if !is_line_ending(bytes[index - 1]) {
        return false;
    }
    line_ending_len(bytes, index - 1) == 1
}

/// Returns where the line of an index begins.
pub fn line_start(bytes: &[u8], index: usize) -> usize
    ensures spot { IsSpot bytes.now (line_spot result) }
    ensures before { result ≤ index }
{
    let mut start = index.min(bytes.len());
    while start > 0 {
        if ends_line(bytes, start) {
            return start;
        }
        start -= 1;
    }
    start
}

// The place behind a column of a tab.
fn past_tab(spot: Spot) -> Spot
    requires before_end { spot.index < usize.MAX }
    requires inside { spot.vs ≤ 3 }
    ensures { result ≡ past_tab spot }
{
    if spot.phase < 3 {
        return Spot {
            index: spot.index,
            vs: spot.vs + 1,
            phase: spot.phase + 1,
        };
    }
    Spot {
        index: spot.index + 1,
        vs: 0,
        phase: 0,
    }
}

/// Returns the value of the code at a place before the end, and the place behind it.
pub fn read(bytes: &[u8], spot: Spot) -> (u8, Spot)
    requires is_spot { IsSpot bytes.now spot }
    requires begins { spot.index < length bytes.now }
    ensures { IsRead bytes.now spot result.0 result.1 }
{
    let byte = bytes[spot.index];
    if is_line_ending(byte) {
        let behind = Spot {
            index: spot.index + line_ending_len(bytes, spot.index),
            vs: 0,
            phase: 0,
        };
        return (b'\n', behind);
    }
    if byte != b'\t' {
        let behind = Spot {
            index: spot.index + 1,
            vs: 0,
            phase: (spot.phase + 1) % 4,
        };
        return (byte, behind);
    }
    if spot.vs > 0 {
        return (b' ', past_tab(spot));
    }
    (b'\t', past_tab(spot))
}

/// Returns whether a place stands before another.
pub fn is_before(spot: Spot, place: (usize, usize)) -> bool
    ensures { result ≡ is_spot_before spot place }
{
    spot.index < place.0 || (spot.index == place.0 && spot.vs < place.1)
}

/// Returns the place of the first code of a piece, or one behind it where it has none.
pub fn first_spot(bytes: &[u8], piece: Piece) -> Spot
    ensures stands { IsSpot bytes.now result }
    ensures left { piece_codes (codes_of bytes.now) piece ≡ codes_left bytes.now piece (spot_place result) }
    ensures started { result.index < length bytes.now → is_spot_before result piece.start ≡ false }
{
    let mut spot = Spot {
        index: line_start(bytes, piece.start.0),
        vs: 0,
        phase: 0,
    };
    while spot.index < bytes.len() {
        if !is_before(spot, piece.start) {
            return spot;
        }
        let (_, behind) = read(bytes, spot);
        spot = behind;
    }
    spot
}

/// Returns the place behind those bytes above 13 that stand at a place of a piece, which may be none: each is a code.
pub fn past_plain(bytes: &[u8], piece: Piece, spot: Spot) -> Spot
    requires is_spot { IsSpot bytes.now spot }
    requires begins { spot.index < length bytes.now }
    requires started { is_spot_before spot piece.start ≡ false }
    requires before_end { is_spot_before spot piece.end ≡ true }
    ensures { IsPlainRun bytes.now piece spot result }
{
    let stop = piece.end.0.min(bytes.len());
    let index = plain_end(bytes, spot.index, stop, &ByteSet::new(&NO_BYTES));
    Spot {
        index,
        vs: spot.vs,
        phase: (spot.phase + (index - spot.index) % 4) % 4,
    }
}

// Appends codes that stand at a place of a piece, one at least, and returns the place behind them.
fn push_codes(
    bytes: &[u8],
    piece: Piece,
    spot: Spot,
    values: &mut Vec<u8>,
    firsts: &mut Vec<bool>,
) -> Result<Spot, AllocError>
    requires is_spot { IsSpot bytes.now spot }
    requires begins { spot.index < length bytes.now }
    requires started { is_spot_before spot piece.start ≡ false }
    requires before_end { is_spot_before spot piece.end ≡ true }
    ensures { IfOk result (λ behind. IsCopied bytes.now piece spot behind values.old.items firsts.old.items values.new.items firsts.new.items) }
{
    let behind = past_plain(bytes, piece, spot);
    if behind.index > spot.index {
        values.extend_from_slice(&bytes[spot.index..behind.index])?;
        firsts.resize(firsts.len() + (behind.index - spot.index), true)?;
        return Ok(behind);
    }
    let (value, behind) = read(bytes, spot);
    values.push(value)?;
    firsts.push(spot.vs == 0)?;
    Ok(behind)
}

// Appends the codes of a piece.
fn push_piece(
    bytes: &[u8],
    piece: Piece,
    values: &mut Vec<u8>,
    firsts: &mut Vec<bool>,
) -> Result<(), AllocError>
    ensures { IfOk result (λ _. IsLonger values.old.items firsts.old.items values.new.items firsts.new.items (piece_codes (codes_of bytes.now) piece)) }
{
    let mut spot = first_spot(bytes, piece);
    while spot.index < bytes.len() {
        if !is_before(spot, piece.end) {
            return Ok(());
        }
        spot = push_codes(bytes, piece, spot, values, firsts)?;
    }
    Ok(())
}

// The value of the first code of a piece, or `None` if it has no codes.
pub(crate) fn first_value(bytes: &[u8], piece: Piece) -> Option<u8>
    ensures { MatchOption result (piece_codes (codes_of bytes.now) piece ≡ []) (λ v. next_is (is_value v) (piece_codes (codes_of bytes.now) piece) ≡ true) }
{
    let spot = first_spot(bytes, piece);
    if spot.index >= bytes.len() {
        return None;
    }
    if !is_before(spot, piece.end) {
        return None;
    }
    let (value, _) = read(bytes, spot);
    Some(value)
}

// Appends the codes of a text: their values, and which of them are no later columns of a tab. The only error is that memory was refused.
pub(crate) fn push_text(
    bytes: &[u8],
    text: &[Piece],
    values: &mut Vec<u8>,
    firsts: &mut Vec<bool>,
) -> Result<(), AllocError>
    ensures { IfOk result (λ _. IsLonger values.old.items firsts.old.items values.new.items firsts.new.items (content_of bytes.now text.now)) }
{
    for piece in text {
        push_piece(bytes, *piece, values, firsts)?;
    }
    Ok(())
}
