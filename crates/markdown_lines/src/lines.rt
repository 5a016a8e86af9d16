//! The pieces of a paragraph, by where its lines begin (CommonMark 4.8).
//!
//! The start of a line is the byte at which the paragraph's part of the line begins: behind the markers of quotes and items. Blanks may stand there.
//! In the document `> a *b`, LF, `> c*` the starts 1 and 8, or 2 and 9, make the pieces 2 to 7 and 9 to 11.

ghost use Rattle.std.specs.Prelude.{◌≡◌, ◌+◌, ◌≤◌, ◌↔◌, ◌-◌, IfErr, IfOk, IfSome, IsTrue, if◌then◌else◌, drop, length, take};
ghost use Rattle.std.specs.List.{suffix_len};
ghost use Rattle.std.specs.Str.{IsCharBoundary};
ghost use Rattle.markdown_content.specs.Codes.{is_line_ending_byte};
ghost use Rattle.markdown_lines.specs.PiecesOfLines.{AreLines, AreLinesRefused, IsOnNextLine, IsStartFault, MayBegin, ending_len, first_ink, ink_end, is_blank_byte, is_filled, last_piece, line_end, line_piece, line_stop, pieces_of_lines};

use markdown_content::parser::Piece;
use std::alloc::{AllocError, Global};

/// Why starts are not those of a paragraph's lines.
#[derive(Clone, Copy, Debug, PartialEq, Eq)]
pub enum LineFault {
    /// The start of this number stands inside a character or behind the end of the document, or not on the line behind that of the start before.
    Misplaced(usize),
    /// The line of the start of this number has only spaces and tabs behind it.
    Blank(usize),
}

fn is_blank_byte(byte: u8) -> bool
    ensures { result ≡ is_blank_byte byte }
{
    byte == b' ' || byte == b'\t'
}

fn is_line_ending_byte(byte: u8) -> bool
    ensures { result ≡ is_line_ending_byte byte }
{
    byte == b'\n' || byte == b'\r'
}

// The first byte from an index on that is no space or tab.
#[tactic(auto, using(crate::proofs::FirstBytes::passed, crate::proofs::FirstBytes::found, crate::proofs::FirstBytes::at_end))]
fn first_ink(bytes: &[u8], at: usize) -> usize
    requires { at ≤ length bytes.now }
    ensures value { result ≡ first_ink bytes.now at }
    ensures within { result ≤ length bytes.now }
{
    let mut ink = at;
    while ink < bytes.len() && is_blank_byte(bytes[ink]) {
        ink += 1;
    }
    ink
}

// Where the line has its ending.
#[tactic(auto, using(crate::proofs::FirstBytes::passed, crate::proofs::FirstBytes::found, crate::proofs::FirstBytes::at_end))]
fn line_stop(bytes: &[u8], at: usize) -> usize
    requires { at ≤ length bytes.now }
    ensures value { result ≡ line_stop bytes.now at }
    ensures within { result ≤ length bytes.now }
{
    let mut stop = at;
    while stop < bytes.len() && !is_line_ending_byte(bytes[stop]) {
        stop += 1;
    }
    stop
}

// How many bytes the line ending at an index has.
#[tactic(auto, using(crate::proofs::FirstBytes::two_bytes, crate::proofs::FirstBytes::one_byte, crate::proofs::FirstBytes::last_byte, crate::proofs::FirstBytes::no_byte))]
fn ending_len(bytes: &[u8], at: usize) -> usize
    requires { at ≤ length bytes.now }
    ensures value { result ≡ ending_len (drop at bytes.now) }
    ensures within { at + result ≤ length bytes.now }
{
    let left = bytes.len() - at;
    if left == 0 {
        return 0;
    }
    if left > 1 && bytes[at] == b'\r' && bytes[at + 1] == b'\n' {
        return 2;
    }
    1
}

// Just behind the line's ending.
fn line_end(bytes: &[u8], at: usize) -> usize
    requires { at ≤ length bytes.now }
    ensures value { result ≡ line_end bytes.now at }
    ensures within { result ≤ length bytes.now }
{
    let stop = line_stop(bytes, at);
    stop + ending_len(bytes, stop)
}

// Where the blanks begin that stand before an index.
#[tactic(auto, using(crate::proofs::FirstBytes::one_blank, crate::proofs::FirstBytes::no_blank))]
fn blanks_begin(bytes: &[u8], stop: usize) -> usize
    requires { stop ≤ length bytes.now }
    ensures { result ≡ stop - suffix_len is_blank_byte (take stop bytes.now) }
{
    let mut end = stop;
    while end > 0 && is_blank_byte(bytes[end - 1]) {
        end -= 1;
    }
    end
}

// Where the blanks begin that stand before the line's ending.
fn ink_end(bytes: &[u8], at: usize) -> usize
    requires { at ≤ length bytes.now }
    ensures { result ≡ ink_end bytes.now at }
{
    blanks_begin(bytes, line_stop(bytes, at))
}

// Whether an index stands between two characters, or at an end of them.
fn is_char_boundary(bytes: &[u8], index: usize) -> bool
    ensures { IsTrue result ↔ IsCharBoundary bytes.now index }
{
    match bytes.get(index) {
        Some(byte) => *byte < 128 || *byte >= 192,
        None => index == bytes.len(),
    }
}

// Whether a start stands on the line behind that of another.
fn is_on_next_line(bytes: &[u8], at: usize, next: usize) -> bool
    requires { at ≤ length bytes.now }
    ensures { IsTrue result ↔ IsOnNextLine bytes.now at next }
{
    let end = line_end(bytes, at);
    end <= next && next <= line_stop(bytes, end)
}

// Whether a line may begin here, behind the one before if there is one.
fn may_begin(bytes: &[u8], before: Option<usize>, at: usize) -> bool
    requires { IfSome before (λ b. b ≤ length bytes.now) }
    ensures { IsTrue result ↔ MayBegin bytes.now before at }
{
    match before {
        None => is_char_boundary(bytes, at),
        Some(before) => is_char_boundary(bytes, at) && is_on_next_line(bytes, before, at),
    }
}

// Whether the line has more than spaces and tabs behind its start.
fn is_filled(bytes: &[u8], at: usize) -> bool
    requires { at ≤ length bytes.now }
    ensures { result ≡ is_filled bytes.now at }
{
    match bytes.get(first_ink(bytes, at)) {
        Some(byte) => !is_line_ending_byte(*byte),
        None => false,
    }
}

// Whether a start is that of a line behind the one before, or else what is wrong with the start of this number.
#[tactic(auto, using(crate::proofs::StartsInOrder::start_within))]
fn check_start(
    bytes: &[u8],
    before: Option<usize>,
    at: usize,
    number: usize,
) -> Result<(), LineFault>
    requires { IfSome before (λ b. b ≤ length bytes.now) }
    ensures ok { IfOk result (λ _. MayBegin bytes.now before at × IsTrue (is_filled bytes.now at)) }
    ensures err { IfErr result (IsStartFault bytes.now before at number) }
{
    if !may_begin(bytes, before, at) {
        return Err(LineFault::Misplaced(number));
    }
    if !is_filled(bytes, at) {
        return Err(LineFault::Blank(number));
    }
    Ok(())
}

/// Whether these are the starts of a paragraph's lines, or else which start is the first that is not, and why.
///
/// Each start stands between characters of the document, and its line has more than spaces and tabs behind it. Each but the first stands on the line
/// behind that of the start before. The time is in proportion to the lines, and not to the document.
#[tactic(auto, using(crate::proofs::StartsInOrder::none_yet, crate::proofs::StartsInOrder::one_more, crate::proofs::StartsInOrder::all_checked, crate::proofs::StartsInOrder::first_refused))]
pub fn check_lines(bytes: &[u8], starts: &[usize]) -> Result<(), LineFault>
    ensures ok { IfOk result (λ _. AreLines bytes.now starts.now) }
    ensures err { IfErr result (AreLinesRefused bytes.now starts.now) }
{
    let mut before = None;
    for number in 0..starts.len() {
        check_start(bytes, before, starts[number], number)?;
        before = Some(starts[number]);
    }
    Ok(())
}

// The piece of a line, which may be the last one.
fn piece_of_line(bytes: &[u8], at: usize, is_last: bool) -> Piece
    requires { at ≤ length bytes.now }
    ensures { result ≡ (if is_last then last_piece bytes.now at else line_piece bytes.now at) }
{
    let start = first_ink(bytes, at);
    let end = if is_last {
        ink_end(bytes, at)
    } else {
        line_end(bytes, at)
    };
    Piece {
        start: (start, 0),
        end: (end, 0),
    }
}

/// The pieces of a paragraph whose lines have these starts.
///
/// Each begins at the first byte from its start on that is no space or tab, and ends just behind its line's ending; the last one ends before the whitespace
/// at its end. So no column of a tab comes before a piece. The only error is that memory was refused.
#[tactic(auto, using(crate::proofs::StartsInOrder::each_within, crate::proofs::PiecesInTurn::no_piece, crate::proofs::PiecesInTurn::piece_more, crate::proofs::PiecesInTurn::all_pieces))]
pub fn pieces_of_lines(
    alloc: Global,
    bytes: &[u8],
    starts: &[usize],
) -> Result<Vec<Piece>, AllocError>
    requires { AreLines bytes.now starts.now }
    ensures { IfOk result (λ pieces. pieces.items ≡ pieces_of_lines bytes.now starts.now) }
{
    let mut pieces = Vec::new(alloc);
    for number in 0..starts.len() {
        let is_last = number + 1 == starts.len();
        pieces.push(piece_of_line(bytes, starts[number], is_last))?;
    }
    Ok(pieces)
}
