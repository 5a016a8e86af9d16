//! Pieces, walks over a document, and what is lent of it.
//!
//!     is_content PIECE.. | DOCUMENT   whether the pieces are a content
//!     is_text PIECE.. | DOCUMENT      whether they are a text
//!     walk FROM TO | DOCUMENT         the places of both indices, the place past the code at the first, and the code there
//!     lend PIECE | DOCUMENT           the columns of a tab before the bytes that are lent, the bytes, and the columns of a tab behind them
//!     lend_between FROM TO | TEXT     the same for the bytes from an index to an index, and the text that they are
//!
//! A place is printed as its line, column, index and codes of the tab there.
ghost use Rattle.std.specs.Prelude.{◌≡◌};

use crate::answers::Answers;
use crate::case::Case;
use markdown_content::content::{is_content, is_text};
use markdown_content::parser::Piece;
use markdown_content::util::slice::{Position, Slice};
use markdown_content::walk::{code_from, move_to, past_code, walk_to};
use markdown_event::event::Point;

/// The place before all codes of a document.
pub(crate) const DOCUMENT_START: Point = Point {
    line: 1,
    column: 1,
    index: 0,
    vs: 0,
};

// Appends what a case answers that has these pieces.
pub(crate) fn answer(case: &Case, pieces: &[Piece], out: &mut Answers) {
    let bytes = case.text.as_slice();
    match case.call {
        "is_content" => out.show(is_content(bytes, pieces)),
        "is_text" => out.show(is_text(bytes, pieces)),
        "walk" => walk(bytes, case.number(0), case.number(1), out),
        "lend" => lend(bytes, pieces, out),
        "lend_between" => lend_between(bytes, case.number(0), case.number(1), out),
        _ => out.say(" no such call"),
    }
}

// Appends a place.
pub(crate) fn push_place(out: &mut Answers, place: Point) {
    out.show(place.line);
    out.show(place.column);
    out.show(place.index);
    out.show(place.vs);
}

// Walks to an index, and from there to a later one and past one code.
#[tactic(auto, using(markdown_content::proofs::DocumentPlaces::point_start))]
fn walk(bytes: &[u8], from: usize, to: usize, out: &mut Answers) {
    let first = [Piece {
        start: (0, 0),
        end: (from, 0),
    }];
    let second = [Piece {
        start: (from, 0),
        end: (to, 0),
    }];
    if from >= bytes.len() || !is_content(bytes, &first) || !is_content(bytes, &second) {
        return out.say(" no content");
    }
    let start = move_to(bytes, DOCUMENT_START, from);
    let end = move_to(bytes, start, to);
    let inside = past_code(bytes, start);
    for place in [start, end, inside] {
        push_place(out, place);
        out.say(",");
    }
    if inside.index >= bytes.len() {
        return out.say(" no code");
    }
    out.show(char::from(code_from(bytes, inside)));
}

// Appends what is lent.
fn push_slice(out: &mut Answers, slice: Slice) {
    out.show(slice.before);
    out.show(str::from_utf8(slice.bytes).unwrap_or("no text"));
    out.show(slice.after);
}

// Lends the codes of the only piece.
#[tactic(auto, using(markdown_content::proofs::DocumentPlaces::point_start))]
fn lend(bytes: &[u8], pieces: &[Piece], out: &mut Answers) {
    let [piece] = pieces else {
        return out.say(" no piece");
    };
    let pieces = [*piece];
    if !is_content(bytes, &pieces) {
        return out.say(" no content");
    }
    let start = walk_to(bytes, DOCUMENT_START, piece.start);
    let end = walk_to(bytes, start, piece.end);
    push_slice(out, Slice::from_position(bytes, &Position { start, end }));
}

// Lends the bytes from an index to an index.
fn lend_between(bytes: &[u8], from: usize, to: usize, out: &mut Answers) {
    if from > to || to > bytes.len() || str::from_utf8(&bytes[from..to]).is_err() {
        return out.say(" no text");
    }
    let slice = Slice::from_indices(bytes, from, to);
    push_slice(out, slice);
    out.show(slice.as_str());
}
