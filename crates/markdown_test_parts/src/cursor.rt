//! What a cursor reads.
//!
//!     read PIECE.. | DOCUMENT          a line for each code and for the end: the code, where it begins, the column and index where an event
//!                                      ends that ends before it, the code before it, and the code as a saved cursor has it
//!     stretch PIECE.. | DOCUMENT       the index where the content ends, and a line for each stretch without `-`: how many codes are passed,
//!                                      the column, the code before, and the code that the stretch stops at, which is passed then
//!     holds SET TIMES PIECE.. | DOCUMENT   whether so many codes of the content are in the set, `]` or else `abc`, asked behind the first code
//!     between FROM TO PIECE.. | DOCUMENT   the bytes of the content between two indexes, and whether one piece has them
//!     bytes PIECE.. | DOCUMENT         the bytes of the content, if each code is one
//!     beside INDEX PIECE.. | DOCUMENT  whether a code of the content ends at an index, and whether one begins there
//!     restart PIECE.. | DOCUMENT       how many codes are passed at the end, how many at the start again, and the code there
//!
//! A place is printed as its line, column, index and codes of the tab there.
ghost use Rattle.std.specs.Prelude.{◌≡◌, ◌≤◌, codes};

use crate::answers::Answers;
use crate::case::Case;
use crate::content::push_place;
use markdown_content::byte_table;
use markdown_content::bytes::{ByteSet, ByteTable};
use markdown_content::content::is_content;
use markdown_content::cursor::Cursor;
use markdown_content::parser::Piece;
use std::alloc::{AllocError, Global};

// Appends what a case answers that has these pieces.
pub(crate) fn answer(alloc: Global, case: &Case, pieces: &[Piece], out: &mut Answers) {
    if !is_content(&case.text, pieces) {
        return out.say(" no content");
    }
    let mut cursor = Cursor::new(&case.text, pieces);
    match case.call {
        "read" => read(&mut cursor, out),
        "stretch" => stretch(&mut cursor, out),
        "holds" => holds(&mut cursor, case.word(0), case.number(1), out),
        "between" => between(alloc, &cursor, case, out),
        "bytes" => bytes(&cursor, out),
        "beside" => beside(&cursor, case.number(0), out),
        "restart" => restart(&mut cursor, out),
        _ => out.say(" no such call"),
    }
}

// Appends whether codes stand beside an index.
fn beside(cursor: &Cursor, index: usize, out: &mut Answers) {
    out.show(cursor.has_code_before(index));
    out.show(cursor.has_code_behind(index));
}

// Appends a code as a character.
fn push_code(out: &mut Answers, code: Option<u8>) {
    out.show(code.map(char::from));
}

// Passes a code, if there is one.
fn pass(cursor: &mut Cursor) {
    if cursor.current().is_some() {
        cursor.consume();
    }
}

// No content that ends here has more codes: four for each byte, and for the tab that it may end in.
fn most_codes(cursor: &Cursor) -> usize {
    cursor.end_index().saturating_add(1).saturating_mul(4)
}

// Appends what is known at a place.
fn push_row(cursor: &Cursor, out: &mut Answers) {
    let end = cursor.exit_point();
    out.say("\n   ");
    push_code(out, cursor.current());
    push_place(out, cursor.point());
    out.say(",");
    out.show(end.column);
    out.show(end.index);
    out.say(",");
    push_code(out, cursor.previous());
    push_code(out, cursor.save().current());
}

// Reads a content, a line for each code.
fn read(cursor: &mut Cursor, out: &mut Answers) {
    for _ in 0..most_codes(cursor) {
        if cursor.current().is_none() {
            break;
        }
        push_row(cursor, out);
        pass(cursor);
    }
    push_row(cursor, out);
}

// Appends what is known where a stretch stops.
fn push_stop(cursor: &Cursor, out: &mut Answers) {
    out.say("\n   ");
    out.show(cursor.passed());
    out.show(cursor.point().column);
    push_code(out, cursor.previous());
    push_code(out, cursor.current());
}

const DASH: ByteTable = byte_table!(b'-');

const BRACKET: ByteTable = byte_table!(b']');

const LETTERS: ByteTable = byte_table!(b'a', b'b', b'c');

// Reads a content, a line for each stretch.
fn stretch(cursor: &mut Cursor, out: &mut Answers) {
    let stops = ByteSet::new(&DASH);
    out.show(cursor.end_index());
    for _ in 0..most_codes(cursor) {
        cursor.consume_stretch(&stops);
        push_stop(cursor, out);
        if cursor.current().is_none() {
            break;
        }
        pass(cursor);
    }
}

// Counts codes in a set.
fn holds(cursor: &mut Cursor, set: &str, times: usize, out: &mut Answers) {
    pass(cursor);
    let set = if set == "]" {
        ByteSet::new(&BRACKET)
    } else {
        ByteSet::new(&LETTERS)
    };
    out.show(cursor.holds(&set, times));
}

// Appends the bytes between the first two numbers of a case, and whether one piece has them.
fn between(alloc: Global, cursor: &Cursor, case: &Case, out: &mut Answers) {
    let document: &[u8] = &case.text;
    let (from, to) = (case.number(0), case.number(1).min(document.len()));
    let mut found = Vec::new(alloc);
    match cursor.push_between(&mut found, document, from, to) {
        Ok(()) => {
            out.show(str::from_utf8(found.as_slice()).unwrap_or("not UTF-8"));
            out.show(cursor.is_in_one_piece(from, to));
        }
        Err(AllocError) => out.end(),
    }
}

// Appends the bytes of the content, if each code is one.
fn bytes(cursor: &Cursor, out: &mut Answers) {
    let bytes = cursor.bytes_of_codes();
    out.show(bytes.map(|bytes| str::from_utf8(bytes).unwrap_or("not UTF-8")));
}

// Passes all codes, and starts over.
fn restart(cursor: &mut Cursor, out: &mut Answers) {
    for _ in 0..most_codes(cursor) {
        pass(cursor);
    }
    let again = cursor.restart();
    let first = again.current();
    out.show(cursor.passed());
    out.show(again.passed());
    push_code(out, first);
}
