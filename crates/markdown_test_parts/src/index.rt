//! Indices over a content or over names, and sets of bytes. A content is the whole text.
//!
//!     runs HOW BYTE SIZE AT | TEXT       whether runs of this byte and size are ruled out from this place on. HOW is `over` the text, `new`,
//!                                        or `without` any
//!     sequence HOW NAME AT | TEXT        whether the sequence is ruled out from this place on. HOW is `over` the text, or `new`
//!     title FROM TO .. | TEXT            the places, from one to another, from which on a title that ends the resource is not ruled out
//!     brackets START END FROM TO | TEXT  how many opening brackets stand between two indices, as the index from START to END knows it
//!     names NAME.. | FRONT               whether one of the names is the text, and whether one begins so
//!     names_with COUNT NAME..            whether one of the names has so many opening brackets
//!     names_of DEFINITION NOTE | TEXT    how many opening brackets the text has, and for each kind of names whether each name is one of them
//!     places AT PLACE..                  whether the place is one of these
//!     bytes BYTE                         the set of `-` and the tab, whether the byte, given by its number, is in it, and whether it is plain
ghost use Rattle.std.specs.Prelude.{◌≡◌};

use crate::answers::Answers;
use crate::case::{Case, number_of, whole};
use markdown_content::byte_table;
use markdown_content::bytes::{ByteSet, ByteTable};
use markdown_content::content::is_content;
use markdown_content::cursor::Cursor;
use markdown_event::place_index::PlaceIndex;
use markdown_notes::bracket_index::BracketIndex;
use markdown_notes::name_index::{Listed, NameIndex, Names};
use markdown_notes::run_index::RunIndex;
use markdown_notes::sequence_index::{Sequence, SequenceIndex};
use markdown_notes::title_index::TitleIndex;
use std::alloc::{AllocError, Global};

// Appends what a case answers.
pub(crate) fn answer(alloc: Global, case: &Case, out: &mut Answers) {
    let outcome = match case.call {
        "brackets" => brackets(alloc, case, out),
        "names" | "names_with" => names(alloc, case, out),
        "names_of" => names_of(alloc, case, out),
        "places" => places(alloc, case, out),
        "bytes" => return bytes(case, out),
        _ => return answer_over(alloc, case, out),
    };
    out.keep(outcome);
}

// Appends what an index over a content answers.
fn answer_over(alloc: Global, case: &Case, out: &mut Answers) {
    let pieces = whole(&case.text);
    if !is_content(&case.text, &pieces) {
        return out.say(" no content");
    }
    let cursor = Cursor::new(&case.text, &pieces);
    let outcome = match case.call {
        "runs" => runs(alloc, &cursor, case, out),
        "title" => title(alloc, &cursor, case, out),
        "sequence" => return sequence(&cursor, case, out),
        _ => return out.say(" no such call"),
    };
    out.keep(outcome);
}

const SPAN_MARKERS: ByteTable = byte_table!(b'`', b'$');

const BACKTICK: ByteTable = byte_table!(b'`');

// The index that is asked for.
fn runs_of(alloc: Global, cursor: &Cursor, how: &str) -> Result<RunIndex, AllocError> {
    match how {
        "over" => RunIndex::over(alloc, cursor, ByteSet::new(&SPAN_MARKERS)),
        "without" => Ok(RunIndex::without(alloc, ByteSet::new(&BACKTICK))),
        _ => Ok(RunIndex::new(alloc)),
    }
}

// The last run of each size.
fn runs(alloc: Global, cursor: &Cursor, case: &Case, out: &mut Answers) -> Result<(), AllocError> {
    let runs = runs_of(alloc, cursor, case.word(0))?;
    let byte = case.word(1).bytes().next().unwrap_or(0);
    out.show(runs.rules_out(byte, case.number(2), case.number(3)));
    Ok(())
}

// The sequence of a name.
fn sequence_of(name: &str) -> Sequence {
    match name {
        "CommentEnd" => Sequence::CommentEnd,
        "SectionEnd" => Sequence::SectionEnd,
        "InstructionEnd" => Sequence::InstructionEnd,
        "DeclarationEnd" => Sequence::DeclarationEnd,
        "ResourceEnd" => Sequence::ResourceEnd,
        "WwwDot" => Sequence::WwwDot,
        _ => Sequence::SpanMark,
    }
}

// Where the last of each sequence begins.
fn sequence(cursor: &Cursor, case: &Case, out: &mut Answers) {
    let index = if case.word(0) == "over" {
        SequenceIndex::over(cursor)
    } else {
        SequenceIndex::new()
    };
    out.show(index.rules_out(sequence_of(case.word(1)), case.number(2)));
}

// Where titles in parentheses may end, and resources behind them.
fn title(alloc: Global, cursor: &Cursor, case: &Case, out: &mut Answers) -> Result<(), AllocError> {
    let index = TitleIndex::over(alloc, cursor)?;
    for word in case.words(0, alloc)? {
        let (from, to) = word.split_once('-').unwrap_or((word, word));
        push_kept(&index, number_of(from), number_of(to), out);
    }
    Ok(())
}

// The places from one to another that are not ruled out.
fn push_kept(index: &TitleIndex, from: usize, to: usize, out: &mut Answers) {
    for at in from..=to {
        if !index.rules_out(at) {
            out.show(at);
        }
    }
}

// Where opening brackets stand.
fn brackets(alloc: Global, case: &Case, out: &mut Answers) -> Result<(), AllocError> {
    let index = BracketIndex::over(alloc, &case.text, case.number(0), case.number(1))?;
    out.show(index.between(case.number(2), case.number(3)));
    Ok(())
}

// Appends a word as a name.
fn push_name(alloc: Global, names: &mut Vec<String>, word: &str) -> Result<(), AllocError> {
    names.push(String::from_str(alloc, word)?)?;
    Ok(())
}

// The words from this number on, as names.
fn names_from(alloc: Global, case: &Case, from: usize) -> Result<Vec<String>, AllocError> {
    let mut names = Vec::new(alloc);
    for word in case.words(from, alloc)? {
        push_name(alloc, &mut names, word)?;
    }
    Ok(names)
}

// Names in the order of their bytes, or how many brackets they have.
fn names(alloc: Global, case: &Case, out: &mut Answers) -> Result<(), AllocError> {
    let is_counted = case.call == "names_with";
    let names = names_from(alloc, case, usize::from(is_counted))?;
    let index = NameIndex::over(alloc, names.as_slice())?;
    if is_counted {
        out.show(index.has_brackets(case.number(0)));
    } else {
        out.show(index.has(case.characters()));
        out.show(index.begins(case.characters()));
    }
    Ok(())
}

// A word, as the only name.
fn only(alloc: Global, word: &str) -> Result<Vec<String>, AllocError> {
    let mut names = Vec::new(alloc);
    push_name(alloc, &mut names, word)?;
    Ok(names)
}

// The first word as the only definition, the second as the only footnote, and the brackets of a text.
fn names_in<'a>(alloc: Global, case: &Case) -> Result<Names<'a>, AllocError> {
    let definitions = only(alloc, case.word(0))?;
    let notes = only(alloc, case.word(1))?;
    let brackets = BracketIndex::over(alloc, &case.text, 0, case.text.len())?;
    Names::over(alloc, definitions.as_slice(), notes.as_slice(), brackets)
}

// Appends which of the first two words are names.
fn push_names(out: &mut Answers, names: &Listed, case: &Case) {
    out.show((names.has(case.word(0)), names.has(case.word(1))));
}

// The names of definitions and of footnotes, and the brackets of a text.
fn names_of(alloc: Global, case: &Case, out: &mut Answers) -> Result<(), AllocError> {
    let names = names_in(alloc, case)?;
    out.show(names.brackets.between(0, case.text.len()));
    push_names(out, &names.definitions, case);
    push_names(out, &names.footnotes, case);
    Ok(())
}

// Some places of a content.
fn places(alloc: Global, case: &Case, out: &mut Answers) -> Result<(), AllocError> {
    let mut places = Vec::new(alloc);
    for word in case.words(1, alloc)? {
        places.push(number_of(word))?;
    }
    places.sort_unstable();
    let index = PlaceIndex::new(places);
    out.show(index.holds(case.number(0)));
    Ok(())
}

const DASH_OR_TAB: ByteTable = byte_table!(b'-', b'\t');

// A set of bytes.
fn bytes(case: &Case, out: &mut Answers) {
    let set = ByteSet::new(&DASH_OR_TAB);
    let Ok(byte) = u8::try_from(case.number(0)) else {
        return out.say(" no byte");
    };
    out.show(set.as_slice());
    out.show(set.contains(byte));
    out.show(set.again().is_plain(byte));
}
