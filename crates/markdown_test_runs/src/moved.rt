//! Texts and strings found again as contents of a prepared document, with text before and behind them.
use markdown_inline::document::Document;
use markdown_inline::event::{Event, Point};
use markdown_inline::parser::{ParseState, Piece};
use markdown_inline::run::Run;
use std::alloc::{AllocError, Global};

// What stands before a content: so long that places of it are known to the document. A line ending of two bytes lies across byte 128.
const BEFORE: &str =
    "> a *b* [c]\t\n\tof `two\rlines`, é & 漢字 behind\n\n- more of it, up to a place that is known: 0123456789 0123456789 012345678901\r\n\r\n# d\n";
// How many line endings that has.
const LINES: usize = 7;
// What stands behind it. Runs of markers and literals look at the character behind a content, which is whitespace as at the end of a document.
const BEHIND: &str = "\r*]`</a>\n";

// So many bytes and lines further on.
#[derive(Clone, Copy)]
struct Move {
    bytes: usize,
    lines: usize,
}

// These pieces so many bytes further on.
fn moved_pieces(alloc: Global, pieces: &[Piece], by: usize) -> Result<Vec<Piece>, AllocError> {
    let mut moved = Vec::new(alloc);
    for piece in pieces {
        moved.push(Piece {
            start: (piece.start.0.saturating_add(by), piece.start.1),
            end: (piece.end.0.saturating_add(by), piece.end.1),
        })?;
    }
    Ok(moved)
}

// The event so many bytes and lines further on.
fn moved_event(event: Event, by: usize, lines: usize) -> Event {
    let point = Point {
        line: event.point.line.saturating_add(lines),
        index: event.point.index.saturating_add(by),
        ..event.point
    };
    Event { point, ..event }
}

// Whether a run found the same so many bytes and lines further on.
fn is_moved(run: &Run, again: &Run, by: usize, lines: usize) -> bool {
    run.probes == again.probes
        && run.events.len() == again.events.len()
        && run
            .events
            .iter()
            .zip(again.events.iter())
            .all(|(event, other)| moved_event(*event, by, lines) == *other)
}

// These names once more.
fn copied(alloc: Global, names: &[String]) -> Result<Vec<String>, AllocError> {
    let mut copied = Vec::new(alloc);
    for name in names {
        copied.push(name.clone()?)?;
    }
    Ok(copied)
}

// What is found in a content of a document: read as a text, which may be the first of an item, or else as a string.
fn read(
    alloc: Global,
    document: &Document,
    pieces: &[Piece],
    first_of_item: Option<bool>,
) -> Result<Option<Run>, AllocError> {
    let Some(content) = document.content(pieces) else {
        return Ok(None);
    };
    match first_of_item {
        None => Ok(Some(content.string(alloc)?)),
        Some(first) if content.is_text() => Ok(Some(content.text(alloc, first)?)),
        Some(_) => Ok(None),
    }
}

// Gives a document the definitions of another one.
fn redefine(
    alloc: Global,
    document: &mut Document,
    parse_state: &ParseState,
) -> Result<(), AllocError> {
    let definitions = copied(alloc, parse_state.definitions.as_slice())?;
    let footnotes = copied(alloc, parse_state.gfm_footnote_definitions.as_slice())?;
    document.redefine(alloc, definitions, footnotes)
}

// Whether a content of a prepared document has what was found, moved so.
fn is_read_again(
    alloc: Global,
    document: &Document,
    pieces: &[Piece],
    by: Move,
    first_of_item: Option<bool>,
    found: &Option<Run>,
) -> Result<bool, AllocError> {
    let pieces = moved_pieces(alloc, pieces, by.bytes)?;
    let again = read(alloc, document, pieces.as_slice(), first_of_item)?;
    Ok(match (found, &again) {
        (Some(run), Some(again)) => is_moved(run, again, by.bytes, by.lines),
        (None, None) => true,
        _ => false,
    })
}

// Whether what was found stands, moved so, in this text as a prepared document, which learns its definitions later.
fn is_found_in(
    alloc: Global,
    bytes: &[u8],
    parse_state: &ParseState,
    pieces: &[Piece],
    by: Move,
    first_of_item: Option<bool>,
    found: &Option<Run>,
) -> Result<bool, AllocError> {
    let given = ParseState {
        bytes,
        options: parse_state.options,
        definitions: Vec::new(alloc),
        gfm_footnote_definitions: Vec::new(alloc),
    };
    let Some(mut document) = Document::new(alloc, given)? else {
        return Ok(false);
    };
    match redefine(alloc, &mut document, parse_state) {
        Ok(()) => is_read_again(alloc, &document, pieces, by, first_of_item, found),
        Err(AllocError) => Err(AllocError),
    }
}

/// Whether what is found in a content is also found in it as one of a prepared document, with text before and behind it, which learns its definitions later. Where nothing is found,
/// none stands there.
pub(crate) fn is_found_again(
    alloc: Global,
    parse_state: &ParseState,
    pieces: &[Piece],
    first_of_item: Option<bool>,
    found: &Option<Run>,
) -> Result<bool, AllocError> {
    let is_alone = found.is_none() || pieces.is_empty();
    let (before, behind, lines) = if is_alone {
        ("", "", 0)
    } else {
        (BEFORE, BEHIND, LINES)
    };
    let by = Move {
        bytes: before.len(),
        lines,
    };
    let text = str::from_utf8(parse_state.bytes).unwrap_or("");
    let text = format!(in alloc; "{before}{text}{behind}")?;
    is_found_in(
        alloc,
        text.as_bytes(),
        parse_state,
        pieces,
        by,
        first_of_item,
        found,
    )
}
