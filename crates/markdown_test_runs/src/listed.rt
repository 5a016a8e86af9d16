//! The events of a run in a list, and those in a list of a prepared document.
ghost use Rattle.markdown_inline.specs.markdown_content.Content.{IsContent, IsTextContent};

use crate::answers::Answers;
use crate::lines::print_list;
use markdown_inline::document::Document;
use markdown_inline::lines::{lines_of, lines_of_list};
use markdown_inline::parser::{ParseState, Piece};
use markdown_inline::run::{ListRun, string_list, text_list};
use std::alloc::{AllocError, Global};

// Whether two runs found the same.
fn are_same(run: &ListRun, other: &ListRun) -> bool {
    if run.probes != other.probes || run.events.len() != other.events.len() {
        return false;
    }
    run.events
        .iter()
        .zip(other.events.iter())
        .all(|(event, other)| event == other)
}

// What is found in a content of a prepared document in which nothing is defined, by the content and by the document; read as a text, which may be the
// first of an item, or else as a string.
fn found_in_document(
    alloc: Global,
    parse_state: &ParseState,
    pieces: &[Piece],
    first_of_item: Option<bool>,
) -> Result<Option<(ListRun, ListRun)>, AllocError> {
    let given = ParseState {
        bytes: parse_state.bytes,
        options: parse_state.options,
        definitions: Vec::new(alloc),
        gfm_footnote_definitions: Vec::new(alloc),
    };
    let Some(document) = Document::new(alloc, given)? else {
        return Ok(None);
    };
    let Some(content) = document.content(pieces) else {
        return Ok(None);
    };
    let first = match first_of_item {
        None => {
            return Ok(Some((
                content.string_list(alloc)?,
                document.string_list(alloc, pieces)?,
            )));
        }
        Some(first) => first,
    };
    if !content.is_text() {
        return Ok(None);
    }
    Ok(Some((
        content.text_list(alloc, first)?,
        document.text_list(alloc, pieces, first)?,
    )))
}

// Whether events are printed alike from their list and as they are.
fn is_printed_alike(alloc: Global, run: &ListRun) -> Result<bool, AllocError> {
    let list = run.events.as_slice();
    let lines = lines_of_list(alloc, &list)?;
    let events = list.to_vec(alloc)?;
    let others = lines_of(alloc, events.as_slice())?;
    Ok(lines.as_slice() == others.as_slice())
}

// Prints the events of a run, and says where a prepared document or their lines have something else. Where memory is refused, it prints nothing.
fn print_same(
    alloc: Global,
    run: &ListRun,
    others: Option<(ListRun, ListRun)>,
    out: &mut Answers,
) -> Result<(), AllocError> {
    let is_printed_alike = is_printed_alike(alloc, run)?;
    print_list(&run.events.as_slice(), out);
    let is_same = match &others {
        Some((content, document)) => are_same(run, content) && are_same(run, document),
        None => false,
    };
    if !is_same {
        out.say(" another in a document");
    }
    if !is_printed_alike {
        out.say(" other lines");
    }
    Ok(())
}

/// Prints the events of a text in which nothing is defined, which stand in a list.
pub(crate) fn print_text_list(
    alloc: Global,
    parse_state: &ParseState,
    pieces: &[Piece],
    first_of_item: bool,
    out: &mut Answers,
) -> Result<(), AllocError>
    requires { IsTextContent parse_state.now.bytes.now pieces.now }
{
    let run = text_list(alloc, parse_state, pieces, first_of_item)?;
    let others = found_in_document(alloc, parse_state, pieces, Some(first_of_item))?;
    print_same(alloc, &run, others, out)
}

/// Prints the events of a string, which stand in a list.
pub(crate) fn print_string_list(
    alloc: Global,
    parse_state: &ParseState,
    pieces: &[Piece],
    out: &mut Answers,
) -> Result<(), AllocError>
    requires { IsContent parse_state.now.bytes.now pieces.now }
{
    let run = string_list(alloc, parse_state, pieces)?;
    let others = found_in_document(alloc, parse_state, pieces, None)?;
    print_same(alloc, &run, others, out)
}
