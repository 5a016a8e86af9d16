//! Which definitions links and images refer to, and which footnotes calls.
ghost use Rattle.markdown_content.specs.LabelTexts.{HasLabelTexts};

use crate::answers::Answers;
use crate::row::Row;
use markdown_inline::definitions::Definitions;
use markdown_inline::event::{Event, Kind, Name};
use markdown_inline::event_list::{EventList, EventSlice};
use markdown_inline::labels::Labels;
use markdown_inline::parser::ParseState;
use markdown_inline::run::{is_text, text_list};
use markdown_inline::tree::Tree;
use std::alloc::{AllocError, Global};

// The definitions of these labels, by rules that do or do not read NUL as U+FFFD.
fn defined(
    alloc: Global,
    labels: &[String],
    nul_is_replaced: bool,
) -> Result<Definitions, AllocError> {
    let mut definitions = Definitions::new(alloc);
    for label in labels {
        definitions.add_by(label.as_str(), nul_is_replaced)?;
    }
    Ok(definitions)
}

// Whether a link, an image or a footnote call begins here.
fn may_refer(event: Event) -> bool {
    event.kind == Kind::Enter
        && matches!(event.name, Name::Link | Name::Image | Name::GfmFootnoteCall)
}

// Prints for each link, image and footnote call where it begins, and the number of what it refers to.
fn print_numbers(
    alloc: Global,
    labels: &Labels,
    events: &EventSlice,
    out: &mut Answers,
) -> Result<(), AllocError>
    requires { HasLabelTexts labels.now.options.now labels.now.bytes.now labels.now.pieces.now }
{
    let tree = Tree::new(alloc, events)?;
    for number in 0..events.len() {
        let event = events.at(number);
        if !may_refer(event) {
            continue;
        }
        out.say(" ");
        out.show(event.name);
        out.count(" ", event.point.index);
        match labels.met(&tree, number)? {
            Some(met) => out.count(" ", met),
            None => out.say(" -"),
        }
    }
    Ok(())
}

// The events of a text that these labels are defined for.
fn events_of(
    alloc: Global,
    row: &Row,
    definitions: &Definitions,
    footnotes: &Definitions,
) -> Result<EventList, AllocError> {
    let parse_state = ParseState {
        bytes: row.document.as_bytes(),
        options: &row.options,
        definitions: definitions.identifiers()?,
        gfm_footnote_definitions: footnotes.identifiers()?,
    };
    let pieces = row.pieces.as_slice();
    if !is_text(parse_state.bytes, pieces) {
        return Ok(EventList::new(alloc));
    }
    Ok(text_list(alloc, &parse_state, pieces, row.asked.first_of_item)?.events)
}

// Prints what the links, images and footnote calls of a text refer to.
fn print_met_among(
    alloc: Global,
    row: &Row,
    definitions: &Definitions,
    footnotes: &Definitions,
    out: &mut Answers,
) -> Result<(), AllocError> {
    let (bytes, pieces) = (row.document.as_bytes(), row.pieces.as_slice());
    if !is_text(bytes, pieces) {
        out.say(" no text");
        return Ok(());
    }
    let events = events_of(alloc, row, definitions, footnotes)?;
    let labels = Labels {
        bytes,
        pieces,
        options: &row.options,
        definitions,
        footnotes,
    };
    print_numbers(alloc, &labels, &events.as_slice(), out)
}

/// Prints what the links, images and footnote calls of a text refer to, where the row defines these labels.
pub(crate) fn print_met(alloc: Global, row: &Row, out: &mut Answers) -> Result<(), AllocError> {
    let nul_is_replaced = row.options.rules().nul_is_replaced;
    let definitions = defined(alloc, row.definitions.as_slice(), nul_is_replaced)?;
    let footnotes = defined(alloc, row.footnotes.as_slice(), nul_is_replaced)?;
    print_met_among(alloc, row, &definitions, &footnotes, out)
}

// The number of the definition that each of these labels refers to.
fn numbers_of(
    alloc: Global,
    definitions: &Definitions,
    labels: &[String],
    nul_is_replaced: bool,
) -> Result<Vec<Option<usize>>, AllocError> {
    let mut numbers = Vec::new(alloc);
    for label in labels {
        let number = if nul_is_replaced {
            definitions.find_by(label.as_str(), true)?
        } else {
            definitions.find(label.as_str())?
        };
        numbers.push(number)?;
    }
    Ok(numbers)
}

/// Prints for each label of the row the number of the definition that it refers to, where the row defines these labels.
pub(crate) fn print_named(alloc: Global, row: &Row, out: &mut Answers) -> Result<(), AllocError> {
    let nul_is_replaced = row.options.rules().nul_is_replaced;
    let labels = row.definitions.as_slice();
    let definitions = defined(alloc, labels, nul_is_replaced)?;
    let numbers = numbers_of(alloc, &definitions, labels, nul_is_replaced)?;
    for number in &numbers {
        match number {
            Some(number) => out.count(" ", *number),
            None => out.say(" -"),
        }
    }
    Ok(())
}
