//! Reads documents from standard input, one a line, and prints of each what its texts have at their front, a line a document.
//!
//! In a document `|` stands for a line feed, and `~` for a tab. In a line of answer a paragraph is `p`, a heading that an underline made `h`, and a
//! thematic break `b`. Behind the first two stand the link reference definitions at the front, each as `[label]<destination>(title)`, and how many pieces
//! the text has in the document without its definitions. HTML is `m`, and front matter `f`, with how many pieces it has. An item is `-` in a tight list and `=` in a loose one. Before it stands `{` where it begins the
//! list, and behind it `}` where it ends the list. Before each of these stands the last digit of the number of the line on which it begins.
//!
//! Where memory is refused, the answers end there, and the status is 3.
#![tactic(auto)]

use markdown_block_definitions::document;
use markdown_block_definitions::front::{Definition, definitions_at_front};
use markdown_block_line::containers::Container;
use markdown_block_line::extensions::Extensions;
use markdown_blocks::block::{Leaf, Row};
use markdown_content::parser::Piece;
use markdown_page::lists::{Place, places};
use std::alloc::{AllocError, Global};
use std::io::{Read, Write};
use std::process::ExitCode;

// What is read beside CommonMark's blocks: all that the reader knows.
const EXTENSIONS: Extensions = Extensions {
    math: true,
    front_matter: true,
};

// Appends a text between two marks, with its line feeds and tabs as in a document of the input.
fn push_text(out: &mut Vec<u8>, open: u8, text: &[u8], close: u8) -> Result<(), AllocError> {
    out.push(open)?;
    for byte in text {
        match *byte {
            b'\n' => out.push(b'|')?,
            b'\t' => out.push(b'~')?,
            byte => out.push(byte)?,
        }
    }
    out.push(close)?;
    Ok(())
}

fn push_definition(out: &mut Vec<u8>, definition: &Definition) -> Result<(), AllocError> {
    push_text(out, b'[', definition.label.as_slice(), b']')?;
    push_text(out, b'<', definition.destination.as_slice(), b'>')?;
    if let Some(title) = &definition.title {
        push_text(out, b'(', title.as_slice(), b')')?;
    }
    Ok(())
}

// Appends the last digit of a number.
fn push_digit(out: &mut Vec<u8>, number: usize) -> Result<(), AllocError> {
    Ok(out.push(b'0' + (number % 10) as u8)?)
}

// Appends the line of a leaf that is printed.
fn push_line(out: &mut Vec<u8>, leaf: &Leaf, line: usize) -> Result<(), AllocError> {
    match leaf {
        Leaf::Paragraph(_)
        | Leaf::Underlined(_, _)
        | Leaf::ThematicBreak
        | Leaf::Html(_, _, _)
        | Leaf::FrontMatter(_) => push_digit(out, line),
        _ => Ok(()),
    }
}

// Appends what a text has at its front, and how many pieces it has without.
fn push_front(
    alloc: Global,
    out: &mut Vec<u8>,
    document: &[u8],
    text: &[Piece],
    left: &[Piece],
) -> Result<(), AllocError> {
    let front = definitions_at_front(alloc, document, text)?;
    for definition in &front.definitions {
        push_definition(out, definition)?;
    }
    push_digit(out, left.len())
}

fn push_leaf(
    alloc: Global,
    out: &mut Vec<u8>,
    document: &[u8],
    leaf: &Leaf,
    resolved: &Leaf,
) -> Result<(), AllocError> {
    match (leaf, resolved) {
        (Leaf::Paragraph(text), Leaf::Paragraph(left)) => {
            out.push(b'p')?;
            push_front(alloc, out, document, text.as_slice(), left.as_slice())?;
        }
        (Leaf::Underlined(_, text), Leaf::Underlined(_, left)) => {
            out.push(b'h')?;
            push_front(alloc, out, document, text.as_slice(), left.as_slice())?;
        }
        (Leaf::ThematicBreak, _) => out.push(b'b')?,
        (Leaf::Html(_, text, _), _) => {
            out.push(b'm')?;
            push_digit(out, text.len())?;
        }
        (Leaf::FrontMatter(lines), _) => {
            out.push(b'f')?;
            push_digit(out, lines.len())?;
        }
        _ => {}
    }
    Ok(())
}

// Appends where an item stands in its list.
fn push_place(out: &mut Vec<u8>, place: Place) -> Result<(), AllocError> {
    if place.begins {
        out.push(b'{')?;
    }
    out.push(if place.is_loose { b'=' } else { b'-' })?;
    if place.ends {
        out.push(b'}')?;
    }
    Ok(())
}

// Appends a row, with its place in its list and its line, and as it is without its definitions.
fn push_row(
    alloc: Global,
    out: &mut Vec<u8>,
    document: &[u8],
    row: &Row,
    left: &Row,
    place: Place,
    line: usize,
) -> Result<(), AllocError> {
    match (row, left) {
        (Row::LeafAt(_, leaf), Row::LeafAt(_, left)) => {
            push_line(out, leaf, line)?;
            push_leaf(alloc, out, document, leaf, left)
        }
        (Row::ContainerAt(_, Container::Item(_, _)), _) => {
            push_digit(out, line)?;
            push_place(out, place)
        }
        _ => Ok(()),
    }
}

// Appends the answer to a document.
fn push_answer(alloc: Global, out: &mut Vec<u8>, document: &[u8]) -> Result<(), AllocError> {
    if document.len() <= usize::MAX / 8 {
        let blocks = document::blocks(alloc, EXTENSIONS, document)?;
        let resolved = document::read(alloc, EXTENSIONS, document)?.blocks;
        let places = places(alloc, document, resolved.rows.as_slice())?;
        let lines = resolved.lines.iter();
        for (((row, left), place), line) in blocks
            .rows
            .iter()
            .zip(resolved.rows.iter())
            .zip(places.iter())
            .zip(lines)
        {
            push_row(alloc, out, document, row, left, *place, *line)?;
        }
    }
    out.push(b'\n')?;
    Ok(())
}

// Appends the answers to all documents of the input.
fn push_answers(alloc: Global, out: &mut Vec<u8>, input: &[u8]) -> Result<(), AllocError> {
    let mut document = Vec::new(alloc);
    for byte in input {
        match *byte {
            b'\n' => {
                push_answer(alloc, out, document.as_slice())?;
                document.clear();
            }
            b'|' => document.push(b'\n')?,
            b'~' => document.push(b'\t')?,
            byte => document.push(byte)?,
        }
    }
    Ok(())
}

fn main(rt: HostRuntime) -> ExitCode {
    let mut input = Vec::new(rt.alloc());
    if rt.stdin().read_to_end(&mut input).is_err() {
        return ExitCode::from(6);
    }
    let mut out = Vec::new(rt.alloc());
    let answered = push_answers(rt.alloc(), &mut out, input.as_slice());
    if rt.stdout().write_all(out.as_slice()).is_err() {
        return ExitCode::from(6);
    }
    match answered {
        Ok(()) => ExitCode::from(0),
        Err(_) => ExitCode::from(3),
    }
}
