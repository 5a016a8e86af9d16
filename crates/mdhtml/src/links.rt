//! The links, images, autolinks and literals of a file, each printed as it is found.

ghost use Rattle.markdown_content.specs.LabelTexts.{HasLabelTexts};

use crate::fault::{self, Fault};
use crate::lines::{Lines, Link};
use crate::task::Task;
use markdown_block_definitions::document::read;
use markdown_block_definitions::front::Definition;
use markdown_block_line::containers::Container;
use markdown_blocks::block::{Leaf, Row};
use markdown_content::content::DOCUMENT_LIMIT;
use markdown_html_model::resolve::{decoding_of, push_resolved};
use markdown_inline::definitions::Definitions;
use markdown_inline::document::Document;
use markdown_inline::event::Name;
use markdown_inline::event_list::EventSlice;
use markdown_inline::labels::Labels;
use markdown_inline::node::Node;
use markdown_inline::parser::{ParseState, Piece};
use markdown_inline::tree::Tree;
use markdown_page::definitions::identifiers;
use markdown_targets::links::target_of;
use markdown_targets::target::{Address, Target};
use std::alloc::{AllocError, Global};

// The word for the kind of link that a node of this name is; `None` if it is no link.
fn kind_of(name: Name) -> Option<&'static str> {
    match name {
        Name::Link => Some("link"),
        Name::Image => Some("image"),
        Name::Autolink => Some("autolink"),
        Name::GfmAutolinkLiteralWww
        | Name::GfmAutolinkLiteralEmail
        | Name::GfmAutolinkLiteralProtocol
        | Name::GfmAutolinkLiteralMailto
        | Name::GfmAutolinkLiteralXmpp => Some("literal"),
        _ => None,
    }
}

// An address without a destination.
fn nowhere(alloc: Global) -> Address {
    Address {
        destination: Vec::new(alloc),
        title: None,
    }
}

// What is left of a number of bytes after those of a destination and a title, if there are as many.
fn without(left: usize, address: &Address) -> Option<usize> {
    let title = match &address.title {
        Some(title) => title.len(),
        None => 0,
    };
    left.checked_sub(address.destination.len())?
        .checked_sub(title)
}

// The definitions of these identifiers, each found by its number.
fn numbered(alloc: Global, identifiers: &[String]) -> Result<Definitions, AllocError> {
    let mut known = Definitions::new(alloc);
    for identifier in identifiers {
        known.push(identifier.as_str())?;
    }
    Ok(known)
}

// Whether a leaf is a blank line, or a paragraph that had definitions alone.
fn is_nothing(leaf: &Leaf) -> bool {
    match leaf {
        Leaf::Blank => true,
        Leaf::Paragraph(text) => text.is_empty(),
        _ => false,
    }
}

// The depth of the item that holds no block yet after a row: a task has its checkbox in the first paragraph of an item (GFM 5.3).
fn begun_after(begun: Option<usize>, row: &Row) -> Option<usize> {
    match row {
        Row::ContainerAt(depth, Container::Item(_, _)) => Some(*depth),
        Row::LeafAt(_, leaf) if is_nothing(leaf) => begun,
        _ => None,
    }
}

// A walk over the texts of a file.
#[derive(Drop)]
struct Walk<'a> {
    alloc: Global,
    document: &'a Document<'a>,
    // The definitions of the file, and their identifiers.
    definitions: &'a [Definition],
    known: &'a Definitions,
    lines: Lines<'a>,
    // How many bytes of definitions references may repeat, and how many of these are left.
    limit: usize,
    left: usize,
}

impl Walk<'_> {
    // A text of a definition with its escapes and character references resolved.
    fn resolved(&self, text: &[u8]) -> Result<Vec<u8>, AllocError> {
        let mut bytes = Vec::new(self.alloc);
        let how = decoding_of(self.document.parse_state().options);
        push_resolved(self.alloc, &mut bytes, how, text)?;
        Ok(bytes)
    }

    // Where a definition leads.
    fn address_of(&self, definition: &Definition) -> Result<Address, AllocError> {
        let title = match &definition.title {
            Some(title) => Some(self.resolved(title.as_slice())?),
            None => None,
        };
        Ok(Address {
            destination: self.resolved(definition.destination.as_slice())?,
            title,
        })
    }

    // Takes what a reference repeats of its definition off the limit.
    fn spend(&mut self, address: &Address) -> Result<(), Fault> {
        match without(self.left, address) {
            Some(left) => {
                self.left = left;
                Ok(())
            }
            None => Err(Fault::Limit(self.limit)),
        }
    }

    // Where the definition of a number leads.
    fn defined(&mut self, number: usize) -> Result<Address, Fault> {
        let Some(definition) = self.definitions.get(number) else {
            return Ok(nowhere(self.alloc));
        };
        let address = self.address_of(definition)?;
        self.spend(&address)?;
        Ok(address)
    }

    // Where a node leads.
    fn address(&mut self, labels: &Labels, tree: &Tree, node: Node) -> Result<Address, Fault>
        requires { HasLabelTexts labels.now.options.now labels.now.bytes.now labels.now.pieces.now }
    {
        match target_of(self.alloc, labels, tree, node.enter)? {
            Some(Target::Here(address)) => Ok(address),
            Some(Target::Definition(number)) => self.defined(number),
            _ => Ok(nowhere(self.alloc)),
        }
    }

    // Prints the line of a node, if it is a link.
    fn node(&mut self, labels: &Labels, tree: &Tree, node: Node) -> Result<(), Fault>
        requires { HasLabelTexts labels.now.options.now labels.now.bytes.now labels.now.pieces.now }
    {
        let Some(kind) = kind_of(node.name) else {
            return Ok(());
        };
        let Address { destination, title } = self.address(labels, tree, node)?;
        let title = title.unwrap_or(Vec::new(self.alloc));
        self.lines.push(&Link {
            place: node.start,
            kind,
            destination: String::from_utf8_lossy(self.alloc, destination.as_slice())?,
            title: String::from_utf8_lossy(self.alloc, title.as_slice())?,
        })
    }

    // Prints a line for each link among the events of a text.
    fn events(&mut self, labels: &Labels, events: &EventSlice) -> Result<(), Fault>
        requires { HasLabelTexts labels.now.options.now labels.now.bytes.now labels.now.pieces.now }
    {
        let tree = Tree::new(self.alloc, events)?;
        for number in 0..events.len() {
            if let Some(node) = tree.node(number) {
                self.node(labels, &tree, node)?;
            }
        }
        Ok(())
    }

    // Prints a line for each link of a text, which may be the first block of a list item.
    fn text(&mut self, pieces: &[Piece], first_of_item: bool) -> Result<(), Fault> {
        let document = self.document;
        let Some(content) = document.content(pieces) else {
            return Ok(());
        };
        if !content.is_text() {
            return Ok(());
        }
        let events = content.text_list(self.alloc, first_of_item)?.events;
        let labels = Labels {
            bytes: document.parse_state().bytes,
            pieces,
            options: document.parse_state().options,
            definitions: self.known,
            footnotes: &Definitions::new(self.alloc),
        };
        self.events(&labels, &events.as_slice())
    }

    // Prints a line for each link of a row, which may be the first of the item of this depth.
    fn row(&mut self, row: &Row, begun: Option<usize>) -> Result<(), Fault> {
        match row {
            Row::LeafAt(_, Leaf::Heading(_, piece)) => self.text(&[*piece], false),
            Row::LeafAt(_, Leaf::Underlined(_, text)) => self.text(text.as_slice(), false),
            Row::LeafAt(depth, Leaf::Paragraph(text)) => {
                let first_of_item = match begun {
                    Some(item) => item < *depth,
                    None => false,
                };
                self.text(text.as_slice(), first_of_item)
            }
            _ => Ok(()),
        }
    }

    // Prints a line for each link of these rows.
    fn rows(&mut self, rows: &[Row]) -> Result<(), Fault> {
        let mut begun = None;
        for row in rows {
            self.row(row, begun)?;
            begun = begun_after(begun, row);
        }
        Ok(())
    }
}

/// Prints a line for each link of a file. What comes before a fault is printed too.
///
/// Takes memory in proportion to the file, and to one link of it.
pub(crate) fn print(alloc: Global, bytes: &[u8], task: &Task, lines: Lines) -> Result<(), Fault> {
    if bytes.len() > DOCUMENT_LIMIT {
        return Err(fault::not_text(bytes));
    }
    let found = read(alloc, task.extensions, bytes)?;
    let definitions = found.definitions.as_slice();
    let names = identifiers(alloc, definitions)?;
    let known = numbered(alloc, names.as_slice())?;
    let parse_state = ParseState {
        bytes,
        options: &task.reading,
        definitions: names,
        gfm_footnote_definitions: Vec::new(alloc),
    };
    let Some(document) = Document::new(alloc, parse_state)? else {
        return Err(fault::not_text(bytes));
    };
    let limit = task.limit(bytes);
    let mut walk = Walk {
        alloc,
        document: &document,
        definitions,
        known: &known,
        lines,
        limit,
        left: limit,
    };
    let walked = walk.rows(found.blocks.rows.as_slice());
    walk.lines.print()?;
    walked
}
