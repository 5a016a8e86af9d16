//! The blocks of a document, with the pieces of their texts (CommonMark 4 and 5).

ghost use Rattle.std.specs.Prelude.{◌≡◌, ◌++◌, ◌∷◌, [], IfErr, IfOk, OnOk, length, map};
ghost use Rattle.markdown_blocks.specs.declared.block.Row.{Row};
ghost use Rattle.markdown_content.specs.KnownPlaces.{IsDocument};
ghost use Rattle.markdown_inline_c.specs.FlatBlocks.{AreBlocks, AreBlocksHandedOut, block_kind_number, flat_block, flat_blocks, flat_container, flat_leaf, flat_pieces, list_bits, pieces_of_leaf, pieces_of_row, plain_block};
ghost use Rattle.markdown_inline_c.specs.FlatExtensions.{AreKnownBlocks, IsBlocksFault};
ghost use Rattle.markdown_inline_c.specs.FlatLines.{flat_piece};
ghost use Rattle.markdown_inline_c.specs.Statuses.{fault_status};
ghost use Rattle.markdown_page.specs.declared.lists.Place.{Place};

use crate::answer::write_front;
use crate::check::check_document;
use crate::extensions::known_extensions;
use crate::fault::{DONE, Fault, TOO_SMALL};
use crate::flat::{BlocksCount, FlatBlock, FlatPiece, Range};
use crate::line_pieces::flat_piece;
use markdown_block_definitions::document::read;
use markdown_block_line::containers::{Container, Marker};
use markdown_blocks::block::{Leaf, Row};
use markdown_content::parser::Piece;
use markdown_page::lists::{Place, places};
use std::alloc::{AllocError, Global};

/// What a block is.
#[derive(Clone, Copy, Debug, PartialEq, Eq)]
pub enum BlockKind {
    /// A blank line.
    BlankLine,
    /// A thematic break (CommonMark 4.1).
    ThematicBreak,
    /// A heading, of number signs or underlined (CommonMark 4.2 and 4.3).
    Heading,
    /// A paragraph (CommonMark 4.8).
    Paragraph,
    /// Indented code (CommonMark 4.4).
    IndentedCode,
    /// Fenced code (CommonMark 4.5).
    FencedCode,
    /// HTML (CommonMark 4.6).
    Html,
    /// A block quote (CommonMark 5.1).
    Quote,
    /// An item of a list (CommonMark 5.2).
    Item,
    /// Front matter.
    FrontMatter,
}

/// The blocks of a document, and their pieces.
#[derive(Drop)]
pub struct FoundBlocks {
    /// The blocks, in the document's order.
    pub blocks: Vec<FlatBlock>,
    /// The pieces of all blocks, in their order.
    pub pieces: Vec<FlatPiece>,
}

fn block_kind_number(kind: BlockKind) -> u8
    ensures { result ≡ block_kind_number kind }
{
    kind as u8
}

// Where an item stands in its list, by bits.
fn list_bits(place: Place) -> u8
    ensures { result ≡ list_bits place }
{
    u8::from(place.begins) + 2 * u8::from(place.ends) + 4 * u8::from(place.is_loose)
}

// A block that has no number and no marker, before its line is known.
fn plain_block(kind: BlockKind, depth: usize, pieces: Range) -> FlatBlock
    ensures { result ≡ plain_block kind depth pieces }
{
    FlatBlock {
        pieces,
        depth,
        number: 0,
        line: 0,
        kind: block_kind_number(kind),
        marker: 0,
        list: 0,
        reserved: 0,
        reserved_too: 0,
    }
}

fn flat_leaf(depth: usize, leaf: &Leaf, pieces: Range) -> FlatBlock
    ensures { result ≡ flat_leaf depth leaf.now pieces }
{
    match leaf {
        Leaf::Blank => plain_block(BlockKind::BlankLine, depth, pieces),
        Leaf::ThematicBreak => plain_block(BlockKind::ThematicBreak, depth, pieces),
        Leaf::Heading(level, _) => FlatBlock {
            number: *level,
            ..plain_block(BlockKind::Heading, depth, pieces)
        },
        Leaf::Underlined(level, _) => FlatBlock {
            number: *level,
            ..plain_block(BlockKind::Heading, depth, pieces)
        },
        Leaf::Paragraph(_) => plain_block(BlockKind::Paragraph, depth, pieces),
        Leaf::IndentedCode(_) => plain_block(BlockKind::IndentedCode, depth, pieces),
        Leaf::FencedCode(fence, _, _, _) => FlatBlock {
            marker: fence.value,
            ..plain_block(BlockKind::FencedCode, depth, pieces)
        },
        Leaf::Html(kind, _, _) => FlatBlock {
            number: *kind,
            ..plain_block(BlockKind::Html, depth, pieces)
        },
        Leaf::FrontMatter(_) => plain_block(BlockKind::FrontMatter, depth, pieces),
    }
}

fn flat_container(depth: usize, container: Container, place: Place, pieces: Range) -> FlatBlock
    ensures { result ≡ flat_container depth container place pieces }
{
    match container {
        Container::Quote => plain_block(BlockKind::Quote, depth, pieces),
        Container::Item(Marker::Bullet(bullet), _) => FlatBlock {
            marker: bullet,
            list: list_bits(place),
            ..plain_block(BlockKind::Item, depth, pieces)
        },
        Container::Item(Marker::Ordered(delimiter, number), _) => FlatBlock {
            number: number as usize,
            marker: delimiter,
            list: list_bits(place),
            ..plain_block(BlockKind::Item, depth, pieces)
        },
    }
}

fn flat_block(row: &Row, place: Place, pieces: Range) -> FlatBlock
    ensures { result ≡ flat_block row.now place pieces }
{
    match row {
        Row::LeafAt(depth, leaf) => flat_leaf(*depth, leaf, pieces),
        Row::ContainerAt(depth, container) => flat_container(*depth, *container, place, pieces),
    }
}

// Appends pieces.
fn push_all(found: &mut Vec<FlatPiece>, pieces: &[Piece]) -> Result<(), AllocError>
    ensures { OnOk result (found.new.items ≡ found.old.items ++ map flat_piece pieces.now) }
{
    for piece in pieces {
        found.push(flat_piece(*piece))?;
    }
    Ok(())
}

// Appends the pieces of a leaf.
fn push_leaf(found: &mut Vec<FlatPiece>, leaf: &Leaf) -> Result<(), AllocError>
    ensures { OnOk result (found.new.items ≡ found.old.items ++ map flat_piece (pieces_of_leaf leaf.now)) }
{
    match leaf {
        Leaf::Blank | Leaf::ThematicBreak => Ok(()),
        Leaf::Heading(_, piece) => push_all(found, &[*piece]),
        Leaf::Underlined(_, text) => push_all(found, text.as_slice()),
        Leaf::Paragraph(text) => push_all(found, text.as_slice()),
        Leaf::IndentedCode(lines) => push_all(found, lines.as_slice()),
        Leaf::FencedCode(_, info, lines, _) => {
            push_all(found, &[*info])?;
            push_all(found, lines.as_slice())
        }
        Leaf::Html(_, text, _) => push_all(found, text.as_slice()),
        Leaf::FrontMatter(lines) => push_all(found, lines.as_slice()),
    }
}

impl FoundBlocks {
    // Appends a block that begins on this line, and its pieces.
    fn push(&mut self, row: &Row, place: Place, line: usize) -> Result<(), AllocError>
        ensures pieces { OnOk result (self.new.pieces.items ≡ self.old.pieces.items ++ map flat_piece (pieces_of_row row.now)) }
        ensures blocks { OnOk result (self.new.blocks.items ≡ self.old.blocks.items ++ flat_blocks (length self.old.pieces.items) (row.now ∷ []) (place ∷ []) (line ∷ [])) }
    {
        let start = self.pieces.len();
        if let Row::LeafAt(_, leaf) = row {
            push_leaf(&mut self.pieces, leaf)?;
        }
        let end = self.pieces.len();
        self.blocks.push(FlatBlock {
            line,
            ..flat_block(row, place, Range { start, end })
        })?;
        Ok(())
    }
}

// The blocks of rows with these places, which begin on these lines, and their pieces.
fn flat_rows(
    alloc: Global,
    rows: &[Row],
    places: &[Place],
    lines: &[usize],
) -> Result<FoundBlocks, AllocError>
    requires places { length places.now ≡ length rows.now }
    requires lines { length lines.now ≡ length rows.now }
    ensures blocks { IfOk result (λ found. found.blocks.items ≡ flat_blocks 0 rows.now places.now lines.now) }
    ensures pieces { IfOk result (λ found. found.pieces.items ≡ flat_pieces rows.now) }
{
    let mut found = FoundBlocks {
        blocks: Vec::new(alloc),
        pieces: Vec::new(alloc),
    };
    for (index, row) in rows.iter().enumerate() {
        found.push(row, places[index], lines[index])?;
    }
    Ok(found)
}

/// The blocks of a document, read with the blocks that these bits ask for, or why it is refused.
pub fn found_blocks(alloc: Global, bits: u32, bytes: &[u8]) -> Result<FoundBlocks, Fault>
    ensures blocks { IfOk result (λ found. AreBlocks bits bytes.now found.blocks.items found.pieces.items) }
    ensures known { IfOk result (λ _. AreKnownBlocks bits) }
    ensures document { IfOk result (λ _. IsDocument bytes.now) }
    ensures err { IfErr result (IsBlocksFault bits bytes.now) }
{
    let extensions = known_extensions(bits)?;
    if let Err(refusal) = check_document(bytes) {
        return Err(refusal.fault);
    }
    let found = read(alloc, extensions, bytes)?;
    let rows = found.blocks.rows.as_slice();
    let places = places(alloc, bytes, rows)?;
    let lines = found.blocks.lines.as_slice();
    let blocks = flat_rows(alloc, rows, places.as_slice(), lines)?;
    Ok(blocks)
}

/// Hands out blocks and their pieces where there is room for all of them, or else says why not by its status.
pub fn answer_blocks(
    found: Result<FoundBlocks, Fault>,
    blocks: &mut [FlatBlock],
    pieces: &mut [FlatPiece],
    count: &mut BlocksCount,
) -> u32
    ensures ok { IfOk found (λ found. AreBlocksHandedOut found.blocks.items blocks.old blocks.new found.pieces.items pieces.old pieces.new count.new result) }
    ensures err { IfErr found (λ fault. (result ≡ fault_status fault) × ((blocks.new ≡ blocks.old) × ((pieces.new ≡ pieces.old) × (count.new ≡ count.old)))) }
{
    match found {
        Ok(found) => {
            *count = BlocksCount {
                blocks: found.blocks.len(),
                pieces: found.pieces.len(),
            };
            if found.blocks.len() > blocks.len() || found.pieces.len() > pieces.len() {
                return TOO_SMALL;
            }
            write_front(found.blocks.as_slice(), blocks);
            write_front(found.pieces.as_slice(), pieces);
            DONE
        }
        Err(fault) => fault.status(),
    }
}
