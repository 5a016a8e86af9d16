//! Rows without the link reference definitions at the front of their texts (CommonMark 4.7).

ghost use Rattle.std.specs.Prelude.{◌≡◌, ◌≤◌, [], length, flat_map, IsUtf8, IfOk, All};
ghost use Rattle.markdown_content.specs.Content.{document_limit, content_of, IsTextContent};
ghost use Rattle.markdown_block_model.specs.LineRests.{trimmed_end};
ghost use Rattle.markdown_block_model.specs.LinkDefinitions.{definitions_of, definitions_in};
ghost use Rattle.markdown_blocks.specs.BlockRows.{leaf_of};
ghost use Rattle.markdown_blocks.specs.TextRows.{AreLinePieces, ArePlaced, HasPlacedText, IsPlacedRow};
ghost use Rattle.markdown_block_definitions.specs.DefinitionTexts.{AreAdded};
ghost use Rattle.markdown_block_definitions.specs.ResolvedRows.{definitions_of_row, IsResolvedLeaf, IsResolvedRow, AreResolved};

use crate::front::{Definition, definitions_at_front};
use markdown_blocks::block::{Leaf, Row};
use markdown_blocks::ends::{cut_lines, trim_end};
use markdown_content::parser::Piece;
use std::alloc::{AllocError, Global};

// Cuts the definitions at the front of a text and the whitespace at its end. It appends the definitions.
fn resolve_text(
    alloc: Global,
    document: &[u8],
    text: &mut Vec<Piece>,
    definitions: &mut Vec<Definition>,
) -> Result<(), AllocError>
    requires { ArePlaced document.now text.old.items }
    ensures codes { IfOk result (λ _. content_of document.now text.new.items ≡ trimmed_end (definitions_of (content_of document.now text.old.items)).1) }
    ensures found { IfOk result (λ _. AreAdded definitions.old.items definitions.new.items (definitions_of (content_of document.now text.old.items)).0) }
    ensures trimmed { IfOk result (λ _. trimmed_end (content_of document.now text.new.items) ≡ content_of document.now text.new.items) }
    ensures none { IfOk result (λ _. content_of document.now text.new.items ≡ [] → text.new.items ≡ []) }
    ensures lines { IfOk result (λ _. AreLinePieces document.now text.new.items) }
    ensures content { IfOk result (λ _. IsUtf8 document.now → length document.now ≤ document_limit → IsTextContent document.now text.new.items) }
{
    let mut front = definitions_at_front(alloc, document, text.as_slice())?;
    definitions.append(&mut front.definitions)?;
    cut_lines(text, front.lines);
    trim_end(document, text)?;
    Ok(())
}

// The leaf without the definitions at the front of its text, which are appended.
fn resolve_leaf(
    alloc: Global,
    document: &[u8],
    leaf: Leaf,
    definitions: &mut Vec<Definition>,
) -> Result<Leaf, AllocError>
    requires fits { length document.now ≤ document_limit }
    requires placed { HasPlacedText document.now leaf }
    ensures leaf { IfOk result (IsResolvedLeaf document.now leaf) }
    ensures found { IfOk result (λ _. AreAdded definitions.old.items definitions.new.items (definitions_in (leaf_of document.now leaf))) }
{
    match leaf {
        Leaf::Paragraph(text) => {
            let mut text = text;
            resolve_text(alloc, document, &mut text, definitions)?;
            Ok(Leaf::Paragraph(text))
        }
        Leaf::Underlined(level, text) => {
            let mut text = text;
            trim_end(document, &mut text)?;
            resolve_text(alloc, document, &mut text, definitions)?;
            Ok(Leaf::Underlined(level, text))
        }
        leaf => Ok(leaf),
    }
}

// The row without the definitions at the front of its text, which are appended.
fn resolve_row(
    alloc: Global,
    document: &[u8],
    row: Row,
    definitions: &mut Vec<Definition>,
) -> Result<Row, AllocError>
    requires fits { length document.now ≤ document_limit }
    requires placed { IsPlacedRow document.now row }
    ensures row { IfOk result (IsResolvedRow document.now row) }
    ensures found { IfOk result (λ _. AreAdded definitions.old.items definitions.new.items (definitions_of_row document.now row)) }
{
    match row {
        Row::LeafAt(depth, leaf) => {
            let leaf = resolve_leaf(alloc, document, leaf, definitions)?;
            Ok(Row::LeafAt(depth, leaf))
        }
        Row::ContainerAt(depth, container) => Ok(Row::ContainerAt(depth, container)),
    }
}

// The rows without the definitions at the front of their texts, which are appended in order. The only error is that memory was refused.
pub(crate) fn resolve_rows(
    alloc: Global,
    document: &[u8],
    rows: Vec<Row>,
    definitions: &mut Vec<Definition>,
) -> Result<Vec<Row>, AllocError>
    requires fits { length document.now ≤ document_limit }
    requires placed { All (IsPlacedRow document.now) rows.items }
    ensures rows { IfOk result (λ left. AreResolved document.now rows.items left.items) }
    ensures found { IfOk result (λ _. AreAdded definitions.old.items definitions.new.items (flat_map (definitions_of_row document.now) rows.items)) }
{
    let mut resolved = Vec::new(alloc);
    for row in rows {
        let row = resolve_row(alloc, document, row, definitions)?;
        resolved.push(row)?;
    }
    Ok(resolved)
}
