//! The blocks of a document, with the definitions of its paragraphs read.

ghost use Rattle.std.specs.Prelude.{◌≡◌, ◌≤◌, length, map, IsUtf8, IfOk, All};
ghost use Rattle.markdown_content.specs.Content.{document_limit, content_of};
ghost use Rattle.markdown_block_line.specs.LineBlocks.{extensions_of};
ghost use Rattle.markdown_block_model.specs.BlockLines.{begins_of};
ghost use Rattle.markdown_block_model.specs.DocumentBlocks.{blocks_of};
ghost use Rattle.markdown_block_model.specs.LinkDefinitions.{has_text, definitions, document_tree};
ghost use Rattle.markdown_block_definitions.specs.DefinitionTexts.{texts_of, texts_in, HasUtf8Texts};
ghost use Rattle.markdown_block_definitions.specs.ResolvedRows.{IsTextRow, IsLineRow};
ghost use Rattle.markdown_blocks.specs.BlockRows.{tree_of};
ghost use Rattle.markdown_blocks.specs.NestedRows.{AreNested};
ghost use Rattle.markdown_blocks.specs.TextRows.{IsPlacedRow};

use crate::copy::push_text;
use crate::definition::definitions_len;
use crate::front::{Definition, begins_otherwise};
use crate::resolved::resolve_rows;
use markdown_block_line::extensions::Extensions;
use markdown_blocks::block::Blocks;
use markdown_blocks::text::HasText;
use markdown_content::parser::Piece;
use std::alloc::{AllocError, Global};

/// A document: its blocks without its link reference definitions, and these.
#[derive(Drop)]
pub struct Document {
    /// The blocks. The text of a paragraph or a heading is a text content, as the inline layer takes it.
    pub blocks: Blocks,
    /// The definitions, in the document's order.
    pub definitions: Vec<Definition>,
}

/// Tells by the link reference definitions at its front whether a paragraph has text.
pub struct Definitions;

impl HasText for Definitions {
    ghost use Rattle.markdown_block_model.specs.LinkDefinitions as link_definitions;

    ghost has_text = { link_definitions.has_text };

    fn test(&self, alloc: Global, document: &[u8], text: &[Piece]) -> Result<bool, AllocError>
        ensures { IfOk result (λ b. b ≡ has_text (content_of document.now text.now)) }
    {
        if begins_otherwise(document, text) {
            return Ok(true);
        }
        let mut values = Vec::new(alloc);
        let mut firsts = Vec::new(alloc);
        push_text(document, text, &mut values, &mut firsts)?;
        let len = definitions_len(&values, &firsts);
        Ok(len < values.len())
    }
}

/// Returns the blocks of a document of at most `usize::MAX / 8` bytes: an underline makes a heading of a paragraph that has text behind the link reference
/// definitions at its front (CommonMark 4.3 and 4.7). These still stand in their paragraphs.
///
/// The only error is that memory was refused.
pub fn blocks(alloc: Global, extensions: Extensions, bytes: &[u8]) -> Result<Blocks, AllocError>
    requires { length bytes.now ≤ document_limit }
    ensures tree { IfOk result (λ b. tree_of bytes.now b ≡ blocks_of (extensions_of extensions) has_text bytes.now) }
    ensures texts { IfOk result (λ b. All (IsPlacedRow bytes.now) b.rows.items) }
    ensures nested { IfOk result (λ b. AreNested 0 b.rows.items) }
    ensures begins { IfOk result (λ b. b.lines.items ≡ begins_of (extensions_of extensions) has_text bytes.now) }
    ensures lined { IfOk result (λ b. length b.lines.items ≡ length b.rows.items) }
{
    let found = markdown_blocks::document::blocks(alloc, &Definitions, extensions, bytes)?;
    Ok(found)
}

/// Reads a document of at most `usize::MAX / 8` bytes: its blocks without its link reference definitions, and these (CommonMark 4.7).
///
/// A paragraph of definitions alone stays, without pieces. The only error is that memory was refused.
pub fn read(alloc: Global, extensions: Extensions, bytes: &[u8]) -> Result<Document, AllocError>
    requires { length bytes.now ≤ document_limit }
    ensures tree { IfOk result (λ d. tree_of bytes.now d.blocks ≡ document_tree (extensions_of extensions) bytes.now) }
    ensures definitions { IfOk result (λ d. map texts_of d.definitions.items ≡ map texts_in (definitions (extensions_of extensions) bytes.now)) }
    ensures utf8 { IfOk result (λ d. IsUtf8 bytes.now → All HasUtf8Texts d.definitions.items) }
    ensures texts { IfOk result (λ d. IsUtf8 bytes.now → All (IsTextRow bytes.now) d.blocks.rows.items) }
    ensures lines { IfOk result (λ d. All (IsLineRow bytes.now) d.blocks.rows.items) }
    ensures nested { IfOk result (λ d. AreNested 0 d.blocks.rows.items) }
    ensures begins { IfOk result (λ d. d.blocks.lines.items ≡ begins_of (extensions_of extensions) has_text bytes.now) }
    ensures lined { IfOk result (λ d. length d.blocks.lines.items ≡ length d.blocks.rows.items) }
{
    let found = blocks(alloc, extensions, bytes)?;
    let mut definitions = Vec::new(alloc);
    let rows = resolve_rows(alloc, bytes, found.rows, &mut definitions)?;
    Ok(Document {
        blocks: Blocks {
            rows,
            lines: found.lines,
        },
        definitions,
    })
}
