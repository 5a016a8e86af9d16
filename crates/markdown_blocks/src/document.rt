//! The blocks of a document, line by line.

ghost use Rattle.std.specs.Prelude.{◌≡◌, ◌<◌, ◌≤◌, ◌-◌, ◌++◌, ℕ, Bool, List, suc, length, replicate, IfOk, OnOk, All};
ghost use Rattle.markdown_content.specs.Codes.{Code};
ghost use Rattle.markdown_content.specs.Content.{document_limit};
ghost use Rattle.markdown_content.specs.DocumentWalk.{IsPoint};
ghost use Rattle.markdown_block_line.specs.LineBlocks.{extensions_of};
ghost use Rattle.markdown_block_model.specs.BlockLines.{begins_of, block_count};
ghost use Rattle.markdown_block_model.specs.DocumentBlocks.{blocks_of};
ghost use Rattle.markdown_blocks.specs.BlockRows.{tree_of, whole_tree, IsBetween};
ghost use Rattle.markdown_blocks.specs.LinesLeft.{IsTextStart, IsProgress, begins_on, read_on};
ghost use Rattle.markdown_blocks.specs.NestedRows.{AreNested};
ghost use Rattle.markdown_blocks.specs.TextRows.{StandsBetween, HasPlacedTexts, IsPlacedRow};

use crate::block::{Blocks, Leaf};
use crate::matter::document_matter;
use crate::path::Path;
use crate::read;
use crate::reader::Reader;
use crate::rest::Rest;
use crate::text::HasText;
use markdown_block_line::document::line_at;
use markdown_block_line::extensions::Extensions;
use markdown_content::walk::DOCUMENT_START;
use markdown_event::event::Point;
use std::alloc::{AllocError, Global};

// U+FEFF in UTF-8.
const BYTE_ORDER_MARK: &[u8] = b"\xef\xbb\xbf";

// Returns where the text of a document begins: after a byte order mark at its front, if there is one.
fn text_start(bytes: &[u8]) -> Point
    ensures { IsTextStart bytes.now result }
{
    if !bytes.starts_with(BYTE_ORDER_MARK) {
        return DOCUMENT_START;
    }
    Point {
        column: 4,
        index: 3,
        ..DOCUMENT_START
    }
}

// Reads the line that begins at a place, and returns where the next one begins.
fn read_line_at<T: HasText>(
    alloc: Global,
    test: &T,
    extensions: Extensions,
    reader: &mut Reader,
    bytes: &[u8],
    start: Point,
    buffer: &mut Vec<u8>,
) -> Result<Point, AllocError>
    requires fits { length bytes.now ≤ document_limit }
    requires is_point { IsPoint bytes.now start }
    requires begins { start.index < length bytes.now }
    requires between { IsBetween bytes.now reader.old }
    requires characters { StandsBetween bytes.now start }
    requires texts { HasPlacedTexts bytes.now start reader.old }
    ensures is_point { IfOk result (λ stop. IsPoint bytes.now stop) }
    ensures forward { IfOk result (λ stop. start.index < stop.index) }
    ensures between { IfOk result (λ _. IsBetween bytes.now reader.new) }
    ensures characters { IfOk result (λ stop. StandsBetween bytes.now stop) }
    ensures texts { IfOk result (λ stop. HasPlacedTexts bytes.now stop reader.new) }
    ensures same { IfOk result (λ stop. read_on extensions T.has_text bytes.now reader.new stop ≡ read_on extensions T.has_text bytes.now reader.old start) }
    ensures more { IfOk result (λ _. block_count (whole_tree bytes.now reader.old) ≤ block_count (whole_tree bytes.now reader.new)) }
    ensures begins { IfOk result (λ stop. (number : ℕ) → begins_on extensions T.has_text number bytes.now reader.old start
        ≡ replicate (block_count (whole_tree bytes.now reader.new) - block_count (whole_tree bytes.now reader.old)) number ++ begins_on extensions T.has_text (suc number) bytes.now reader.new stop) }
{
    let line = line_at(bytes, start, buffer)?;
    read::read_line(
        alloc,
        test,
        reader,
        &Rest::new(extensions, bytes, start, line.values),
    )?;
    Ok(line.stop)
}

// Notes of each block that has no line yet that it begins on this one.
fn note_line(lines: &mut Vec<usize>, count: usize, number: usize) -> Result<(), AllocError>
    ensures { OnOk result (lines.new.items ≡ lines.old.items ++ replicate (count - length lines.old.items) number) }
{
    while lines.len() < count {
        lines.push(number)?;
    }
    Ok(())
}

// What was read of a document, and where the next line begins.
#[derive(Drop)]
struct Progress {
    reader: Reader,
    // The line on which each block begins.
    lines: Vec<usize>,
    point: Point,
    // The number of the next line.
    number: usize,
}

// Begins to read a document: with its front matter, if it is to be read and there is some.
fn begin(
    alloc: Global,
    extensions: Extensions,
    bytes: &[u8],
    buffer: &mut Vec<u8>,
) -> Result<Progress, AllocError>
    requires { length bytes.now ≤ document_limit }
    ensures { IfOk result (λ p. (has_text : List Code → Bool) → IsProgress extensions has_text bytes.now p) }
{
    let start = text_start(bytes);
    let matter = document_matter(alloc, extensions, bytes, start, buffer)?;
    let mut lines = Vec::new(alloc);
    let rows = Vec::new(alloc);
    let path = Path::new(alloc);
    match matter {
        None => {
            let reader = Reader {
                rows,
                path,
                open: None,
            };
            Ok(Progress {
                reader,
                lines,
                point: start,
                number: 1,
            })
        }
        Some(matter) => {
            lines.push(1)?;
            let number = matter.lines.len() + 3;
            let reader = Reader {
                rows,
                path,
                open: Some(Leaf::FrontMatter(matter.lines)),
            };
            Ok(Progress {
                reader,
                lines,
                point: matter.stop,
                number,
            })
        }
    }
}

/// Returns the blocks of a document of at most `usize::MAX / 8` bytes. A byte order mark at its front is no text, but positions count it.
///
/// The only error is that memory was refused.
pub fn blocks<T: HasText>(
    alloc: Global,
    test: &T,
    extensions: Extensions,
    bytes: &[u8],
) -> Result<Blocks, AllocError>
    requires { length bytes.now ≤ document_limit }
    ensures tree { IfOk result (λ b. tree_of bytes.now b ≡ blocks_of (extensions_of extensions) T.has_text bytes.now) }
    ensures texts { IfOk result (λ b. All (IsPlacedRow bytes.now) b.rows.items) }
    ensures nested { IfOk result (λ b. AreNested 0 b.rows.items) }
    ensures begins { IfOk result (λ b. b.lines.items ≡ begins_of (extensions_of extensions) T.has_text bytes.now) }
    ensures lined { IfOk result (λ b. length b.lines.items ≡ length b.rows.items) }
{
    let mut buffer = Vec::new(alloc);
    let Progress {
        mut reader,
        mut lines,
        mut point,
        mut number,
    } = begin(alloc, extensions, bytes, &mut buffer)?;
    while point.index < bytes.len() {
        point = read_line_at(
            alloc,
            test,
            extensions,
            &mut reader,
            bytes,
            point,
            &mut buffer,
        )?;
        note_line(&mut lines, reader.count(), number)?;
        number += 1;
    }
    read::put_open(&mut reader)?;
    Ok(Blocks {
        rows: reader.rows,
        lines,
    })
}
