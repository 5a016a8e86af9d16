//! Front matter at the start of a document.

ghost use Rattle.std.specs.Prelude.{◌≤◌, suc, length, IfOk};
ghost use Rattle.markdown_content.specs.Codes.{place_of};
ghost use Rattle.markdown_content.specs.Content.{document_limit};
ghost use Rattle.markdown_content.specs.DocumentWalk.{IsPoint, codes_after};
ghost use Rattle.markdown_block_model.specs.LineRests.{lines_of};
ghost use Rattle.markdown_block_model.specs.FrontMatter.{matter_at, matter_before};
ghost use Rattle.markdown_blocks.specs.LinesLeft.{IsTextStart, document_matter};
ghost use Rattle.markdown_blocks.specs.MatterRows.{HasMatter};
ghost use Rattle.markdown_blocks.specs.TextRows.{StandsBetween};

use crate::rest::Rest;
use markdown_block_line::document::line_at;
use markdown_block_line::extensions::Extensions;
use markdown_block_line::matter::{is_matter_fence, matter_marker};
use markdown_content::parser::Piece;
use markdown_event::event::Point;
use std::alloc::{AllocError, Global};

/// Front matter.
#[derive(Drop)]
pub struct Matter {
    /// The lines between its fences.
    pub lines: Vec<Piece>,
    /// Where the line after it begins.
    pub stop: Point,
}

// Returns the lines before the next fence of this marker, or `None` where there is none.
fn lines_before(
    alloc: Global,
    marker: u8,
    bytes: &[u8],
    start: Point,
    buffer: &mut Vec<u8>,
) -> Result<Option<Matter>, AllocError>
    requires fits { length bytes.now ≤ document_limit }
    requires is_point { IsPoint bytes.now start }
    requires between { StandsBetween bytes.now start }
    ensures { IfOk result (HasMatter bytes.now (suc start.index) (matter_before marker (lines_of (codes_after bytes.now (place_of start))))) }
{
    let mut lines = Vec::new(alloc);
    let mut point = start;
    while point.index < bytes.len() {
        let line = line_at(bytes, point, buffer)?;
        let stop = line.stop;
        if is_matter_fence(marker, line.values) {
            return Ok(Some(Matter { lines, stop }));
        }
        lines.push(Rest::new(Extensions::NONE, bytes, point, line.values).piece_from(0))?;
        point = stop;
    }
    Ok(None)
}

// Returns the front matter that begins with the line at a place, or `None`.
fn matter_at(
    alloc: Global,
    bytes: &[u8],
    start: Point,
    buffer: &mut Vec<u8>,
) -> Result<Option<Matter>, AllocError>
    requires fits { length bytes.now ≤ document_limit }
    requires is_point { IsPoint bytes.now start }
    requires between { StandsBetween bytes.now start }
    ensures { IfOk result (HasMatter bytes.now 2 (matter_at (lines_of (codes_after bytes.now (place_of start))))) }
{
    if start.index >= bytes.len() {
        return Ok(None);
    }
    let line = line_at(bytes, start, buffer)?;
    let stop = line.stop;
    match matter_marker(line.values) {
        None => Ok(None),
        Some(marker) => lines_before(alloc, marker, bytes, stop, buffer),
    }
}

/// Returns the front matter of a document whose text begins at a place, or `None` where there is none or none is to be read.
pub fn document_matter(
    alloc: Global,
    extensions: Extensions,
    bytes: &[u8],
    start: Point,
    buffer: &mut Vec<u8>,
) -> Result<Option<Matter>, AllocError>
    requires fits { length bytes.now ≤ document_limit }
    requires is_start { IsTextStart bytes.now start }
    ensures { IfOk result (HasMatter bytes.now 2 (document_matter extensions bytes.now)) }
{
    if !extensions.front_matter {
        return Ok(None);
    }
    matter_at(alloc, bytes, start, buffer)
}
