//! A leaf that is no paragraph, and a further line.

ghost use Rattle.std.specs.Prelude.{false, IfOk};
ghost use Rattle.markdown_blocks.specs.BlockRows.{Continues};
ghost use Rattle.markdown_blocks.specs.TextRows.{line_stop, IsOpenLeaf, IsOpenNext};
ghost use Rattle.markdown_blocks.specs.declared.block.Leaf.TheVariants.{FencedCode, IndentedCode, Html};

use crate::block::Leaf;
use crate::rest::Rest;
use markdown_block_line::leaves::{fenced_line, html_line, indented_line};
use markdown_block_line::starts::Fence;
use markdown_content::parser::Piece;
use std::alloc::AllocError;

/// A leaf, with a further line or without it.
#[derive(Drop)]
pub enum Next {
    /// With it.
    WithLine(Leaf),
    /// As it was, since the line does not continue it.
    Without(Leaf),
}

// Fenced code that is not ended.
fn next_fenced(
    fence: Fence,
    info: Piece,
    lines: Vec<Piece>,
    rest: &Rest,
) -> Result<Next, AllocError>
    requires { IsOpenLeaf rest.now.bytes rest.now.start (FencedCode fence info lines false) }
    ensures next { IfOk result (Continues rest.now.extensions rest.now.bytes (FencedCode fence info lines false) rest.now.codes) }
    ensures text { IfOk result (IsOpenNext rest.now.bytes (line_stop rest.now.bytes rest.now.start)) }
{
    let mut lines = lines;
    match fenced_line(fence, rest.values()) {
        None => Ok(Next::WithLine(Leaf::FencedCode(fence, info, lines, true))),
        Some(outside) => {
            lines.push(rest.piece_from(outside))?;
            Ok(Next::WithLine(Leaf::FencedCode(fence, info, lines, false)))
        }
    }
}

// Indented code.
fn next_indented(lines: Vec<Piece>, rest: &Rest) -> Result<Next, AllocError>
    requires { IsOpenLeaf rest.now.bytes rest.now.start (IndentedCode lines) }
    ensures next { IfOk result (Continues rest.now.extensions rest.now.bytes (IndentedCode lines) rest.now.codes) }
    ensures text { IfOk result (IsOpenNext rest.now.bytes (line_stop rest.now.bytes rest.now.start)) }
{
    let mut lines = lines;
    match indented_line(rest.values()) {
        None => Ok(Next::Without(Leaf::IndentedCode(lines))),
        Some(outside) => {
            lines.push(rest.piece_from(outside))?;
            Ok(Next::WithLine(Leaf::IndentedCode(lines)))
        }
    }
}

// HTML that is not ended.
fn next_html(kind: usize, text: Vec<Piece>, rest: &Rest) -> Result<Next, AllocError>
    requires { IsOpenLeaf rest.now.bytes rest.now.start (Html kind text false) }
    ensures next { IfOk result (Continues rest.now.extensions rest.now.bytes (Html kind text false) rest.now.codes) }
    ensures text { IfOk result (IsOpenNext rest.now.bytes (line_stop rest.now.bytes rest.now.start)) }
{
    let mut text = text;
    match html_line(kind, rest.values()) {
        None => Ok(Next::Without(Leaf::Html(kind, text, false))),
        Some(ended) => {
            let piece = rest.piece_from(0);
            if rest.len() == 0 {
                // The document ends here.
                return Ok(Next::WithLine(Leaf::Html(kind, text, ended)));
            }
            text.push(piece)?;
            Ok(Next::WithLine(Leaf::Html(kind, text, ended)))
        }
    }
}

/// Returns a leaf that is no paragraph, with a further line if the line continues it.
pub fn continued(leaf: Leaf, rest: &Rest) -> Result<Next, AllocError>
    requires { IsOpenLeaf rest.now.bytes rest.now.start leaf }
    ensures next { IfOk result (Continues rest.now.extensions rest.now.bytes leaf rest.now.codes) }
    ensures text { IfOk result (IsOpenNext rest.now.bytes (line_stop rest.now.bytes rest.now.start)) }
{
    match leaf {
        Leaf::FencedCode(fence, info, lines, false) => next_fenced(fence, info, lines, rest),
        Leaf::IndentedCode(lines) => next_indented(lines, rest),
        Leaf::Html(kind, text, false) => next_html(kind, text, rest),
        leaf => Ok(Next::Without(leaf)),
    }
}
