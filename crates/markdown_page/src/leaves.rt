//! Leaves.

ghost use Rattle.std.specs.Prelude.{◌≡◌, ◌++◌, IfErr, OnOk, codes, decimal};
ghost use Rattle.markdown_content.specs.Content.{content_of, IsTextContent};
ghost use Rattle.markdown_block_definitions.specs.ResolvedRows.{IsTextWithPieces, IsTextLeaf};
ghost use Rattle.markdown_block_model.specs.BlockTree.{paragraph};
ghost use Rattle.markdown_blocks.specs.BlockRows.{leaf_of};
ghost use Rattle.markdown_page_model.specs.PageHtml.{text_html, heading_html, leaf_setting, on_line, leaf_html};
ghost use Rattle.markdown_page.specs.DocumentBrought.{block_brought, leaf_brought, text_brought};
ghost use Rattle.markdown_page.specs.BroughtSoFar.{IsSpent, IsStop};
ghost use Rattle.markdown_page.specs.GivenPage.{bytes_of, setting_at, setting_of, page_of};
ghost use Rattle.markdown_page.specs.PlacedTree.{leaf_written, is_first_after, is_in_line_behind};

use crate::code::{push_fenced, push_indented};
use crate::given::Given;
use crate::html::push_html;
use crate::limit::Stop;
use crate::tags::{push_ending, push_line_start, push_number, push_on_line};
use crate::texts::push_text;
use markdown_blocks::block::Leaf;
use markdown_content::parser::Piece;
use std::alloc::{AllocError, Global};

// Where a leaf stands.
#[derive(Clone, Copy)]
pub(crate) struct LeafPosition {
    // Whether it is right in an item of a tight list.
    pub(crate) is_tight: bool,
    // Whether no line begins behind what is written.
    pub(crate) in_line: bool,
    // Whether it is the first block of an item, if it is a block.
    pub(crate) is_first: bool,
}

// Appends a tag of headings of a level.
fn push_heading_tag(out: &mut Vec<u8>, before: &[u8], level: usize) -> Result<(), AllocError>
    ensures { OnOk result (out.new.items ≡ out.old.items ++ (before.now ++ decimal level ++ codes ">")) }
{
    out.extend_from_slice(before)?;
    push_number(out, level)?;
    out.extend_from_slice(b">")
}

// Appends a heading (CommonMark 4.2 and 4.3).
fn push_heading(
    alloc: Global,
    given: &Given,
    out: &mut Vec<u8>,
    left: &mut Option<usize>,
    level: usize,
    text: &[Piece],
) -> Result<(), Stop>
    requires { IsTextContent (bytes_of given.now) text.now }
    ensures html { let g = given.now in OnOk result (out.new.items ≡ out.old.items ++ heading_html (page_of g) level (text_html (setting_of g) (page_of g) (content_of (bytes_of g) text.now))) }
    ensures spent { let g = given.now in OnOk result (IsSpent left.old (text_brought (setting_of g) (page_of g) (content_of (bytes_of g) text.now)) left.new) }
    ensures stop { let g = given.now in IfErr result (IsStop left.old (text_brought (setting_of g) (page_of g) (content_of (bytes_of g) text.now))) }
{
    push_heading_tag(out, b"<h", level)?;
    push_text(alloc, given, out, left, false, text)?;
    push_heading_tag(out, b"</h", level)?;
    Ok(push_ending(given, out)?)
}

// Appends a paragraph (CommonMark 4.8).
fn push_paragraph(
    alloc: Global,
    given: &Given,
    out: &mut Vec<u8>,
    left: &mut Option<usize>,
    is_first: bool,
    text: &[Piece],
) -> Result<(), Stop>
    requires { IsTextContent (bytes_of given.now) text.now }
    ensures html { let g = given.now in OnOk result (out.new.items ≡ out.old.items ++ on_line (page_of g) (codes "<p>" ++ text_html (setting_at g is_first) (page_of g) (content_of (bytes_of g) text.now) ++ codes "</p>")) }
    ensures spent { let g = given.now in OnOk result (IsSpent left.old (text_brought (setting_at g is_first) (page_of g) (content_of (bytes_of g) text.now)) left.new) }
    ensures stop { let g = given.now in IfErr result (IsStop left.old (text_brought (setting_at g is_first) (page_of g) (content_of (bytes_of g) text.now))) }
{
    out.extend_from_slice(b"<p>")?;
    push_text(alloc, given, out, left, is_first, text)?;
    out.extend_from_slice(b"</p>")?;
    Ok(push_ending(given, out)?)
}

// Appends a leaf that begins a line: any but a blank line, and a paragraph without text. `is_first` says that it is the first block of an item.
fn push_block(
    alloc: Global,
    given: &Given,
    out: &mut Vec<u8>,
    left: &mut Option<usize>,
    is_first: bool,
    leaf: &Leaf,
) -> Result<(), Stop>
    requires { IsTextLeaf (bytes_of given.now) leaf.now }
    ensures html { let g = given.now in let l = leaf_of (bytes_of g) leaf.now in OnOk result (out.new.items ≡ out.old.items ++ leaf_html (leaf_setting (setting_of g) is_first l) (page_of g) l) }
    ensures spent { let g = given.now in let l = leaf_of (bytes_of g) leaf.now in OnOk result (IsSpent left.old (block_brought (leaf_setting (setting_of g) is_first l) (page_of g) l) left.new) }
    ensures stop { let g = given.now in let l = leaf_of (bytes_of g) leaf.now in IfErr result (IsStop left.old (block_brought (leaf_setting (setting_of g) is_first l) (page_of g) l)) }
{
    match leaf {
        Leaf::Blank => Ok(()),
        Leaf::ThematicBreak => Ok(push_on_line(given, out, b"<hr />")?),
        Leaf::Heading(level, text) => push_heading(alloc, given, out, left, *level, &[*text]),
        Leaf::Underlined(level, text) => push_heading(
            alloc,
            given,
            out,
            left,
            *level,
            text.as_slice(),
        ),
        Leaf::Paragraph(text) => push_paragraph(alloc, given, out, left, is_first, text.as_slice()),
        Leaf::IndentedCode(lines) => Ok(push_indented(given, out, lines.as_slice())?),
        Leaf::FencedCode(fence, info, lines, _) => {
            Ok(push_fenced(alloc, given, out, *fence, *info, lines.as_slice())?)
        }
        Leaf::Html(_, text, _) => Ok(push_html(given, out, text.as_slice())?),
        Leaf::FrontMatter(_) => Ok(()),
    }
}

// Appends a paragraph, which is its text alone right in an item of a tight list (CommonMark 5.3), and nothing without pieces.
fn push_paragraph_in(
    alloc: Global,
    given: &Given,
    out: &mut Vec<u8>,
    left: &mut Option<usize>,
    at: LeafPosition,
    text: &[Piece],
) -> Result<(), Stop>
    requires { IsTextWithPieces (bytes_of given.now) text.now }
    ensures html { let g = given.now in OnOk result (out.new.items ≡ out.old.items ++ leaf_written (setting_of g) (page_of g) at.is_tight at.in_line at.is_first (paragraph (content_of (bytes_of g) text.now))) }
    ensures spent { let g = given.now in OnOk result (IsSpent left.old (leaf_brought (setting_at g at.is_first) (page_of g) (paragraph (content_of (bytes_of g) text.now))) left.new) }
    ensures stop { let g = given.now in IfErr result (IsStop left.old (leaf_brought (setting_at g at.is_first) (page_of g) (paragraph (content_of (bytes_of g) text.now)))) }
{
    if text.is_empty() {
        return Ok(());
    }
    if at.is_tight {
        return push_text(alloc, given, out, left, at.is_first, text);
    }
    push_line_start(given, out, at.in_line)?;
    push_paragraph(alloc, given, out, left, at.is_first, text)
}

// Appends a leaf.
pub(crate) fn push_leaf(
    alloc: Global,
    given: &Given,
    out: &mut Vec<u8>,
    left: &mut Option<usize>,
    at: LeafPosition,
    leaf: &Leaf,
) -> Result<(), Stop>
    requires { IsTextLeaf (bytes_of given.now) leaf.now }
    ensures html { let g = given.now in OnOk result (out.new.items ≡ out.old.items ++ leaf_written (setting_of g) (page_of g) at.is_tight at.in_line at.is_first (leaf_of (bytes_of g) leaf.now)) }
    ensures spent { let g = given.now in let l = leaf_of (bytes_of g) leaf.now in OnOk result (IsSpent left.old (leaf_brought (leaf_setting (setting_of g) at.is_first l) (page_of g) l) left.new) }
    ensures stop { let g = given.now in let l = leaf_of (bytes_of g) leaf.now in IfErr result (IsStop left.old (leaf_brought (leaf_setting (setting_of g) at.is_first l) (page_of g) l)) }
{
    match leaf {
        Leaf::Blank => Ok(()),
        Leaf::Paragraph(text) => { push_paragraph_in(alloc, given, out, left, at, text.as_slice()) }
        _ => {
            push_line_start(given, out, at.in_line)?;
            push_block(alloc, given, out, left, at.is_first, leaf)
        }
    }
}

// Whether no line begins behind a leaf.
pub(crate) fn is_in_line_behind(given: &Given, is_tight: bool, in_line: bool, leaf: &Leaf) -> bool
    requires { IsTextLeaf (bytes_of given.now) leaf.now }
    ensures { result ≡ is_in_line_behind is_tight in_line (leaf_of (bytes_of given.now) leaf.now) }
{
    match leaf {
        Leaf::Blank => in_line,
        Leaf::Paragraph(text) if text.is_empty() => in_line,
        Leaf::Paragraph(_) => is_tight,
        _ => false,
    }
}

// Whether the next block after a leaf is the first one of an item, where it may be this leaf itself.
pub(crate) fn is_first_after(given: &Given, is_first: bool, leaf: &Leaf) -> bool
    requires { IsTextLeaf (bytes_of given.now) leaf.now }
    ensures { result ≡ is_first_after is_first (leaf_of (bytes_of given.now) leaf.now) }
{
    match leaf {
        Leaf::Blank => is_first,
        Leaf::Paragraph(text) => is_first && text.is_empty(),
        _ => false,
    }
}
