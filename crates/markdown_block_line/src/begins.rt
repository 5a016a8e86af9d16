//! What the rest of a line begins (CommonMark 3.1, 4 and 5), by the order in which blocks take precedence. Each takes time linear in the rest at most,
//! and allocates nothing.

ghost use Rattle.std.specs.Prelude.{◌≡◌, ◌||◌, not, length, List, true, false, is_some, IfSome};
ghost use Rattle.markdown_content.specs.Codes.{Code};
ghost use Rattle.markdown_model.specs.CodeTests.{values_of};
ghost use Rattle.markdown_block_model.specs.LineRests.{is_blank_line};
ghost use Rattle.markdown_block_model.specs.BlockStarts.{begun};
ghost use Rattle.markdown_block_line.specs.LineBlocks.{extensions_of, Says};
ghost use Rattle.markdown_block_line.specs.LineBreaks.{IsBreakLens};
ghost use Rattle.markdown_block_line.specs.LineStarts.{begun_of, StandsWhere, IsWithin};

use crate::breaks::BreakLens;
use crate::containers::{Container, item_at};
use crate::extensions::Extensions;
use crate::html::{Html, html_at};
use crate::line::{indent_to, is_blank_line};
use crate::starts::{Heading, OpenFence, behind_quote, fence_at, heading_at};

/// What begins with the rest of a line: a leaf, which takes the rest, or a container. Places are counted from where the rest begins.
#[derive(Clone, Copy)]
pub enum Begun {
    /// A thematic break.
    ThematicBreak,
    /// A heading of number signs.
    Heading(Heading),
    /// Fenced code.
    FencedCode(OpenFence),
    /// HTML; the whole rest is its first line.
    Html(Html),
    /// Indented code; the rest behind four columns is its first line.
    IndentedCode,
    /// A container, and how many codes of the rest stand outside it.
    Container(Container, usize),
}

/// Returns what the rest of a line begins, or `None` where that is at most a paragraph.
///
/// `in_paragraph` says that a paragraph stands right before it, `after_text` that one is open here or further inside. `breaks` is of the whole line, or
/// of a rest that this one ends.
pub fn begun_at(
    extensions: Extensions,
    in_paragraph: bool,
    after_text: bool,
    breaks: BreakLens,
    line: &[u8],
) -> Option<Begun>
    requires { IsBreakLens breaks line.now }
    ensures found { (cs : List Code) → values_of cs ≡ line.now → Says result (begun_of cs) (begun (extensions_of extensions) in_paragraph after_text cs) }
    ensures start { (cs : List Code) → values_of cs ≡ line.now → IfSome result (StandsWhere cs) }
    ensures within { IfSome result (IsWithin (length line.now)) }
{
    let columns = indent_to(line, 4);
    if columns == 4 {
        if after_text || is_blank_line(line) {
            return None;
        }
        return Some(Begun::IndentedCode);
    }
    if let Some(outside) = behind_quote(line) {
        return Some(Begun::Container(Container::Quote, outside));
    }
    let rest = &line[columns..];
    if let Some(heading) = heading_at(rest) {
        let start = columns + heading.start;
        return Some(Begun::Heading(Heading { start, ..heading }));
    }
    if let Some(fence) = fence_at(extensions, columns, rest) {
        let start = columns + fence.start;
        return Some(Begun::FencedCode(OpenFence { start, ..fence }));
    }
    if let Some(html) = html_at(after_text, line) {
        return Some(Begun::Html(html));
    }
    if breaks.contains(rest.len()) {
        return Some(Begun::ThematicBreak);
    }
    let Some(item) = item_at(in_paragraph, columns, rest) else {
        return None;
    };
    let container = Container::Item(item.marker, item.columns);
    Some(Begun::Container(container, columns + item.outside))
}

/// Returns whether a line that continues not all open containers would join the paragraph that is open inside them (CommonMark 5.1, laziness).
pub fn is_lazy_line(extensions: Extensions, breaks: BreakLens, line: &[u8]) -> bool
    requires { IsBreakLens breaks line.now }
    ensures { (cs : List Code) → values_of cs ≡ line.now → result ≡ not (is_blank_line cs || is_some (begun (extensions_of extensions) false true cs)) }
{
    if is_blank_line(line) {
        return false;
    }
    match begun_at(extensions, false, true, breaks, line) {
        None => true,
        Some(_) => false,
    }
}
