// Lists the nodes of the paragraph that `events` reads, as a tree.
ghost use Rattle.std.specs.Prelude.{◌≡◌, false, None, IfOk, IfSome};
ghost use Rattle.markdown_inline.specs.markdown_content.Content.{IsTextContent};
ghost use Rattle.markdown_inline.specs.markdown_run_text.RunSetting.{text_setting_of};
ghost use Rattle.markdown_inline.specs.markdown_model.InlineTree.{text_events};

use crate::events::{PARAGRAPH, QUOTE};
use markdown_inline::event_list::EventList;
use markdown_inline::node::Node;
use markdown_inline::options::ALL_CONSTRUCTS;
use markdown_inline::parser::{ParseState, Piece};
use markdown_inline::pieces::leaf_pieces;
use markdown_inline::run;
use markdown_inline::tree::Tree;
use std::alloc::{AllocError, Global};

/// The events of the paragraph that these pieces of the document make up; none where they are no text.
pub fn events_of(
    alloc: Global,
    parse_state: &ParseState,
    pieces: &[Piece],
) -> Result<Option<EventList>, AllocError>
    ensures found { IfOk result (λ found. IfSome found (λ events. events ≡ text_events (text_setting_of parse_state.now false) pieces.now)) }
    ensures none { IfOk result (λ found. found ≡ None → IsTextContent parse_state.now.bytes.now pieces.now → ⊥) }
{
    if !run::is_text(parse_state.bytes, pieces) {
        return Ok(None);
    }
    Ok(Some(run::text_list(alloc, parse_state, pieces, false)?.events))
}

// Adds the name of a node and where it begins, or `-` where there is none.
fn push_name(lines: &mut String, tree: &Tree, number: Option<usize>) -> Result<(), AllocError> {
    if let Some(number) = number {
        if let Some(node) = tree.node(number) {
            return write!(lines, " {:?} {}", node.name, node.start.index);
        }
    }
    lines.push_str(" -")
}

// Adds a line for a node: what it stands in, the first inside it, the next beside it, and the pieces of the document that its leaves are.
fn push_node(alloc: Global, lines: &mut String, tree: &Tree, node: Node) -> Result<(), AllocError> {
    write!(lines, "{:?} {}:", node.name, node.start.index)?;
    push_name(lines, tree, tree.parent(node.enter))?;
    push_name(lines, tree, tree.first_child(node.enter))?;
    push_name(lines, tree, tree.next_sibling(node.enter))?;
    for piece in leaf_pieces(alloc, &tree.events(node.enter))? {
        write!(lines, " {}-{}", piece.start.0, piece.end.0)?;
    }
    lines.push('\n')
}

// A line for each node.
pub(crate) fn listed(alloc: Global) -> Result<String, AllocError> {
    let parse_state = ParseState {
        bytes: QUOTE,
        options: &ALL_CONSTRUCTS,
        definitions: Vec::new(alloc),
        gfm_footnote_definitions: Vec::new(alloc),
    };
    let mut lines = String::new(alloc);
    let Some(events) = events_of(alloc, &parse_state, &PARAGRAPH)? else {
        return Ok(lines);
    };
    let tree = Tree::new(alloc, &events.as_slice())?;
    for number in 0..events.len() {
        if let Some(node) = tree.node(number) {
            push_node(alloc, &mut lines, &tree, node)?;
        }
    }
    Ok(lines)
}
