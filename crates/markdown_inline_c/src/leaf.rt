//! The leaves of an input as a text.

ghost use Rattle.std.specs.Prelude.{◌≡◌, ◌≤◌, IfErr, IfOk, length, map};
ghost use Rattle.std.specs.List.{All};
ghost use Rattle.markdown_content.specs.Content.{document_limit};
ghost use Rattle.markdown_inline_c.specs.FlatInput.{IsTextInput};
ghost use Rattle.markdown_inline_c.specs.FlatLeaves.{flat_leaf, leaves_of};
ghost use Rattle.markdown_inline_c.specs.Statuses.{IsTextFault};
ghost use Rattle.markdown_innermost.specs.InnermostEvents.{innermost, lent, IsSpanInOrder};
ghost use Rattle.markdown_innermost.specs.LeafView.{lent_by};

use crate::fault::Fault;
use crate::flat::{FlatLeaf, Input, name_number};
use crate::input;
use markdown_engine_events::event_list::EventSlice;
use markdown_innermost::leaf::Leaf;
use std::alloc::{AllocError, Global};

fn flat_leaf(leaf: &Leaf) -> FlatLeaf
    ensures { result ≡ flat_leaf (lent_by leaf.now) }
{
    FlatLeaf {
        name: name_number(leaf.name),
        start_line: leaf.start.line,
        start_column: leaf.start.column,
        start: leaf.start.index,
        start_vs: leaf.start.vs,
        end_line: leaf.end.line,
        end_column: leaf.end.column,
        end: leaf.end.index,
        end_vs: leaf.end.vs,
        before: leaf.slice.before,
        bytes_len: leaf.slice.bytes.len(),
        after: leaf.slice.after,
    }
}

// What is lent for the innermost of the events, one after another.
#[tactic(auto, using(crate::proofs::Leaves::one_more, crate::proofs::Leaves::all_lent))]
fn flat_leaves(
    alloc: Global,
    bytes: &[u8],
    events: &EventSlice,
) -> Result<Vec<FlatLeaf>, AllocError>
    requires fits { length bytes.now ≤ document_limit }
    requires places { All (IsSpanInOrder bytes.now) (innermost events.now) }
    ensures { IfOk result (λ found. found.items ≡ map flat_leaf (map (lent bytes.now) (innermost events.now))) }
{
    let mut found = Vec::new(alloc);
    for leaf in markdown_innermost::leaves(bytes, events) {
        found.push(flat_leaf(&leaf))?;
    }
    Ok(found)
}

/// The innermost events of the input as a text, each with what stands there, or why it is refused.
pub fn leaves(alloc: Global, input: &Input) -> Result<Vec<FlatLeaf>, Fault>
    ensures leaves { IfOk result (λ found. found.items ≡ leaves_of input.now) }
    ensures input { IfOk result (λ _. IsTextInput input.now) }
    ensures err { IfErr result (IsTextFault input.now) }
{
    let run = input::text(alloc, input)?;
    Ok(flat_leaves(alloc, input.bytes, &run.events.as_slice())?)
}
