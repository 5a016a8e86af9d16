//! Lists and stacks, by calls that are always the same.
//!
//!     list     the items of a list that 1, 2 and 3 were added to, and the last one, which is taken off
//!     stacks   whether a stack is empty that another one, of 1, took 2 and 3 from, and what that one answers
ghost use Rattle.std.specs.Prelude.{◌≡◌, ◌∷◌, [], OnOk};

use crate::answers::Answers;
use crate::case::Case;
use markdown_event::seq::{Seq, Stack};
use std::alloc::{AllocError, Global};

// Appends what a case answers.
pub(crate) fn answer(alloc: Global, case: &Case, out: &mut Answers) {
    let outcome = match case.call {
        "list" => grow_list(alloc, out),
        "stacks" => stacks(alloc, out),
        _ => return out.say(" no such call"),
    };
    out.keep(outcome);
}

fn grow_list(alloc: Global, out: &mut Answers) -> Result<(), AllocError> {
    let mut list = Seq::new(alloc);
    list.push(1u8)?;
    list.reserve(4)?;
    list.extend_from_slice(&[2, 3])?;
    out.show(list.as_slice());
    out.show(list.pop());
    Ok(())
}

fn fill_stacks(low: &mut Stack<u8>, high: &mut Stack<u8>) -> Result<(), AllocError>
    requires low { low.old ≡ [] }
    requires high { high.old ≡ [] }
    ensures { OnOk result (low.new ≡ 3 ∷ 2 ∷ 1 ∷ []) }
{
    low.push(1)?;
    high.push(2)?;
    high.push(3)?;
    low.append(high)
}

// The top, the items at two depths, the items once 4 is written in the middle, the top, which is taken off, and the items and the top once
// all but one are given up and both are taken off.
fn empty_stack(low: &mut Stack<u8>, out: &mut Answers)
    requires { low.old ≡ 3 ∷ 2 ∷ 1 ∷ [] }
{
    out.show(low.top().copied());
    out.show(*low.at(0));
    out.show(*low.at(2));
    low.put(1, 4);
    out.say(",");
    out.show(*low.at(0));
    out.show(*low.at(1));
    out.show(*low.at(2));
    out.say(",");
    out.show(low.pop());
    low.truncate(1);
    out.say(",");
    out.show(low.pop());
    out.show(low.pop());
    out.show(low.top().copied());
}

fn stacks(alloc: Global, out: &mut Answers) -> Result<(), AllocError> {
    let mut low = Stack::new(alloc);
    let mut high = Stack::new(alloc);
    fill_stacks(&mut low, &mut high)?;
    out.show(high.is_empty());
    empty_stack(&mut low, out);
    Ok(())
}
