//! What a tree knows for each event: which node is open before it, and which Exit comes behind it.
ghost use Rattle.std.specs.Prelude.{◌≡◌, ◌<◌, IfOk, OnOk, length, slice_get};
ghost use Rattle.markdown_content.specs.Nesting.{opened, own_enter};
ghost use Rattle.markdown_tree.specs.Nodes.{closed, own_exit};
ghost use Rattle.markdown_tree.specs.TreeIndex.{parents_of, exits_of};

use markdown_engine_events::event_list::EventSlice;
use markdown_event::event::Kind;
use markdown_event::seq::Stack;
use std::alloc::{AllocError, Global};

// The top of a stack.
fn top(stack: &Stack<usize>) -> Option<usize>
    ensures { result ≡ slice_get stack.now 0 }
{
    match stack.top() {
        Some(number) => Some(*number),
        None => None,
    }
}

// Passes an event forward: an Enter opens, an Exit ends the innermost open Enter.
fn pass(stack: &mut Stack<usize>, number: usize, kind: Kind) -> Result<(), AllocError>
    ensures { OnOk result (stack.new ≡ opened number kind stack.old) }
{
    match kind {
        Kind::Enter => stack.push(number)?,
        Kind::Exit => {
            stack.pop();
        }
    }
    Ok(())
}

// Passes an event backward: an Exit opens, an Enter ends the innermost open Exit.
fn pass_back(stack: &mut Stack<usize>, number: usize, kind: Kind) -> Result<(), AllocError>
    ensures { OnOk result (stack.new ≡ closed number kind stack.old) }
{
    match kind {
        Kind::Exit => stack.push(number)?,
        Kind::Enter => {
            stack.pop();
        }
    }
    Ok(())
}

// For each event the number of the innermost Enter that is open before it.
pub(crate) fn parents(alloc: Global, events: &EventSlice) -> Result<Vec<Option<usize>>, AllocError>
    ensures { IfOk result (λ found. found.items ≡ parents_of events.now) }
{
    let mut open = Stack::new(alloc);
    let mut found = Vec::with_capacity(alloc, events.len())?;
    for index in 0..events.len() {
        found.push(top(&open))?;
        pass(&mut open, index, events.at(index).kind)?;
    }
    Ok(found)
}

// For each event the number of the first Exit behind it that ends no Enter behind it.
pub(crate) fn exits(alloc: Global, events: &EventSlice) -> Result<Vec<Option<usize>>, AllocError>
    ensures { IfOk result (λ found. found.items ≡ exits_of events.now) }
{
    let mut open = Stack::new(alloc);
    let mut found = Vec::with_capacity(alloc, events.len())?;
    for index in (0..events.len()).rev() {
        found.push(top(&open))?;
        pass_back(&mut open, index, events.at(index).kind)?;
    }
    found.reverse();
    Ok(found)
}

// For the event of a number the number of the innermost Enter that is open before it.
#[tactic(auto, using(crate::proofs::WalkLemmas::back_exit, crate::proofs::WalkLemmas::back_enter, crate::proofs::WalkLemmas::at_enter))]
pub(crate) fn enter_around(events: &EventSlice, number: usize) -> Option<usize>
    requires { number < length events.now }
    ensures { result ≡ own_enter events.now number }
{
    let mut closed: usize = 0;
    for index in (0..number).rev() {
        match events.at(index).kind {
            Kind::Exit => closed += 1,
            Kind::Enter if closed == 0 => return Some(index),
            Kind::Enter => closed -= 1,
        }
    }
    None
}

// For the event of a number the number of the first Exit behind it that ends no Enter behind it.
#[tactic(auto, using(crate::proofs::WalkLemmas::over_enter, crate::proofs::WalkLemmas::over_exit, crate::proofs::WalkLemmas::at_exit, crate::proofs::WalkLemmas::no_exit))]
pub(crate) fn exit_behind(events: &EventSlice, number: usize) -> Option<usize>
    requires { number < length events.now }
    ensures { result ≡ own_exit events.now number }
{
    let end = events.len();
    let mut open: usize = 0;
    for index in number + 1..end {
        match events.at(index).kind {
            Kind::Enter => open += 1,
            Kind::Exit if open == 0 => return Some(index),
            Kind::Exit => open -= 1,
        }
    }
    None
}
