//! The events of a run, those of a run by its states alone, and those that its passes leave where they are called one by one.
ghost use Rattle.markdown_inline.specs.markdown_content.Content.{IsContent, IsTextContent};

use crate::answers::Answers;
use crate::passes::{are_of_string, are_of_text};
use markdown_inline::event::Event;
use markdown_inline::parser::{ParseState, Piece};
use markdown_inline::run::{string, text, text_by_states};
use std::alloc::{AllocError, Global};

// How these events of a text are alike by its states alone, and by its passes.
fn likeness(
    alloc: Global,
    parse_state: &ParseState,
    pieces: &[Piece],
    first_of_item: bool,
    events: &[Event],
) -> Result<&'static str, AllocError>
    requires { IsTextContent parse_state.now.bytes.now pieces.now }
{
    let by_states = text_by_states(alloc, parse_state, pieces, first_of_item)?;
    if by_states.events.as_slice() != events {
        return Ok(" the run and its states differ");
    }
    if !are_of_text(alloc, parse_state, pieces, first_of_item, events)? {
        return Ok(" the run and its passes differ");
    }
    Ok(" equal")
}

/// Prints whether the events of a text are equal by a whole run, by its states alone, and by its passes. Answers how many there are.
pub(crate) fn print_likeness(
    alloc: Global,
    parse_state: &ParseState,
    pieces: &[Piece],
    first_of_item: bool,
    out: &mut Answers,
) -> Result<usize, AllocError>
    requires { IsTextContent parse_state.now.bytes.now pieces.now }
{
    let run = text(alloc, parse_state, pieces, first_of_item)?;
    let events = run.events.as_slice();
    out.say(likeness(alloc, parse_state, pieces, first_of_item, events)?);
    Ok(events.len())
}

/// Prints whether the passes of a string leave the events of a whole run, and how many there are.
pub(crate) fn print_string_likeness(
    alloc: Global,
    parse_state: &ParseState,
    pieces: &[Piece],
    out: &mut Answers,
) -> Result<(), AllocError>
    requires { IsContent parse_state.now.bytes.now pieces.now }
{
    let run = string(alloc, parse_state, pieces)?;
    let events = run.events.as_slice();
    if !are_of_string(alloc, parse_state, pieces, events)? {
        out.say(" the run and its passes differ");
        return Ok(());
    }
    out.count(" equal, ", events.len());
    out.say(" events");
    Ok(())
}
