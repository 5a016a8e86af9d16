//! The states of hard breaks by a backslash: a backslash before a line ending is a hard line break (CommonMark 6.7).
//!
//!     hard_break_escape ::= '\'                                before line_ending
//!
//! The line ending is not read: it stays an element of its own.
//!
//! Events:
//!
//!     HardBreakEscape    `\`
//!
//! Example: `red\` on a line, and `blue` on the next.
//!
//! Definition: `hard_break_escape` in `markdown_model/specs/LeafConstructs.antt`.
//!
//! Each state answers the error where a growth is refused; then `failed` is true.
#![tactic(auto, using(markdown_engine::proofs::OperationFields::op_rules))]

ghost use Rattle.markdown_engine.specs.Operations.{IsOpen};
ghost use Rattle.markdown_event.specs.declared.event.Name.TheVariants.{HardBreakEscape};
ghost use Rattle.markdown_leaf.specs.HardBreakEscape.{start_step, after_step};
ghost use Rattle.markdown_plan.specs.StateCalls.{Steps};

use markdown_engine::tokenizer::Tokenizer;
use markdown_event::event::Name;
use markdown_event::state::{State, StateName};
use std::alloc::AllocError;

/// At the start of a hard break: the backslash.
///
///     > | red\
///            ^
///     > | blue
pub fn start(tokenizer: &mut Tokenizer) -> Result<State, AllocError>
    ensures { Steps start_step tokenizer.old result tokenizer.new }
{
    if tokenizer.parse_state.options.constructs.hard_break_escape
        && tokenizer.current() == Some(b'\\')
    {
        tokenizer.enter(Name::HardBreakEscape)?;
        tokenizer.consume();
        Ok(State::Next(StateName::HardBreakEscapeAfter))
    } else {
        Ok(State::Nok)
    }
}

/// After the backslash: a line ending has to follow, and is left to others.
///
///     > | red\
///             ^
///     > | blue
pub fn after(tokenizer: &mut Tokenizer) -> Result<State, AllocError>
    requires { IsOpen HardBreakEscape tokenizer.old }
    ensures { Steps after_step tokenizer.old result tokenizer.new }
{
    match tokenizer.current() {
        Some(b'\n') => {
            tokenizer.exit(Name::HardBreakEscape)?;
            Ok(State::Ok)
        }
        _ => Ok(State::Nok),
    }
}
