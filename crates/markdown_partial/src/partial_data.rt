//! The states of data, text that means itself (CommonMark 6.9). The pass that merges neighbouring data stands in `markdown_passes`.
//!
//!     data ::= (code (code - stop)*)?
//!
//! The first code belongs to data, whatever it is. `stop` is one of the bytes in the scratch field `markers`.
//!
//! Events:
//!
//!     Data          a stretch on one line
//!     LineEnding    a line ending
//!
//! Example: in `a & b` the codes `& b` are data.
//!
//! Definition: `data_up_to` in `markdown_model/specs/TextLines.antt`.
//!
//! Each state answers the error where a growth is refused; then `failed` is true.
//! A reader stands beside: `readers::partial_data` of `markdown_run_text`.
#![tactic(auto, using(markdown_engine::proofs::OperationFields::op_rules))]

ghost use Rattle.std.specs.Prelude.{◌≡◌, Some};
ghost use Rattle.markdown_engine.specs.Operations.{IsOpen, current_of};
ghost use Rattle.markdown_event.specs.declared.event.Name.TheVariants.{Data};
ghost use Rattle.markdown_partial.specs.PartialData.{stops_here, passing, entering, start_step, at_break_step, inside_step, inside_stops};
ghost use Rattle.markdown_plan.specs.StateCalls.{Steps};

use markdown_content::bytes::ByteSet;
use markdown_engine::tokenizer::{TokenizeState, Tokenizer};
use markdown_event::event::Name;
use markdown_event::state::{State, StateName};
use std::alloc::AllocError;

// Whether data stops at this byte, line endings aside.
fn stops(tokenizer: &Tokenizer, byte: u8) -> bool
    ensures { result ≡ stops_here tokenizer.now byte }
{
    tokenizer.tokenize_state.markers.contains(byte)
}

// Passes a line ending, or enters a stretch at the code at hand.
fn enter(tokenizer: &mut Tokenizer, byte: u8) -> Result<State, AllocError>
    requires { current_of tokenizer.old ≡ Some byte }
    ensures { Steps (entering byte) tokenizer.old result tokenizer.new }
{
    if byte == b'\n' {
        tokenizer.take(Name::LineEnding)?;
        Ok(State::Next(StateName::DataAtBreak))
    } else {
        tokenizer.enter(Name::Data)?;
        Ok(State::Retry(StateName::DataInside))
    }
}

// Passes the code at hand, a line ending or the first code of a stretch.
fn pass(tokenizer: &mut Tokenizer, byte: u8) -> Result<State, AllocError>
    requires { current_of tokenizer.old ≡ Some byte }
    ensures { Steps (passing byte) tokenizer.old result tokenizer.new }
{
    if byte == b'\n' {
        tokenizer.take(Name::LineEnding)?;
        Ok(State::Next(StateName::DataAtBreak))
    } else {
        tokenizer.enter(Name::Data)?;
        tokenizer.consume();
        Ok(State::Next(StateName::DataInside))
    }
}

/// At the start of data: the code at hand belongs to it, whatever it is.
///
///     > | one & six
///         ^   ^
pub fn start(tokenizer: &mut Tokenizer) -> Result<State, AllocError>
    ensures { Steps start_step tokenizer.old result tokenizer.new }
{
    match tokenizer.current() {
        Some(byte) if stops(tokenizer, byte) => pass(tokenizer, byte),
        _ => Ok(State::Retry(StateName::DataAtBreak)),
    }
}

/// Between two stretches: at a line ending, where data stops, or at the start of a line.
///
///     > | one
///            ^
///     > | six *
///         ^   ^
pub fn at_break(tokenizer: &mut Tokenizer) -> Result<State, AllocError>
    ensures { Steps at_break_step tokenizer.old result tokenizer.new }
{
    match tokenizer.current() {
        Some(byte) if !stops(tokenizer, byte) => enter(tokenizer, byte),
        _ => Ok(State::Ok),
    }
}

/// In a stretch of data, which ends before a line ending, a marker or the end.
///
///     > | plain *
///         ^^^^^^^
pub fn inside(tokenizer: &mut Tokenizer) -> Result<State, AllocError>
    requires { IsOpen Data tokenizer.old }
    ensures { Steps inside_step tokenizer.old result tokenizer.new }
{
    match tokenizer.current() {
        Some(byte) if byte != b'\n' && !stops(tokenizer, byte) => {
            tokenizer.consume();
            Ok(State::Next(StateName::DataInside))
        }
        _ => {
            tokenizer.exit(Name::Data)?;
            Ok(State::Retry(StateName::DataAtBreak))
        }
    }
}

/// The bytes at which a stretch of data may stop, line endings aside: the markers. Takes no memory.
pub fn inside_stops(fields: &TokenizeState) -> Option<ByteSet>
    ensures { result ≡ inside_stops fields.now }
{
    Some(fields.markers.again())
}
