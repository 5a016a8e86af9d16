//! The states of code spans (CommonMark 6.1), and of math spans alike: a run of markers opens a span, which ends at the next run of equal
//! length.
//!
//!     raw_text ::= code_text | math_text
//!     code_text ::= '`'{n} part+ '`'{n}                        n ≥ 1
//!     math_text ::= '$'{n} part+ '$'{n}                        n ≥ 1, or n ≥ 2 without `math_text_single_dollar`
//!     part ::= line_ending | (code - (line_ending | marker))+ | marker{k}    k ≠ n
//!
//! Runs are as long as they can be. No such marker stands right before a span, unless as the value of an escape.
//!
//! Events, with `Math` for `Code` in a math span:
//!
//!     CodeText
//!       CodeTextSequence               the opening run
//!       CodeTextData or LineEnding     one for each part
//!       CodeTextSequence               the closing run
//!
//! Example: in `` ``a`b`` `` the run of one backtick is data of the span.
//!
//! Definition: `raw_text_here` in `markdown_model/specs/SingleConstructs.antt`, by `span_of` in `LeafConstructs.antt`.
//!
//! Each state answers the error where a growth is refused; then `failed` is true.
#![tactic(auto, using(markdown_engine::proofs::OperationFields::op_rules), unfolding(markdown_engine::specs::Operations::scratched))]

ghost use Rattle.std.specs.Prelude.{◌≡◌};
ghost use Rattle.markdown_engine.specs.Operations.{scratched};
ghost use Rattle.markdown_leaf.specs.RawText.{start_step, sequence_open_step, between_step, data_step, data_stops, sequence_close_step, after_opening, after_run, opened, is_barred, rested, names_in, SequenceOpenReady, BetweenReady, DataReady, SequenceCloseReady};
ghost use Rattle.markdown_model.specs.SingleConstructs.{ends_escape, follows_escape};
ghost use Rattle.markdown_plan.specs.StateCalls.{Steps};

use crate::renaming::rename_entered;
use markdown_content::byte_table;
use markdown_content::bytes::{ByteSet, ByteTable};
use markdown_engine::tokenizer::{TokenizeState, Tokenizer};
use markdown_event::event::{Event, Kind, Name};
use markdown_event::state::{State, StateName};
use std::alloc::AllocError;

// Whether the event ends an escape.
fn ends_escape(event: Event) -> bool
    ensures { result ≡ ends_escape event }
{
    matches!(event.kind, Kind::Exit) && matches!(event.name, Name::CharacterEscape)
}

// Whether the last event ends an escape.
fn follows_escape(tokenizer: &Tokenizer) -> bool
    ensures { result ≡ follows_escape tokenizer.now.events }
{
    let len = tokenizer.events.len();
    if len == 0 {
        return false;
    }
    ends_escape(tokenizer.events.bare_at(len - 1))
}

/// Whether this marker stands before, and is not the value of an escape: then no span of it starts here. Takes no memory.
pub fn is_barred(tokenizer: &Tokenizer, marker: u8) -> bool
    ensures { result ≡ is_barred marker tokenizer.now }
{
    tokenizer.previous() == Some(marker) && !follows_escape(tokenizer)
}

// Enters a span of this marker.
fn open(
    tokenizer: &mut Tokenizer,
    marker: u8,
    whole: Name,
    sequence: Name,
    text: Name,
) -> Result<State, AllocError>
    ensures { Steps (opened marker (record { whole = whole; sequence = sequence; text = text })) tokenizer.old result tokenizer.new }
{
    tokenizer.enter(whole)?;
    tokenizer.enter(sequence)?;
    tokenizer.tokenize_state.marker = marker;
    tokenizer.tokenize_state.token_1 = whole;
    tokenizer.tokenize_state.token_2 = sequence;
    tokenizer.tokenize_state.token_3 = text;
    Ok(State::Retry(StateName::RawTextSequenceOpen))
}

// Puts the scratch fields to rest.
fn rest(tokenizer: &mut Tokenizer)
    ensures { tokenizer.new ≡ scratched (rested tokenizer.old.tokenize_state) tokenizer.old }
{
    tokenizer.tokenize_state.marker = 0;
    tokenizer.tokenize_state.size = 0;
    tokenizer.tokenize_state.size_b = 0;
    tokenizer.tokenize_state.token_1 = Name::Data;
    tokenizer.tokenize_state.token_2 = Name::Data;
    tokenizer.tokenize_state.token_3 = Name::Data;
}

/// At the start of a span: its first marker.
///
/// A span does not start after the same marker, unless that is escaped.
///
///     > | `p` $$q$$
///         ^   ^
pub fn start(tokenizer: &mut Tokenizer) -> Result<State, AllocError>
    ensures { Steps start_step tokenizer.old result tokenizer.new }
{
    let constructs = &tokenizer.parse_state.options.constructs;
    match tokenizer.current() {
        Some(b'`') if constructs.code_text && !is_barred(tokenizer, b'`') => open(
            tokenizer,
            b'`',
            Name::CodeText,
            Name::CodeTextSequence,
            Name::CodeTextData,
        ),
        Some(b'$') if constructs.math_text && !is_barred(tokenizer, b'$') => open(
            tokenizer,
            b'$',
            Name::MathText,
            Name::MathTextSequence,
            Name::MathTextData,
        ),
        _ => Ok(State::Nok),
    }
}

// After the opening run: it has to be long enough.
fn after_opening(tokenizer: &mut Tokenizer) -> Result<State, AllocError>
    requires { SequenceOpenReady tokenizer.old }
    ensures { Steps after_opening tokenizer.old result tokenizer.new }
{
    if tokenizer.tokenize_state.marker == b'$'
        && tokenizer.tokenize_state.size == 1
        && !tokenizer.parse_state.options.math_text_single_dollar
    {
        rest(tokenizer);
        Ok(State::Nok)
    } else {
        tokenizer.exit(tokenizer.tokenize_state.token_2)?;
        Ok(State::Retry(StateName::RawTextBetween))
    }
}

/// In the opening run.
///
///     > | ``xy`z``
///         ^^^
pub fn sequence_open(tokenizer: &mut Tokenizer) -> Result<State, AllocError>
    requires { SequenceOpenReady tokenizer.old }
    ensures { Steps sequence_open_step tokenizer.old result tokenizer.new }
{
    match tokenizer.current() {
        Some(code) if code == tokenizer.tokenize_state.marker => {
            let passed = tokenizer.tokenize_state.size + 1;
            tokenizer.consume();
            tokenizer.tokenize_state.size = passed;
            Ok(State::Next(StateName::RawTextSequenceOpen))
        }
        _ => after_opening(tokenizer),
    }
}

/// After the opening run, a line ending, data or a run of another length.
///
///     > | ``xy`z``
///           ^ ^^^
pub fn between(tokenizer: &mut Tokenizer) -> Result<State, AllocError>
    requires { BetweenReady tokenizer.old }
    ensures { Steps between_step tokenizer.old result tokenizer.new }
{
    match tokenizer.current() {
        None => {
            rest(tokenizer);
            Ok(State::Nok)
        }
        Some(b'\n') => {
            tokenizer.take(Name::LineEnding)?;
            Ok(State::Next(StateName::RawTextBetween))
        }
        Some(code) => {
            let fields = &tokenizer.tokenize_state;
            let (part, state) = if code == fields.marker {
                (fields.token_2, StateName::RawTextSequenceClose)
            } else {
                (fields.token_3, StateName::RawTextData)
            };
            tokenizer.enter(part)?;
            Ok(State::Retry(state))
        }
    }
}

/// In data.
///
///     > | ``xy`z``
///           ^^^^^
pub fn data(tokenizer: &mut Tokenizer) -> Result<State, AllocError>
    requires { DataReady tokenizer.old }
    ensures { Steps data_step tokenizer.old result tokenizer.new }
{
    match tokenizer.current() {
        Some(code) if code != b'\n' && code != tokenizer.tokenize_state.marker => {
            tokenizer.consume();
            Ok(State::Next(StateName::RawTextData))
        }
        _ => {
            tokenizer.exit(tokenizer.tokenize_state.token_3)?;
            Ok(State::Retry(StateName::RawTextBetween))
        }
    }
}

const BACKTICK: ByteTable = byte_table!(b'`');

const DOLLAR: ByteTable = byte_table!(b'$');

/// The byte at which data of a span stops, line endings aside: its marker. Takes no memory.
pub fn data_stops(fields: &TokenizeState) -> Option<ByteSet>
    ensures { result ≡ data_stops fields.now }
{
    match fields.marker {
        b'`' => Some(ByteSet::new(&BACKTICK)),
        b'$' => Some(ByteSet::new(&DOLLAR)),
        _ => None,
    }
}

// After a run of markers: the span ends where it is as long as the opening run; else the run is data.
#[tactic(auto, using(markdown_plan::proofs::RenameLemmas::rename_rules), unfolding(markdown_engine::specs::Operations::scratched))]
fn after_run(tokenizer: &mut Tokenizer) -> Result<State, AllocError>
    requires { SequenceCloseReady tokenizer.old }
    ensures { Steps after_run tokenizer.old result tokenizer.new }
{
    if tokenizer.tokenize_state.size_b == tokenizer.tokenize_state.size {
        tokenizer.exit(tokenizer.tokenize_state.token_2)?;
        tokenizer.exit(tokenizer.tokenize_state.token_1)?;
        rest(tokenizer);
        Ok(State::Ok)
    } else {
        rename_entered(tokenizer, tokenizer.tokenize_state.token_3)?;
        tokenizer.exit(tokenizer.tokenize_state.token_3)?;
        tokenizer.tokenize_state.size_b = 0;
        Ok(State::Retry(StateName::RawTextBetween))
    }
}

/// In a run of markers after the opening one.
///
///     > | ``xy`z``
///             ^^^^^
pub fn sequence_close(tokenizer: &mut Tokenizer) -> Result<State, AllocError>
    requires { SequenceCloseReady tokenizer.old }
    ensures { Steps sequence_close_step tokenizer.old result tokenizer.new }
{
    match tokenizer.current() {
        Some(code) if code == tokenizer.tokenize_state.marker => {
            let passed = tokenizer.tokenize_state.size_b + 1;
            tokenizer.consume();
            tokenizer.tokenize_state.size_b = passed;
            Ok(State::Next(StateName::RawTextSequenceClose))
        }
        _ => after_run(tokenizer),
    }
}
