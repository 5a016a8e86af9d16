//! The states of destinations, of resources and definitions (CommonMark 6.3, link destination).
//!
//!     destination ::= literal | raw
//!     literal ::= '<' ('\' ('<' | '>' | '\') | code - ('<' | '>' | line_ending))* '>'
//!     raw ::= part+                                            the first code is no '<'
//!     part ::= '\' ('(' | ')' | '\') | '(' part* ')' | code - (space | control | '(' | ')')
//!     space ::= blank | line_ending
//!
//! What looks like an escape is one. Parentheses of a raw destination nest `size_b` deep at most, and behind it stands whitespace, the end, or a
//! `)` that closes none of its own. `control` is an ASCII control other than NUL.
//!
//! Events, by the names in the scratch fields, with a resource's beside them:
//!
//!     token_1          ResourceDestination
//!       token_2        ResourceDestinationLiteral, of a literal destination
//!         token_3      ResourceDestinationLiteralMarker, `<`
//!         token_5      ResourceDestinationString, unless it is empty: `Data`, linked as a string
//!         token_3      ResourceDestinationLiteralMarker, `>`
//!       token_4        ResourceDestinationRaw, of a raw one
//!         token_5      ResourceDestinationString: `Data`, linked as a string
//!
//! Example: `<b c>` and `b(c)`. Definition: `destination` in `markdown_model/specs/Resource.antt`.
//!
//! Each state answers the error where a growth is refused; then `failed` is true.
#![tactic(auto, using(markdown_engine::proofs::OperationFields::op_rules), unfolding(markdown_engine::specs::Operations::scratched))]

ghost use Rattle.std.specs.Prelude.{◌≡◌, IfOk, OnErr, IsTrue};
ghost use Rattle.markdown_engine.specs.Operations.{HasCode, done};
ghost use Rattle.markdown_engine.specs.StateRuns.{stepped};
ghost use Rattle.markdown_event.specs.declared.state.State.TheVariants.{Retry};
ghost use Rattle.markdown_partial.specs.PartialDestination.{names_in, text_opening, closed, start_step, enclosed_before_step, enclosed_step, enclosed_escape_step, raw_step, raw_escape_step, finished, stops_in, EnclosedBeforeReady, EnclosedReady, RawReady};

use crate::linked_text::FIRST;
use markdown_content::byte_table;
use markdown_content::bytes::{ByteSet, ByteTable};
use markdown_engine::tokenizer::Tokenizer;
use markdown_event::event::Name;
use markdown_event::state::{State, StateName};
use std::alloc::AllocError;

const ENCLOSED_STOPS: ByteTable = byte_table!(b'<', b'>', b'\\');

const RAW_STOPS: ByteTable = byte_table!(b' ', b'(', b')', b'\\'; controls);

/// The bytes at which a state that passes code after code stops, line endings aside; none for the other states. Takes no memory.
pub fn stop_bytes(name: StateName) -> Option<ByteSet>
    ensures { result ≡ stops_in name }
{
    match name {
        StateName::DestinationEnclosed => Some(ByteSet::new(&ENCLOSED_STOPS)),
        StateName::DestinationRaw => Some(ByteSet::new(&RAW_STOPS)),
        _ => None,
    }
}

// Enters the text, with data that is read as a string. Then `inside` reads it.
fn open_text(tokenizer: &mut Tokenizer, inside: StateName) -> Result<State, AllocError>
    ensures ok { IfOk result (λ s. stepped (Retry inside) (done (text_opening (names_in tokenizer.old.tokenize_state)) tokenizer.old)
        ≡ record { state = s; left = tokenizer.new }) }
    ensures err { OnErr result (IsTrue tokenizer.new.failed) }
{
    tokenizer.enter(tokenizer.tokenize_state.token_5)?;
    tokenizer.enter_link(Name::Data, FIRST)?;
    Ok(State::Retry(inside))
}

// Passes the closing bracket, and the destination holds.
fn close(tokenizer: &mut Tokenizer) -> Result<State, AllocError>
    requires ready { EnclosedBeforeReady tokenizer.old }
    requires code { HasCode tokenizer.old }
    ensures ok { IfOk result (λ s. closed tokenizer.old ≡ record { state = s; left = tokenizer.new }) }
    ensures err { OnErr result (IsTrue tokenizer.new.failed) }
{
    tokenizer.take(tokenizer.tokenize_state.token_3)?;
    tokenizer.exit(tokenizer.tokenize_state.token_2)?;
    tokenizer.exit(tokenizer.tokenize_state.token_1)?;
    Ok(State::Ok)
}

/// At the start of a destination: a bracket, or its first code.
///
///     > | [x](<y>) and [z](w)
///             ^            ^
pub fn start(tokenizer: &mut Tokenizer) -> Result<State, AllocError>
    ensures ok { IfOk result (λ s. start_step tokenizer.old ≡ record { state = s; left = tokenizer.new }) }
    ensures err { OnErr result (IsTrue tokenizer.new.failed) }
{
    let code = match tokenizer.current() {
        None | Some(0x01..=0x1F | b' ' | b')' | 0x7F) => return Ok(State::Nok),
        Some(code) => code,
    };
    tokenizer.enter(tokenizer.tokenize_state.token_1)?;
    if code == b'<' {
        tokenizer.enter(tokenizer.tokenize_state.token_2)?;
        tokenizer.take(tokenizer.tokenize_state.token_3)?;
        Ok(State::Next(StateName::DestinationEnclosedBefore))
    } else {
        tokenizer.enter(tokenizer.tokenize_state.token_4)?;
        open_text(tokenizer, StateName::DestinationRaw)
    }
}

/// After the opening bracket: the text, or the closing bracket. Also at the closing bracket behind the text.
///
///     > | [x](<a\>b>)
///              ^   ^
pub fn enclosed_before(tokenizer: &mut Tokenizer) -> Result<State, AllocError>
    requires { EnclosedBeforeReady tokenizer.old }
    ensures ok { IfOk result (λ s. enclosed_before_step tokenizer.old ≡ record { state = s; left = tokenizer.new }) }
    ensures err { OnErr result (IsTrue tokenizer.new.failed) }
{
    match tokenizer.current() {
        Some(b'>') => close(tokenizer),
        _ => open_text(tokenizer, StateName::DestinationEnclosed),
    }
}

/// Between the brackets.
///
///     > | [x](<a\>b>)
///              ^^ ^^
pub fn enclosed(tokenizer: &mut Tokenizer) -> Result<State, AllocError>
    requires { EnclosedReady tokenizer.old }
    ensures ok { IfOk result (λ s. enclosed_step tokenizer.old ≡ record { state = s; left = tokenizer.new }) }
    ensures err { OnErr result (IsTrue tokenizer.new.failed) }
{
    match tokenizer.current() {
        None | Some(b'\n' | b'<') => Ok(State::Nok),
        Some(b'>') => {
            tokenizer.exit(Name::Data)?;
            tokenizer.exit(tokenizer.tokenize_state.token_5)?;
            Ok(State::Retry(StateName::DestinationEnclosedBefore))
        }
        Some(b'\\') => {
            tokenizer.consume();
            Ok(State::Next(StateName::DestinationEnclosedEscape))
        }
        Some(_) => {
            tokenizer.consume();
            Ok(State::Next(StateName::DestinationEnclosed))
        }
    }
}

/// Between the brackets, after a backslash: it may escape the code at hand.
///
///     > | [x](<a\>b>)
///                ^
pub fn enclosed_escape(tokenizer: &mut Tokenizer) -> Result<State, AllocError>
    requires { EnclosedReady tokenizer.old }
    ensures ok { IfOk result (λ s. enclosed_escape_step tokenizer.old ≡ record { state = s; left = tokenizer.new }) }
    ensures err { OnErr result (IsTrue tokenizer.new.failed) }
{
    match tokenizer.current() {
        Some(b'<' | b'>' | b'\\') => {
            tokenizer.consume();
            Ok(State::Next(StateName::DestinationEnclosed))
        }
        _ => Ok(State::Retry(StateName::DestinationEnclosed)),
    }
}

// The destination ends before the code at hand.
fn finish(tokenizer: &mut Tokenizer) -> Result<State, AllocError>
    requires { RawReady tokenizer.old }
    ensures ok { IfOk result (λ s. finished tokenizer.old ≡ record { state = s; left = tokenizer.new }) }
    ensures err { OnErr result (IsTrue tokenizer.new.failed) }
{
    tokenizer.exit(Name::Data)?;
    tokenizer.exit(tokenizer.tokenize_state.token_5)?;
    tokenizer.exit(tokenizer.tokenize_state.token_4)?;
    tokenizer.exit(tokenizer.tokenize_state.token_1)?;
    tokenizer.tokenize_state.size = 0;
    Ok(State::Ok)
}

/// In a destination without brackets; so many parentheses are open as `size` says.
///
///     > | [x](a(b\)c))
///             ^^^^ ^^^
pub fn raw(tokenizer: &mut Tokenizer) -> Result<State, AllocError>
    requires { RawReady tokenizer.old }
    ensures ok { IfOk result (λ s. raw_step tokenizer.old ≡ record { state = s; left = tokenizer.new }) }
    ensures err { OnErr result (IsTrue tokenizer.new.failed) }
{
    let depth = tokenizer.tokenize_state.size;
    match tokenizer.current() {
        None | Some(b'\t' | b'\n' | b' ' | b')') if depth == 0 => finish(tokenizer),
        Some(b'(') if depth < tokenizer.tokenize_state.size_b => {
            tokenizer.consume();
            tokenizer.tokenize_state.size = depth + 1;
            Ok(State::Next(StateName::DestinationRaw))
        }
        Some(b')') => {
            tokenizer.consume();
            tokenizer.tokenize_state.size = depth - 1;
            Ok(State::Next(StateName::DestinationRaw))
        }
        None | Some(0x01..=0x1F | b' ' | b'(' | 0x7F) => {
            tokenizer.tokenize_state.size = 0;
            Ok(State::Nok)
        }
        Some(b'\\') => {
            tokenizer.consume();
            Ok(State::Next(StateName::DestinationRawEscape))
        }
        Some(_) => {
            tokenizer.consume();
            Ok(State::Next(StateName::DestinationRaw))
        }
    }
}

/// In a destination without brackets, after a backslash: it may escape the code at hand.
///
///     > | [x](a(b\)c))
///                 ^
pub fn raw_escape(tokenizer: &mut Tokenizer) -> Result<State, AllocError>
    requires { RawReady tokenizer.old }
    ensures ok { IfOk result (λ s. raw_escape_step tokenizer.old ≡ record { state = s; left = tokenizer.new }) }
    ensures err { OnErr result (IsTrue tokenizer.new.failed) }
{
    match tokenizer.current() {
        Some(b'(' | b')' | b'\\') => {
            tokenizer.consume();
            Ok(State::Next(StateName::DestinationRaw))
        }
        _ => Ok(State::Retry(StateName::DestinationRaw)),
    }
}
