//! The states of titles, of resources and definitions (CommonMark 6.3, link title).
//!
//!     title ::= '"' text('"') '"' | "'" text("'") "'" | '(' text(')') ')'
//!     text(closer) ::= ('\' ('\' | closer) | code - closer)*
//!
//! What looks like an escape is one. By CommonMark's rule (`escaped_parentheses`) a `(` may stand in the text of parentheses only behind a
//! backslash, as a `)` may. A title may go over several lines, none of which is blank.
//!
//! Events, by the names in the scratch fields, with a resource's beside them:
//!
//!     token_1      ResourceTitle
//!       token_2    ResourceTitleMarker, the opening marker
//!       token_3    ResourceTitleString, unless it is empty: for each line `Data`, with `LineEnding` and `SpaceOrTab` between,
//!                  all linked as one string
//!       token_2    ResourceTitleMarker, the closing marker
//!
//! Example: the title `"c"` of `[a](b "c")`.
//!
//! Definition: `title` in `markdown_model/specs/Resource.antt`.
//!
//! Each state answers the error where a growth is refused; then `failed` is true.
#![tactic(auto, using(markdown_engine::proofs::OperationFields::op_rules), unfolding(markdown_engine::specs::Operations::scratched, markdown_engine::specs::Operations::attempted, markdown_engine::specs::Operations::frame_of))]

ghost use Rattle.std.specs.Prelude.{◌≡◌, IfOk, OnErr, IsTrue, true};
ghost use Rattle.markdown_engine.specs.Operations.{IsOpen, LinkedBefore, current_of};
ghost use Rattle.markdown_partial.specs.PartialTitle.{start_step, begin_step, at_break_step, after_eol_step, nok_step, is_refused, inside_step, inside_stops, escape_step, TitleBreakReady, TitleInsideReady};

use crate::linked_text::{enter_text, pass_ending};
use markdown_content::byte_table;
use markdown_content::bytes::{ByteSet, ByteTable};
use markdown_engine::tokenizer::{TokenizeState, Tokenizer};
use markdown_event::event::Name;
use markdown_event::state::{State, StateName};
use std::alloc::AllocError;

/// At the start of a title: its opening marker.
///
///     > | [x](y "z")
///               ^
pub fn start(tokenizer: &mut Tokenizer) -> Result<State, AllocError>
    ensures ok { IfOk result (λ s. start_step tokenizer.old ≡ record { state = s; left = tokenizer.new }) }
    ensures err { OnErr result (IsTrue tokenizer.new.failed) }
{
    let closer = match tokenizer.current() {
        Some(b'"') => b'"',
        Some(b'\'') => b'\'',
        Some(b'(') => b')',
        _ => return Ok(State::Nok),
    };
    tokenizer.enter(tokenizer.tokenize_state.token_1)?;
    tokenizer.take(tokenizer.tokenize_state.token_2)?;
    tokenizer.tokenize_state.marker = closer;
    Ok(State::Next(StateName::TitleBegin))
}

/// After the opening marker: the text, or the closing marker. Also at the closing marker behind the text.
///
///     > | [x](y "z")
///                ^^
pub fn begin(tokenizer: &mut Tokenizer) -> Result<State, AllocError>
    requires { IsOpen tokenizer.old.tokenize_state.token_1 tokenizer.old }
    ensures ok { IfOk result (λ s. begin_step tokenizer.old ≡ record { state = s; left = tokenizer.new }) }
    ensures err { OnErr result (IsTrue tokenizer.new.failed) }
{
    match tokenizer.current() {
        Some(code) if code == tokenizer.tokenize_state.marker => {
            tokenizer.take(tokenizer.tokenize_state.token_2)?;
            tokenizer.exit(tokenizer.tokenize_state.token_1)?;
            tokenizer.tokenize_state.marker = 0;
            tokenizer.tokenize_state.connect = false;
            Ok(State::Ok)
        }
        _ => {
            tokenizer.enter(tokenizer.tokenize_state.token_3)?;
            Ok(State::Retry(StateName::TitleAtBreak))
        }
    }
}

// Whether this code may not stand in the text bare: an opening parenthesis in parentheses, by CommonMark's rule.
fn is_refused(tokenizer: &Tokenizer, code: u8) -> bool
    ensures { result ≡ is_refused code tokenizer.now }
{
    tokenizer.tokenize_state.marker == b')'
        && tokenizer.parse_state.options.rules().escaped_parentheses
        && code == b'('
}

/// Between two stretches of the text: at the closing marker, a line ending, a refused code or the end, or where data starts.
///
///     > | [x](y "z
///                ^^
///     > |   w")
///           ^^
pub fn at_break(tokenizer: &mut Tokenizer) -> Result<State, AllocError>
    requires { TitleBreakReady tokenizer.old }
    ensures ok { IfOk result (λ s. at_break_step tokenizer.old ≡ record { state = s; left = tokenizer.new }) }
    ensures err { OnErr result (IsTrue tokenizer.new.failed) }
{
    match tokenizer.current() {
        None => Ok(State::Retry(StateName::TitleNok)),
        Some(code) if code == tokenizer.tokenize_state.marker => {
            tokenizer.exit(tokenizer.tokenize_state.token_3)?;
            Ok(State::Retry(StateName::TitleBegin))
        }
        Some(b'\n') => pass_ending(tokenizer, StateName::TitleAfterEol, StateName::TitleNok),
        Some(code) if is_refused(tokenizer, code) => Ok(State::Retry(StateName::TitleNok)),
        Some(_) => enter_text(tokenizer, StateName::TitleInside),
    }
}

/// After a line ending and the blank codes behind it: the text goes on, with the same chain.
///
///     > | [x](y "z
///     > |   w")
///           ^
pub fn after_eol(tokenizer: &mut Tokenizer) -> Result<State, AllocError>
    ensures ok { IfOk result (λ s. after_eol_step tokenizer.old ≡ record { state = s; left = tokenizer.new }) }
    ensures err { OnErr result (IsTrue tokenizer.new.failed) }
{
    tokenizer.tokenize_state.connect = true;
    Ok(State::Retry(StateName::TitleAtBreak))
}

/// The title does not hold: at the end, at a blank line, or at a refused code.
///
///     > | [x](y "z)
///                  ^
pub fn nok(tokenizer: &mut Tokenizer) -> Result<State, AllocError>
    ensures ok { IfOk result (λ s. nok_step tokenizer.old ≡ record { state = s; left = tokenizer.new }) }
    ensures err { OnErr result (IsTrue tokenizer.new.failed) }
{
    tokenizer.tokenize_state.marker = 0;
    tokenizer.tokenize_state.connect = false;
    Ok(State::Nok)
}

const QUOTATION_MARK_OR_BACKSLASH: ByteTable = byte_table!(b'"', b'\\');

const APOSTROPHE_OR_BACKSLASH: ByteTable = byte_table!(b'\'', b'\\');

const PARENTHESES_OR_BACKSLASH: ByteTable = byte_table!(b')', b'\\', b'(');

/// The bytes at which alone a stretch of the text does other than go on, line endings aside; none where none is read. Takes no memory.
pub fn inside_stops(fields: &TokenizeState) -> Option<ByteSet>
    ensures { result ≡ inside_stops fields.now }
{
    match fields.marker {
        b'"' => Some(ByteSet::new(&QUOTATION_MARK_OR_BACKSLASH)),
        b'\'' => Some(ByteSet::new(&APOSTROPHE_OR_BACKSLASH)),
        b')' => Some(ByteSet::new(&PARENTHESES_OR_BACKSLASH)),
        _ => None,
    }
}

/// In a stretch of the text, which ends before the closing marker, a line ending, a refused code or the end.
///
///     > | [x](y "z\"w")
///                ^^ ^^
pub fn inside(tokenizer: &mut Tokenizer) -> Result<State, AllocError>
    requires { TitleInsideReady tokenizer.old }
    ensures ok { IfOk result (λ s. inside_step tokenizer.old ≡ record { state = s; left = tokenizer.new }) }
    ensures err { OnErr result (IsTrue tokenizer.new.failed) }
{
    match tokenizer.current() {
        Some(code)
            if code != b'\n'
                && code != tokenizer.tokenize_state.marker
                && !is_refused(tokenizer, code) => {
            tokenizer.consume();
            Ok(State::Next(if code == b'\\' {
                StateName::TitleEscape
            } else {
                StateName::TitleInside
            }))
        }
        _ => {
            tokenizer.exit(Name::Data)?;
            Ok(State::Retry(StateName::TitleAtBreak))
        }
    }
}

/// After a backslash in the text: it may escape the code at hand.
///
///     > | [x](y "z\"w")
///                  ^
pub fn escape(tokenizer: &mut Tokenizer) -> Result<State, AllocError>
    requires { TitleInsideReady tokenizer.old }
    ensures ok { IfOk result (λ s. escape_step tokenizer.old ≡ record { state = s; left = tokenizer.new }) }
    ensures err { OnErr result (IsTrue tokenizer.new.failed) }
{
    match tokenizer.current() {
        Some(b'\\' | b'(' | b'"' | b'\'' | b')') => {
            tokenizer.consume();
            Ok(State::Next(StateName::TitleInside))
        }
        _ => Ok(State::Retry(StateName::TitleInside)),
    }
}
