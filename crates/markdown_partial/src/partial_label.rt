//! The states of labels, of references and definitions (CommonMark 6.3, link label).
//!
//!     label ::= '[' ('\' ('[' | '\' | ']') | code - ('[' | ']'))* ']'
//!
//! What looks like an escape is one. A label may go over several lines, none of which is blank. It holds a code that is no whitespace, and 999
//! codes at most, of which line endings and the blank codes after them are none. By CommonMark's rule (`labels_by_characters`) it holds 999
//! characters at most, of which each line ending is one, and the blank codes after a line ending are none.
//!
//! Events, by the names in the scratch fields, with a reference's beside them:
//!
//!     token_1      Reference
//!       token_2    ReferenceMarker, `[`
//!       token_3    ReferenceString: for each line `Data`, with `LineEnding` and `SpaceOrTab` between, all linked as one string
//!       token_2    ReferenceMarker, `]`
//!
//! Example: the label `[b]` of the full reference `[a][b]`.
//!
//! Definition: `label` in `markdown_model/specs/Resource.antt`.
//!
//! Each state answers the error where a growth is refused; then `failed` is true.
#![tactic(auto, using(markdown_engine::proofs::OperationFields::op_rules), unfolding(markdown_engine::specs::Operations::scratched, markdown_engine::specs::Operations::attempted, markdown_engine::specs::Operations::frame_of))]

ghost use Rattle.std.specs.Prelude.{◌≡◌, ◌≤◌, IfOk, OnErr, IsTrue, true};
ghost use Rattle.markdown_engine.specs.Operations.{HasCode};
ghost use Rattle.markdown_partial.specs.PartialLabel.{start_step, closed, at_break_step, eol_after_step, nok_step, counted_up, counts_here, passing, inside_step, escape_step, BreakReady, LabelInsideReady, EscapeReady};

use crate::linked_text::{enter_text, pass_ending};
use markdown_engine::tokenizer::Tokenizer;
use markdown_event::event::Name;
use markdown_event::state::{State, StateName};
use markdown_util::util::constant::LINK_REFERENCE_SIZE_MAX;
use std::alloc::AllocError;

/// At the start of a label: its bracket.
///
///     > | [x][y]
///            ^
pub fn start(tokenizer: &mut Tokenizer) -> Result<State, AllocError>
    ensures ok { IfOk result (λ s. start_step tokenizer.old ≡ record { state = s; left = tokenizer.new }) }
    ensures err { OnErr result (IsTrue tokenizer.new.failed) }
{
    match tokenizer.current() {
        Some(b'[') => {
            tokenizer.enter(tokenizer.tokenize_state.token_1)?;
            tokenizer.take(tokenizer.tokenize_state.token_2)?;
            tokenizer.enter(tokenizer.tokenize_state.token_3)?;
            Ok(State::Next(StateName::LabelAtBreak))
        }
        _ => Ok(State::Nok),
    }
}

// Passes the closing bracket, and the label holds.
fn close(tokenizer: &mut Tokenizer) -> Result<State, AllocError>
    requires ready { BreakReady tokenizer.old }
    requires code { HasCode tokenizer.old }
    ensures ok { IfOk result (λ s. closed tokenizer.old ≡ record { state = s; left = tokenizer.new }) }
    ensures err { OnErr result (IsTrue tokenizer.new.failed) }
{
    tokenizer.exit(tokenizer.tokenize_state.token_3)?;
    tokenizer.take(tokenizer.tokenize_state.token_2)?;
    tokenizer.exit(tokenizer.tokenize_state.token_1)?;
    tokenizer.tokenize_state.connect = false;
    tokenizer.tokenize_state.seen = false;
    tokenizer.tokenize_state.size = 0;
    Ok(State::Ok)
}

// Whether this code, which stands at the place and is no line ending, counts. By CommonMark's rule the later bytes of a character do not, nor do
// the later columns of a tab.
fn counts(tokenizer: &Tokenizer, code: u8) -> bool
    ensures { result ≡ counts_here code tokenizer.now }
{
    !tokenizer.parse_state.options.rules().labels_by_characters
        || (!matches!(code, 0x80..=0xBF) && tokenizer.point().vs == 0)
}

// Answers the size of the label past this code, which stands at the place and is no line ending.
fn size_past(tokenizer: &Tokenizer, code: u8) -> usize
    requires small { tokenizer.now.tokenize_state.size ≤ 1000 }
    ensures { result ≡ counted_up (counts_here code tokenizer.now) tokenizer.now.tokenize_state.size }
{
    let size = tokenizer.tokenize_state.size;
    if counts(tokenizer, code) {
        size + 1
    } else {
        size
    }
}

// Passes a code of the text, and counts it.
fn pass(tokenizer: &mut Tokenizer, code: u8) -> State
    requires code { HasCode tokenizer.old }
    requires small { tokenizer.old.tokenize_state.size ≤ 1000 }
    ensures { passing code tokenizer.old ≡ record { state = result; left = tokenizer.new } }
{
    let passed = size_past(tokenizer, code);
    let seen = tokenizer.tokenize_state.seen || !(code == b' ' || code == b'\t');
    tokenizer.consume();
    tokenizer.tokenize_state.size = passed;
    tokenizer.tokenize_state.seen = seen;
    State::Next(if code == b'\\' {
        StateName::LabelEscape
    } else {
        StateName::LabelInside
    })
}

/// Between two stretches of the text: at a bracket, a line ending or the end, or where data starts.
///
///     > | [x][y
///             ^^
///     > |   z]
///           ^^
pub fn at_break(tokenizer: &mut Tokenizer) -> Result<State, AllocError>
    requires { BreakReady tokenizer.old }
    ensures ok { IfOk result (λ s. at_break_step tokenizer.old ≡ record { state = s; left = tokenizer.new }) }
    ensures err { OnErr result (IsTrue tokenizer.new.failed) }
{
    match tokenizer.current() {
        Some(code) if code != b'[' && tokenizer.tokenize_state.size <= LINK_REFERENCE_SIZE_MAX =>
            match code {
                b']' if tokenizer.tokenize_state.seen => close(tokenizer),
                b']' => Ok(State::Retry(StateName::LabelNok)),
                b'\n' => pass_ending(tokenizer, StateName::LabelEolAfter, StateName::LabelNok),
                _ => enter_text(tokenizer, StateName::LabelInside),
            },
        _ => Ok(State::Retry(StateName::LabelNok)),
    }
}

/// After a line ending and the blank codes behind it: the text goes on, with the same chain. By CommonMark's rule the line ending counts.
///
///     > | [x][y
///     > |   z]
///           ^
pub fn eol_after(tokenizer: &mut Tokenizer) -> Result<State, AllocError>
    ensures ok { IfOk result (λ s. eol_after_step tokenizer.old ≡ record { state = s; left = tokenizer.new }) }
    ensures err { OnErr result (IsTrue tokenizer.new.failed) }
{
    let characters = tokenizer.parse_state.options.rules().labels_by_characters;
    let state = &mut tokenizer.tokenize_state;
    if characters && state.size <= LINK_REFERENCE_SIZE_MAX {
        state.size += 1;
    }
    state.connect = true;
    Ok(State::Retry(StateName::LabelAtBreak))
}

/// The label does not hold.
///
///     > | [x][ ]
///              ^
pub fn nok(tokenizer: &mut Tokenizer) -> Result<State, AllocError>
    ensures ok { IfOk result (λ s. nok_step tokenizer.old ≡ record { state = s; left = tokenizer.new }) }
    ensures err { OnErr result (IsTrue tokenizer.new.failed) }
{
    tokenizer.tokenize_state.connect = false;
    tokenizer.tokenize_state.seen = false;
    tokenizer.tokenize_state.size = 0;
    Ok(State::Nok)
}

/// In a stretch of the text, which ends before a bracket, a line ending or the end, or where too much counts.
///
///     > | [x][y\]z]
///             ^^ ^^
pub fn inside(tokenizer: &mut Tokenizer) -> Result<State, AllocError>
    requires { LabelInsideReady tokenizer.old }
    ensures ok { IfOk result (λ s. inside_step tokenizer.old ≡ record { state = s; left = tokenizer.new }) }
    ensures err { OnErr result (IsTrue tokenizer.new.failed) }
{
    match tokenizer.current() {
        Some(code)
            if !matches!(code, b'\n' | b'[' | b']')
                && tokenizer.tokenize_state.size <= LINK_REFERENCE_SIZE_MAX => {
            Ok(pass(tokenizer, code))
        }
        _ => {
            tokenizer.exit(Name::Data)?;
            Ok(State::Retry(StateName::LabelAtBreak))
        }
    }
}

/// After a backslash in the text: it may escape the code at hand.
///
///     > | [x][y\]z]
///               ^
pub fn escape(tokenizer: &mut Tokenizer) -> Result<State, AllocError>
    requires { EscapeReady tokenizer.old }
    ensures ok { IfOk result (λ s. escape_step tokenizer.old ≡ record { state = s; left = tokenizer.new }) }
    ensures err { OnErr result (IsTrue tokenizer.new.failed) }
{
    match tokenizer.current() {
        Some(code @ (b'[' | b'\\' | b']')) => {
            let passed = size_past(tokenizer, code);
            tokenizer.consume();
            tokenizer.tokenize_state.size = passed;
            Ok(State::Next(StateName::LabelInside))
        }
        _ => Ok(State::Retry(StateName::LabelInside)),
    }
}
