//! The states of whitespace with at most one line ending: blank codes on one line, or a line ending with the blank codes around it
//! (CommonMark 6.3).
//!
//!     space_or_tab_eol ::= blank* line_ending blank* | blank+
//!
//! Behind the first stands a code that is no line ending; behind the second stands no line ending.
//!
//! Events, each where it has a code, with the link that is asked for:
//!
//!     SpaceOrTab    the blank codes before the line ending
//!     LineEnding
//!     SpaceOrTab    the blank codes after it
//!
//! Example: what stands between `b` and `"c")` where a resource is on two lines, `(b` and `  "c")`.
//!
//! Definition: `space_or_tab_eol` in `markdown_model/specs/Whitespace.antt`.
//!
//! Each state answers the error where a growth is refused; then `failed` is true.
#![tactic(auto, using(markdown_engine::proofs::OperationFields::op_rules), unfolding(markdown_engine::specs::Operations::scratched, markdown_engine::specs::Operations::attempted, markdown_engine::specs::Operations::frame_of))]

ghost use Rattle.std.specs.Prelude.{◌≡◌, true, false, None};
ghost use Rattle.markdown_engine.specs.Operations.{LinkedBefore, attempted, scratched};
ghost use Rattle.markdown_engine.specs.StateRuns.{stepped};
ghost use Rattle.markdown_event.specs.declared.state.State.TheVariants.{Retry};
ghost use Rattle.markdown_event.specs.declared.state.StateName.TheVariants.{SpaceOrTabStart, SpaceOrTabEolStart};
ghost use Rattle.markdown_partial.specs.PartialSpaceOrTabEol.{eol_asked, space_asked, eol_rested, start_step, after_first_step, at_eol_step, after_eol_step, after_more_step};
ghost use Rattle.markdown_plan.specs.StateCalls.{Steps};

use crate::leaf::enter_leaf;
use crate::partial_space_or_tab;
use markdown_engine::tokenizer::Tokenizer;
use markdown_event::event::{Content, Name};
use markdown_event::state::{State, StateName};
use std::alloc::AllocError;

/// What whitespace with a line ending is asked for.
#[derive(Debug, Drop)]
pub struct Options {
    /// Whether it is linked to the event just before. That asks for a content, and for a linked event there.
    pub connect: bool,
    /// How it is to be read where it is part of a linked text. That asks for a line ending as the code at hand.
    pub content: Option<Content>,
}

/// Asks for whitespace with at most one line ending, and answers the state to start with.
///
/// Only the scratch fields change. Takes no memory.
pub fn space_or_tab_eol(tokenizer: &mut Tokenizer) -> StateName
    ensures start { result ≡ SpaceOrTabEolStart }
    ensures asked { tokenizer.new ≡ scratched (eol_asked false None tokenizer.old.tokenize_state) tokenizer.old }
{
    space_or_tab_eol_with_options(
        tokenizer,
        Options {
            connect: false,
            content: None,
        },
    )
}

/// Asks for whitespace with at most one line ending as the options say, and answers the state to start with.
///
/// Only the scratch fields change. Takes no memory.
pub fn space_or_tab_eol_with_options(tokenizer: &mut Tokenizer, options: Options) -> StateName
    ensures start { result ≡ SpaceOrTabEolStart }
    ensures asked { tokenizer.new ≡ scratched (eol_asked options.connect options.content tokenizer.old.tokenize_state) tokenizer.old }
{
    tokenizer.tokenize_state.space_or_tab_eol_connect = options.connect;
    tokenizer.tokenize_state.space_or_tab_eol_content = options.content;
    StateName::SpaceOrTabEolStart
}

// Tries the blank codes at hand, one or more: `behind` is next where they hold, and `otherwise` where not.
fn try_blank(
    tokenizer: &mut Tokenizer,
    behind: State,
    otherwise: State,
) -> Result<State, AllocError>
    ensures { Steps (λ T. stepped (Retry SpaceOrTabStart)
        (attempted false behind otherwise (scratched (space_asked T.tokenize_state) T))) tokenizer.old result tokenizer.new }
{
    let connect = tokenizer.tokenize_state.space_or_tab_eol_connect;
    let content = tokenizer.tokenize_state.space_or_tab_eol_content;
    let blank = partial_space_or_tab::space_or_tab_with_options(
        tokenizer,
        partial_space_or_tab::Options {
            min: 1,
            max: usize::MAX,
            kind: Name::SpaceOrTab,
            connect,
            content,
        },
    );
    tokenizer.attempt(behind, otherwise)?;
    Ok(State::Retry(blank))
}

// Puts the own fields to rest.
fn rest(tokenizer: &mut Tokenizer)
    ensures { tokenizer.new ≡ scratched (eol_rested tokenizer.old.tokenize_state) tokenizer.old }
{
    tokenizer.tokenize_state.space_or_tab_eol_content = None;
    tokenizer.tokenize_state.space_or_tab_eol_connect = false;
    tokenizer.tokenize_state.space_or_tab_eol_ok = false;
}

/// At the start: blank codes, or the line ending.
///
///     > | [x]( y
///             ^ ^
///     > |   "z")
pub fn start(tokenizer: &mut Tokenizer) -> Result<State, AllocError>
    ensures { Steps start_step tokenizer.old result tokenizer.new }
{
    match tokenizer.current() {
        Some(b' ' | b'\t') => try_blank(
            tokenizer,
            State::Next(StateName::SpaceOrTabEolAfterFirst),
            State::Next(StateName::SpaceOrTabEolAtEol),
        ),
        _ => Ok(State::Retry(StateName::SpaceOrTabEolAtEol)),
    }
}

/// After the blank codes before the line ending, which are enough by themselves.
///
///     > | [x]( y
///              ^
///     > |   "z")
pub fn after_first(tokenizer: &mut Tokenizer) -> Result<State, AllocError>
    ensures { Steps after_first_step tokenizer.old result tokenizer.new }
{
    tokenizer.tokenize_state.space_or_tab_eol_ok = true;
    Ok(State::Retry(StateName::SpaceOrTabEolAtEol))
}

/// At the line ending, if there is one.
///
///     > | [x]( y
///              ^^
///     > |   "z")
pub fn at_eol(tokenizer: &mut Tokenizer) -> Result<State, AllocError>
    requires { tokenizer.old.tokenize_state.space_or_tab_eol_connect ≡ true → LinkedBefore tokenizer.old }
    ensures { Steps at_eol_step tokenizer.old result tokenizer.new }
{
    match tokenizer.current() {
        Some(b'\n') => {
            let content = tokenizer.tokenize_state.space_or_tab_eol_content;
            let connect = tokenizer.tokenize_state.space_or_tab_eol_connect;
            enter_leaf(tokenizer, Name::LineEnding, content, connect)?;
            tokenizer.consume();
            tokenizer.exit(Name::LineEnding)?;
            if content.is_some() {
                tokenizer.tokenize_state.space_or_tab_eol_connect = true;
            }
            Ok(State::Next(StateName::SpaceOrTabEolAfterEol))
        }
        _ => {
            let is_enough = tokenizer.tokenize_state.space_or_tab_eol_ok;
            rest(tokenizer);
            Ok(if is_enough { State::Ok } else { State::Nok })
        }
    }
}

/// After the line ending: the blank codes of the next line.
///
///     > | [x]( y
///     > |   "z")
///         ^
pub fn after_eol(tokenizer: &mut Tokenizer) -> Result<State, AllocError>
    ensures { Steps after_eol_step tokenizer.old result tokenizer.new }
{
    match tokenizer.current() {
        Some(b' ' | b'\t') => {
            let behind = State::Next(StateName::SpaceOrTabEolAfterMore);
            try_blank(tokenizer, behind, State::Nok)
        }
        _ => Ok(State::Retry(StateName::SpaceOrTabEolAfterMore)),
    }
}

/// After the blank codes of the next line, which must not be a blank line. The scratch fields are at rest from here on.
///
///     > | [x]( y
///     > |   "z")
///           ^
pub fn after_more(tokenizer: &mut Tokenizer) -> Result<State, AllocError>
    ensures { Steps after_more_step tokenizer.old result tokenizer.new }
{
    rest(tokenizer);
    match tokenizer.current() {
        None | Some(b'\n') => Ok(State::Nok),
        Some(_) => Ok(State::Ok),
    }
}
