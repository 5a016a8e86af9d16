//! The states of whitespace on one line: spaces, tabs and virtual spaces, as many as stand there, within bounds (CommonMark 2.1 and 2.2).
//!
//!     space_or_tab ::= blank{min,max}
//!     blank ::= a space or a column of a tab
//!
//! Events, where a code stands there; the name and the link are those that are asked for:
//!
//!     SpaceOrTab    the blank codes
//!
//! Example: the two spaces of `[a](  b)`.
//!
//! Definition: `space_or_tab` in `markdown_model/specs/Whitespace.antt`.
//!
//! Each state answers the error where a growth is refused; then `failed` is true.
#![tactic(auto, using(markdown_engine::proofs::OperationFields::op_rules), unfolding(markdown_engine::specs::Operations::scratched))]

ghost use Rattle.std.specs.Prelude.{◌≡◌, true, false, None};
ghost use Rattle.markdown_engine.specs.Operations.{IsOpen, LinkedBefore, scratched};
ghost use Rattle.markdown_event.specs.declared.event.Name.TheVariants.{SpaceOrTab};
ghost use Rattle.markdown_event.specs.declared.state.StateName.TheVariants.{SpaceOrTabStart};
ghost use Rattle.markdown_partial.specs.PartialSpaceOrTab.{most, asked, start_step, inside_step, after_step};
ghost use Rattle.markdown_plan.specs.StateCalls.{Steps};

use crate::leaf::enter_leaf;
use markdown_engine::tokenizer::Tokenizer;
use markdown_event::event::{Content, Name};
use markdown_event::state::{State, StateName};
use std::alloc::AllocError;

/// What whitespace is asked for.
#[derive(Debug, Drop)]
pub struct Options {
    /// The fewest codes that it may have.
    pub min: usize,
    /// The most codes that it takes.
    pub max: usize,
    /// The name of its events.
    pub kind: Name,
    /// Whether it is linked to the event just before. That asks for a content, and for a linked event there.
    pub connect: bool,
    /// How it is to be read where it is part of a linked text.
    pub content: Option<Content>,
}

/// Asks for one or more codes of whitespace, and answers the state to start with.
///
/// Only the scratch fields change. Takes no memory.
pub fn space_or_tab(tokenizer: &mut Tokenizer) -> StateName
    ensures start { result ≡ SpaceOrTabStart }
    ensures asked { tokenizer.new ≡ scratched (asked 1 most SpaceOrTab false None tokenizer.old.tokenize_state) tokenizer.old }
{
    space_or_tab_min_max(tokenizer, 1, usize::MAX)
}

/// Asks for whitespace of `min` codes at least and `max` at most, and answers the state to start with.
///
/// Only the scratch fields change. Takes no memory.
pub fn space_or_tab_min_max(tokenizer: &mut Tokenizer, min: usize, max: usize) -> StateName
    ensures start { result ≡ SpaceOrTabStart }
    ensures asked { tokenizer.new ≡ scratched (asked min max SpaceOrTab false None tokenizer.old.tokenize_state) tokenizer.old }
{
    space_or_tab_with_options(
        tokenizer,
        Options {
            min,
            max,
            kind: Name::SpaceOrTab,
            connect: false,
            content: None,
        },
    )
}

/// Asks for whitespace as the options say, and answers the state to start with.
///
/// Only the scratch fields change. Takes no memory.
pub fn space_or_tab_with_options(tokenizer: &mut Tokenizer, options: Options) -> StateName
    ensures start { result ≡ SpaceOrTabStart }
    ensures asked { tokenizer.new
        ≡ scratched (asked options.min options.max options.kind options.connect options.content tokenizer.old.tokenize_state) tokenizer.old }
{
    let scratch = &mut tokenizer.tokenize_state;
    scratch.space_or_tab_min = options.min;
    scratch.space_or_tab_max = options.max;
    scratch.space_or_tab_token = options.kind;
    scratch.space_or_tab_connect = options.connect;
    scratch.space_or_tab_content = options.content;
    StateName::SpaceOrTabStart
}

/// At the start of whitespace, or where it would start.
///
///     > | [x](  y)
///             ^
pub fn start(tokenizer: &mut Tokenizer) -> Result<State, AllocError>
    requires { tokenizer.old.tokenize_state.space_or_tab_connect ≡ true → LinkedBefore tokenizer.old }
    ensures { Steps start_step tokenizer.old result tokenizer.new }
{
    match tokenizer.current() {
        Some(b' ' | b'\t') if tokenizer.tokenize_state.space_or_tab_max > 0 => {
            let name = tokenizer.tokenize_state.space_or_tab_token;
            let content = tokenizer.tokenize_state.space_or_tab_content;
            let connect = tokenizer.tokenize_state.space_or_tab_connect;
            enter_leaf(tokenizer, name, content, connect)?;
            tokenizer.tokenize_state.space_or_tab_connect = true;
            Ok(State::Retry(StateName::SpaceOrTabInside))
        }
        _ => Ok(State::Retry(StateName::SpaceOrTabAfter)),
    }
}

/// In whitespace, which ends before another code, at the end, or where it has as many codes as it may.
///
///     > | [x](  y)
///             ^^^
pub fn inside(tokenizer: &mut Tokenizer) -> Result<State, AllocError>
    requires { IsOpen tokenizer.old.tokenize_state.space_or_tab_token tokenizer.old }
    ensures { Steps inside_step tokenizer.old result tokenizer.new }
{
    let size = tokenizer.tokenize_state.space_or_tab_size;
    match tokenizer.current() {
        Some(b' ' | b'\t') if size < tokenizer.tokenize_state.space_or_tab_max => {
            tokenizer.consume();
            tokenizer.tokenize_state.space_or_tab_size = size + 1;
            Ok(State::Next(StateName::SpaceOrTabInside))
        }
        _ => {
            tokenizer.exit(tokenizer.tokenize_state.space_or_tab_token)?;
            Ok(State::Retry(StateName::SpaceOrTabAfter))
        }
    }
}

/// After whitespace: whether it has as many codes as it must. Its scratch fields are at rest from here on.
///
///     > | [x](  y)
///               ^
pub fn after(tokenizer: &mut Tokenizer) -> Result<State, AllocError>
    ensures { Steps after_step tokenizer.old result tokenizer.new }
{
    let scratch = &mut tokenizer.tokenize_state;
    let is_enough = scratch.space_or_tab_size >= scratch.space_or_tab_min;
    scratch.space_or_tab_connect = false;
    scratch.space_or_tab_content = None;
    scratch.space_or_tab_min = 0;
    scratch.space_or_tab_max = 0;
    scratch.space_or_tab_size = 0;
    scratch.space_or_tab_token = Name::SpaceOrTab;
    Ok(if is_enough { State::Ok } else { State::Nok })
}
