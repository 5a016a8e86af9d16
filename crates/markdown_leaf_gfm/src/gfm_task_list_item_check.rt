//! The states of checks of task list items, at the first code of the item's first paragraph (GFM 5.3).
//!
//!     gfm_task_list_item_check ::= '[' value ']'               before line_ending, or blank+ and a further code
//!     value ::= blank | line_ending | 'x' | 'X'
//!
//! What follows the check is not read: it is left to others.
//!
//! Events:
//!
//!     GfmTaskListItemCheck
//!       GfmTaskListItemMarker            `[`
//!       GfmTaskListItemValueChecked      `x` or `X`, or
//!       GfmTaskListItemValueUnchecked    a space, a column of a tab or a line ending
//!       GfmTaskListItemMarker            `]`
//!
//! Example: `[x] tea`, the text of the list item `- [x] tea`.
//!
//! Definition: `gfm_task_list_item_check` in `markdown_model/specs/LeafConstructs.antt`.
//!
//! Each state answers the error where a growth is refused; then `failed` is true.
#![tactic(auto, using(markdown_engine::proofs::OperationFields::op_rules))]

ghost use Rattle.std.specs.Prelude.{◌≡◌, IfOk, OnErr, IsTrue};
ghost use Rattle.markdown_engine.specs.Operations.{IsOpen};
ghost use Rattle.markdown_event.specs.declared.event.Name.TheVariants.{GfmTaskListItemCheck};
ghost use Rattle.markdown_leaf_gfm.specs.GfmTaskListItemCheck.{start_step, inside_step, close_step, after_step, after_space_or_tab_step};

use markdown_engine::tokenizer::Tokenizer;
use markdown_event::event::Name;
use markdown_event::state::{State, StateName};
use markdown_partial::partial_space_or_tab::space_or_tab;
use std::alloc::AllocError;

/// At the start of a check: the opening bracket, with no code before it in the content.
///
///     > | - [X] tea
///           ^
pub fn start(tokenizer: &mut Tokenizer) -> Result<State, AllocError>
    ensures ok { IfOk result (λ s. start_step tokenizer.old ≡ record { state = s; left = tokenizer.new }) }
    ensures err { OnErr result (IsTrue tokenizer.new.failed) }
{
    if tokenizer.parse_state.options.constructs.gfm_task_list_item
        && tokenizer
            .tokenize_state
            .document_at_first_paragraph_of_list_item
        && tokenizer.previous().is_none()
        && tokenizer.current() == Some(b'[')
    {
        tokenizer.enter(Name::GfmTaskListItemCheck)?;
        tokenizer.take(Name::GfmTaskListItemMarker)?;
        Ok(State::Next(StateName::GfmTaskListItemCheckInside))
    } else {
        Ok(State::Nok)
    }
}

/// After the opening bracket: the value.
///
///     > | - [X] tea
///            ^
pub fn inside(tokenizer: &mut Tokenizer) -> Result<State, AllocError>
    ensures ok { IfOk result (λ s. inside_step tokenizer.old ≡ record { state = s; left = tokenizer.new }) }
    ensures err { OnErr result (IsTrue tokenizer.new.failed) }
{
    let value = match tokenizer.current() {
        Some(b'x' | b'X') => Name::GfmTaskListItemValueChecked,
        Some(b' ' | b'\t' | b'\n') => Name::GfmTaskListItemValueUnchecked,
        _ => return Ok(State::Nok),
    };
    tokenizer.take(value)?;
    Ok(State::Next(StateName::GfmTaskListItemCheckClose))
}

/// After the value: the closing bracket.
///
///     > | - [X] tea
///             ^
pub fn close(tokenizer: &mut Tokenizer) -> Result<State, AllocError>
    requires { IsOpen GfmTaskListItemCheck tokenizer.old }
    ensures ok { IfOk result (λ s. close_step tokenizer.old ≡ record { state = s; left = tokenizer.new }) }
    ensures err { OnErr result (IsTrue tokenizer.new.failed) }
{
    if tokenizer.current() == Some(b']') {
        tokenizer.take(Name::GfmTaskListItemMarker)?;
        tokenizer.exit(Name::GfmTaskListItemCheck)?;
        Ok(State::Next(StateName::GfmTaskListItemCheckAfter))
    } else {
        Ok(State::Nok)
    }
}

/// After a check: a line ending, or spaces and tabs, which are passed only to look at what stands behind them.
///
///     > | - [X] tea
///              ^
pub fn after(tokenizer: &mut Tokenizer) -> Result<State, AllocError>
    ensures ok { IfOk result (λ s. after_step tokenizer.old ≡ record { state = s; left = tokenizer.new }) }
    ensures err { OnErr result (IsTrue tokenizer.new.failed) }
{
    match tokenizer.current() {
        Some(b'\n') => Ok(State::Ok),
        Some(b' ' | b'\t') => {
            let blank = space_or_tab(tokenizer);
            tokenizer.check(State::Ok, State::Nok)?;
            tokenizer.attempt(
                State::Next(StateName::GfmTaskListItemCheckAfterSpaceOrTab),
                State::Nok,
            )?;
            Ok(State::Retry(blank))
        }
        _ => Ok(State::Nok),
    }
}

/// After a check and the spaces and tabs behind it: a code has to follow.
///
///     > | - [X] tea
///               ^
pub fn after_space_or_tab(tokenizer: &mut Tokenizer) -> Result<State, AllocError>
    ensures ok { IfOk result (λ s. after_space_or_tab_step tokenizer.old ≡ record { state = s; left = tokenizer.new }) }
    ensures err { OnErr result (IsTrue tokenizer.new.failed) }
{
    Ok(match tokenizer.current() {
        Some(_) => State::Ok,
        None => State::Nok,
    })
}
