//! The leaves of a text that is read as a string, all of one chain.
#![tactic(auto, using(markdown_engine::proofs::OperationFields::op_rules), unfolding(markdown_engine::specs::Operations::scratched, markdown_engine::specs::Operations::attempted, markdown_engine::specs::Operations::frame_of))]

ghost use Rattle.std.specs.Prelude.{◌≡◌, IfOk, OnErr, IsTrue, true, false};
ghost use Rattle.markdown_engine.specs.Operations.{LinkedBefore, attempted};
ghost use Rattle.markdown_engine.specs.StateRuns.{stepped};
ghost use Rattle.markdown_event.specs.declared.state.State.TheVariants.{Next, Retry};
ghost use Rattle.markdown_event.specs.declared.state.StateName.TheVariants.{SpaceOrTabEolStart};
ghost use Rattle.markdown_engine.specs.Operations.{scratched};
ghost use Rattle.markdown_partial.specs.LinkedText.{text_entered, eol_asked_for};

use crate::partial_space_or_tab_eol::{Options, space_or_tab_eol_with_options};
use markdown_engine::tokenizer::Tokenizer;
use markdown_event::event::{Content, Link, Name};
use markdown_event::state::{State, StateName};
use std::alloc::AllocError;

// The link of text that is read as a string, the first of its chain.
pub(crate) const FIRST: Link = Link {
    previous: None,
    next: None,
    content: Content::String,
};

// Enters data, the next of the chain, or its first where `connect` says that there is none yet. Then `inside` reads it.
pub(crate) fn enter_text(tokenizer: &mut Tokenizer, inside: StateName) -> Result<State, AllocError>
    requires { tokenizer.old.tokenize_state.connect ≡ true → LinkedBefore tokenizer.old }
    ensures ok { IfOk result (λ s. stepped (Retry inside) (text_entered tokenizer.old) ≡ record { state = s; left = tokenizer.new }) }
    ensures err { OnErr result (IsTrue tokenizer.new.failed) }
{
    let entered = if tokenizer.tokenize_state.connect {
        tokenizer.enter_connected(Name::Data, Content::String)
    } else {
        tokenizer.enter_link(Name::Data, FIRST)
    };
    entered?;
    tokenizer.tokenize_state.connect = true;
    Ok(State::Retry(inside))
}

// Passes the line ending at hand and the blank codes after it; then `after` goes on, or `nok` at a blank line.
pub(crate) fn pass_ending(
    tokenizer: &mut Tokenizer,
    after: StateName,
    nok: StateName,
) -> Result<State, AllocError>
    ensures ok { IfOk result (λ s. stepped (Retry SpaceOrTabEolStart)
        (attempted false (Next after) (Next nok) (scratched (eol_asked_for tokenizer.old.tokenize_state) tokenizer.old))
        ≡ record { state = s; left = tokenizer.new }) }
    ensures err { OnErr result (IsTrue tokenizer.new.failed) }
{
    let connect = tokenizer.tokenize_state.connect;
    let ending = space_or_tab_eol_with_options(
        tokenizer,
        Options {
            connect,
            content: Some(Content::String),
        },
    );
    tokenizer.attempt(State::Next(after), State::Next(nok))?;
    Ok(State::Retry(ending))
}
