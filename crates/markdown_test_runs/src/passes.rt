//! The passes behind the states of a content, called one by one by their names.
ghost use Rattle.std.specs.Prelude.{IfOk, IsTrue};
ghost use Rattle.markdown_inline.specs.markdown_content.Content.{IsContent, IsTextContent};
ghost use Rattle.markdown_inline.specs.markdown_engine.PassesInOrder.{MayResolve, unregistered};
ghost use Rattle.markdown_inline.specs.markdown_run_text.ContentPasses.{MayPair, may_resolve_of, resolves_of};

use crate::constructs::answer_again;
use markdown_inline::attention::runs::{Runs, Sequence};
use markdown_inline::event::Event;
use markdown_inline::parser::{ParseState, Piece};
use markdown_inline::resolve::{self, ResolveName};
use markdown_inline::seq::Seq;
use markdown_inline::state::{Inline, StateName};
use markdown_inline::tokenizer::Tokenizer;
use std::alloc::{AllocError, Global};
use std::mem;

// Calls the registered passes; or, where that is asked for, those before the one of runs. Answers whether that one is still to be called.
#[tactic(auto, unfolding(markdown_engine::specs::PassesInOrder::unregistered))]
fn resolve_named(tokenizer: &mut Tokenizer, before_runs: bool) -> Result<bool, AllocError>
    requires { MayResolve may_resolve_of resolves_of tokenizer.old.resolvers (unregistered tokenizer.old) }
    ensures { IfOk result (λ found. IsTrue found → MayPair tokenizer.new) }
{
    let names = mem::replace(&mut tokenizer.resolvers, Seq::new(tokenizer.alloc));
    for name in names.as_slice() {
        if before_runs && *name == ResolveName::Attention {
            return Ok(true);
        }
        let _ = resolve::call(*name, tokenizer)?;
    }
    Ok(false)
}

// Whether these events are those that the passes leave. No call after a refusal goes on.
fn are_left(
    tokenizer: &mut Tokenizer,
    outcome: Result<bool, AllocError>,
    events: &[Event],
) -> Result<bool, AllocError> {
    if outcome.is_err() {
        return answer_again(tokenizer);
    }
    let others = tokenizer.events.as_slice().to_vec(tokenizer.alloc)?;
    Ok(events == others.as_slice())
}

// Whether these events are those of a text after its states and its passes.
pub(crate) fn are_of_text(
    alloc: Global,
    parse_state: &ParseState,
    pieces: &[Piece],
    first_of_item: bool,
    events: &[Event],
) -> Result<bool, AllocError>
    requires { IsTextContent parse_state.now.bytes.now pieces.now }
{
    let mut tokenizer = Tokenizer::new(alloc, parse_state, pieces);
    tokenizer
        .tokenize_state
        .document_at_first_paragraph_of_list_item = first_of_item;
    let outcome = match tokenizer.run_state::<Inline>(StateName::TextStart) {
        Ok(_) => resolve_named(&mut tokenizer, false),
        Err(AllocError) => Err(AllocError),
    };
    are_left(&mut tokenizer, outcome, events)
}

// The runs that the pass of runs is handed by the passes before it; none where it is not registered.
fn runs_left(tokenizer: &mut Tokenizer) -> Result<Vec<Sequence>, AllocError>
    requires { MayResolve may_resolve_of resolves_of tokenizer.old.resolvers (unregistered tokenizer.old) }
{
    if !resolve_named(tokenizer, true)? {
        return Ok(Vec::new(tokenizer.alloc));
    }
    let runs = Runs::new(tokenizer)?;
    Ok(runs.finish())
}

/// The runs that the pass of runs is handed where the states of a text and the passes before it are done.
pub(crate) fn runs_of_text(
    alloc: Global,
    parse_state: &ParseState,
    pieces: &[Piece],
    first_of_item: bool,
) -> Result<Vec<Sequence>, AllocError>
    requires { IsTextContent parse_state.now.bytes.now pieces.now }
{
    let mut tokenizer = Tokenizer::new(alloc, parse_state, pieces);
    tokenizer
        .tokenize_state
        .document_at_first_paragraph_of_list_item = first_of_item;
    match tokenizer.run_state::<Inline>(StateName::TextStart) {
        Ok(_) => runs_left(&mut tokenizer),
        Err(AllocError) => Err(AllocError),
    }
}

// Whether these events are those of a string after its states and its passes.
pub(crate) fn are_of_string(
    alloc: Global,
    parse_state: &ParseState,
    pieces: &[Piece],
    events: &[Event],
) -> Result<bool, AllocError>
    requires { IsContent parse_state.now.bytes.now pieces.now }
{
    let mut tokenizer = Tokenizer::new(alloc, parse_state, pieces);
    let outcome = match tokenizer.run_state::<Inline>(StateName::StringStart) {
        Ok(_) => resolve_named(&mut tokenizer, false),
        Err(AllocError) => Err(AllocError),
    };
    are_left(&mut tokenizer, outcome, events)
}
