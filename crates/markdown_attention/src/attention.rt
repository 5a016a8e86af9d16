//! The states of runs of markers, those of emphasis, strong emphasis and strikethrough (CommonMark 6.2, GFM 6.5). The pass is `grouping`.
//!
//!     attention_run ::= '*'+ | '_'+ | '~'+
//!
//! A run is as long as it can be. Which runs pair shows once all are read: `runs` has them as they stand, and `pairing` finds the pairs.
//!
//! Events:
//!
//!     AttentionSequence    the run
//!
//! The pass leaves none of this name.
//!
//! Example: in `so **very** ok` both `**` are runs.
//!
//! Definition: `attention_run` in `markdown_model/specs/Elements.antt`.
//!
//! Each state answers the error where a growth is refused; then `failed` is true.
//! A reader stands beside: `readers::attention` of `markdown_run_text`.
#![tactic(auto, using(markdown_engine::proofs::OperationFields::law_rules), unfolding(markdown_engine::specs::Operations::scratched))]

mod brackets;
mod edits;
mod grouping;
mod lines;
mod newest;
pub mod pairing;
mod reading;
pub mod runs;
mod sizes;

ghost use Rattle.std.specs.Prelude.{◌≡◌};
ghost use Rattle.markdown_attention.specs.Attention.{start_step, inside_step, leaving};
ghost use Rattle.markdown_model.specs.SingleConstructs.{begins_run};
ghost use Rattle.markdown_engine.specs.Operations.{IsOpen, scratched};
ghost use Rattle.markdown_event.specs.declared.event.Name.TheVariants.{AttentionSequence};
ghost use Rattle.markdown_plan.specs.StateCalls.{Steps};

pub use crate::attention::grouping::{resolve, resolve_counted};
use markdown_content::configuration::Constructs;
use markdown_engine::tokenizer::Tokenizer;
use markdown_event::event::Name;
use markdown_event::resolve::ResolveName;
use markdown_event::state::{State, StateName};
use std::alloc::AllocError;

// Whether a run may begin with this byte.
fn begins_run(constructs: Constructs, byte: u8) -> bool
    ensures { result ≡ begins_run constructs byte }
{
    match byte {
        b'*' | b'_' => constructs.attention,
        b'~' => constructs.gfm_strikethrough,
        _ => false,
    }
}

/// At the start of a run: its first marker.
///
///     > | so **very** ok
///            ^     ^
pub fn start(tokenizer: &mut Tokenizer) -> Result<State, AllocError>
    ensures { Steps start_step tokenizer.old result tokenizer.new }
{
    let constructs = tokenizer.parse_state.options.constructs;
    match tokenizer.current() {
        Some(marker) if begins_run(constructs, marker) => {
            tokenizer.enter(Name::AttentionSequence)?;
            tokenizer.tokenize_state.marker = marker;
            Ok(State::Retry(StateName::AttentionInside))
        }
        _ => Ok(State::Nok),
    }
}

// After the run: the pass that pairs runs is asked for.
fn leave(tokenizer: &mut Tokenizer) -> Result<State, AllocError>
    requires { IsOpen AttentionSequence tokenizer.old }
    ensures { Steps leaving tokenizer.old result tokenizer.new }
{
    tokenizer.exit(Name::AttentionSequence)?;
    tokenizer.tokenize_state.marker = 0;
    tokenizer.register_resolver(ResolveName::Attention)?;
    Ok(State::Ok)
}

/// In a run of the marker that it began with.
///
///     > | so **very** ok
///            ^^^   ^^^
pub fn inside(tokenizer: &mut Tokenizer) -> Result<State, AllocError>
    requires { IsOpen AttentionSequence tokenizer.old }
    ensures { Steps inside_step tokenizer.old result tokenizer.new }
{
    match tokenizer.current() {
        Some(byte) if byte == tokenizer.tokenize_state.marker => {
            tokenizer.consume();
            Ok(State::Next(StateName::AttentionInside))
        }
        _ => leave(tokenizer),
    }
}
