//! The states of character escapes: a backslash before an ASCII punctuation character, which then stands for itself (CommonMark 2.4).
//!
//!     character_escape ::= '\' ascii_punctuation
//!     ascii_punctuation ::= '!'..'/' | ':'..'@' | '['..'`' | '{'..'~'
//!
//! Events:
//!
//!     CharacterEscape
//!       CharacterEscapeMarker    `\`
//!       CharacterEscapeValue     the punctuation character
//!
//! Example: in `5 \* 3` the codes `\*` are an escape, and the `*` is no marker.
//!
//! Definition: `character_escape` in `markdown_model/specs/LeafConstructs.antt`.
//!
//! Each state answers the error where a growth is refused; then `failed` is true.
//! A reader stands beside: `readers::character_escape` of `markdown_run_text`.
#![tactic(auto, using(markdown_engine::proofs::OperationFields::op_rules))]

ghost use Rattle.markdown_engine.specs.Operations.{IsOpen};
ghost use Rattle.markdown_event.specs.declared.event.Name.TheVariants.{CharacterEscape};
ghost use Rattle.markdown_leaf.specs.CharacterEscape.{start_step, inside_step};
ghost use Rattle.markdown_plan.specs.StateCalls.{Steps};

use markdown_engine::tokenizer::Tokenizer;
use markdown_event::event::Name;
use markdown_event::state::{State, StateName};
use std::alloc::AllocError;

/// At the start of a character escape: the backslash.
///
///     > | 5 \* 3
///           ^
pub fn start(tokenizer: &mut Tokenizer) -> Result<State, AllocError>
    ensures { Steps start_step tokenizer.old result tokenizer.new }
{
    if tokenizer.parse_state.options.constructs.character_escape
        && tokenizer.current() == Some(b'\\')
    {
        tokenizer.enter(Name::CharacterEscape)?;
        tokenizer.take(Name::CharacterEscapeMarker)?;
        Ok(State::Next(StateName::CharacterEscapeInside))
    } else {
        Ok(State::Nok)
    }
}

/// After the backslash: the punctuation that it escapes.
///
///     > | 5 \* 3
///            ^
pub fn inside(tokenizer: &mut Tokenizer) -> Result<State, AllocError>
    requires { IsOpen CharacterEscape tokenizer.old }
    ensures { Steps inside_step tokenizer.old result tokenizer.new }
{
    match tokenizer.current() {
        Some(code) if code.is_ascii_punctuation() => {
            tokenizer.take(Name::CharacterEscapeValue)?;
            tokenizer.exit(Name::CharacterEscape)?;
            Ok(State::Ok)
        }
        _ => Ok(State::Nok),
    }
}
