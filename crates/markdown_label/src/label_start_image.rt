//! The states of starts of images: the exclamation mark and the bracket before an image's description (CommonMark 6.4).
//!
//!     label_start_image ::= '!['
//!
//! Where footnotes are on and a caret follows, the start does not hold: the mark is data, and a footnote call begins at the bracket.
//!
//! Events:
//!
//!     LabelImage
//!       LabelImageMarker    `!`
//!       LabelMarker         `[`
//!
//! The start is kept until an end takes it. After the run the pass `label_groups` makes an image of it, or data.
//!
//! Example: the codes `![` of `![a](b)`.
//!
//! Definition: `label_start_image` in `markdown_model/specs/Elements.antt`.
//!
//! Each state answers the error where a growth is refused; then `failed` is true.
#![tactic(auto, using(markdown_engine::proofs::OperationFields::law_rules), unfolding(markdown_engine::specs::Operations::scratched))]

ghost use Rattle.std.specs.Prelude.{◌≡◌, IfOk, OnErr, IsTrue};
ghost use Rattle.markdown_label.specs.LabelStarts.{image_step, image_open_step, image_after_step, ImageOpenReady, ImageAfterReady};

use crate::parts;
use crate::starts::keep_start;
use markdown_engine::tokenizer::{LabelKind, Tokenizer};
use markdown_event::event::Name;
use markdown_event::state::{State, StateName};
use std::alloc::AllocError;

/// At the start of an image's label: its exclamation mark.
///
///     > | x![y](z)
///          ^
pub fn start(tokenizer: &mut Tokenizer) -> Result<State, AllocError>
    ensures ok { IfOk result (λ s. image_step tokenizer.old ≡ record { state = s; left = tokenizer.new }) }
    ensures err { OnErr result (IsTrue tokenizer.new.failed) }
{
    if tokenizer.parse_state.options.constructs.label_start_image
        && tokenizer.current() == Some(b'!')
    {
        let next = StateName::LabelStartImageOpen;
        parts::open(tokenizer, Name::LabelImage, Name::LabelImageMarker, next)
    } else {
        Ok(State::Nok)
    }
}

/// After the exclamation mark: the bracket.
///
///     > | x![y](z)
///           ^
pub fn open(tokenizer: &mut Tokenizer) -> Result<State, AllocError>
    requires { ImageOpenReady tokenizer.old }
    ensures ok { IfOk result (λ s. image_open_step tokenizer.old ≡ record { state = s; left = tokenizer.new }) }
    ensures err { OnErr result (IsTrue tokenizer.new.failed) }
{
    match tokenizer.current() {
        Some(b'[') => {
            parts::close(tokenizer, Name::LabelImage, Name::LabelMarker)?;
            Ok(State::Next(StateName::LabelStartImageAfter))
        }
        _ => Ok(State::Nok),
    }
}

/// After the bracket: a caret may make it the start of a footnote call.
///
///     > | x![y](z)
///            ^
pub fn after(tokenizer: &mut Tokenizer) -> Result<State, AllocError>
    requires { ImageAfterReady tokenizer.old }
    ensures ok { IfOk result (λ s. image_after_step tokenizer.old ≡ record { state = s; left = tokenizer.new }) }
    ensures err { OnErr result (IsTrue tokenizer.new.failed) }
{
    if tokenizer
        .parse_state
        .options
        .constructs
        .gfm_label_start_footnote
        && tokenizer.current() == Some(b'^')
    {
        Ok(State::Nok)
    } else {
        keep_start(tokenizer, LabelKind::Image, 6)?;
        Ok(State::Ok)
    }
}
