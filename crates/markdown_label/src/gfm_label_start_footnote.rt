//! The states of starts of footnote calls: a bracket and a caret. GitHub has footnotes; the GFM specification has no section on them.
//!
//!     gfm_label_start_footnote ::= '[^'
//!
//! Events:
//!
//!     GfmFootnoteCallLabel
//!       LabelMarker              `[`
//!       GfmFootnoteCallMarker    `^`
//!
//! The start is kept until an end takes it. After the run the pass `label_groups` makes a footnote call of it, a link whose text begins with
//! the caret where the footnote is not defined, or data.
//!
//! Example: the codes `[^` of `[^a]`.
//!
//! Definition: `gfm_label_start_footnote` in `markdown_model/specs/Elements.antt`.
//!
//! Each state answers the error where a growth is refused; then `failed` is true.
#![tactic(auto, using(markdown_engine::proofs::OperationFields::law_rules), unfolding(markdown_engine::specs::Operations::scratched))]

ghost use Rattle.std.specs.Prelude.{◌≡◌, IfOk, OnErr, IsTrue};
ghost use Rattle.markdown_label.specs.LabelStarts.{footnote_step, footnote_open_step, FootnoteOpenReady};

use crate::parts;
use crate::starts::keep_start;
use markdown_engine::tokenizer::{LabelKind, Tokenizer};
use markdown_event::event::Name;
use markdown_event::state::{State, StateName};
use std::alloc::AllocError;

/// At the start of a footnote call's label: its bracket.
///
///     > | x[^1]y
///          ^
pub fn start(tokenizer: &mut Tokenizer) -> Result<State, AllocError>
    ensures ok { IfOk result (λ s. footnote_step tokenizer.old ≡ record { state = s; left = tokenizer.new }) }
    ensures err { OnErr result (IsTrue tokenizer.new.failed) }
{
    if tokenizer
        .parse_state
        .options
        .constructs
        .gfm_label_start_footnote
        && tokenizer.current() == Some(b'[')
    {
        let next = StateName::GfmLabelStartFootnoteOpen;
        parts::open(
            tokenizer,
            Name::GfmFootnoteCallLabel,
            Name::LabelMarker,
            next,
        )
    } else {
        Ok(State::Nok)
    }
}

/// After the bracket: the caret.
///
///     > | x[^1]y
///           ^
pub fn open(tokenizer: &mut Tokenizer) -> Result<State, AllocError>
    requires { FootnoteOpenReady tokenizer.old }
    ensures ok { IfOk result (λ s. footnote_open_step tokenizer.old ≡ record { state = s; left = tokenizer.new }) }
    ensures err { OnErr result (IsTrue tokenizer.new.failed) }
{
    match tokenizer.current() {
        Some(b'^') => {
            parts::close(
                tokenizer,
                Name::GfmFootnoteCallLabel,
                Name::GfmFootnoteCallMarker,
            )?;
            keep_start(tokenizer, LabelKind::GfmFootnote, 6)?;
            Ok(State::Ok)
        }
        _ => Ok(State::Nok),
    }
}
