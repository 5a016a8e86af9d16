//! The state of starts of links: the bracket before a link's text (CommonMark 6.3).
//!
//!     label_start_link ::= '['
//!
//! Events:
//!
//!     LabelLink
//!       LabelMarker    `[`
//!
//! The start is kept until an end takes it. After the run the pass `label_groups` makes a link of it, or data.
//!
//! Example: the first bracket of `[a](b)`.
//!
//! Definition: `label_start_link` in `markdown_model/specs/Elements.antt`.
//!
//! The state answers the error where a growth is refused; then `failed` is true.
//! A reader stands beside: `readers::label_start_link` of `markdown_run_text`.
#![tactic(auto, using(markdown_engine::proofs::OperationFields::law_rules), unfolding(markdown_engine::specs::Operations::scratched))]

ghost use Rattle.std.specs.Prelude.{◌≡◌, IfOk, OnErr, IsTrue};
ghost use Rattle.markdown_label.specs.LabelStarts.{link_step};

use crate::parts::whole_of_one;
use crate::starts::keep_start;
use markdown_engine::tokenizer::{LabelKind, Tokenizer};
use markdown_event::event::Name;
use markdown_event::state::State;
use std::alloc::AllocError;

/// At the start of a link's label: its bracket.
///
///     > | x[y](z)
///          ^
pub fn start(tokenizer: &mut Tokenizer) -> Result<State, AllocError>
    ensures ok { IfOk result (λ s. link_step tokenizer.old ≡ record { state = s; left = tokenizer.new }) }
    ensures err { OnErr result (IsTrue tokenizer.new.failed) }
{
    if tokenizer.parse_state.options.constructs.label_start_link
        && tokenizer.current() == Some(b'[')
    {
        whole_of_one(tokenizer, Name::LabelLink, Name::LabelMarker)?;
        keep_start(tokenizer, LabelKind::Link, 4)?;
        Ok(State::Ok)
    } else {
        Ok(State::Nok)
    }
}
