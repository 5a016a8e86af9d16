//! Text content, as in paragraphs and headings (CommonMark 6). The states are those of `markdown_run_text`, whose module `text` has the grammar and
//! the events; the pass `resolve`, which sets whitespace and email literals apart, stands here.
//!
//! Example: `see *that*, [this](b) and &amp;`.
//!
//! Definition: `text_element` in `markdown_model/specs/Elements.antt`; for the pass `trimmed` and `with_emails_apart` in `Passes.antt`.
#![tactic(auto, using(markdown_engine::proofs::OperationFields::op_rules))]

ghost use Rattle.std.specs.Prelude.{◌≡◌, IfOk, OnErr, IsTrue, None};
ghost use Rattle.markdown_run_text.specs.ContentPasses.{MayFinish, FinishesText};

use markdown_engine::tokenizer::Tokenizer;
use markdown_engine_events::subtokenize::Subresult;
use markdown_passes::{email, partial_whitespace};
pub use markdown_run_text::text::{
    before, before_data, before_hard_break_escape, before_html, before_label_start_link, start,
};
use std::alloc::AllocError;

/// After the run over a text: sets whitespace beside line endings, and at the start and the end of the whole, apart; where they are on, finds
/// hard breaks by spaces (CommonMark 6.7) and sets email literals apart (GFM 6.9).
///
/// The error comes where memory is refused; then `failed` is true.
#[inline(always)]
pub fn resolve(tokenizer: &mut Tokenizer) -> Result<Option<Subresult>, AllocError>
    requires { MayFinish tokenizer.old }
    ensures none { IfOk result (λ r. r ≡ None) }
    ensures ok { IfOk result (λ _. FinishesText tokenizer.old tokenizer.new) }
    ensures err { OnErr result (IsTrue tokenizer.new.failed) }
{
    let hard_break = tokenizer.parse_state.options.constructs.hard_break_trailing;
    let emails = tokenizer
        .parse_state
        .options
        .constructs
        .gfm_autolink_literal;
    partial_whitespace::resolve_whitespace(tokenizer, hard_break, true)?;
    if emails {
        email::resolve(tokenizer)?;
    }
    Ok(None)
}
