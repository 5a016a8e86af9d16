//! The passes of inline content by name.
ghost use Rattle.std.specs.Prelude.{◌≡◌, false, IfOk, IsErr, OnErr, IsTrue, None};
ghost use Rattle.markdown_run_text.specs.ContentPasses.{may_resolve_of, resolves_of};

use crate::{attention, text};
use markdown_engine::tokenizer::Tokenizer;
use markdown_engine_events::subtokenize::Subresult;
use markdown_event::resolve::ResolveName;
use markdown_label_pass::label_groups;
use markdown_passes::partial_data;
use markdown_run_text::string;
use std::alloc::AllocError;

// Calls the pass of this name.
fn dispatch(name: ResolveName, tokenizer: &mut Tokenizer) -> Result<Option<Subresult>, AllocError>
    requires { may_resolve_of name tokenizer.old }
    ensures none { IfOk result (λ r. r ≡ None) }
    ensures ok { IfOk result (λ _. resolves_of name tokenizer.old tokenizer.new) }
    ensures err { OnErr result (IsTrue tokenizer.new.failed) }
{
    match name {
        ResolveName::Label => label_groups::resolve(tokenizer),
        ResolveName::Attention => attention::resolve(tokenizer),
        ResolveName::Data => partial_data::resolve(tokenizer),
        ResolveName::String => string::resolve(tokenizer),
        ResolveName::Text => text::resolve(tokenizer),
    }
}

/// Calls the pass of this name.
///
/// The error comes where a growth is refused; then `failed` is true. It comes at once where `failed` is true already, and then
/// nothing is asked of the tokenizer.
pub fn call(name: ResolveName, tokenizer: &mut Tokenizer) -> Result<Option<Subresult>, AllocError>
    requires { tokenizer.old.failed ≡ false → may_resolve_of name tokenizer.old }
    ensures none { IfOk result (λ r. r ≡ None) }
    ensures ok { IfOk result (λ _. resolves_of name tokenizer.old tokenizer.new) }
    ensures failed { IsTrue tokenizer.old.failed → IsErr result }
    ensures err { OnErr result (IsTrue tokenizer.new.failed) }
{
    if tokenizer.failed() {
        return Err(AllocError);
    }
    dispatch(name, tokenizer)
}
