//! What all starts of labels share.
ghost use Rattle.std.specs.Prelude.{◌≡◌, ◌≤◌, length, OnOk, OnErr, IsTrue};
ghost use Rattle.markdown_label.specs.LabelStarts.{kept_start};

use markdown_engine::tokenizer::{LabelKind, LabelStart, Tokenizer};
use markdown_event::resolve::ResolveName;
use std::alloc::AllocError;

/// Keeps a start of this kind, whose events are the last ones, so many, and registers the pass of labels before all others.
///
/// The error comes where a growth is refused; then `failed` is true.
#[tactic(auto, using(markdown_engine::proofs::OperationFields::law_rules), unfolding(markdown_engine::specs::Operations::scratched))]
pub fn keep_start(tokenizer: &mut Tokenizer, kind: LabelKind, size: usize) -> Result<(), AllocError>
    requires some { 1 ≤ size }
    requires within { size ≤ length tokenizer.old.events }
    ensures ok { OnOk result (kept_start kind size tokenizer.old ≡ tokenizer.new) }
    ensures err { OnErr result (IsTrue tokenizer.new.failed) }
{
    let end = tokenizer.events.len();
    let start = LabelStart {
        kind,
        start: (end - size, end - 1),
        inactive: false,
    };
    let kept = tokenizer.tokenize_state.label_starts.push(start);
    tokenizer.noted(kept)?;
    tokenizer.register_resolver_before(ResolveName::Label)
}
