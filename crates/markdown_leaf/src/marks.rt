//! Leaves that a marker ends.
#![tactic(auto, using(markdown_engine::proofs::OperationFields::op_rules))]

ghost use Rattle.std.specs.Prelude.{◌≡◌, OnOk, OnErr, IsTrue};
ghost use Rattle.markdown_engine.specs.Operations.{applied, Enter, Exit, Consume, HasCode};
ghost use Rattle.markdown_plan.specs.ScratchFields.{AreOpen};

use markdown_engine::tokenizer::Tokenizer;
use markdown_event::event::Name;
use std::alloc::AllocError;

// Exits what stands in the whole, takes the marker that ends it, and exits the whole.
//
// The error comes where a growth is refused; then `failed` is true.
pub(crate) fn close(
    tokenizer: &mut Tokenizer,
    inner: Name,
    marker: Name,
    whole: Name,
) -> Result<(), AllocError>
    requires open { AreOpen inner whole tokenizer.old }
    requires code { HasCode tokenizer.old }
    ensures ok { OnOk result (tokenizer.new
        ≡ applied (Exit whole) (applied (Exit marker) (applied Consume (applied (Enter marker) (applied (Exit inner) tokenizer.old))))) }
    ensures err { OnErr result (IsTrue tokenizer.new.failed) }
{
    tokenizer.exit(inner)?;
    tokenizer.take(marker)?;
    tokenizer.exit(whole)
}
