//! Leaves whose name is settled only at their end.
#![tactic(auto, using(markdown_engine::proofs::OperationFields::op_rules), unfolding(markdown_plan::specs::LateNames::renamed))]

ghost use Rattle.std.specs.Prelude.{◌≡◌, OnOk, OnErr, IsTrue};
ghost use Rattle.markdown_plan.specs.LateNames.{HasEvent, renamed};

use markdown_engine::tokenizer::Tokenizer;
use markdown_event::event::{Event, Name};
use std::alloc::AllocError;

// Gives the last event and the innermost open event another name; no link is left at the event.
fn rename_both(tokenizer: &mut Tokenizer, name: Name) -> Result<(), AllocError>
    requires { HasEvent tokenizer.old }
    ensures ok { OnOk result (tokenizer.new ≡ renamed name tokenizer.old) }
{
    let last = tokenizer.events.len() - 1;
    let event = tokenizer.events.bare_at(last);
    let renamed = Event {
        kind: event.kind,
        name,
        point: event.point,
        link: None,
    };
    tokenizer.events.truncate(last);
    tokenizer.events.push(renamed)?;
    let _ = tokenizer.stack.pop();
    tokenizer.stack.push(name)
}

/// Gives the last event, an Enter, and the innermost open event another name.
///
/// The error comes where a growth is refused; then `failed` is true.
pub(crate) fn rename_entered(tokenizer: &mut Tokenizer, name: Name) -> Result<(), AllocError>
    requires { HasEvent tokenizer.old }
    ensures ok { OnOk result (tokenizer.new ≡ renamed name tokenizer.old) }
    ensures err { OnErr result (IsTrue tokenizer.new.failed) }
{
    let done = rename_both(tokenizer, name);
    tokenizer.noted(done)
}
