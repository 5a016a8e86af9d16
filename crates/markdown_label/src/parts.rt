//! What states of links, images and footnote calls share: the events around a marker, and attempts.
//!
//! Each function answers the error where a growth is refused; then `failed` is true.
#![tactic(auto, using(markdown_engine::proofs::OperationFields::law_rules), unfolding(markdown_engine::specs::Operations::attempted, markdown_engine::specs::Operations::frame_of))]

ghost use Rattle.std.specs.Prelude.{◌≡◌, ◌∷◌, [], false, IfOk, OnOk, OnErr, IsTrue};
ghost use Rattle.markdown_engine.specs.Operations.{Enter, Exit, Consume, HasCode, IsOpen, attempted, done};
ghost use Rattle.markdown_engine.specs.StateRuns.{stepped};
ghost use Rattle.markdown_event.specs.declared.state.State.TheVariants.{Next, Retry};

use markdown_engine::tokenizer::Tokenizer;
use markdown_event::event::Name;
use markdown_event::state::{State, StateName};
use std::alloc::AllocError;

// Enters a whole, takes the code at the place as its first marker, and goes on with a state.
#[inline(always)]
pub(crate) fn open(
    tokenizer: &mut Tokenizer,
    whole: Name,
    marker: Name,
    next: StateName,
) -> Result<State, AllocError>
    requires { HasCode tokenizer.old }
    ensures ok { IfOk result (λ s. stepped (Next next) (done (Enter whole ∷ Enter marker ∷ Consume ∷ Exit marker ∷ []) tokenizer.old)
        ≡ record { state = s; left = tokenizer.new }) }
    ensures err { OnErr result (IsTrue tokenizer.new.failed) }
{
    tokenizer.enter(whole)?;
    tokenizer.take(marker)?;
    Ok(State::Next(next))
}

// Takes the code at the place as the last marker of a whole, and exits the whole.
#[inline(always)]
pub(crate) fn close(tokenizer: &mut Tokenizer, whole: Name, marker: Name) -> Result<(), AllocError>
    requires code { HasCode tokenizer.old }
    requires open { IsOpen whole tokenizer.old }
    ensures ok { OnOk result (tokenizer.new ≡ done (Enter marker ∷ Consume ∷ Exit marker ∷ Exit whole ∷ []) tokenizer.old) }
    ensures err { OnErr result (IsTrue tokenizer.new.failed) }
{
    tokenizer.take(marker)?;
    tokenizer.exit(whole)
}

// Makes a whole of one marker, the code at the place.
#[inline(always)]
pub(crate) fn whole_of_one(
    tokenizer: &mut Tokenizer,
    whole: Name,
    marker: Name,
) -> Result<(), AllocError>
    requires { HasCode tokenizer.old }
    ensures ok { OnOk result (tokenizer.new ≡ done (Enter whole ∷ Enter marker ∷ Consume ∷ Exit marker ∷ Exit whole ∷ []) tokenizer.old) }
    ensures err { OnErr result (IsTrue tokenizer.new.failed) }
{
    tokenizer.enter(whole)?;
    close(tokenizer, whole, marker)
}

// Tries a state, and goes on with one of two others: where it holds, and where it does not.
#[inline(always)]
pub(crate) fn attempt(
    tokenizer: &mut Tokenizer,
    tried: StateName,
    ok: StateName,
    nok: StateName,
) -> Result<State, AllocError>
    ensures ok { IfOk result (λ s. stepped (Retry tried) (attempted false (Next ok) (Next nok) tokenizer.old) ≡ record { state = s; left = tokenizer.new }) }
    ensures err { OnErr result (IsTrue tokenizer.new.failed) }
{
    tokenizer.attempt(State::Next(ok), State::Next(nok))?;
    Ok(State::Retry(tried))
}
