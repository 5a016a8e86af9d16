//! The states and passes of a layer, as the engine reaches them.
ghost use Rattle.std.specs.Prelude.{◌≡◌, ℕ, Bool, List, Option, IfOk, OnErr, IsTrue, None};
ghost use Rattle.markdown_event.specs.declared.resolve.ResolveName.{ResolveName};
ghost use Rattle.markdown_event.specs.declared.state.StateName.{StateName};
ghost use Rattle.markdown_engine.specs.declared.tokenizer.TokenizeState.{TokenizeState};
ghost use Rattle.markdown_engine.specs.declared.tokenizer.Tokenizer.{Tokenizer};
ghost use Rattle.markdown_engine.specs.StateRuns.{Stepped, Lawful};
ghost use Rattle.markdown_engine.specs.Steady.{IsSteady};

use crate::tokenizer::{TokenizeState, Tokenizer};
use markdown_content::bytes::ByteSet;
use markdown_engine_events::subtokenize::Subresult;
use markdown_event::resolve::ResolveName;
use markdown_event::state::{State, StateName};
use std::alloc::AllocError;

/// What the engine runs: states by their names, and passes by theirs.
///
/// A layer says, for each state, when it may be called, what it answers and leaves, how a run from there may end, and a number that falls
/// at each step; its laws make any run of it safe, finite, and ended as it says. For a state that passes code after code it may name the
/// bytes at which it stops. A call of a state or a pass answers the error where a growth is refused; then `failed` is true.
pub trait Layer {
    // when a state may be called
    ghost ready: { StateName → Tokenizer → Type 0 };

    // what a call of a state answers and leaves
    ghost step: { StateName → Tokenizer → Stepped };

    // how a run from a state in a tokenizer may end: Ok or not, and in which tokenizer
    ghost ends: { StateName → Tokenizer → Bool → Tokenizer → Type 0 };

    // a number that falls at each step
    ghost weight: { StateName → Tokenizer → ℕ };

    // the bytes at which a state, by the scratch fields, may do other than pass the code at hand and be next again; none where nothing is known
    ghost stops: { StateName → TokenizeState → Option (List ℕ) };

    // when a pass may be called
    ghost may_resolve: { ResolveName → Tokenizer → Type 0 };

    // what a pass leaves
    ghost resolves: { ResolveName → Tokenizer → Tokenizer → Type 0 };

    /// Calls the state of this name.
    fn call(name: StateName, tokenizer: &mut Tokenizer) -> Result<State, AllocError>
        requires { ready name tokenizer.old }
        ensures ok { IfOk result (λ s. step name tokenizer.old ≡ record { state = s; left = tokenizer.new }) }
        ensures err { OnErr result (IsTrue tokenizer.new.failed) };

    /// The bytes at which a state may do other than pass the code at hand and be next again, line endings aside; none where nothing is
    /// known. A run passes the codes before the next of them without a call for each.
    fn stop_bytes(name: StateName, fields: &TokenizeState) -> Option<ByteSet>
        ensures { result ≡ stops name fields.now };

    /// Calls the pass of this name.
    fn resolve(
        name: ResolveName,
        tokenizer: &mut Tokenizer,
    ) -> Result<Option<Subresult>, AllocError>
        requires { may_resolve name tokenizer.old }
        ensures none { IfOk result (λ r. r ≡ None) }
        ensures ok { IfOk result (λ _. resolves name tokenizer.old tokenizer.new) }
        ensures err { OnErr result (IsTrue tokenizer.new.failed) };

    ghost laws: { Lawful ready step ends weight };

    ghost steady: { IsSteady ready step stops };
}
