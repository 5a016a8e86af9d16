//! Runs of a layer's states, and of its passes. Each answers the error where a growth is refused; then `failed` is true.
ghost use Rattle.std.specs.Prelude.{◌≡◌, ◌++◌, [], IfOk, OnOk, OnErr, IsTrue};
ghost use Rattle.markdown_engine.specs.StateRuns.{going_state, going_in, ends_state, ready_state};
ghost use Rattle.markdown_engine.specs.CallsWithAttempts.{CallsReach};
ghost use Rattle.markdown_engine.specs.Steady.{Onward};
ghost use Rattle.markdown_engine.specs.PassesInOrder.{MayResolve, Resolves, unregistered};
ghost use Rattle.markdown_event.specs.declared.state.State.TheVariants.{Retry};

use crate::layer::Layer;
use crate::tokenizer::{Attempt, Tokenizer};
use markdown_event::seq::{Seq, Stack};
use markdown_event::state::{State, StateName};
use std::alloc::AllocError;
use std::mem;

/// Goes on with an attempt, after an Ok or a Nok.
#[tactic(auto, unfolding(crate::specs::StateRuns::restored))]
pub fn resume<'a>(tokenizer: &mut Tokenizer<'a>, attempt: &Attempt<'a>, ok: bool) -> State
    ensures state { result ≡ going_state attempt.now ok }
    ensures left { tokenizer.new ≡ going_in attempt.now ok tokenizer.old }
{
    if ok && !attempt.restores {
        return attempt.ok;
    }
    tokenizer.events.truncate(attempt.events_len);
    tokenizer.map.truncate(attempt.map_len);
    tokenizer.stack.truncate(attempt.stack_len);
    tokenizer.cursor = attempt.cursor.save();
    if ok { attempt.ok } else { attempt.nok }
}

// Passes the codes at the place over which this state goes on by itself.
fn pass_stretch<L: Layer>(name: StateName, tokenizer: &mut Tokenizer)
    requires ready { L.ready name tokenizer.old }
    requires alone { tokenizer.old.attempts ≡ [] }
    ensures { Onward L.ready L.step L.ends L.weight name tokenizer.old tokenizer.new }
{
    if let Some(stops) = L::stop_bytes(name, &tokenizer.tokenize_state) {
        tokenizer.cursor.consume_stretch(&stops);
    }
}

// Puts the attempts that a call opened on top of those that wait. As a rule none was opened or none waits, and nothing is moved.
fn hand_over<'a>(
    opened: &mut Stack<Attempt<'a>>,
    waiting: &mut Stack<Attempt<'a>>,
) -> Result<(), AllocError>
    ensures waits { OnOk result (waiting.new ≡ opened.old ++ waiting.old) }
    ensures none { OnOk result (opened.new ≡ []) }
{
    if opened.is_empty() {
        return Ok(());
    }
    if waiting.is_empty() {
        mem::swap(waiting, opened);
        return Ok(());
    }
    waiting.append(opened)
}

// Runs states from this answer until Ok or Nok with no attempt open. The attempts that are open wait in a list of their own, empty at the start.
#[inline(always)]
fn run_from<'a, L: Layer>(
    start: State,
    waiting: &mut Stack<Attempt<'a>>,
    tokenizer: &mut Tokenizer<'a>,
) -> Result<bool, AllocError>
    requires ready { ready_state L.ready start tokenizer.old }
    requires alone { tokenizer.old.attempts ≡ [] }
    requires empty { waiting.old ≡ [] }
    ensures alone { IfOk result (λ _. tokenizer.new.attempts ≡ []) }
    ensures calls { IfOk result (λ ok. CallsReach L.ready L.step [] start tokenizer.old ok tokenizer.new) }
    ensures ends { IfOk result (λ ok. ends_state L.ends start tokenizer.old ok tokenizer.new) }
    ensures err { OnErr result (IsTrue tokenizer.new.failed) }
{
    let mut state = start;
    loop {
        let ok = match state {
            State::Next(name) | State::Retry(name) => {
                pass_stretch::<L>(name, tokenizer);
                state = L::call(name, tokenizer)?;
                let handed = hand_over(&mut tokenizer.attempts, waiting);
                tokenizer.noted(handed)?;
                continue;
            }
            State::Ok => true,
            State::Nok => false,
        };
        let Some(attempt) = waiting.top() else {
            return Ok(ok);
        };
        state = resume(tokenizer, attempt, ok);
        let _ = waiting.pop();
    }
}

impl<'a> Tokenizer<'a> {
    /// Runs the layer's states from this one over the content until Ok (true) or Nok (false) with no attempt open.
    pub fn run_state<L: Layer>(&mut self, name: StateName) -> Result<bool, AllocError>
        requires ready { L.ready name self.old }
        requires alone { self.old.attempts ≡ [] }
        ensures alone { IfOk result (λ _. self.new.attempts ≡ []) }
        ensures calls { IfOk result (λ ok. CallsReach L.ready L.step [] (Retry name) self.old ok self.new) }
        ensures ends { IfOk result (λ ok. L.ends name self.old ok self.new) }
        ensures err { OnErr result (IsTrue self.new.failed) }
    {
        let mut waiting = Stack::new(self.alloc);
        run_from::<L>(State::Retry(name), &mut waiting, self)
    }

    /// Runs the registered passes in order, after which none is registered.
    #[tactic(auto, unfolding(crate::specs::PassesInOrder::unregistered))]
    pub fn resolve_all<L: Layer>(&mut self) -> Result<(), AllocError>
        requires { MayResolve L.may_resolve L.resolves self.old.resolvers (unregistered self.old) }
        ensures ok { OnOk result (Resolves L.resolves self.old.resolvers (unregistered self.old) self.new) }
        ensures err { OnErr result (IsTrue self.new.failed) }
    {
        let names = mem::replace(&mut self.resolvers, Seq::new(self.alloc));
        for name in names.as_slice() {
            let _ = L::resolve(*name, self)?;
        }
        Ok(())
    }
}
