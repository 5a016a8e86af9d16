//! Attempts that fail, and passes that are registered, by calls that are always the same.
//!
//!     fail | TEXT       a check in an attempt fails, and then the attempt: for each the state that follows, how many events are left, and the
//!                       event that the first is linked on to; then the codes at and before the place. The text has two codes or more
//!     register | TEXT   the passes in their order, where some are registered twice
ghost use Rattle.std.specs.Prelude.{◌≡◌, OnOk};
ghost use Rattle.markdown_engine.specs.Operations.{LinkedBefore};

use crate::answers::Answers;
use markdown_engine::run::resume;
use markdown_engine::tokenizer::{Attempt, Tokenizer};
use markdown_engine_events::event_list::EventSlice;
use markdown_event::event::{Content, Link, Name};
use markdown_event::resolve::ResolveName;
use markdown_event::state::{State, StateName};
use std::alloc::AllocError;

// Appends what a call answers.
pub(crate) fn answer(tokenizer: &mut Tokenizer, call: &str, out: &mut Answers) {
    let outcome = match call {
        "fail" => fail_both(tokenizer, out),
        "register" => register_twice(tokenizer, out),
        _ => return out.say(" no such call"),
    };
    out.keep(outcome);
}

// Passes a code, with linked content over it. It is an error as well where there is no code.
#[tactic(auto, using(markdown_engine::proofs::LinkLemmas::leaf_rules), unfolding(markdown_engine::specs::Operations::applied))]
fn pass_linked(tokenizer: &mut Tokenizer) -> Result<(), AllocError>
    ensures { OnOk result (LinkedBefore tokenizer.new) }
{
    let link = Link {
        previous: None,
        next: None,
        content: Content::String,
    };
    tokenizer.enter_link(Name::Data, link)?;
    if tokenizer.current().is_none() {
        return Err(AllocError);
    }
    tokenizer.consume();
    tokenizer.exit(Name::Data)
}

// Passes a code, with content over it that is linked to the content before. It is an error as well where there is no code.
#[tactic(auto, using(markdown_engine::proofs::LinkLemmas::leaf_rules), unfolding(markdown_engine::specs::Operations::applied))]
fn pass_connected(tokenizer: &mut Tokenizer) -> Result<(), AllocError>
    requires { LinkedBefore tokenizer.old }
{
    tokenizer.enter_connected(Name::Data, Content::String)?;
    if tokenizer.current().is_none() {
        return Err(AllocError);
    }
    tokenizer.consume();
    tokenizer.exit(Name::Data)
}

// Opens a check, and hands it over.
#[tactic(auto, unfolding(markdown_engine::specs::Operations::attempted, markdown_engine::specs::StateRuns::settled))]
fn checked<'a>(tokenizer: &mut Tokenizer<'a>, nok: StateName) -> Result<Attempt<'a>, AllocError>
    ensures { OnOk result (tokenizer.new.events ≡ tokenizer.old.events) }
{
    tokenizer.check(State::Ok, State::Next(nok))?;
    tokenizer.attempts.pop().ok_or(AllocError)
}

// Opens an attempt, and hands it over.
#[tactic(auto, unfolding(markdown_engine::specs::Operations::attempted, markdown_engine::specs::StateRuns::settled))]
fn opened<'a>(tokenizer: &mut Tokenizer<'a>, nok: StateName) -> Result<Attempt<'a>, AllocError>
    ensures { OnOk result (tokenizer.new.events ≡ tokenizer.old.events) }
{
    tokenizer.attempt(State::Ok, State::Next(nok))?;
    tokenizer.attempts.pop().ok_or(AllocError)
}

// The event that the first is linked on to.
fn next_of(events: &EventSlice) -> Option<usize> {
    events.iter().next()?.link?.next
}

// Appends a state, how many events there are, and where the first is linked on to.
fn push_row(out: &mut Answers, state: State, events: &EventSlice) {
    out.show(state);
    out.show(events.len());
    out.show(next_of(events));
    out.say(",");
}

// A check inside the attempt, with a link from the one across to what stood before: it fails.
fn fail_inner(tokenizer: &mut Tokenizer, out: &mut Answers) -> Result<(), AllocError>
    requires { LinkedBefore tokenizer.old }
{
    pass_connected(tokenizer)?;
    let inner = checked(tokenizer, StateName::DataInside)?;
    tokenizer.enter(Name::LineEnding)?;
    let after = resume(tokenizer, &inner, false);
    push_row(out, after, &tokenizer.events.as_slice());
    Ok(())
}

// A check inside an attempt: both fail.
fn fail_both(tokenizer: &mut Tokenizer, out: &mut Answers) -> Result<(), AllocError> {
    pass_linked(tokenizer)?;
    let outer = opened(tokenizer, StateName::DataStart)?;
    fail_inner(tokenizer, out)?;
    let after = resume(tokenizer, &outer, false);
    push_row(out, after, &tokenizer.events.as_slice());
    out.show(tokenizer.current().map(char::from));
    out.show(tokenizer.previous().map(char::from));
    Ok(())
}

// Whichever call asks for it.
fn register_twice(tokenizer: &mut Tokenizer, out: &mut Answers) -> Result<(), AllocError> {
    tokenizer.register_resolver(ResolveName::Data)?;
    tokenizer.register_resolver(ResolveName::String)?;
    tokenizer.register_resolver_before(ResolveName::Label)?;
    tokenizer.register_resolver(ResolveName::Data)?;
    tokenizer.register_resolver_before(ResolveName::String)?;
    out.show(tokenizer.resolvers.as_slice());
    Ok(())
}
