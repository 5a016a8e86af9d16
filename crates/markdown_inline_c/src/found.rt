//! What is found, as it crosses to C.

ghost use Rattle.std.specs.Prelude.{◌≡◌, List, None, length, map};
ghost use Rattle.markdown_engine_events.specs.EventChains.{changed_at};
ghost use Rattle.markdown_inline_c.specs.FlatEvents.{flat_event, short_event, telling};
ghost use Rattle.markdown_inline_c.specs.ShortEvents.{noted};

use crate::flat::{FlatEvent, ShortEvent, flat_event, short_event};
use markdown_engine_events::event_list::EventSlice;
use markdown_run::run::ListRun;

/// What a call finds: so many items, which can be written to an array.
pub trait Found<X> {
    ghost items: { Self → List X };

    /// How many items there are.
    fn count(&self) -> usize
        ensures { result ≡ length (items self.now) };

    /// Writes them to an array that has as many.
    fn write(&self, array: &mut [X])
        requires { length array.old ≡ length (items self.now) }
        ensures { array.new ≡ items self.now };
}

impl<X: Copy> Found<X> for Vec<X> {
    ghost items = { λ found. found.items };

    fn count(&self) -> usize {
        self.len()
    }

    fn write(&self, array: &mut [X]) {
        array.copy_from_slice(self.as_slice());
    }
}

// Fills an array that has as many elements as there are events.
#[tactic(auto, using(crate::proofs::Filled::one_more, crate::proofs::Filled::whole))]
fn fill(events: &EventSlice, array: &mut [FlatEvent])
    requires { length array.old ≡ length events.now }
    ensures { array.new ≡ map flat_event events.now }
{
    for at in 0..events.len() {
        array[at] = flat_event(&events.at(at));
    }
}

// The same with short events, which tell nothing.
#[tactic(auto, using(crate::proofs::Filled::one_more, crate::proofs::Filled::whole))]
fn fill_short(events: &EventSlice, array: &mut [ShortEvent])
    requires { length array.old ≡ length events.now }
    ensures { array.new ≡ map (short_event None) events.now }
{
    for at in 0..events.len() {
        array[at] = short_event(&events.at(at), None);
    }
}

// Notes in the short event of a number what it tells, if there is one.
#[tactic(auto, using(crate::proofs::Noted::changed_out))]
fn note(number: usize, told: usize, array: &mut [ShortEvent])
    ensures { array.new ≡ changed_at (telling told) number array.old }
{
    if number < array.len() {
        array[number] = array[number].telling(told);
    }
}

// Notes in short events what they tell.
fn note_all(told: &[(usize, usize)], array: &mut [ShortEvent])
    ensures { array.new ≡ noted told.now array.old }
{
    for at in 0..told.len() {
        note(told[at].0, told[at].1, array);
    }
}

impl Found<FlatEvent> for ListRun {
    ghost items = { λ run. map flat_event run.events };

    fn count(&self) -> usize {
        self.events.len()
    }

    fn write(&self, array: &mut [FlatEvent]) {
        fill(&self.events.as_slice(), array);
    }
}

/// The events of a run, and what they tell.
#[derive(Drop)]
pub struct Telling {
    /// The run.
    pub run: ListRun,
    /// The numbers of events that tell something, each with what it tells.
    pub told: Vec<(usize, usize)>,
}

impl Found<ShortEvent> for Telling {
    ghost items = { λ found. noted found.told.items (map (short_event None) found.run.events) };

    #[tactic(auto, using(crate::proofs::Noted::length_noted))]
    fn count(&self) -> usize {
        self.run.events.len()
    }

    #[tactic(auto, using(crate::proofs::Noted::length_noted))]
    fn write(&self, array: &mut [ShortEvent]) {
        fill_short(&self.run.events.as_slice(), array);
        note_all(self.told.as_slice(), array);
    }
}
