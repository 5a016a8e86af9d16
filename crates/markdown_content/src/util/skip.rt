//! Looking for events by their names.
ghost use Rattle.std.specs.Prelude.{◌≡◌, ◌<◌, length, ◌↔◌, IsTrue, Contains};
ghost use Rattle.markdown_content.specs.Nesting.{IsNamedBack, IsNearestBack};

use markdown_event::event::{Event, Name};

// Whether the name is one of these.
fn is_one_of(names: &[Name], name: Name) -> bool
    ensures { IsTrue result ↔ Contains names.now name }
{
    names.contains(&name)
}

/// The nearest place at or before `index` whose event has one of these names. There is one.
pub fn to_back(events: &[Event], index: usize, names: &[Name]) -> usize
    requires within { index < length events.now }
    requires some { IsNamedBack names.now events.now index }
    ensures { IsNearestBack names.now events.now index result }
{
    let mut at = index;
    while !is_one_of(names, events[at].name) {
        at -= 1;
    }
    at
}
