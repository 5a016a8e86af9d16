//! Links between events whose content is read later as one.
ghost use Rattle.std.specs.Prelude.{◌≡◌, ◌≤◌, ◌-◌, Some, None, true};
ghost use Rattle.markdown_engine_events.specs.EventChains.{changed_at, with_previous, previous_at, linked_at, EndsChain};

use crate::events::Events;

/// What a resolver may answer that leaves definitions behind. No resolver of the inline layer does.
#[derive(Drop)]
pub struct Subresult {
    /// Whether all content was read.
    pub done: bool,
}

/// Links the Enter at `index` back to the Enter two events before it.
///
/// Both carry a link; the one has no event before on its chain yet, and the other no event after.
pub fn link(events: &mut Events, index: usize)
    requires order { 2 ≤ index }
    requires from { linked_at events.old (index - 2) ≡ true }
    requires to { linked_at events.old index ≡ true }
    requires first { previous_at events.old index ≡ None }
    requires last { EndsChain (index - 2) events.old }
    ensures { events.new ≡ changed_at (with_previous (Some (index - 2))) index events.old }
{
    events.connect(index - 2, index);
}
