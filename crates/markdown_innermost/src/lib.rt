//! The innermost events of a run, each with what is lent of the document for it, and laws on them.
#![tactic(auto)]

ghost use Rattle.std.specs.Prelude.{◌≡◌, ◌≤◌, length, map};
ghost use Rattle.std.specs.List.{All};
ghost use Rattle.markdown_content.specs.Content.{document_limit};
ghost use Rattle.markdown_content.specs.Tree.{Forest, events_of, leaf_codes};
ghost use Rattle.markdown_innermost.specs.InnermostEvents.{innermost, lent, leaves_of, covered, HasLeaves, IsSpanInOrder};

pub mod laws;
pub mod leaf;

use leaf::Leaves;
use markdown_engine_events::event_list::EventSlice;

/// Answers the innermost events in order, each with its slice lent from the document: leaves, and the empty text of a label.
///
/// The events are those of a run over these bytes. Takes no memory.
pub fn leaves<'a>(bytes: &'a [u8], events: &EventSlice<'a>) -> Leaves<'a>
    requires fits { length bytes.now ≤ document_limit }
    requires places { All (IsSpanInOrder bytes.now) (innermost events.now) }
    ensures lends { result ≡ map (lent bytes.entry.now) (innermost events.now) }
    ensures leaves { (t : Forest) → events.now ≡ events_of t → result ≡ map (lent bytes.entry.now) (leaves_of t) }
    ensures covers { (t : Forest) → HasLeaves bytes.entry.now t → events.now ≡ events_of t → covered bytes.entry.now result ≡ leaf_codes t }
{
    Leaves::new(bytes, events)
}
