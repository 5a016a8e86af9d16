// A list of events that edits alone fill.
ghost use Rattle.std.specs.Prelude.{◌≡◌, [], None};

use crate::answers::Answers;
use crate::lines::print_list;
use markdown_inline::event::{Event, Kind, Name};
use markdown_inline::events::Events;
use markdown_inline::util::edit_map::EditMap;
use markdown_inline::walk::DOCUMENT_START;
use std::alloc::{AllocError, Global};

/// An event of this name at the start.
pub(crate) fn event(kind: Kind, name: Name) -> Event
    ensures { result ≡ record { kind = kind; name = name; point = DOCUMENT_START; link = None } }
{
    Event {
        kind,
        name,
        point: DOCUMENT_START,
        link: None,
    }
}

// Puts data into an empty list, and around it what is strong, all by edits at one place.
fn fill(alloc: Global, events: &mut Events, map: &mut EditMap) -> Result<(), AllocError>
    requires events { events.old ≡ [] }
    requires map { map.old ≡ [] }
{
    map.add(0, 0, vec![in alloc; event(Kind::Enter, Name::Data)]?)?;
    map.add(0, 0, vec![in alloc; event(Kind::Exit, Name::Data)]?)?;
    map.add_before(0, 0, vec![in alloc; event(Kind::Enter, Name::Strong)]?)?;
    map.add(0, 0, vec![in alloc; event(Kind::Exit, Name::Strong)]?)?;
    map.consume(events)
}

/// Prints the events of a list that edits fill, and whether an edit is left.
pub(crate) fn print_edits(alloc: Global, out: &mut Answers) -> Result<(), AllocError> {
    let mut events = Events::new(alloc);
    let mut map = EditMap::new(alloc);
    fill(alloc, &mut events, &mut map)?;
    print_list(&events.as_slice(), out);
    out.say(if map.is_empty() {
        ", none left"
    } else {
        ", some left"
    });
    Ok(())
}
