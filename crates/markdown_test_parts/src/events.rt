//! Lists of events and what is found in them.
//!
//!     to_back            the nearest event of a label or a resource, from two places
//!     own_enter          the columns where two emphases begin and end, one in the other
//!     steady INDEX       a chain of three events, linked behind a request for memory that may be refused, and what is left of it twice
//!     linked INDEX       an event that comes with its link back, where an event of another chain stands between
//!     edits INDEX        edits at one place between two linked events, applied at once, and whether none is left
//!     apart INDEX INDEX  two edits that stand apart among events that are linked to no other
//!
//! An index is that of one of the last events, and for `apart` also of an event that an edit brings: all others stand at the start. A list holds an event
//! with an index of 2 ^ 32 or more in another form than one without.
//!
//! An event is printed on a line of its own: `Enter` or `Exit`, its name, line, column, index and codes of the tab there; of linked content
//! `link`, the kind of content, and the numbers of the events before and after it on its chain.
ghost use Rattle.std.specs.Prelude.{◌≡◌, [], Some, None};
ghost use Rattle.markdown_event.specs.declared.event.Kind.TheVariants as Kind;

use crate::answers::Answers;
use crate::case::{Case, ask_in_vain, is_held};
use crate::content::{DOCUMENT_START, push_place};
use markdown_content::util::skip::to_back;
use markdown_content::util::slice::Position;
use markdown_engine_events::event_list::EventSlice;
use markdown_engine_events::events::Events;
use markdown_engine_events::subtokenize::link;
use markdown_engine_events::util::edit_map::{EditMap, Mark};
use markdown_event::event::{Content, Event, Kind, Link, Name, Point};
use std::alloc::{AllocError, Global};

// Appends what a case answers.
pub(crate) fn answer(alloc: Global, case: &Case, out: &mut Answers) {
    let outcome = match case.call {
        "to_back" => return find_names(out),
        "own_enter" => return find_enters(out),
        "steady" => truncate(alloc, case, out),
        "linked" => push_linked(alloc, case, out),
        "edits" => edit(alloc, case, out),
        "apart" => edit_apart(alloc, case, out),
        _ => return out.say(" no such call"),
    };
    out.keep(outcome);
}

// Appends a link.
fn push_link(out: &mut Answers, link: Link) {
    out.say(" link");
    out.show(link.content);
    out.show(link.previous);
    out.show(link.next);
}

// Appends events, a line each.
pub(crate) fn push_events(out: &mut Answers, events: &EventSlice) {
    for event in events.iter() {
        out.say("\n   ");
        out.show(event.kind);
        out.show(event.name);
        push_place(out, event.point);
        if let Some(link) = event.link {
            push_link(out, link);
        }
    }
}

// An event without a link.
fn plain(kind: Kind, name: Name) -> Event
    ensures { result ≡ record { kind = kind; name = name; point = DOCUMENT_START; link = None } }
{
    Event {
        kind,
        name,
        point: DOCUMENT_START,
        link: None,
    }
}

// An event of data without a link, at an index.
fn data(kind: Kind, index: usize) -> Event
    ensures { result ≡ record {
      kind = kind;
      name = Name.Data;
      point = record { line = 1; column = 1; index = index; vs = 0 };
      link = None;
    } }
{
    Event {
        kind,
        name: Name::Data,
        point: Point {
            line: 1,
            column: 1,
            index,
            vs: 0,
        },
        link: None,
    }
}

// An Enter of linked content, at an index.
fn linked(name: Name, previous: Option<usize>, content: Content, index: usize) -> Event
    ensures { result ≡ record {
      kind = Kind.Enter;
      name = name;
      point = record { line = 1; column = 1; index = index; vs = 0 };
      link = Some (record { previous = previous; next = None; content = content });
    } }
{
    Event {
        kind: Kind::Enter,
        name,
        point: Point {
            line: 1,
            column: 1,
            index,
            vs: 0,
        },
        link: Some(Link {
            previous,
            next: None,
            content,
        }),
    }
}

// An emphasis begins or ends at a column.
fn at(column: usize, kind: Kind) -> Event
    ensures { result ≡ record {
      kind = kind;
      name = Name.Emphasis;
      point = record { line = 1; column = column; index = 0; vs = 0 };
      link = None;
    } }
{
    Event {
        kind,
        name: Name::Emphasis,
        point: Point {
            line: 1,
            column,
            index: 0,
            vs: 0,
        },
        link: None,
    }
}

fn find_names(out: &mut Answers) {
    let events = [
        plain(Kind::Enter, Name::Label),
        plain(Kind::Enter, Name::Data),
        plain(Kind::Enter, Name::Resource),
        plain(Kind::Enter, Name::Data),
    ];
    let names = [Name::Label, Name::Resource];
    let nearest = to_back(events.as_slice(), 3, names.as_slice());
    let other = to_back(events.as_slice(), 1, names.as_slice());
    out.show(nearest);
    out.show(other);
}

// An emphasis in an emphasis, and one beside it.
fn find_enters(out: &mut Answers) {
    let events = [
        at(1, Kind::Enter),
        at(2, Kind::Enter),
        at(3, Kind::Exit),
        at(4, Kind::Enter),
        at(5, Kind::Exit),
        at(6, Kind::Exit),
    ];
    let outer = Position::from_exit_event(events.as_slice(), 5);
    let second = Position::from_exit_event(events.as_slice(), 4);
    out.show(outer.start.column);
    out.show(outer.end.column);
    out.say(",");
    out.show(second.start.column);
    out.show(second.end.column);
}

// A chain of three events, the last at an index, which are linked behind a request for room for these bytes.
fn chain(
    alloc: Global,
    events: &mut Events,
    bytes: &[u8],
    index: usize,
) -> Result<Vec<u8>, AllocError>
    requires { events.old ≡ [] }
{
    events.reserve(2)?;
    events.push(linked(Name::Data, None, Content::Text, 0))?;
    events.push(plain(Kind::Exit, Name::Data))?;
    events.push(linked(Name::Data, None, Content::Text, 0))?;
    events.push(plain(Kind::Exit, Name::Data))?;
    events.push(linked(Name::Data, None, Content::Text, index))?;
    let held = ask_in_vain(alloc, bytes);
    link(events, 2);
    link(events, 4);
    Ok(held)
}

// What is left of so many events.
fn push_first(out: &mut Answers, events: &mut Events, count: usize) {
    events.truncate(count);
    out.say("\n    of");
    out.show(count);
    out.say(":");
    push_events(out, &events.as_slice());
}

// The link on to an event goes with it.
fn truncate(alloc: Global, case: &Case, out: &mut Answers) -> Result<(), AllocError> {
    let mut events = Events::new(alloc);
    let bytes = case.text.as_slice();
    let held = chain(alloc, &mut events, bytes, case.number(0))?;
    out.show(is_held(held.as_slice(), bytes));
    push_events(out, &events.as_slice());
    push_first(out, &mut events, 4);
    push_first(out, &mut events, 1);
    Ok(())
}

// An event that comes with its link back; an event of another chain stands between.
fn push_linked(alloc: Global, case: &Case, out: &mut Answers) -> Result<(), AllocError> {
    let mut events = Events::new(alloc);
    events.push(linked(Name::Data, None, Content::Text, 0))?;
    events.push(linked(Name::Data, None, Content::Text, 0))?;
    events.push_linked(linked(Name::Data, Some(0), Content::Text, case.number(0)))?;
    push_events(out, &events.as_slice());
    Ok(())
}

// Two linked leaves, the second at an index, and whitespace between them, which gives way to other events.
fn edit_one_place(
    alloc: Global,
    events: &mut Events,
    map: &mut EditMap,
    index: usize,
) -> Result<(), AllocError>
    requires events { events.old ≡ [] }
    requires map { map.old ≡ [] }
{
    events.push(linked(Name::Data, None, Content::String, 0))?;
    events.push(plain(Kind::Exit, Name::Data))?;
    events.push(plain(Kind::Enter, Name::SpaceOrTab))?;
    events.push(plain(Kind::Exit, Name::SpaceOrTab))?;
    events.push_linked(linked(Name::LineEnding, Some(0), Content::String, index))?;
    events.push(plain(Kind::Exit, Name::LineEnding))?;
    map.add(2, 1, vec![in alloc; plain(Kind::Enter, Name::Emphasis)]?)?;
    map.add(2, 1, vec![in alloc; plain(Kind::Exit, Name::Emphasis)]?)?;
    map.add_before(2, 0, vec![in alloc; plain(Kind::Exit, Name::Strong)]?)?;
    map.add_before(0, 0, vec![in alloc; plain(Kind::Enter, Name::Strong)]?)?;
    map.add_slice(6, 0, &[plain(Kind::Enter, Name::Data)])?;
    map.consume(events)
}

fn edit(alloc: Global, case: &Case, out: &mut Answers) -> Result<(), AllocError> {
    let mut events = Events::new(alloc);
    let mut map = EditMap::new(alloc);
    edit_one_place(alloc, &mut events, &mut map, case.number(0))?;
    out.show(map.is_empty());
    push_events(out, &events.as_slice());
    Ok(())
}

// Four events, the last at an index, of which one gives way to two, the second of them at another index, and behind which one more comes.
fn edit_two_places(
    events: &mut Events,
    map: &mut EditMap,
    last: usize,
    brought: usize,
) -> Result<(), AllocError>
    requires events { events.old ≡ [] }
    requires map { map.old ≡ [] }
{
    events.push(data(Kind::Enter, 0))?;
    events.push(data(Kind::Exit, 0))?;
    events.push(data(Kind::Enter, 0))?;
    events.push(data(Kind::Exit, last))?;
    map.add_slice(1, 1, &[data(Kind::Exit, 1), data(Kind::Enter, brought)])?;
    let begins = Mark {
        kind: Kind::Enter,
        name: Name::Data,
        place: 0,
    };
    let place = Point {
        line: 1,
        column: 1,
        index: 2,
        vs: 0,
    };
    map.add_marked(4, 0, &[begins], [place])?;
    map.consume(events)
}

fn edit_apart(alloc: Global, case: &Case, out: &mut Answers) -> Result<(), AllocError> {
    let mut events = Events::new(alloc);
    let mut map = EditMap::new(alloc);
    edit_two_places(&mut events, &mut map, case.number(0), case.number(1))?;
    out.show(map.is_empty());
    push_events(out, &events.as_slice());
    Ok(())
}
