//! Events that stand in a list as they are.
ghost use Rattle.std.specs.Prelude.{◌≡◌, ◌<◌, length, IsTrue, Some, None, slice_index_or};
ghost use Rattle.markdown_engine_events.specs.EventChains.{changed_at, link_previous, next_link, with_next, with_previous};

use markdown_event::event::{Event, Link};
use markdown_event::seq::Seq;

// The link, with this number of the event after it on its chain, or without one.
#[inline]
fn next_link(link: Option<Link>, next: Option<usize>) -> Option<Link>
    ensures { result ≡ next_link next link }
{
    let link = link?;
    Some(Link {
        previous: link.previous,
        next,
        content: link.content,
    })
}

// The event, its link with this number of the event after it on its chain, or without one. An event without a link stays as it is.
#[inline]
pub(crate) fn with_next(event: Event, next: Option<usize>) -> Event
    ensures { result ≡ with_next next event }
{
    Event {
        kind: event.kind,
        name: event.name,
        point: event.point,
        link: next_link(event.link, next),
    }
}

// The event, its link with this number of the event before it on its chain. An event without a link stays as it is.
fn with_previous(event: Event, previous: usize) -> Event
    ensures { result ≡ with_previous (Some previous) event }
{
    match event.link {
        None => event,
        Some(link) => Event {
            kind: event.kind,
            name: event.name,
            point: event.point,
            link: Some(Link {
                previous: Some(previous),
                next: link.next,
                content: link.content,
            }),
        },
    }
}

// Writes into the link of the event at an index which event comes after it on its chain.
pub(crate) fn set_next(items: &mut Seq<Event>, index: usize, next: Option<usize>)
    requires { index < length items.old }
    ensures { items.new ≡ changed_at (with_next next) index items.old }
{
    let event = with_next(*items.at(index), next);
    items.put(index, event);
}

// Writes into the link of the event at an index which event comes before it on its chain.
pub(crate) fn set_previous(items: &mut Seq<Event>, index: usize, previous: usize)
    requires { index < length items.old }
    ensures { items.new ≡ changed_at (with_previous (Some previous)) index items.old }
{
    let event = with_previous(*items.at(index), previous);
    items.put(index, event);
}

// An event, at an index below the length.
#[inline]
pub(crate) fn event_at(items: &[Event], index: usize) -> Event
    requires { index < length items.now }
    ensures { result ≡ slice_index_or items.now index result }
{
    items[index]
}

// Whether an event names no event before it and none after it.
#[inline]
pub(crate) fn is_alone(event: Event) -> bool
    ensures previous { IsTrue result → link_previous event.link ≡ None }
    ensures next { IsTrue result → next_link None event.link ≡ event.link }
{
    match event.link {
        None => true,
        Some(link) => link.previous.is_none() && link.next.is_none(),
    }
}
