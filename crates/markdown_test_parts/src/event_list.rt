//! Lists of events, of which some numbers are large.
//!
//!     list EVENT..     the events, whether the list is empty, whether all ways to read it answer the same, and what is left behind the first. Before it is
//!                      read, room is made for one more event
//!     longer EVENT..   the same of a list that has room for one event from the start
//!
//! An event is written as numbers with `.` between: its line, column, index and codes of a tab, and where it is linked, the number of the event before and
//! of the event after on its chain, of which `-` says that there is none.
use crate::answers::Answers;
use crate::case::{Case, number_of};
use crate::events::push_events;
use markdown_engine_events::event_list::{EventList, EventSlice};
use markdown_event::event::{Content, Event, Kind, Link, Name, Point};
use std::alloc::{AllocError, Global};

// Appends what a case answers.
pub(crate) fn answer(alloc: Global, case: &Case, out: &mut Answers) {
    let list = match case.call {
        "list" => Ok(EventList::new(alloc)),
        "longer" => EventList::with_capacity(alloc, 1),
        _ => return out.say(" no such call"),
    };
    let outcome = match list {
        Ok(list) => read_list(alloc, case, list, out),
        Err(AllocError) => Err(AllocError),
    };
    out.keep(outcome);
}

// The number that is written at this place of a word.
fn part(word: &str, number: usize) -> usize {
    word.split('.').nth(number).map_or(0, number_of)
}

// The number of an event that is written at this place of a word, if there is one.
fn event_number(word: &str, number: usize) -> Option<usize> {
    word.split('.').nth(number)?.parse().ok()
}

// The event that a word says.
fn event_of(word: &str) -> Event {
    let link = word.split('.').nth(4).map(|_| Link {
        previous: event_number(word, 4),
        next: event_number(word, 5),
        content: Content::Text,
    });
    Event {
        kind: Kind::Enter,
        name: Name::Data,
        point: Point {
            line: part(word, 0),
            column: part(word, 1),
            index: part(word, 2),
            vs: part(word, 3),
        },
        link,
    }
}

// Whether an event of a list, by its number, is each of these.
fn are_at(list: &EventList, events: &[Event]) -> bool {
    if list.len() != events.len() {
        return false;
    }
    for index in 0..events.len() {
        if list.at(index) != events[index] {
            return false;
        }
    }
    true
}

// Whether an event that is lent, by its number, is each of these.
fn are_lent(lent: &EventSlice, events: &[Event]) -> bool {
    if lent.len() != events.len() || lent.is_empty() != events.is_empty() {
        return false;
    }
    for index in 0..events.len() {
        if lent.at(index) != events[index] {
            return false;
        }
    }
    true
}

// Whether the first event is the first of these, and those behind it, lent in each way, are these behind the first.
fn are_behind(list: &EventList, events: &[Event]) -> bool {
    let lent = list.as_slice();
    let (Some((first, behind)), Some((event, others))) = (lent.split_first(), events.split_first())
    else {
        return lent.is_empty() && events.is_empty();
    };
    let count = list.len();
    first == *event
        && are_lent(&behind, others)
        && count > 0
        && are_lent(&list.slice(1, count), others)
        && are_lent(&lent.slice(1, count), others)
}

// Appends the events of a list that are lent, and what is left of the list behind the first.
fn read_list(
    alloc: Global,
    case: &Case,
    mut list: EventList,
    out: &mut Answers,
) -> Result<(), AllocError> {
    for word in case.words(0, alloc)? {
        list.push(event_of(word))?;
    }
    list.reserve(1)?;
    let events = list.as_slice().to_vec(alloc)?;
    out.show(list.is_empty());
    out.show(are_at(&list, events.as_slice()));
    out.show(are_lent(&list.as_slice(), events.as_slice()));
    out.show(are_behind(&list, events.as_slice()));
    out.show(are_lent(&EventSlice::over(events.as_slice()), events.as_slice()));
    out.show(list.iter().count() == events.len());
    push_events(out, &list.as_slice());
    list.truncate(1);
    out.say("\n    left:");
    out.show(list.into_vec(alloc)?.as_slice() == events.split_at(events.len().min(1)).0);
    Ok(())
}
