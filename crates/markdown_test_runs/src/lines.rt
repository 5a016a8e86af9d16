//! How events, leaves and probes are printed.
use crate::answers::Answers;
use crate::row::Asked;
use markdown_inline::event::{Event, Kind, Link, Point};
use markdown_inline::event_list::EventSlice;
use markdown_inline::run::Leaf;

// Prints a number behind a colon, if there is one.
fn print_number(number: Option<usize>, out: &mut Answers) {
    match number {
        Some(number) => out.count(":", number),
        None => out.say(":-"),
    }
}

// Prints a place.
fn print_point(point: Point, out: &mut Answers) {
    out.count("", point.line);
    out.count(":", point.column);
    out.count(":", point.index);
    out.count(":", point.vs);
}

// Prints a link: its content, and the numbers of the events before and after.
fn print_link(link: &Link, out: &mut Answers) {
    out.say(":");
    out.show(link.content);
    print_number(link.previous, out);
    print_number(link.next, out);
}

// Prints an event.
fn print_event(event: &Event, out: &mut Answers) {
    out.say(if event.kind == Kind::Enter {
        " +"
    } else {
        " -"
    });
    out.show(event.name);
    out.say(" ");
    print_point(event.point, out);
    if let Some(link) = &event.link {
        print_link(link, out);
    }
}

// Prints an event that lies in so many others, if they are fewer than the most. The answer is in how many the next lies, at the least.
fn print_within(event: &Event, depth: usize, most: usize, out: &mut Answers) -> usize {
    let inside = match event.kind {
        Kind::Enter => depth,
        Kind::Exit => depth.saturating_sub(1),
    };
    if inside < most {
        print_event(event, out);
    }
    match event.kind {
        Kind::Enter => inside.saturating_add(1),
        Kind::Exit => inside,
    }
}

/// Prints the events that lie in fewer than so many others.
pub(crate) fn print_events(events: &[Event], most: usize, out: &mut Answers) {
    let mut depth = 0usize;
    for event in events {
        depth = print_within(event, depth, most, out);
    }
}

/// Prints the events of a list.
pub(crate) fn print_list(events: &EventSlice, out: &mut Answers) {
    let mut depth = 0usize;
    for event in events.iter() {
        depth = print_within(&event, depth, usize::MAX, out);
    }
}

/// Prints a leaf: its name and places, how many bytes stand there, and how many codes of tabs before and after them.
pub(crate) fn print_leaf(leaf: &Leaf, out: &mut Answers) {
    out.say(" ");
    out.show(leaf.name);
    out.say(" ");
    print_point(leaf.start, out);
    out.say("-");
    print_point(leaf.end, out);
    out.count(" ", leaf.slice.before);
    out.count("+", leaf.slice.bytes.len());
    out.count("+", leaf.slice.after);
}

/// Prints whether the probes are within their bounds, where that is asked, or how many they are.
pub(crate) fn print_probes(probes: u128, asked: Asked, out: &mut Answers) {
    let Some(most) = asked.most else {
        return;
    };
    if asked.least as u128 <= probes && probes <= most as u128 {
        out.say(" within");
    } else {
        out.say(" ");
        out.number(probes);
    }
}
