//! Email literals and blanks in a document that is one data, and what is lent for innermost events.
//!
//!     find GROUP | DOCUMENT   the innermost events that the pass leaves of the data in a group, each with the indices where it begins and ends.
//!                             GROUP is `Emphasis`, `Image`, `Link`, or `Title`, whose data is linked content
//!     trim GROUP | DOCUMENT   the same of the pass that sets blanks apart: none here, where the data is not the first event
//!     leaves | DOCUMENT       of each innermost event the name, the columns of a tab before it, the indices where it begins and ends, and the
//!                             columns of a tab behind it. The document is a byte, a tab and a byte; an emphasis over it has data, the empty
//!                             text of a label and data, where the text stands behind the second code of the tab
ghost use Rattle.std.specs.Prelude.{◌≡◌, ◌∷◌, [], false, length, IfOk, None};
ghost use Rattle.std.specs.Option.{option_map};
ghost use Rattle.markdown_content.specs.Content.{IsContent};
ghost use Rattle.markdown_engine.specs.Operations.{link_back};
ghost use Rattle.markdown_content.specs.Tree.{event};
ghost use Rattle.markdown_event.specs.declared.event.Kind.{Kind};
ghost use Rattle.markdown_passes.specs.MergedEvents.{is_data};
ghost use Rattle.markdown_passes.specs.TrimmedEvents.{HasPlaces};

use crate::answers::Answers;
use crate::case::Case;
use crate::content::DOCUMENT_START;
use crate::document;
use markdown_content::content::is_content;
use markdown_content::parser::Piece;
use markdown_content::walk::walk_to;
use markdown_engine::tokenizer::Tokenizer;
use markdown_engine_events::event_list::EventSlice;
use markdown_engine_events::events::Events;
use markdown_event::event::{Content, Event, Kind, Link, Name, Point};
use markdown_innermost::leaf::Leaf;
use markdown_innermost::leaves;
use markdown_passes::email::resolve;
use markdown_passes::partial_whitespace::resolve_whitespace;
use std::alloc::{AllocError, Global};

// Appends what a case answers.
pub(crate) fn answer(alloc: Global, case: &Case, out: &mut Answers) {
    match case.call {
        "find" => document::answer(alloc, "mail", case, out),
        "trim" => document::answer(alloc, "trim", case, out),
        "leaves" => lend_leaves(&case.text, out),
        _ => out.say(" no such call"),
    }
}

// An Enter that may carry a link.
fn enter(name: Name, point: Point, content: Option<Content>) -> Event
    ensures { result ≡ record { kind = Kind.Enter; name = name; point = point; link = option_map (link_back None) content } }
{
    let link = match content {
        None => None,
        Some(content) => Some(Link {
            previous: None,
            next: None,
            content,
        }),
    };
    Event {
        kind: Kind::Enter,
        name,
        point,
        link,
    }
}

// An Exit.
fn exit(name: Name, point: Point) -> Event
    ensures { result ≡ event Kind.Exit name point }
{
    Event {
        kind: Kind::Exit,
        name,
        point,
        link: None,
    }
}

// The events of a group around data that is the whole document.
#[tactic(auto, using(markdown_content::proofs::DocumentPlaces::point_start))]
fn data_in(
    alloc: Global,
    bytes: &[u8],
    group: Name,
    content: Option<Content>,
) -> Result<Events, AllocError>
    requires content { IsContent bytes.now ((record { start = (0, 0); end = (length bytes.now, 0) }) ∷ []) }
    requires group { is_data group ≡ false }
    ensures { IfOk result (HasPlaces bytes.now) }
{
    let end = walk_to(bytes, DOCUMENT_START, (bytes.len(), 0));
    let mut events = Events::new(alloc);
    events.push(enter(group, DOCUMENT_START, None))?;
    events.push(enter(Name::Data, DOCUMENT_START, content))?;
    events.push(exit(Name::Data, end))?;
    events.push(exit(group, end))?;
    Ok(events)
}

// Appends the innermost events.
fn push_innermost(out: &mut Answers, events: &Events) {
    for index in 1..events.len() {
        let (enter, exit) = (events.bare_at(index - 1), events.bare_at(index));
        if matches!((enter.kind, exit.kind), (Kind::Enter, Kind::Exit)) {
            out.show(enter.name);
            out.show(enter.point.index);
            out.say("-");
            out.print(exit.point.index);
        }
    }
}

// The group of a name, and the content that is linked in it.
fn group_of(word: &str) -> (Name, Option<Content>)
    ensures { is_data result.0 ≡ false }
{
    match word {
        "Emphasis" => (Name::Emphasis, None),
        "Image" => (Name::Image, None),
        "Link" => (Name::Link, None),
        _ => (Name::ResourceTitleString, Some(Content::String)),
    }
}

// What the pass for email literals, or that for blanks, leaves of data that is the whole document, in such a group.
pub(crate) fn find(tokenizer: &mut Tokenizer, part: &str, word: &str, out: &mut Answers)
    requires { tokenizer.old.map ≡ [] }
{
    let bytes = tokenizer.parse_state.bytes;
    let pieces = [Piece {
        start: (0, 0),
        end: (bytes.len(), 0),
    }];
    if !is_content(bytes, &pieces) {
        return out.say(" no content");
    }
    let (group, content) = group_of(word);
    match data_in(tokenizer.alloc, bytes, group, content) {
        Ok(events) => tokenizer.events = events,
        Err(AllocError) => return out.end(),
    }
    out.keep(match part {
        "trim" => resolve_whitespace(tokenizer, false, true),
        _ => resolve(tokenizer),
    });
    push_innermost(out, &tokenizer.events);
}

// Appends what is lent for an innermost event.
fn push_leaf(out: &mut Answers, leaf: &Leaf) {
    out.show(leaf.name);
    out.show(leaf.slice.before);
    out.show(leaf.start.index);
    out.say("-");
    out.print(leaf.end.index);
    out.show(leaf.slice.after);
    out.say(",");
}

// What is lent for the events of an emphasis, where data is on both sides of the empty text of a label.
#[tactic(auto, using(markdown_content::proofs::DocumentPlaces::point_start))]
fn lend_leaves(bytes: &[u8], out: &mut Answers) {
    let pieces = [Piece {
        start: (0, 0),
        end: (1, 2),
    }];
    let rest = [Piece {
        start: (1, 2),
        end: (3, 0),
    }];
    if !is_content(bytes, &pieces) || !is_content(bytes, &rest) {
        return out.say(" no content");
    }
    let inside = walk_to(bytes, DOCUMENT_START, (1, 2));
    let end = walk_to(bytes, inside, (3, 0));
    let events = [
        enter(Name::Emphasis, DOCUMENT_START, None),
        enter(Name::Data, DOCUMENT_START, None),
        exit(Name::Data, inside),
        enter(Name::LabelText, inside, None),
        exit(Name::LabelText, inside),
        enter(Name::Data, inside, None),
        exit(Name::Data, end),
        exit(Name::Emphasis, end),
    ];
    for leaf in leaves(bytes, &EventSlice::over(&events)) {
        push_leaf(out, &leaf);
    }
}
