//! The pass of labels, which makes groups of links, images and footnote calls (CommonMark 6.3 and 6.4, and footnote calls).
//!
//!     link ::= '[' text ']' (resource | reference)?
//!     image ::= '![' text ']' (resource | reference)?
//!     footnote_call ::= '[^' text ']'
//!
//! A run leaves the starts and the ends of labels as events, and in scratch fields which belong together. Other starts become data, and so does
//! the caret of a footnote's start that makes a link: it is the first in the text.
//!
//! Events, in place of those of the start and the end:
//!
//!     Link, Image or GfmFootnoteCall
//!       Label
//!         LabelLink                `LabelMarker`, of a link, or
//!         LabelImage               `LabelImageMarker` and `LabelMarker`, of an image, or
//!         GfmFootnoteCallLabel     `LabelMarker` and `GfmFootnoteCallMarker`, of a call
//!         LabelText                what stands between, also where that is nothing
//!         LabelEnd                 `LabelMarker`
//!       Resource or Reference      where one follows
//!
//! Example: in `[a](b)` a link around the whole, with a label around `[a]`.
//!
//! Definition: `labels_of` in `markdown_model/specs/Passes.antt`.
#![tactic(auto)]

ghost use Rattle.std.specs.Prelude.{◌≡◌, ◌+◌, ◌-◌, ◌<◌, ◌++◌, ◌∷◌, [], length, IfOk, OnOk, OnErr, IsTrue, None};
ghost use Rattle.std.specs.List.{All};
ghost use Rattle.markdown_engine.specs.PastTree.{appended_from};
ghost use Rattle.markdown_engine_events.specs.MarkedEvents.{marked};
ghost use Rattle.markdown_event.specs.declared.event.Kind.{Kind};
ghost use Rattle.markdown_event.specs.declared.event.Point.{Point};
ghost use Rattle.markdown_content.specs.declared.label_kind.LabelKind.{LabelKind};
ghost use Rattle.markdown_model.specs.Passes.{label_name};
ghost use Rattle.markdown_label.specs.Brackets.{Brackets, grouped, place_at, opened, ended, closed, as_data, label_edits, labels_edits, loose_edits, loose_edit, replacing, IsLabelWithin, IsStartWithin};
ghost use Rattle.markdown_label.specs.LabelsHandedOver.{HasBrackets, MayGroup, starts_of, unlabelled};

use markdown_engine::tokenizer::{Label, LabelKind, LabelStart, TokenizeState, Tokenizer};
use markdown_engine_events::events::Events;
use markdown_engine_events::subtokenize::Subresult;
use markdown_engine_events::util::edit_map::{EditMap, Mark};
use markdown_event::event::{Kind, Name, Point};
use markdown_event::seq::Stack;
use std::alloc::AllocError;

// Where an event stands.
fn place(events: &Events, index: usize) -> Point
    requires { index < length events.now }
    ensures { result ≡ place_at events.now index }
{
    events.bare_at(index).point
}

// The number after that of an event.
fn behind(events: &Events, index: usize) -> usize
    requires { index < length events.now }
    ensures { result ≡ index + 1 }
{
    let count = events.len();
    if index < count { index + 1 } else { count }
}

fn enter(name: Name, place: usize) -> Mark
    ensures { result ≡ record { kind = Kind.Enter; name = name; place = place } }
{
    Mark {
        kind: Kind::Enter,
        name,
        place,
    }
}

fn exit(name: Name, place: usize) -> Mark
    ensures { result ≡ record { kind = Kind.Exit; name = name; place = place } }
{
    Mark {
        kind: Kind::Exit,
        name,
        place,
    }
}

// The name of a label's group.
fn group_name(kind: LabelKind) -> Name
    ensures { result ≡ label_name kind }
{
    match kind {
        LabelKind::Image => Name::Image,
        LabelKind::GfmFootnote => Name::GfmFootnoteCall,
        LabelKind::Link | LabelKind::GfmUndefinedFootnote => Name::Link,
    }
}

// What comes in place of the events of a link's start: the link's groups, the start, and the text's group. The places are that of the first event and
// that of the third.
fn link_opened() -> [Mark; 7]
    ensures events { (a b : Point) → marked (a ∷ b ∷ []) result ≡ opened LabelKind.Link a b b b }
    ensures within { All (λ m. m.place < 2) result }
{
    [
        enter(Name::Link, 0),
        enter(Name::Label, 0),
        enter(Name::LabelLink, 0),
        enter(Name::LabelMarker, 0),
        exit(Name::LabelMarker, 1),
        exit(Name::LabelLink, 1),
        enter(Name::LabelText, 1),
    ]
}

// The same for a link whose text begins with the caret of a footnote start: the caret is data, the first in the text. Here and below the places are those
// of the first event, the third, the fourth and the last.
fn caret_opened() -> [Mark; 9]
    ensures events { (a b c d : Point) → marked (a ∷ b ∷ c ∷ d ∷ []) result ≡ opened LabelKind.GfmUndefinedFootnote a b c d }
    ensures within { All (λ m. m.place < 4) result }
{
    [
        enter(Name::Link, 0),
        enter(Name::Label, 0),
        enter(Name::LabelLink, 0),
        enter(Name::LabelMarker, 0),
        exit(Name::LabelMarker, 1),
        exit(Name::LabelLink, 1),
        enter(Name::LabelText, 1),
        enter(Name::Data, 2),
        exit(Name::Data, 3),
    ]
}

// The same for an image.
fn image_opened() -> [Mark; 9]
    ensures events { (a b c d : Point) → marked (a ∷ b ∷ c ∷ d ∷ []) result ≡ opened LabelKind.Image a b c d }
    ensures within { All (λ m. m.place < 4) result }
{
    [
        enter(Name::Image, 0),
        enter(Name::Label, 0),
        enter(Name::LabelImage, 0),
        enter(Name::LabelImageMarker, 0),
        exit(Name::LabelImageMarker, 1),
        enter(Name::LabelMarker, 2),
        exit(Name::LabelMarker, 3),
        exit(Name::LabelImage, 3),
        enter(Name::LabelText, 3),
    ]
}

// The same for a footnote call.
fn call_opened() -> [Mark; 9]
    ensures events { (a b c d : Point) → marked (a ∷ b ∷ c ∷ d ∷ []) result ≡ opened LabelKind.GfmFootnote a b c d }
    ensures within { All (λ m. m.place < 4) result }
{
    [
        enter(Name::GfmFootnoteCall, 0),
        enter(Name::Label, 0),
        enter(Name::GfmFootnoteCallLabel, 0),
        enter(Name::LabelMarker, 0),
        exit(Name::LabelMarker, 1),
        enter(Name::GfmFootnoteCallMarker, 2),
        exit(Name::GfmFootnoteCallMarker, 3),
        exit(Name::GfmFootnoteCallLabel, 3),
        enter(Name::LabelText, 3),
    ]
}

// What comes in place of an end's events: the text's group ends, and behind the end the label's. The places are those of the first event and the last.
fn ended() -> [Mark; 6]
    ensures events { (a b : Point) → marked (a ∷ b ∷ []) result ≡ ended a b }
    ensures within { All (λ m. m.place < 2) result }
{
    [
        exit(Name::LabelText, 0),
        enter(Name::LabelEnd, 0),
        enter(Name::LabelMarker, 0),
        exit(Name::LabelMarker, 1),
        exit(Name::LabelEnd, 1),
        exit(Name::Label, 1),
    ]
}

// What comes in place of a start that becomes data. The places are those of the first event and the last.
fn as_data() -> [Mark; 2]
    ensures events { (a b : Point) → marked (a ∷ b ∷ []) result ≡ as_data a b }
    ensures within { All (λ m. m.place < 2) result }
{
    [enter(Name::Data, 0), exit(Name::Data, 1)]
}

// Marks the start of a link. Each kind has a function of its own, so that none makes room for another kind's events.
fn mark_link(label: &Label, events: &Events, map: &mut EditMap) -> Result<(), AllocError>
    requires within { IsLabelWithin (length events.now) label.now }
    requires kind { label.now.kind ≡ LabelKind.Link }
    ensures { let l = label.now in OnOk result (map.new ≡ map.old ++ replacing l.start.0 (l.start.1 + 1 - l.start.0)
        (opened l.kind (place_at events.now l.start.0) (place_at events.now (l.start.0 + 2)) (place_at events.now (l.start.0 + 3)) (place_at events.now l.start.1)) ∷ []) }
{
    let (first, last) = label.start;
    let start = place(events, first);
    let marker_end = place(events, first + 2);
    let count = behind(events, last) - first;
    map.add_marked(first, count, &link_opened(), [start, marker_end])
}

// The same for a link whose text begins with the caret of a footnote start.
fn mark_caret(label: &Label, events: &Events, map: &mut EditMap) -> Result<(), AllocError>
    requires within { IsLabelWithin (length events.now) label.now }
    requires kind { label.now.kind ≡ LabelKind.GfmUndefinedFootnote }
    ensures { let l = label.now in OnOk result (map.new ≡ map.old ++ replacing l.start.0 (l.start.1 + 1 - l.start.0)
        (opened l.kind (place_at events.now l.start.0) (place_at events.now (l.start.0 + 2)) (place_at events.now (l.start.0 + 3)) (place_at events.now l.start.1)) ∷ []) }
{
    let (first, last) = label.start;
    let start = place(events, first);
    let marker_end = place(events, first + 2);
    let second = place(events, first + 3);
    let places = [start, marker_end, second, place(events, last)];
    map.add_marked(first, behind(events, last) - first, &caret_opened(), places)
}

// The same for an image.
fn mark_image(label: &Label, events: &Events, map: &mut EditMap) -> Result<(), AllocError>
    requires within { IsLabelWithin (length events.now) label.now }
    requires kind { label.now.kind ≡ LabelKind.Image }
    ensures { let l = label.now in OnOk result (map.new ≡ map.old ++ replacing l.start.0 (l.start.1 + 1 - l.start.0)
        (opened l.kind (place_at events.now l.start.0) (place_at events.now (l.start.0 + 2)) (place_at events.now (l.start.0 + 3)) (place_at events.now l.start.1)) ∷ []) }
{
    let (first, last) = label.start;
    let start = place(events, first);
    let marker_end = place(events, first + 2);
    let second = place(events, first + 3);
    let places = [start, marker_end, second, place(events, last)];
    map.add_marked(first, behind(events, last) - first, &image_opened(), places)
}

// The same for a footnote call.
fn mark_call(label: &Label, events: &Events, map: &mut EditMap) -> Result<(), AllocError>
    requires within { IsLabelWithin (length events.now) label.now }
    requires kind { label.now.kind ≡ LabelKind.GfmFootnote }
    ensures { let l = label.now in OnOk result (map.new ≡ map.old ++ replacing l.start.0 (l.start.1 + 1 - l.start.0)
        (opened l.kind (place_at events.now l.start.0) (place_at events.now (l.start.0 + 2)) (place_at events.now (l.start.0 + 3)) (place_at events.now l.start.1)) ∷ []) }
{
    let (first, last) = label.start;
    let start = place(events, first);
    let marker_end = place(events, first + 2);
    let second = place(events, first + 3);
    let places = [start, marker_end, second, place(events, last)];
    map.add_marked(first, behind(events, last) - first, &call_opened(), places)
}

// Marks the start of a label.
fn mark_start(label: &Label, events: &Events, map: &mut EditMap) -> Result<(), AllocError>
    requires { IsLabelWithin (length events.now) label.now }
    ensures { let l = label.now in OnOk result (map.new ≡ map.old ++ replacing l.start.0 (l.start.1 + 1 - l.start.0)
        (opened l.kind (place_at events.now l.start.0) (place_at events.now (l.start.0 + 2)) (place_at events.now (l.start.0 + 3)) (place_at events.now l.start.1)) ∷ []) }
{
    match label.kind {
        LabelKind::Link => mark_link(label, events, map),
        LabelKind::Image => mark_image(label, events, map),
        LabelKind::GfmFootnote => mark_call(label, events, map),
        LabelKind::GfmUndefinedFootnote => mark_caret(label, events, map),
    }
}

// Marks the end of a label.
fn mark_end(label: &Label, events: &Events, map: &mut EditMap) -> Result<(), AllocError>
    requires { IsLabelWithin (length events.now) label.now }
    ensures { let l = label.now in OnOk result (map.new
        ≡ map.old ++ replacing l.end.0 4 (ended (place_at events.now l.end.0) (place_at events.now (l.end.0 + 3))) ∷ []) }
{
    let (first, _last) = label.end;
    let places = [place(events, first), place(events, first + 3)];
    map.add_marked(first, 4, &ended(), places)
}

// Marks where a label's group ends.
fn mark_close(label: &Label, events: &Events, map: &mut EditMap) -> Result<(), AllocError>
    requires { IsLabelWithin (length events.now) label.now }
    ensures { let l = label.now in OnOk result (map.new ≡ map.old ++ replacing (l.end.1 + 1) 0 (closed l.kind (place_at events.now l.end.1)) ∷ []) }
{
    let last = label.end.1;
    let comes = [exit(group_name(label.kind), 0)];
    map.add_marked(behind(events, last), 0, &comes, [place(events, last)])
}

// Marks what a label changes.
fn mark_label(label: &Label, events: &Events, map: &mut EditMap) -> Result<(), AllocError>
    requires { IsLabelWithin (length events.now) label.now }
    ensures { OnOk result (map.new ≡ map.old ++ label_edits events.now label.now) }
{
    mark_start(label, events, map)?;
    mark_end(label, events, map)?;
    mark_close(label, events, map)
}

// Marks what the labels change, in the order of their ends.
fn mark_labels(labels: &[Label], events: &Events, map: &mut EditMap) -> Result<(), AllocError>
    requires { All (IsLabelWithin (length events.now)) labels.now }
    ensures { OnOk result (map.new ≡ map.old ++ labels_edits events.now labels.now) }
{
    for label in labels {
        mark_label(label, events, map)?;
    }
    Ok(())
}

// Marks a start that becomes data.
fn mark_loose(start: (usize, usize), events: &Events, map: &mut EditMap) -> Result<(), AllocError>
    requires { IsStartWithin (length events.now) start }
    ensures { OnOk result (map.new ≡ map.old ++ loose_edit events.now start ∷ []) }
{
    let (first, last) = start;
    let places = [place(events, first), place(events, last)];
    map.add_marked(first, behind(events, last) - first, &as_data(), places)
}

// Marks the starts whose ends failed.
fn mark_failed(starts: &[LabelStart], events: &Events, map: &mut EditMap) -> Result<(), AllocError>
    requires { All (IsStartWithin (length events.now)) (starts_of starts.now) }
    ensures { OnOk result (map.new ≡ map.old ++ loose_edits events.now (starts_of starts.now)) }
{
    for start in starts {
        mark_loose(start.start, events, map)?;
    }
    Ok(())
}

// Marks the starts that no end used, the last one first, and takes them off.
fn mark_unused(
    starts: &mut Stack<LabelStart>,
    events: &Events,
    map: &mut EditMap,
) -> Result<(), AllocError>
    requires { All (IsStartWithin (length events.now)) (starts_of starts.old) }
    ensures marked { OnOk result (map.new ≡ map.old ++ loose_edits events.now (starts_of starts.old)) }
    ensures none { OnOk result (starts.new ≡ []) }
{
    while let Some(start) = starts.pop() {
        mark_loose(start.start, events, map)?;
    }
    Ok(())
}

// Makes groups of labels.
fn group(
    state: &mut TokenizeState,
    events: &mut Events,
    map: &mut EditMap,
) -> Result<(), AllocError>
    requires map { map.old ≡ [] }
    requires brackets { (b : Brackets) × HasBrackets b state.old events.old }
    ensures events { (b : Brackets) → HasBrackets b state.old events.old → OnOk result (events.new ≡ appended_from 0 None (grouped b)) }
    ensures state { OnOk result (state.new ≡ unlabelled state.old) }
    ensures map { OnOk result (map.new ≡ []) }
{
    mark_labels(state.labels.as_slice(), events, map)?;
    mark_unused(&mut state.label_starts, events, map)?;
    mark_failed(state.label_starts_loose.as_slice(), events, map)?;
    map.consume(events)?;
    state.labels.truncate(0);
    state.label_starts_loose.truncate(0);
    Ok(())
}

/// Makes links, images and footnote calls of the labels, and data of the other starts.
///
/// The work is that of the events. The error comes where memory is refused; then `failed` is true.
pub fn resolve(tokenizer: &mut Tokenizer) -> Result<Option<Subresult>, AllocError>
    requires { MayGroup tokenizer.old }
    ensures none { IfOk result (λ r. r ≡ None) }
    ensures same { OnOk result (tokenizer.new
        ≡ record tokenizer.old { events = tokenizer.new.events; tokenize_state = unlabelled tokenizer.old.tokenize_state }) }
    ensures grouped { (b : Brackets) → HasBrackets b tokenizer.old.tokenize_state tokenizer.old.events
        → OnOk result (tokenizer.new.events ≡ appended_from 0 None (grouped b)) }
    ensures err { OnErr result (IsTrue tokenizer.new.failed) }
{
    let done = group(
        &mut tokenizer.tokenize_state,
        &mut tokenizer.events,
        &mut tokenizer.map,
    );
    tokenizer.noted(done)?;
    Ok(None)
}
