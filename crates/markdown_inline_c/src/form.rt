//! The forms in which events cross to C.

ghost use Rattle.std.specs.Prelude.{◌≡◌, ◌≤◌, List, IfOk, IsFalse, IsTrue, None, OnOk, Some, drop, length, map, slice_get, string_bytes};
ghost use Rattle.markdown_content.specs.Content.{IsContent, content_of};
ghost use Rattle.markdown_tree.specs.LabelsView.{given_of};
ghost use Rattle.markdown_tree.specs.Referred.{met};
ghost use Rattle.markdown_event.specs.declared.event.Event.{Event};
ghost use Rattle.markdown_html_model.specs.Resolved.{decoding_of};
ghost use Rattle.markdown_model.specs.Setting.{Setting, within};
ghost use Rattle.markdown_run_text.specs.RunSetting.{setting_of};
ghost use Rattle.markdown_inline_c.specs.FlatEvents.{flat_event, short_event};
ghost use Rattle.markdown_inline_c.specs.References.{character_ahead};
ghost use Rattle.markdown_inline_c.specs.ShortEvents.{AreAllTold, HasNone, LacksCharacters, LacksSign, TellNothing, may_tell, short_events, told, with_told};

use crate::flat::{FlatEvent, ShortEvent};
use crate::found::{Found, Telling};
use crate::reference::character_ahead;
use markdown_content::parser::Piece;
use markdown_document::document::Document;
use markdown_engine_events::event_list::EventSlice;
use markdown_event::event::{Event, Kind, Name};
use markdown_html_model::resolve::{bytes_from, decoding_of};
use markdown_run::run::ListRun;
use markdown_tree::definitions::Definitions;
use markdown_tree::labels::Labels;
use markdown_tree::tree::Tree;
use markdown_util::decoding::Decoding;
use memchr::memchr;
use std::alloc::{AllocError, Global};

/// How the events of a content cross to C.
pub trait Form {
    type Item;

    type Events: Found<Self::Item> + Drop;

    // what it is for: runs with this setting
    ghost IsFor: { Self → Setting → Type 0 };

    // the events of a run with this setting, which has the content that is read, as they cross
    ghost items: { Setting → List Event → List Self.Item };

    /// The form for runs over contents of a document.
    fn over(alloc: Global, document: &Document) -> Result<Self, AllocError>
        ensures { IfOk result (λ form. IsFor form (setting_of document.now)) };

    /// The events of a run over the content of this document that has these pieces, as they cross.
    fn of(
        &self,
        alloc: Global,
        document: &Document,
        pieces: &[Piece],
        run: ListRun,
    ) -> Result<Self::Events, AllocError>
        requires content { IsContent document.now.bytes.now pieces.now }
        requires form { IsFor self.now (setting_of document.now) }
        ensures { IfOk result (λ found.
            Self.Events.items found ≡ items (within (content_of document.now.bytes.now pieces.now) (setting_of document.now)) run.events) };
}

/// Events with all that is known of each by itself.
#[derive(Clone, Copy)]
pub struct Large;

impl Form for Large {
    type Item = FlatEvent;

    type Events = ListRun;

    ghost IsFor = { λ _ _. Unit {0} };

    ghost items = { λ _ events. map flat_event events };

    fn over(_alloc: Global, _document: &Document) -> Result<Large, AllocError> {
        Ok(Large)
    }

    fn of(
        &self,
        _alloc: Global,
        _document: &Document,
        _pieces: &[Piece],
        run: ListRun,
    ) -> Result<ListRun, AllocError> {
        Ok(run)
    }
}

/// Events in 16 bytes each, with what they tell.
#[derive(Drop)]
pub struct Short {
    // The identifiers of all definitions, in the order in which they are given.
    definitions: Definitions,
    footnotes: Definitions,
    // Whether a reference that stands for one character begins somewhere in the document.
    has_characters: bool,
}

// The identifiers in the order in which they are given, each found by a search.
fn listed(alloc: Global, identifiers: &[String]) -> Result<Definitions, AllocError>
    ensures { IfOk result (λ found. found ≡ map string_bytes identifiers.now) }
{
    let mut found = Definitions::new(alloc);
    for identifier in identifiers {
        found.push(identifier.as_str())?;
    }
    Ok(found)
}

// Where the first `&` stands from an index on, or where the bytes end.
fn next_sign(bytes: &[u8], from: usize) -> usize
    requires { from ≤ length bytes.now }
    ensures low { from ≤ result }
    ensures high { result ≤ length bytes.now }
    ensures others { LacksSign bytes.now from result }
{
    match memchr(b'&', bytes_from(bytes, from)) {
        Some(before) => from + before,
        None => bytes.len(),
    }
}

// Whether a reference that stands for one character begins somewhere in these bytes.
#[tactic(auto, using(crate::proofs::Told::past_all))]
fn has_characters(alloc: Global, how: Decoding, bytes: &[u8]) -> Result<bool, AllocError>
    ensures { IfOk result (λ has. IsFalse has → LacksCharacters how bytes.now) }
{
    let mut at = next_sign(bytes, 0);
    while at < bytes.len() {
        match character_ahead(alloc, how, bytes_from(bytes, at))? {
            Some(_) => return Ok(true),
            None => at = next_sign(bytes, at + 1),
        }
    }
    Ok(false)
}

// Whether there are no definitions to which an event may refer.
fn none_defined(labels: &Labels) -> bool
    ensures { IsTrue result → HasNone (given_of labels.now) }
{
    labels.definitions.is_empty() && labels.footnotes.is_empty()
}

// Whether an event may tell something: a link, an image, a footnote call or a character reference begins.
#[inline(always)]
fn may_tell(event: &Event) -> bool
    ensures { result ≡ may_tell event.now }
{
    match (event.kind, event.name) {
        (Kind::Enter, Name::Link | Name::Image | Name::GfmFootnoteCall) => true,
        (Kind::Enter, Name::CharacterReference) => true,
        _ => false,
    }
}

// The number of the first event from a number on that may tell something, or how many events there are.
fn next_telling(events: &EventSlice, from: usize) -> usize
    requires { from ≤ length events.now }
    ensures low { from ≤ result }
    ensures high { result ≤ length events.now }
    ensures others { TellNothing events.now from result }
{
    let mut number = from;
    while number < events.len() && !may_tell(&events.at(number)) {
        number += 1;
    }
    number
}

// Has a tree know all its nodes where a reference begins inside an image: images stand in one another to any depth, and each would be walked again.
// `inside` is where the last image ends that stands in no other.
fn know_inside(
    alloc: Global,
    tree: &mut Tree,
    inside: &mut usize,
    number: usize,
    event: &Event,
) -> Result<(), AllocError>
    ensures { tree.new ≡ tree.old }
{
    if number < *inside {
        return tree.index(alloc);
    }
    if let Name::Image = event.name {
        if let Some(image) = tree.node(number) {
            *inside = image.exit;
        }
    }
    Ok(())
}

// The definition that the event of a number refers to.
#[tactic(auto, using(crate::proofs::MetDefinitions::none_met))]
fn referred(
    alloc: Global,
    labels: &Labels,
    tree: &mut Tree,
    inside: &mut usize,
    number: usize,
    event: &Event,
) -> Result<Option<usize>, AllocError>
    requires { IsContent labels.now.bytes.now labels.now.pieces.now }
    ensures found { IfOk result (λ found. found ≡ met (given_of labels.now) tree.old number) }
    ensures tree { tree.new ≡ tree.old }
{
    if none_defined(labels) {
        return Ok(None);
    }
    know_inside(alloc, tree, inside, number, event)?;
    labels.met(tree, number)
}

// The code point of the character that the reference at an index stands for.
fn character_at(alloc: Global, labels: &Labels, index: usize) -> Result<Option<usize>, AllocError>
    ensures { IfOk result (λ found. found ≡ character_ahead (decoding_of labels.now.options.now) (drop index labels.now.bytes.now)) }
{
    let how = decoding_of(labels.options);
    match character_ahead(alloc, how, bytes_from(labels.bytes, index))? {
        Some(character) => Ok(Some(character as usize)),
        None => Ok(None),
    }
}

// What the event of a number tells.
#[inline(never)]
fn told(
    alloc: Global,
    labels: &Labels,
    tree: &mut Tree,
    inside: &mut usize,
    number: usize,
    event: &Event,
) -> Result<Option<usize>, AllocError>
    requires content { IsContent labels.now.bytes.now labels.now.pieces.now }
    requires event { slice_get tree.old number ≡ Some event.now }
    ensures found { IfOk result (λ found. found ≡ told (given_of labels.now) (decoding_of labels.now.options.now) tree.old number) }
    ensures tree { tree.new ≡ tree.old }
{
    match (event.kind, event.name) {
        (Kind::Enter, Name::CharacterReference) => character_at(alloc, labels, event.point.index),
        _ => referred(alloc, labels, tree, inside, number, event),
    }
}

// Adds an event's number with what it tells, if it tells something.
fn add_told(
    found: &mut Vec<(usize, usize)>,
    number: usize,
    told: Option<usize>,
) -> Result<(), AllocError>
    ensures { OnOk result (found.new.items ≡ with_told number told found.old.items) }
{
    if let Some(told) = told {
        found.push((number, told))?;
    }
    Ok(())
}

// The numbers of all events that tell something, each with what it tells.
fn all_told(
    alloc: Global,
    labels: &Labels,
    events: &EventSlice,
) -> Result<Vec<(usize, usize)>, AllocError>
    requires { IsContent labels.now.bytes.now labels.now.pieces.now }
    ensures { IfOk result (λ found. AreAllTold (told (given_of labels.now) (decoding_of labels.now.options.now) events.now) events.now found.items) }
{
    let mut tree = Tree::over(events);
    let mut found = Vec::new(alloc);
    let mut inside = 0;
    let mut number = next_telling(events, 0);
    while number < events.len() {
        let event = events.at(number);
        let told = told(alloc, labels, &mut tree, &mut inside, number, &event)?;
        add_told(&mut found, number, told)?;
        number = next_telling(events, number + 1);
    }
    Ok(found)
}

// The same, where it is known whether the document has references that stand for one character: without them, and without definitions, no event tells
// anything.
#[tactic(auto, using(crate::proofs::Told::none_told))]
fn told_in(
    alloc: Global,
    labels: &Labels,
    has_characters: bool,
    events: &EventSlice,
) -> Result<Vec<(usize, usize)>, AllocError>
    requires content { IsContent labels.now.bytes.now labels.now.pieces.now }
    requires characters { IsFalse has_characters → LacksCharacters (decoding_of labels.now.options.now) labels.now.bytes.now }
    ensures { IfOk result (λ found. AreAllTold (told (given_of labels.now) (decoding_of labels.now.options.now) events.now) events.now found.items) }
{
    if !has_characters && none_defined(labels) {
        return Ok(Vec::new(alloc));
    }
    all_told(alloc, labels, events)
}

impl Form for Short {
    type Item = ShortEvent;

    type Events = Telling;

    ghost IsFor = { λ form s. (form.definitions ≡ s.definitions) × (form.footnotes ≡ s.footnotes)
        × (IsFalse form.has_characters → LacksCharacters (decoding_of s.options) s.bytes) };

    ghost items = { short_events };

    fn over(alloc: Global, document: &Document) -> Result<Short, AllocError> {
        let parse_state = document.parse_state();
        Ok(Short {
            definitions: listed(alloc, parse_state.definitions.as_slice())?,
            footnotes: listed(alloc, parse_state.gfm_footnote_definitions.as_slice())?,
            has_characters: has_characters(
                alloc,
                decoding_of(parse_state.options),
                parse_state.bytes,
            )?,
        })
    }

    fn of(
        &self,
        alloc: Global,
        document: &Document,
        pieces: &[Piece],
        run: ListRun,
    ) -> Result<Telling, AllocError> {
        let parse_state = document.parse_state();
        let labels = Labels {
            bytes: parse_state.bytes,
            pieces,
            options: parse_state.options,
            definitions: &self.definitions,
            footnotes: &self.footnotes,
        };
        let told = told_in(alloc, &labels, self.has_characters, &run.events.as_slice())?;
        Ok(Telling { run, told })
    }
}
