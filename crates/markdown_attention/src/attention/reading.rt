//! Reading the runs of markers off the events.

ghost use Rattle.std.specs.Prelude.{◌≡◌, ℕ, ◌+◌, ◌<◌, ◌≤◌, ◌^◌, ◌++◌, length, drop, slice_index_or, count_by, false, IfOk, OnOk, IsUtf8, IsCharBoundary, Option, None};
ghost use Rattle.markdown_content.specs.CommonMark.{rules_of};
ghost use Rattle.markdown_attention.specs.RunsRead.{opens_run, opens_text, sequence_at, where_after, outermost, first_run, runs_from, IsRunPlace, FirstHasPlaces, HaveRunPlaces};
ghost use Rattle.markdown_attention.specs.RunSteps.{changes_reading, is_run_or_text};
ghost use Rattle.markdown_attention.specs.PairScan.{Numbered};
ghost use Rattle.markdown_model.specs.Runs.{before_run, after_run, as_read, class_beside, is_beside_marker, is_flanking, may_act};

use crate::attention::runs::Sequence;
use markdown_content::configuration::{ParseOptions, Rules};
use markdown_content::cursor::Cursor;
use markdown_engine_events::events::Events;
use markdown_event::event::{Event, Kind, Name, Point};
use markdown_event::seq::Stack;
use markdown_util::util::char::{self, Kind as CharacterKind};
use std::alloc::{AllocError, Global};

// What the rules read at a character, where they do or do not read U+FFFD at NUL.
fn as_read(nul_is_replaced: bool, beside: Option<char>) -> Option<char>
    ensures { (rules : Rules) → rules.nul_is_replaced ≡ nul_is_replaced → result ≡ as_read rules beside }
{
    match beside {
        Some('\0') if nul_is_replaced => Some('\u{FFFD}'),
        _ => beside,
    }
}

// The class of a character beside a run, by the two rules that say so. It is kept out of line, since most characters are printable ASCII.
#[inline(never)]
#[tactic(auto, unfolding(markdown_model::specs::Runs::class_beside))]
fn class_by_rules(listed_spaces: bool, nul_is_replaced: bool, beside: Option<char>) -> CharacterKind
    ensures { (rules : Rules) → rules.listed_spaces ≡ listed_spaces → rules.nul_is_replaced ≡ nul_is_replaced → result ≡ class_beside rules beside }
{
    let read = as_read(nul_is_replaced, beside);
    if listed_spaces {
        char::classify_listed(read)
    } else {
        char::classify_opt(read)
    }
}

// The class of a printable character of ASCII, whatever the rules are. Letters are looked for first, since most of these characters are letters.
fn class_of_printable(c: char) -> CharacterKind
    requires low { 32 ≤ c }
    requires high { c < 127 }
    ensures { (rules : Rules) → result ≡ class_beside rules (Some c) }
{
    if 'a' <= c && c <= 'z' {
        CharacterKind::Other
    } else if c == ' ' {
        CharacterKind::Whitespace
    } else if c.is_ascii_punctuation() {
        CharacterKind::Punctuation
    } else {
        CharacterKind::Other
    }
}

// The class of a character beside a run.
#[inline(always)]
fn class_beside(rules: Rules, beside: Option<char>) -> CharacterKind
    ensures { result ≡ class_beside rules beside }
{
    match beside {
        Some(c) if ' ' <= c && c <= '~' => class_of_printable(c),
        _ => class_by_rules(rules.listed_spaces, rules.nul_is_replaced, beside),
    }
}

// Whether a run of `*` or `_` may act because another marker stands beside it.
fn is_beside_marker(options: ParseOptions, marker: u8, beside: Option<char>) -> bool
    ensures { result ≡ is_beside_marker options marker beside }
{
    let is_marker = match beside {
        Some('*' | '_') => true,
        Some('~') => options.constructs.gfm_strikethrough,
        _ => false,
    };
    !options.rules().markers_are_punctuation && marker != b'~' && is_marker
}

// Whether a run is left-flanking, by the classes of the characters before and after it, and the character after it; with before and after
// exchanged, right-flanking.
fn is_flanking(
    options: ParseOptions,
    marker: u8,
    before: CharacterKind,
    after: CharacterKind,
    beside: Option<char>,
) -> bool
    ensures { (b : Option ℕ) → before ≡ class_beside (rules_of options) b → after ≡ class_beside (rules_of options) beside
        → result ≡ is_flanking options marker b beside }
{
    let flanks = match after {
        CharacterKind::Other => true,
        CharacterKind::Punctuation => !matches!(before, CharacterKind::Other),
        CharacterKind::Whitespace => false,
    };
    flanks || is_beside_marker(options, marker, beside)
}

// Whether a run may open or close: a run of `_` that is flanking on both sides needs a character beside it that is not of class other.
fn may_act(marker: u8, beside: CharacterKind, here: bool, there: bool) -> bool
    ensures { (options : ParseOptions) (b : Option ℕ) → beside ≡ class_beside (rules_of options) b
        → result ≡ may_act options marker b here there }
{
    here && (marker != b'_' || !matches!(beside, CharacterKind::Other) || !there)
}

// The text of a label: the number of its Enter event, and its number among the texts, which are counted from 0 in the order in which they
// begin.
#[derive(Clone, Copy)]
struct Text {
    event: usize,
    number: usize,
}

// The character before a run that begins at an index. Where the rules ask for the content's, there is none where no code of it stands there.
fn before_run(options: ParseOptions, bytes: &[u8], cursor: &Cursor, index: usize) -> Option<char>
    requires utf8 { IsUtf8 bytes.now }
    requires boundary { IsCharBoundary bytes.now index }
    ensures { result ≡ before_run options bytes.now cursor.now.codes index }
{
    if options.rules().neighbours_in_content && !cursor.has_code_before(index) {
        return None;
    }
    char::before_index(bytes, index)
}

// The character behind a run that ends at an index, alike.
fn after_run(options: ParseOptions, bytes: &[u8], cursor: &Cursor, index: usize) -> Option<char>
    requires utf8 { IsUtf8 bytes.now }
    requires boundary { IsCharBoundary bytes.now index }
    ensures { result ≡ after_run options bytes.now cursor.now.codes index }
{
    if options.rules().neighbours_in_content && !cursor.has_code_behind(index) {
        return None;
    }
    char::after_index(bytes, index)
}

// The run from one place to another.
fn sequence_at(
    options: ParseOptions,
    bytes: &[u8],
    cursor: &Cursor,
    number: usize,
    event: usize,
    container: Option<Text>,
    from: Point,
    to: Point,
) -> Sequence
    requires utf8 { IsUtf8 bytes.now }
    requires place { IsRunPlace bytes.now from to }
    ensures { result ≡ sequence_at options bytes.now cursor.now.codes number event container from to }
{
    let marker = bytes[from.index];
    let before = before_run(options, bytes, cursor, from.index);
    let after = after_run(options, bytes, cursor, to.index);
    let rules = options.rules();
    let kind_before = class_beside(rules, before);
    let kind_after = class_beside(rules, after);
    let left = is_flanking(options, marker, kind_before, kind_after, after);
    let right = is_flanking(options, marker, kind_after, kind_before, before);
    let size = to.index - from.index;
    Sequence {
        number,
        event,
        container: container.map(|text| text.event),
        text: container.map(|text| text.number),
        marker,
        size,
        remaining: size,
        may_open: may_act(marker, kind_before, left, right),
        may_close: may_act(marker, kind_after, right, left),
    }
}

// In which container the next event stands, in which the containers around it stand, the innermost on top, and how many texts of labels
// have begun.
#[derive(Drop)]
struct Where {
    container: Option<Text>,
    outer: Stack<Option<Text>>,
    texts: usize,
}

impl Where {
    // Passes an event.
    fn pass(&mut self, index: usize, event: Event) -> Result<(), AllocError>
        requires { self.old.texts + 1 < 2 ^ 64 }
        ensures { OnOk result (self.new ≡ where_after index event self.old) }
    {
        match (event.name, event.kind) {
            (Name::LabelText, Kind::Enter) => {
                self.outer.push(self.container)?;
                self.container = Some(Text {
                    event: index,
                    number: self.texts,
                });
                self.texts += 1;
            }
            (Name::LabelText, Kind::Exit) => self.container = self.outer.pop().flatten(),
            _ => {}
        }
        Ok(())
    }
}

// Whether the event is the Enter of a run.
fn opens_run(event: Event) -> bool
    ensures { result ≡ opens_run event }
{
    matches!(event.kind, Kind::Enter) && matches!(event.name, Name::AttentionSequence)
}

// Adds the run that an event begins, or passes the event where it begins none.
fn read_event(
    bytes: &[u8],
    options: ParseOptions,
    cursor: &Cursor,
    events: &Events,
    index: usize,
    place: &mut Where,
    list: &mut Vec<Sequence>,
) -> Result<(), AllocError>
    requires utf8 { IsUtf8 bytes.now }
    requires within { index < length events.now }
    requires counted { length events.now < 2 ^ 64 }
    requires places { FirstHasPlaces bytes.now (drop index events.now) }
    requires few { place.old.texts + 1 < 2 ^ 64 }
    ensures list { OnOk result (list.new.items
        ≡ list.old.items ++ first_run options bytes.now cursor.now.codes (length list.old.items) index place.old.container (drop index events.now)) }
    ensures place { (e : Event) → e ≡ slice_index_or events.now index e → OnOk result (place.new ≡ where_after index e place.old) }
{
    let enter = events.bare_at(index);
    if opens_run(enter) {
        let exit = events.bare_at(index + 1);
        let number = list.len();
        let run = sequence_at(
            options,
            bytes,
            cursor,
            number,
            index,
            place.container,
            enter.point,
            exit.point,
        );
        list.push(run)?;
        return Ok(());
    }
    place.pass(index, enter)
}

// The number of the name of a label's text. The name of a run has the number 0, and no other name has a multiple of this one.
const STEP: u8 = Name::LabelText as u8;

// Whether an event has the name of a run or of the text of a label. Most have another name, and one test of its number passes them, which is faster
// than a test for each name.
#[inline(always)]
fn is_run_or_text(name: Name) -> bool
    ensures { result ≡ is_run_or_text name }
{
    name as u8 % STEP == 0
}

// Whether the event changes what is read: the Enter of a run, or one of the text of a label.
#[inline(always)]
fn changes_reading(event: &Event) -> bool
    ensures { result ≡ changes_reading event.now }
{
    let number = event.name as u8;
    number % STEP == 0 && (number > 0 || matches!(event.kind, Kind::Enter))
}

// How many events are looked at with no other look between.
const EIGHT: usize = 8;

// How many of the eight events from this index on come before the first that has the name of a run or of the text of a label: none of these changes
// what is read.
#[inline(always)]
fn others_among_eight(events: &Events, at: usize) -> usize
    requires within { at + EIGHT ≤ length events.now }
    requires counted { length events.now < 2 ^ 64 }
    ensures within { result ≤ EIGHT }
    ensures none { (i : ℕ) (e : Event) → at ≤ i → i < at + result → changes_reading (slice_index_or events.now i e) ≡ false }
{
    for count in 0..EIGHT {
        if is_run_or_text(events.bare_at(at + count).name) {
            return count;
        }
    }
    EIGHT
}

// The number of the event behind one that does not change what is read, and of the event itself where it does, or where there is none.
#[inline(always)]
fn past_one(events: &Events, at: usize) -> usize
    requires { at ≤ length events.now }
    ensures from { at ≤ result }
    ensures within { result ≤ length events.now }
    ensures none { (i : ℕ) (e : Event) → at ≤ i → i < result → changes_reading (slice_index_or events.now i e) ≡ false }
{
    if at < events.len() && !changes_reading(&events.bare_at(at)) {
        at + 1
    } else {
        at
    }
}

// The number of the first event from an event on that changes what is read, or of one before it: where fewer than eight are left, or at the Exit of a
// run. Behind an Enter of a run that stands at once, so that one look passes it.
#[inline(always)]
fn next_change(events: &Events, from: usize) -> usize
    requires { from ≤ length events.now }
    ensures from { from ≤ result }
    ensures within { result ≤ length events.now }
    ensures none { (i : ℕ) (e : Event) → from ≤ i → i < result → changes_reading (slice_index_or events.now i e) ≡ false }
{
    let count = events.len();
    let mut at = past_one(events, from);
    while count - at >= EIGHT {
        let others = others_among_eight(events, at);
        at += others;
        if others < EIGHT {
            return at;
        }
    }
    at
}

/// The runs of the events, in order, and how many texts of labels there are.
#[derive(Drop)]
pub(crate) struct Found {
    pub(crate) list: Vec<Sequence>,
    pub(crate) texts: usize,
}

/// Reads the runs off the events of a content.
pub(crate) fn read(
    alloc: Global,
    bytes: &[u8],
    options: ParseOptions,
    cursor: &Cursor,
    events: &Events,
) -> Result<Found, AllocError>
    requires utf8 { IsUtf8 bytes.now }
    requires places { HaveRunPlaces bytes.now events.now }
    ensures is { IfOk result (λ found. found.list.items ≡ runs_from options bytes.now cursor.now.codes 0 0 outermost events.now) }
    ensures numbered { IfOk result (λ found. Numbered found.list.items) }
    ensures texts { IfOk result (λ found. found.texts ≡ count_by opens_text events.now) }
{
    let mut list = Vec::new(alloc);
    let mut place = Where {
        container: None,
        outer: Stack::new(alloc),
        texts: 0,
    };
    let count = events.len();
    let mut index = next_change(events, 0);
    while index < count {
        read_event(bytes, options, cursor, events, index, &mut place, &mut list)?;
        index = next_change(events, index + 1);
    }
    Ok(Found {
        list,
        texts: place.texts,
    })
}
