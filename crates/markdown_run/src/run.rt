//! Runs over a content: its elements are read, and then passes make of what was read the events of the content's inline tree (CommonMark 6).
//!
//!     text ::= gfm_task_list_item_check? element*              an `element` is as in the module `elements`
//!     string ::= (character_escape | character_reference | line_ending | data)*
//!
//! A text is read by the loop `elements`, and a string by its states. Both register the passes that their elements ask for; at the end a text
//! registers `Data` and `Text`, and a string `Data` and `String`. Then the passes run, in this order:
//!
//!     Label             puts a group around each start of a label with its end
//!     Attention         pairs runs of markers
//!     Data              merges neighbouring data
//!     Text or String    sets whitespace apart; `Text` email literals too
//!
//! Events: those of the constructs, and `Data` and `LineEnding`; from the passes `Link`, `Image`, `GfmFootnoteCall`, `Emphasis`, `Strong` and
//! `GfmStrikethrough` with what stands in them, `SpaceOrTab`, `HardBreakTrailing` and the events of email literals.
//!
//! Example: the text `a *b*`.
//!
//!     Data 0-2
//!     Emphasis 2-5
//!       EmphasisSequence 2-3
//!       EmphasisText 3-4
//!         Data 3-4
//!       EmphasisSequence 4-5
//!
//! Definition: `text_events` and `string_events` in `markdown_model/specs/InlineTree.antt`.
ghost use Rattle.std.specs.Prelude.{◌≡◌, ◌-◌, false, [], take, drop, map, length, IfOk, IsErr, OnErr, IsTrue};
ghost use Rattle.std.specs.List.{All};
ghost use Rattle.markdown_run.specs.RunConstruct.{IsConstruct, ConstructEnds};
ghost use Rattle.markdown_run.specs.Layer.{ready_of};
ghost use Rattle.markdown_run.specs.RunWithPasses.{MayFinishPlain, MayPass, IsFoundFrom, MayPassText, IsFoundInText, IsFoundBehind, begun_text};
ghost use Rattle.markdown_run.specs.ElementsOfText.{KnowsNothing, forgotten};
ghost use Rattle.markdown_engine_events.specs.EventChains.{chained};
ghost use Rattle.markdown_run_text.specs.TextContent.{TextStartReady, text_passed};
ghost use Rattle.markdown_content.specs.Content.{IsContent, IsTextContent, content_of};
ghost use Rattle.markdown_run_text.specs.RunSetting.{setting_of, text_setting_of};
ghost use Rattle.markdown_attention.specs.AttentionPass.{IsProbed};
ghost use Rattle.markdown_innermost.specs.InnermostEvents.{IsSpanInOrder, covered, innermost, lent};
ghost use Rattle.markdown_model.specs.InlineTree.{label_tree, string_events, text_events};

pub use crate::by_states::text_by_states;
use crate::elements::{end_text, read_text};
use crate::state::Inline;
use crate::text;
pub use markdown_content::content::{is_content, is_text};
use markdown_content::cursor::Cursor;
use markdown_content::parser::ParseState;
pub use markdown_content::parser::Piece;
use markdown_engine::tokenizer::Tokenizer;
use markdown_engine_events::event_list::EventList;
use markdown_engine_events::events::Events;
use markdown_event::event::Event;
use markdown_event::state::StateName;
use markdown_passes::partial_data;
use std::alloc::{AllocError, Global};
use std::mem;

// For how many events a run of a text makes room before it reads. Most paragraphs have no more, and so their list of events is never moved. So many take
// 1,024 bytes, and memory of up to so many is handed out fast by the C library.
const FIRST_ROOM: usize = 64;

/// What a run finds.
#[derive(Debug, Drop)]
pub struct Run {
    /// The events of the content's inline tree, in order.
    pub events: Vec<Event>,
    /// The number of looks at a run of markers as a possible opener of one closer.
    pub probes: u128,
}

/// What a run finds, its events in the list in which the run made them: it takes 16 bytes for each of them, where a `Run` takes 88.
#[derive(Debug, Drop)]
pub struct ListRun {
    /// The events of the content's inline tree, in order.
    pub events: EventList,
    /// The number of looks at a run of markers as a possible opener of one closer.
    pub probes: u128,
}

impl ListRun {
    /// The same with each event as it is.
    ///
    /// The error comes only where memory is refused.
    pub fn into_run(self, alloc: Global) -> Result<Run, AllocError>
        ensures events { IfOk result (λ run. run.events.items ≡ self.events) }
        ensures probes { IfOk result (λ run. run.probes ≡ self.probes) }
    {
        let ListRun { events, probes } = self;
        Ok(Run {
            events: events.into_vec(alloc)?,
            probes,
        })
    }
}

// Takes what is found out of the tokenizer, behind all passes: its events, and the number of looks that pairing took.
fn found_in(tokenizer: &mut Tokenizer) -> ListRun
    ensures events { result.events ≡ chained tokenizer.old.events }
    ensures probes { result.probes ≡ tokenizer.old.tokenize_state.probes }
{
    let events = mem::replace(&mut tokenizer.events, Events::new(tokenizer.alloc));
    ListRun {
        events: events.into_list(),
        probes: tokenizer.tokenize_state.probes,
    }
}

// Runs the passes of a text that has registered none, `Data` and `Text`, and takes what is found out of the tokenizer. They are called at once and not
// registered, so that no list is made for them; and what is known of the content, at which they do not look, need not be forgotten.
//
//     > | plain text
//                   ^
#[inline(never)]
fn finish_plain(tokenizer: &mut Tokenizer) -> Result<ListRun, AllocError>
    requires none { tokenizer.old.resolvers ≡ [] }
    requires passes { MayFinishPlain tokenizer.old }
    ensures { IfOk result (λ run. IsFoundBehind (text_passed (forgotten tokenizer.old)) run) }
{
    partial_data::resolve(tokenizer)?;
    text::resolve(tokenizer)?;
    Ok(found_in(tokenizer))
}

/// Runs the states from this one and then the passes that they registered, and takes what is found out of the tokenizer.
///
///     > | a *b*
///         ^
///
/// From the start of a content `StringStart` is a run of `string`, and `TextStart` one of `text_by_states`. The tokenizer tries nothing yet, and the
/// passes may be called behind the states.
///
/// The error comes only where memory is refused.
pub fn run_through(name: StateName, tokenizer: &mut Tokenizer) -> Result<ListRun, AllocError>
    requires ready { ready_of name tokenizer.old }
    requires alone { tokenizer.old.attempts ≡ [] }
    requires passes { MayPass name tokenizer.old }
    ensures { IfOk result (λ run. IsFoundFrom name tokenizer.old run) }
{
    let _ = tokenizer.run_state::<Inline>(name)?;
    tokenizer.resolve_all::<Inline>()?;
    Ok(found_in(tokenizer))
}

// Makes room for the first events of a text. The tokenizer is as before.
fn make_room(tokenizer: &mut Tokenizer) -> Result<(), AllocError>
    ensures { tokenizer.new ≡ tokenizer.old }
{
    tokenizer.events.reserve(FIRST_ROOM)
}

/// Reads the elements of a text and then runs the passes that it registers, and takes what is found out of the tokenizer.
///
///     > | a *b*
///         ^
///
/// From the start of a content it is a run of `text`. Of the content nothing is known yet but the names of what is defined, where they are given.
///
/// The error comes only where memory is refused.
pub fn text_through(tokenizer: &mut Tokenizer) -> Result<ListRun, AllocError>
    requires ready { TextStartReady tokenizer.old }
    requires alone { tokenizer.old.attempts ≡ [] }
    requires unknown { KnowsNothing tokenizer.old }
    requires passes { MayPassText tokenizer.old }
    ensures { IfOk result (λ run. IsFoundInText tokenizer.old run) }
{
    make_room(tokenizer)?;
    read_text(tokenizer)?;
    if tokenizer.resolvers.is_empty() {
        return finish_plain(tokenizer);
    }
    end_text(tokenizer)?;
    tokenizer.resolve_all::<Inline>()?;
    Ok(found_in(tokenizer))
}

// Reads a text from its start, where a cursor stands, and answers what is found. The cursor is made before, so that the room of the tokenizer is
// filled once.
//
//     > | a *b*
//         ^
fn text_from<'a>(
    alloc: Global,
    parse_state: &'a ParseState<'a>,
    cursor: Cursor<'a>,
    first_of_item: bool,
) -> Result<ListRun, AllocError>
    requires ready { TextStartReady (begun_text alloc parse_state cursor first_of_item) }
    requires unknown { KnowsNothing (begun_text alloc parse_state cursor first_of_item) }
    requires passes { MayPassText (begun_text alloc parse_state cursor first_of_item) }
    ensures { IfOk result (λ run. IsFoundInText (begun_text alloc parse_state.entry cursor.entry first_of_item) run) }
{
    let mut tokenizer = Tokenizer::starting_at(alloc, parse_state, cursor);
    tokenizer
        .tokenize_state
        .document_at_first_paragraph_of_list_item = first_of_item;
    let found = text_through(&mut tokenizer);
    drop(tokenizer);
    found
}

/// As `string`, with the events in the list in which the run made them.
///
/// The pieces have to be a content, which `is_content` answers.
///
/// The error comes only where memory is refused.
pub fn string_list(
    alloc: Global,
    parse_state: &ParseState,
    pieces: &[Piece],
) -> Result<ListRun, AllocError>
    requires { IsContent parse_state.now.bytes.now pieces.now }
    ensures events { IfOk result (λ run. run.events ≡ string_events (setting_of parse_state.now) pieces.now) }
    ensures places { IfOk result (λ run. All (IsSpanInOrder parse_state.now.bytes.now) (innermost run.events)) }
    ensures leaves { let bytes = parse_state.now.bytes.now in
        IfOk result (λ run. covered bytes (map (lent bytes) (innermost run.events)) ≡ content_of bytes pieces.now) }
    ensures probes { IfOk result (λ run. run.probes ≡ 0) }
{
    let mut tokenizer = Tokenizer::new(alloc, parse_state, pieces);
    let found = run_through(StateName::StringStart, &mut tokenizer);
    drop(tokenizer);
    found
}

/// The events of the inline tree of a content that is read as a string: of its escapes, character references and data.
///
/// The pieces have to be a content, which `is_content` answers.
///
/// What `leaves` lends for them from the document's bytes covers the content's codes one after another, each once.
///
/// The error comes only where memory is refused.
pub fn string(alloc: Global, parse_state: &ParseState, pieces: &[Piece]) -> Result<Run, AllocError>
    requires { IsContent parse_state.now.bytes.now pieces.now }
    ensures events { IfOk result (λ run. run.events.items ≡ string_events (setting_of parse_state.now) pieces.now) }
    ensures places { IfOk result (λ run. All (IsSpanInOrder parse_state.now.bytes.now) (innermost run.events.items)) }
    ensures leaves { let bytes = parse_state.now.bytes.now in
        IfOk result (λ run. covered bytes (map (lent bytes) (innermost run.events.items)) ≡ content_of bytes pieces.now) }
    ensures probes { IfOk result (λ run. run.probes ≡ 0) }
{
    string_list(alloc, parse_state, pieces)?.into_run(alloc)
}

/// As `text`, with the events in the list in which the run made them.
///
/// The pieces have to be a text content, which `is_text` answers.
///
/// The error comes only where memory is refused.
pub fn text_list(
    alloc: Global,
    parse_state: &ParseState,
    pieces: &[Piece],
    first_of_item: bool,
) -> Result<ListRun, AllocError>
    requires { IsTextContent parse_state.now.bytes.now pieces.now }
    ensures events { IfOk result (λ run. run.events ≡ text_events (text_setting_of parse_state.now first_of_item) pieces.now) }
    ensures places { IfOk result (λ run. All (IsSpanInOrder parse_state.now.bytes.now) (innermost run.events)) }
    ensures leaves { let bytes = parse_state.now.bytes.now in
        IfOk result (λ run. covered bytes (map (lent bytes) (innermost run.events)) ≡ content_of bytes pieces.now) }
    ensures probes { let s = text_setting_of parse_state.now first_of_item in
        IfOk result (λ run. IsProbed s (label_tree s (content_of s.bytes pieces.now)) run.probes) }
    ensures no_probes { let on = parse_state.now.options.now.constructs in on.attention ≡ false → on.gfm_strikethrough ≡ false
        → IfOk result (λ run. run.probes ≡ 0) }
{
    let cursor = Cursor::new(parse_state.bytes, pieces);
    text_from(alloc, parse_state, cursor, first_of_item)
}

/// The events of the inline tree of a content that is read as text: of the inside of a paragraph, a heading or a table's cell. `first_of_item`
/// says that it is the first paragraph of a list item, where the check of a task may stand.
///
/// The pieces have to be a text content, which `is_text` answers: no line of it is blank, and it does not end with a line ending.
///
/// What `leaves` lends for them from the document's bytes covers the content's codes one after another, each once.
///
/// The number of looks that pairing took at earlier runs of markers (CommonMark 6.2) is at least the number of pairs, and at most each of two
/// bounds by the runs and pairs of the content; it is 0 where no run stands.
///
/// The error comes only where memory is refused.
pub fn text(
    alloc: Global,
    parse_state: &ParseState,
    pieces: &[Piece],
    first_of_item: bool,
) -> Result<Run, AllocError>
    requires { IsTextContent parse_state.now.bytes.now pieces.now }
    ensures events { IfOk result (λ run. run.events.items ≡ text_events (text_setting_of parse_state.now first_of_item) pieces.now) }
    ensures places { IfOk result (λ run. All (IsSpanInOrder parse_state.now.bytes.now) (innermost run.events.items)) }
    ensures leaves { let bytes = parse_state.now.bytes.now in
        IfOk result (λ run. covered bytes (map (lent bytes) (innermost run.events.items)) ≡ content_of bytes pieces.now) }
    ensures probes { let s = text_setting_of parse_state.now first_of_item in
        IfOk result (λ run. IsProbed s (label_tree s (content_of s.bytes pieces.now)) run.probes) }
    ensures no_probes { let on = parse_state.now.options.now.constructs in on.attention ≡ false → on.gfm_strikethrough ≡ false
        → IfOk result (λ run. run.probes ≡ 0) }
{
    text_list(alloc, parse_state, pieces, first_of_item)?.into_run(alloc)
}

// Puts back events, edits, open names and place, as they were before a construct that did not hold. It answers nothing.
//
//     > | a `b
//           ^
fn put_back<'a>(
    tokenizer: &mut Tokenizer<'a>,
    events_len: usize,
    map_len: usize,
    stack_len: usize,
    cursor: Cursor<'a>,
)
    ensures { tokenizer.new ≡ record tokenizer.old {
      events = take events_len tokenizer.old.events;
      map = take map_len tokenizer.old.map;
      stack = drop (length tokenizer.old.stack - stack_len) tokenizer.old.stack;
      cursor = cursor.entry;
    } }
{
    tokenizer.events.truncate(events_len);
    tokenizer.map.truncate(map_len);
    tokenizer.stack.truncate(stack_len);
    tokenizer.cursor = cursor;
}

/// Reads one construct at the tokenizer's place, and answers whether it holds.
///
///     > | a `b`
///           ^
///
/// The construct is named by the state that starts it, one that `IsConstruct` of `specs/RunConstruct` knows:
///
/// - `AutolinkStart` and others that read one tree; `RawTextStart` reads a code span or a math span.
/// - `LabelStartLinkStart`, `LabelStartImageStart` and `GfmLabelStartFootnoteStart`: the start is kept.
/// - `LabelEndStart`: it makes a label of the last start kept, with the resource or reference behind it (CommonMark 6.3 and 6.4, and footnote calls).
/// - `AttentionStart`: a run of markers, past which the pass that pairs runs is registered.
/// - `DestinationStart`, `TitleStart` and `LabelStart`: they take their names from the scratch fields `token_1` to `token_5`, and a destination the
///   depth of its parentheses from `size_b`.
/// - `DataStart`: it takes the bytes at which it stops from the scratch field `markers`, and holds everywhere.
/// - `SpaceOrTabStart` or `SpaceOrTabEolStart`, after the setter that asks for it.
///
/// `ConstructEnds` of `specs/RunConstruct` says what each reads: `tried_reading` of `markdown_run_text` names the definition of one that is tried
/// in a text and reads one tree, `construct_reading` that of others, `start_reading` that of a start of a label, `end_reading` that of an end. These
/// take the options, the code before, whether an escape ends right before, whether this is the content's first place, the document, and the last start
/// kept.
///
/// Where the construct holds, its events are appended, and the tokenizer stands at its end; otherwise it is as before. The scratch fields are
/// as before in either case, but that whitespace puts its own fields to rest, that starts and labels are kept, and that an end that makes no
/// label uses up the last start. The error comes where a growth is refused; then `failed` is true. It comes at once where `failed` is true already,
/// and then nothing is asked of the tokenizer.
///
/// The scratch fields that a construct counts in are at rest before, as they are in a new tokenizer. Where a construct counts codes, or reads
/// whitespace, it asks that fewer are left than a `usize` counts, which holds over every content: it has at most four codes for each byte.
/// `LabelEndStart` also asks that the scratch fields `sequences` and `titles` are right for the content, and `names` for what is defined; in a new
/// tokenizer nothing is known there. A literal asks that the codes of the content are those of its characters, which holds over every content.
/// Whitespace that is to be connected asks for a linked event just before, and with a line ending for a content too; and where whitespace with a line
/// ending has a content, no blank code is at hand. An end of a label asks that the starts kept end between characters, as each does that was read.
pub fn construct(name: StateName, tokenizer: &mut Tokenizer) -> Result<bool, AllocError>
    requires construct { tokenizer.old.failed ≡ false → IsConstruct name tokenizer.old }
    requires alone { tokenizer.old.failed ≡ false → tokenizer.old.attempts ≡ [] }
    ensures reads { IfOk result (λ ok. ConstructEnds name tokenizer.old ok tokenizer.new) }
    ensures failed { IsTrue tokenizer.old.failed → IsErr result }
    ensures err { OnErr result (IsTrue tokenizer.new.failed) }
{
    if tokenizer.failed() {
        return Err(AllocError);
    }
    let events_len = tokenizer.events.len();
    let map_len = tokenizer.map.len();
    let stack_len = tokenizer.stack.len();
    let cursor = tokenizer.cursor.save();
    let held = tokenizer.run_state::<Inline>(name)?;
    if !held {
        put_back(tokenizer, events_len, map_len, stack_len, cursor);
    }
    Ok(held)
}
