//! The pass over small texts: each run of markers a leaf, all else data. Strikethrough is on.
//!
//!     pass LENGTHS PAIRS BOUND | TEXT   what the pass leaves of the text, called by itself and then by its name, how many runs there are, and
//!                                       whether its looks at earlier runs are as many as the pairs at least and as many as the bound at most.
//!                                       LENGTHS is `first` where the rule of three reads whole lengths, or `last`. An event is printed as
//!                                       `(Data 0 1)`, with the indices where it begins and ends
//!     none LENGTHS PAIRS BOUND | TEXT   whether the pass leaves no pair, and the same of its runs and looks
//!     steady | TEXT                     whether the first two runs, of three markers each, lose one each where one is taken of both, behind a
//!                                       request for memory that may be refused
//!     run | TEXT                        the state that follows the start and each of three steps, each of which finds a run open; the
//!                                       registered passes, and the events
ghost use Rattle.std.specs.Prelude.{◌≡◌, ◌<◌, ◌≤◌, ◌+◌, ◌^◌, length, slice_index_or, IsTrue, IsUtf8, OnOk, true, []};
ghost use Rattle.std.specs.Str.{IsAscii};
ghost use Rattle.markdown_attention.specs.OpenRuns.{IsMarker};
ghost use Rattle.markdown_attention.specs.RunsRead.{is_run};
ghost use Rattle.markdown_content.specs.Content.{IsContent};
ghost use Rattle.markdown_engine.specs.Operations.{IsOpen};
ghost use Rattle.markdown_event.specs.declared.event.Name.TheVariants.{AttentionSequence};
ghost use Rattle.markdown_attention.specs.AttentionPass.{IsSmall};
ghost use Rattle.markdown_test_parts.specs.Fixtures.{HaveRuns};

use crate::answers::Answers;
use crate::case::{Case, ask_in_vain, is_held, whole};
use crate::document;
use markdown_attention::attention::runs::{Runs, Sequence};
use markdown_attention::attention::{inside, resolve, resolve_counted, start};
use markdown_content::content::is_content;
use markdown_engine::tokenizer::Tokenizer;
use markdown_engine_events::event_list::EventSlice;
use markdown_engine_events::events::Events;
use markdown_event::event::{Event, Kind, Name, Point};
use std::alloc::{AllocError, Global};

// What is called of the pass.
#[derive(Clone, Copy)]
enum How {
    Counted,
    ByName,
    // What leaves no pair.
    InVain,
    // One pair, as it takes it.
    Taken,
}

// Appends what a case answers.
pub(crate) fn answer(alloc: Global, case: &Case, out: &mut Answers) {
    match case.call {
        "pass" => {
            document::answer(alloc, "counted", case, out);
            document::answer(alloc, "named", case, out);
        }
        "steady" | "none" | "run" => document::answer(alloc, case.call, case, out),
        _ => out.say(" no such call"),
    }
}

// Makes the call.
pub(crate) fn answer_at(tokenizer: &mut Tokenizer, call: &str, case: &Case, out: &mut Answers)
    requires map { tokenizer.old.map ≡ [] }
    requires events { tokenizer.old.events ≡ [] }
{
    let how = match call {
        "counted" => How::Counted,
        "named" => How::ByName,
        "none" => How::InVain,
        "steady" => How::Taken,
        _ => return pass_run(tokenizer, out),
    };
    let outcome = pass(tokenizer, case, how, out);
    out.keep(outcome);
}

// The place before the byte at an index of a text of one line.
fn place(index: usize) -> Point
    requires { index + 1 < 2 ^ 64 }
    ensures { result ≡ record { line = 1; column = index + 1; index = index; vs = 0 } }
{
    Point {
        line: 1,
        column: index + 1,
        index,
        vs: 0,
    }
}

// Appends the events of a leaf.
fn push_leaf(
    events: &mut Events,
    bytes: &[u8],
    name: Name,
    from: usize,
    to: usize,
) -> Result<(), AllocError>
    requires ascii { IsAscii bytes.now }
    requires forward { from < to }
    requires within { to ≤ length bytes.now }
    requires fits { to + 1 < 2 ^ 64 }
    requires marker { is_run name ≡ true → IsMarker (slice_index_or bytes.now from 0) }
    requires runs { HaveRuns bytes.now events.old }
    ensures { OnOk result (HaveRuns bytes.now events.new) }
{
    events.push(Event {
        kind: Kind::Enter,
        name,
        point: place(from),
        link: None,
    })?;
    events.push(Event {
        kind: Kind::Exit,
        name,
        point: place(to),
        link: None,
    })
}

// Whether a run may repeat this byte.
fn is_marker(byte: u8) -> bool
    ensures { IsTrue result → IsMarker byte }
{
    matches!(byte, b'*' | b'_' | b'~')
}

// Whether a leaf that this byte begins goes on with another byte.
fn goes_on(first: u8, byte: u8) -> bool {
    if is_marker(first) {
        byte == first
    } else {
        !is_marker(byte)
    }
}

// Where the leaf ends that begins at an index.
fn leaf_end(bytes: &[u8], from: usize) -> usize
    requires { from < length bytes.now }
    ensures forward { from < result }
    ensures within { result ≤ length bytes.now }
{
    let mut end = from + 1;
    while end < bytes.len() && goes_on(bytes[from], bytes[end]) {
        end += 1;
    }
    end
}

// Appends the leaves of a text.
fn push_leaves(events: &mut Events, bytes: &[u8]) -> Result<(), AllocError>
    requires ascii { IsAscii bytes.now }
    requires fits { length bytes.now + 1 < 2 ^ 64 }
    requires runs { HaveRuns bytes.now events.old }
    ensures { OnOk result (HaveRuns bytes.now events.new) }
{
    let mut from = 0;
    while from < bytes.len() {
        let end = leaf_end(bytes, from);
        let name = if is_marker(bytes[from]) {
            Name::AttentionSequence
        } else {
            Name::Data
        };
        push_leaf(events, bytes, name, from, end)?;
        from = end;
    }
    Ok(())
}

// Whether the sizes of the runs can be added.
fn are_small(list: &[Sequence]) -> bool
    ensures { IsTrue result → IsSmall list.now }
{
    let mut markers = 0usize;
    for run in list {
        match markers.checked_add(run.remaining) {
            Some(sum) => markers = sum,
            None => return false,
        }
    }
    markers < 1 << 62 && list.len() < 1 << 62
}

// Appends events, each with its name and the index of its place, as `(Data 0 1)`.
fn push_events(out: &mut Answers, events: &EventSlice) {
    for event in events.iter() {
        if event.kind == Kind::Enter {
            out.say("(");
            out.print_name(event.name);
            out.show(event.point.index);
        } else {
            out.show(event.point.index);
            out.say(")");
        }
    }
}

// Whether a pair has this event between its markers.
fn is_text(event: Event) -> bool {
    matches!(
        event.name,
        Name::EmphasisText | Name::StrongText | Name::GfmStrikethroughText
    )
}

// Appends what the pass leaves, or whether it leaves no pair.
fn push_left(out: &mut Answers, how: How, events: &EventSlice) {
    if matches!(how, How::InVain) {
        out.show(!events.iter().any(is_text));
    } else {
        out.say("\n    ");
        push_events(out, events);
    }
}

// Whether the first two runs of three markers, of a text with no other, lose one each where one is taken of both.
fn are_taken(mut runs: Runs) -> bool
    requires first { runs.turn ≡ 0 }
    requires unseen { runs.probes ≡ 0 }
{
    if runs.closer().is_none() || runs.texts() != 0 {
        return false;
    }
    runs.advance();
    let Some(closer) = runs.closer() else {
        return false;
    };
    if runs.look(0).remaining < 1 || closer.remaining < 1 {
        return false;
    }
    runs.take(0, 1);
    let is_counted = runs.probes() == 1;
    let list = runs.finish();
    is_counted && list.len() == 2 && list.iter().all(|run| run.size == 3 && run.remaining == 2)
}

// How many runs there are, and how many looks at them.
#[derive(Clone, Copy)]
struct Count {
    runs: usize,
    probes: u128,
}

// Appends the leaves of the text, calls the pass, and prints what it leaves. Answers the numbers of runs and looks, and none where there are too
// many runs.
fn pair(tokenizer: &mut Tokenizer, how: How, out: &mut Answers) -> Result<Option<Count>, AllocError>
    requires ascii { IsAscii tokenizer.old.parse_state.now.bytes.now }
    requires utf8 { IsUtf8 tokenizer.old.parse_state.now.bytes.now }
    requires fits { length tokenizer.old.parse_state.now.bytes.now + 1 < 2 ^ 64 }
    requires runs { HaveRuns tokenizer.old.parse_state.now.bytes.now tokenizer.old.events }
    requires map { tokenizer.old.map ≡ [] }
{
    let bytes = tokenizer.parse_state.bytes;
    push_leaves(&mut tokenizer.events, bytes)?;
    let runs = Runs::new(tokenizer)?;
    if matches!(how, How::Taken) {
        let held = ask_in_vain(tokenizer.alloc, bytes);
        let are_taken = are_taken(runs);
        out.show(are_taken && is_held(held.as_slice(), bytes));
        return Ok(None);
    }
    let runs = runs.finish();
    if !are_small(&runs) {
        return Ok(None);
    }
    let mut probes = 0;
    if matches!(how, How::ByName) {
        resolve(tokenizer)?;
        probes = tokenizer.tokenize_state.probes;
    } else {
        resolve_counted(tokenizer, &mut probes)?;
    }
    push_left(out, how, &tokenizer.events.as_slice());
    Ok(Some(Count {
        runs: runs.len(),
        probes,
    }))
}

// Appends what the pass leaves of a text. Answers the numbers of runs and looks, and none where the text is not in ASCII, or has too many runs.
fn group(
    tokenizer: &mut Tokenizer,
    how: How,
    out: &mut Answers,
) -> Result<Option<Count>, AllocError>
    requires map { tokenizer.old.map ≡ [] }
    requires events { tokenizer.old.events ≡ [] }
{
    let bytes = tokenizer.parse_state.bytes;
    if !is_content(bytes, &whole(bytes)) || !bytes.is_ascii() {
        return Ok(None);
    }
    pair(tokenizer, how, out)
}

// Appends how many runs there are, and whether there are as many looks as pairs at least, and no more than the bound.
fn push_found(out: &mut Answers, found: Option<Count>, case: &Case) {
    let Some(count) = found else {
        return out.say(" too many");
    };
    let (pairs, bound) = (case.number(1) as u128, case.number(2) as u128);
    out.show(count.runs);
    out.show(pairs <= count.probes && count.probes <= bound);
}

// What the pass leaves of a text, and how many runs and looks there are.
fn pass(
    tokenizer: &mut Tokenizer,
    case: &Case,
    how: How,
    out: &mut Answers,
) -> Result<(), AllocError>
    requires map { tokenizer.old.map ≡ [] }
    requires events { tokenizer.old.events ≡ [] }
{
    let found = group(tokenizer, how, out)?;
    if !matches!(how, How::Taken) {
        push_found(out, found, case);
    }
    Ok(())
}

// Whether the innermost open event is a run.
fn is_in_run(tokenizer: &Tokenizer) -> bool
    ensures { IsTrue result → IsOpen AttentionSequence tokenizer.now }
{
    match tokenizer.stack.top() {
        Some(name) => *name == Name::AttentionSequence,
        None => false,
    }
}

// Calls the states of a run over two markers and a letter.
fn pass_run(tokenizer: &mut Tokenizer, out: &mut Answers) {
    out.show_found(start(tokenizer));
    for _ in 0..3 {
        if !is_in_run(tokenizer) {
            return out.say(" no run");
        }
        out.show_found(inside(tokenizer));
    }
    out.show(tokenizer.resolvers.as_slice());
    out.say(" ");
    push_events(out, &tokenizer.events.as_slice());
}
