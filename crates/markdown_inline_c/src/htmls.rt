//! The HTML of many contents of one document.

ghost use Rattle.std.specs.Prelude.{◌≡◌, ◌↔◌, [], IfErr, IfOk, IsTrue, MatchOption, OnOk, map};
ghost use Rattle.std.specs.List.{All};
ghost use Rattle.markdown_content.specs.Content.{IsContent};
ghost use Rattle.markdown_content.specs.DefaultOptions.{options_of};
ghost use Rattle.markdown_content.specs.Tree.{Forest, events_of};
ghost use Rattle.markdown_html.specs.Brought.{brought};
ghost use Rattle.markdown_html_model.specs.Html.{calls_behind, html};
ghost use Rattle.markdown_innermost.specs.InnermostEvents.{innermost, IsSpanInOrder};
ghost use Rattle.markdown_inline_c.specs.Calls.{EndHtmls};
ghost use Rattle.markdown_inline_c.specs.FlatHtml.{AreTargets, IsTarget, definitions_in, html_options_of};
ghost use Rattle.markdown_inline_c.specs.FlatHtmls.{AreWritable, IsHtmlFaultAt, brought_to_one, calls_of_one, html_of_each, html_of_one, htmls_of, tree_at};
ghost use Rattle.markdown_inline_c.specs.FlatInput.{IsLabelRange};
ghost use Rattle.markdown_inline_c.specs.FlatTexts.{IsTextAt};
ghost use Rattle.markdown_inline_c.specs.HtmlsState.{IsSpendFault, IsSpent, IsWriteFault, page_of, page_within, setting};
ghost use Rattle.markdown_inline_c.specs.Many.{AreFound, EndsBy};
ghost use Rattle.markdown_inline_c.specs.Refusals.{AreAllKnown, AreTargetsRefused, IsFirstOther, blames_none};
ghost use Rattle.markdown_inline_c.specs.declared.fault.Fault.TheVariants.{Memory, UnknownOption};

use crate::contents::{Contents, check_input, prepared, texts_options};
use crate::fault::Fault;
use crate::flat::{FlatContent, FlatTarget, Input};
use crate::html::{self, definitions, limit_in};
use crate::input::text_of;
use crate::outcome::Outcome;
use crate::refusal::Refusal;
use markdown_content::configuration::ParseOptions;
use markdown_content::parser::Piece;
use markdown_engine_events::event_list::EventSlice;
use markdown_html::footnotes::FootnoteCalls;
use markdown_html::targets::Targets;
use markdown_html::{left_of_limit, to_html};
use markdown_html_model::options::HtmlOptions;
use std::alloc::{AllocError, Global};

// What all contents have in common.
#[derive(Clone, Copy)]
struct Given<'a> {
    contents: Contents<'a>,
    definitions: &'a Targets,
    options: HtmlOptions,
}

// What the contents so far leave to the next one.
#[derive(Drop)]
struct Carried {
    // The footnote calls so far.
    calls: FootnoteCalls,
    // How many bytes definitions may still bring; none where there is no limit.
    left: Option<usize>,
}

// What is left of a limit, if there is one, once definitions bring what they do to the text of these events.
fn spend(
    alloc: Global,
    given: &Given,
    pieces: &[Piece],
    events: &EventSlice,
    left: Option<usize>,
) -> Result<Option<usize>, Fault>
    requires content { IsContent given.now.contents.document.now.bytes.now pieces.now }
    ensures ok { (t : Forest) → events.now ≡ events_of t → IfOk result (λ rest. IsSpent left (brought (page_within given.now pieces.now) t) rest) }
    ensures err { (t : Forest) → events.now ≡ events_of t → IfErr result (IsSpendFault left (brought (page_within given.now pieces.now) t)) }
{
    let Some(limit) = left else {
        return Ok(None);
    };
    let parse_state = given.contents.document.parse_state();
    let (definitions, options) = (given.definitions, given.options);
    match left_of_limit(
        alloc,
        parse_state,
        pieces,
        events,
        definitions,
        options,
        limit,
    )? {
        Some(rest) => Ok(Some(rest)),
        None => Err(Fault::References),
    }
}

impl Carried {
    // What there is before the first content, where definitions may bring no more than the limit.
    fn nothing(alloc: Global, limit: Option<usize>) -> Carried
        ensures calls { result.calls ≡ [] }
        ensures left { result.left ≡ limit }
    {
        Carried {
            calls: FootnoteCalls::new(alloc),
            left: limit,
        }
    }

    // The HTML of the text of these events.
    fn written(
        &mut self,
        alloc: Global,
        given: &Given,
        pieces: &[Piece],
        events: &EventSlice,
    ) -> Result<Vec<u8>, Fault>
        requires content { IsContent given.now.contents.document.now.bytes.now pieces.now }
        requires places { All (IsSpanInOrder given.now.contents.document.now.bytes.now) (innermost events.now) }
        ensures html { (t : Forest) → events.now ≡ events_of t
            → IfOk result (λ written. written.items ≡ html (page_within given.now pieces.now) self.old.calls t) }
        ensures calls { (t : Forest) → events.now ≡ events_of t
            → OnOk result (self.new.calls ≡ calls_behind (page_within given.now pieces.now) self.old.calls t) }
        ensures left { (t : Forest) → events.now ≡ events_of t
            → OnOk result (IsSpent self.old.left (brought (page_within given.now pieces.now) t) self.new.left) }
        ensures err { (t : Forest) → events.now ≡ events_of t → IfErr result (IsSpendFault self.old.left (brought (page_within given.now pieces.now) t)) }
    {
        self.left = spend(alloc, given, pieces, events, self.left)?;
        let parse_state = given.contents.document.parse_state();
        let calls = &mut self.calls;
        let (definitions, options) = (given.definitions, given.options);
        Ok(to_html(
            alloc,
            parse_state,
            pieces,
            events,
            definitions,
            calls,
            options,
        )?)
    }

    // The HTML of a content.
    fn html_of(
        &mut self,
        alloc: Global,
        given: &Given,
        content: FlatContent,
    ) -> Result<Vec<u8>, Fault>
        ensures html { let read = tree_at (setting given.now) given.now.contents.pieces.now content in
            IfOk result (λ written. written.items ≡ html_of_one (page_of given.now) self.old.calls read) }
        ensures calls { let read = tree_at (setting given.now) given.now.contents.pieces.now content in
            OnOk result (self.new.calls ≡ calls_of_one (page_of given.now) self.old.calls read) }
        ensures left { let read = tree_at (setting given.now) given.now.contents.pieces.now content in
            OnOk result (IsSpent self.old.left (brought_to_one (page_of given.now) read) self.new.left) }
        ensures text { OnOk result (IsTextAt given.now.contents.document.now.bytes.now given.now.contents.pieces.now content) }
        ensures err { let pieces = given.now.contents.pieces.now in
            IfErr result (IsWriteFault (page_of given.now) pieces (tree_at (setting given.now) pieces) self.old.left content) }
    {
        let pieces = given.contents.pieces_of(alloc, content)?;
        let run = given.contents.read(alloc, pieces.as_slice(), content)?;
        self.written(alloc, given, pieces.as_slice(), &run.events.as_slice())
    }
}

// Writes contents one after another, as long as definitions bring no more than the limit, and hands out their HTML.
fn write_all(
    alloc: Global,
    given: &Given,
    contents: &[FlatContent],
    limit: Option<usize>,
    html: &mut [u8],
    ends: &mut [usize],
    outcome: &mut Outcome,
) -> Result<(), Refusal>
    requires { (outcome.old.done ≡ 0) × (outcome.old.count ≡ 0) }
    ensures { let p = page_of given.now in let pieces = given.now.contents.pieces.now in let tree = tree_at (setting given.now) pieces in
        AreFound (html_of_each p [] (map tree contents.now)) html.old html.new ends.old ends.new outcome.new
        (λ read. EndsBy (AreWritable p pieces tree limit) (IsHtmlFaultAt p pieces tree limit) contents.now read result) }
{
    let mut carried = Carried::nothing(alloc, limit);
    for at in 0..contents.len() {
        match carried.html_of(alloc, given, contents[at]) {
            Ok(written) => outcome.hand_out(at, &written, html, ends)?,
            Err(fault) => return Err(Refusal::of(fault, at)),
        }
    }
    Ok(())
}

// Whether a target stands among the labels.
fn is_target(labels: &[u8], target: FlatTarget) -> bool
    ensures { IsTrue result ↔ IsTarget labels.now target }
{
    text_of(labels, target.destination).is_some()
        && (target.has_title == 0 || text_of(labels, target.title).is_some())
}

// The number of the first target that does not stand among the labels.
fn first_no_target(labels: &[u8], targets: &[FlatTarget]) -> Option<usize>
    ensures { MatchOption result (All (IsTarget labels.now) targets.now) (λ number. IsFirstOther (IsTarget labels.now) targets.now number) }
{
    for at in 0..targets.len() {
        if !is_target(labels, targets[at]) {
            return Some(at);
        }
    }
    None
}

// Whether each definition has a target, or else which one is to blame.
fn check_targets(input: &Input, targets: &[FlatTarget]) -> Result<(), Refusal>
    ensures ok { IfOk result (λ _. AreTargets input.now targets.now) }
    ensures err { IfErr result (AreTargetsRefused input.now targets.now) }
{
    if targets.len() != input.definitions.len() {
        return Err(Refusal::from(Fault::Definition));
    }
    match first_no_target(input.labels, targets) {
        Some(number) => Err(Refusal::of(Fault::Definition, number)),
        None => Ok(()),
    }
}

// What is asked for, if each bit is known and each reserved word is 0.
fn known_options(
    input: &Input,
    targets: &[FlatTarget],
    contents: &[FlatContent],
    options: u32,
) -> Result<(ParseOptions, HtmlOptions), Refusal>
    ensures known { IfOk result (λ _. AreAllKnown input.now targets.now contents.now options) }
    ensures ok { IfOk result (λ found. (found.0 ≡ options_of input.now.options) × (found.1 ≡ html_options_of options)) }
    ensures err { IfErr result (λ r. (r ≡ blames_none UnknownOption) × (AreAllKnown input.now targets.now contents.now options → ⊥)) }
{
    Ok((
        texts_options(input, contents)?,
        html::known_options(options, targets)?,
    ))
}

// The definitions of the input, each with its target.
fn known_definitions(
    alloc: Global,
    input: &Input,
    targets: &[FlatTarget],
) -> Result<Targets, Refusal>
    requires labels { All (IsLabelRange input.now.labels.now) input.now.definitions.now }
    requires targets { AreTargets input.now targets.now }
    ensures ok { IfOk result (λ found. found ≡ definitions_in input.now targets.now) }
    ensures err { IfErr result (λ r. r ≡ blames_none Memory) }
{
    Ok(definitions(alloc, input, targets)?)
}

/// Finds the HTML of contents of the input as texts, of which definitions bring no more than the limit, and hands it out, or says why it stops.
pub fn htmls(
    alloc: Global,
    input: &Input,
    targets: &[FlatTarget],
    contents: &[FlatContent],
    options: u32,
    limit: usize,
    html: &mut [u8],
    ends: &mut [usize],
    outcome: &mut Outcome,
) -> Result<(), Refusal>
    ensures { AreFound (htmls_of input.now targets.now contents.now options) html.old html.new ends.old ends.new outcome.new
        (EndHtmls input.now targets.now contents.now options limit result) }
{
    *outcome = Outcome::nothing();
    let (asked, allowed) = known_options(input, targets, contents, options)?;
    check_input(input)?;
    check_targets(input, targets)?;
    let document = prepared(
        alloc,
        input.bytes,
        &asked,
        input.labels,
        input.definitions,
        input.footnotes,
    )?;
    let definitions = known_definitions(alloc, input, targets)?;
    let given = Given {
        contents: Contents {
            document: &document,
            pieces: input.pieces,
        },
        definitions: &definitions,
        options: allowed,
    };
    let limit = limit_in(limit, input.bytes.len());
    write_all(alloc, &given, contents, limit, html, ends, outcome)
}
