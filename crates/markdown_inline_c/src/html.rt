//! The HTML of an input as a text.

ghost use Rattle.std.specs.Prelude.{◌≡◌, ◌∷◌, ◌++◌, [], IfErr, IfOk, OnOk, length, option_map, string_bytes};
ghost use Rattle.std.specs.List.{All};
ghost use Rattle.markdown_content.specs.Content.{IsContent};
ghost use Rattle.markdown_content.specs.Tree.{Forest, events_of};
ghost use Rattle.markdown_html.specs.Brought.{brought};
ghost use Rattle.markdown_html.specs.DefinitionView.{defined_of};
ghost use Rattle.markdown_html.specs.View.{page_from};
ghost use Rattle.markdown_inline_c.specs.FlatHtml.{AreKnownForHtml, AreTargets, IsHtmlInput, IsTarget, IsTitleRange, IsWithinLimit, defined_at, defined_by, definitions_in, html_of, html_options_of, is_known_for_html, limit_in, line_ends_of, reserve_nothing, title_of};
ghost use Rattle.markdown_inline_c.specs.FlatInput.{IsLabelRange, range_bytes};
ghost use Rattle.markdown_inline_c.specs.Statuses.{IsFaultUnless, IsHtmlFault, IsTargetsFault};
ghost use Rattle.markdown_inline_c.specs.declared.fault.Fault.TheVariants.{Definition as NoDefinition, References, UnknownOption};
ghost use Rattle.markdown_util.specs.Identifier.{identifier_by};

use crate::check::Pieces;
use crate::fault::Fault;
use crate::flat::{FlatTarget, Input, Range};
use crate::input::{self, text_of};
use markdown_content::configuration::{ParseOptions, has_option};
use markdown_content::parser::{ParseState, Piece};
use markdown_engine_events::event_list::EventSlice;
use markdown_html::footnotes::FootnoteCalls;
use markdown_html::targets::Targets;
use markdown_html::{is_within_limit, to_html};
use markdown_html_model::options::{Definition, HtmlOptions, LineEnds};
use markdown_util::util::normalize_identifier::identifier_by;
use std::alloc::{AllocError, Global};

// The bits that say what HTML may hold, and how it is written.
const HTML_BITS: u32 = 0x63;

// The bits by which each line ending is written as a line feed, and as a carriage return and a line feed.
const LF: u32 = 0x20;

const CRLF: u32 = 0x40;

// The limit by default, where the document is not longer: that of cmark.
const LEAST_DEFAULT_LIMIT: usize = 100_000;

// Whether the reserved words of targets are 0.
fn reserve_nothing(targets: &[FlatTarget]) -> bool
    ensures { result ≡ reserve_nothing targets.now }
{
    targets.iter().all(|target| target.reserved == 0)
}

// Whether each bit says something of HTML, and line endings are not written in two ways.
fn is_known(options: u32) -> bool
    ensures { result ≡ is_known_for_html options }
{
    options & HTML_BITS == options && !(has_option(options, LF) && has_option(options, CRLF))
}

fn line_ends_of(options: u32) -> LineEnds
    ensures { result ≡ line_ends_of options }
{
    if has_option(options, LF) {
        LineEnds::Lf
    } else if has_option(options, CRLF) {
        LineEnds::CrLf
    } else {
        LineEnds::Kept
    }
}

// What the bits let be written, and how.
pub(crate) fn html_options_of(options: u32) -> HtmlOptions
    ensures { result ≡ html_options_of options }
{
    HtmlOptions {
        raw_html: has_option(options, 0x1),
        any_link: has_option(options, 0x2),
        line_ends: line_ends_of(options),
    }
}

// What the bits let be written, if each bit is known, and if the reserved words of targets are 0.
pub(crate) fn known_options(options: u32, targets: &[FlatTarget]) -> Result<HtmlOptions, Fault>
    ensures ok { IfOk result (λ found. AreKnownForHtml options targets.now × (found ≡ html_options_of options)) }
    ensures err { IfErr result (λ fault. (fault ≡ UnknownOption) × (AreKnownForHtml options targets.now → ⊥)) }
{
    if !is_known(options) || !reserve_nothing(targets) {
        return Err(Fault::UnknownOption);
    }
    Ok(html_options_of(options))
}

// How many bytes references may expand to in a document of this length, if there is a limit: 0 is the default, and `usize::MAX` is none.
pub(crate) fn limit_in(limit: usize, len: usize) -> Option<usize>
    ensures { result ≡ limit_in limit len }
{
    match limit {
        0 => Some(len.max(LEAST_DEFAULT_LIMIT)),
        usize::MAX => None,
        _ => Some(limit),
    }
}

// The text at a range of the labels.
fn text_at(alloc: Global, labels: &[u8], range: Range) -> Result<String, Fault>
    ensures ok { IfOk result (λ text. string_bytes text ≡ range_bytes labels.now range) }
    ensures label { IfOk result (λ _. IsLabelRange labels.now range) }
    ensures err { IfErr result (IsFaultUnless NoDefinition (IsLabelRange labels.now range)) }
{
    let Some(text) = text_of(labels, range) else {
        return Err(Fault::Definition);
    };
    Ok(String::from_str(alloc, text)?)
}

// The identifier of the label at a range, in which NUL may be read as U+FFFD.
fn identifier_at(
    alloc: Global,
    labels: &[u8],
    range: Range,
    replaced: bool,
) -> Result<String, Fault>
    ensures ok { IfOk result (λ text. string_bytes text ≡ identifier_by replaced (range_bytes labels.now range)) }
    ensures err { IfErr result (IsFaultUnless NoDefinition (IsLabelRange labels.now range)) }
{
    let Some(text) = text_of(labels, range) else {
        return Err(Fault::Definition);
    };
    Ok(identifier_by(alloc, text, replaced)?)
}

// The title of a definition, if it has one.
fn title_at(alloc: Global, labels: &[u8], target: FlatTarget) -> Result<Option<String>, Fault>
    ensures ok { IfOk result (λ title. option_map string_bytes title ≡ title_of labels.now target) }
    ensures title { IfOk result (λ _. IsTitleRange labels.now target) }
    ensures err { IfErr result (IsFaultUnless NoDefinition (IsTitleRange labels.now target)) }
{
    if target.has_title == 0 {
        return Ok(None);
    }
    Ok(Some(text_at(alloc, labels, target.title)?))
}

// The definition of the label at a range.
fn definition_at(
    alloc: Global,
    labels: &[u8],
    range: Range,
    target: FlatTarget,
    replaced: bool,
) -> Result<Definition, Fault>
    requires { IsLabelRange labels.now range }
    ensures ok { IfOk result (λ found. defined_of found ≡ defined_at replaced labels.now range target) }
    ensures target { IfOk result (λ _. IsTarget labels.now target) }
    ensures err { IfErr result (IsFaultUnless NoDefinition (IsTarget labels.now target)) }
{
    Ok(Definition {
        identifier: identifier_at(alloc, labels, range, replaced)?,
        destination: text_at(alloc, labels, target.destination)?,
        title: title_at(alloc, labels, target)?,
    })
}

// Adds one more definition.
fn push(found: &mut Targets, definition: Definition) -> Result<(), AllocError>
    ensures { OnOk result (found.new ≡ found.old ++ defined_of definition ∷ []) }
{
    found.push(definition)?;
    Ok(())
}

// The definitions of the labels at these ranges, each with its target.
fn definitions_of(
    alloc: Global,
    labels: &[u8],
    ranges: &[Range],
    targets: &[FlatTarget],
    replaced: bool,
) -> Result<Targets, Fault>
    requires labels { All (IsLabelRange labels.now) ranges.now }
    requires one_each { length targets.now ≡ length ranges.now }
    ensures found { IfOk result (λ found. found ≡ defined_by replaced labels.now ranges.now targets.now) }
    ensures targets { IfOk result (λ _. All (IsTarget labels.now) targets.now) }
    ensures err { IfErr result (IsFaultUnless NoDefinition (All (IsTarget labels.now) targets.now)) }
{
    let mut found = Targets::new(alloc);
    for at in 0..targets.len() {
        let definition = definition_at(alloc, labels, ranges[at], targets[at], replaced)?;
        push(&mut found, definition)?;
    }
    Ok(found)
}

// The definitions of the input, each with its target.
pub(crate) fn definitions(
    alloc: Global,
    input: &Input,
    targets: &[FlatTarget],
) -> Result<Targets, Fault>
    requires { All (IsLabelRange input.now.labels.now) input.now.definitions.now }
    ensures found { IfOk result (λ found. found ≡ definitions_in input.now targets.now) }
    ensures targets { IfOk result (λ _. AreTargets input.now targets.now) }
    ensures err { IfErr result (IsTargetsFault input.now targets.now) }
{
    if targets.len() != input.definitions.len() {
        return Err(Fault::Definition);
    }
    let replaced = ParseOptions::of_bits(input.options).rules().nul_is_replaced;
    definitions_of(alloc, input.labels, input.definitions, targets, replaced)
}

// Whether definitions bring no more bytes than the limit to the tree of these events, or that they bring more.
fn check_limit(
    alloc: Global,
    parse_state: &ParseState,
    pieces: &[Piece],
    events: &EventSlice,
    definitions: &Targets,
    options: HtmlOptions,
    limit: Option<usize>,
) -> Result<(), Fault>
    requires content { IsContent parse_state.now.bytes.now pieces.now }
    ensures ok { let page = page_from parse_state.now pieces.now definitions.now options in
        (t : Forest) → events.now ≡ events_of t → IfOk result (λ _. IsWithinLimit limit (brought page t)) }
    ensures err { let page = page_from parse_state.now pieces.now definitions.now options in
        (t : Forest) → events.now ≡ events_of t → IfErr result (IsFaultUnless References (IsWithinLimit limit (brought page t))) }
{
    let Some(limit) = limit else {
        return Ok(());
    };
    let is_within = is_within_limit(
        alloc,
        parse_state,
        pieces,
        events,
        definitions,
        options,
        limit,
    )?;
    if is_within {
        Ok(())
    } else {
        Err(Fault::References)
    }
}

/// The HTML of the tree of the input as a text, or why it is refused. Footnotes are numbered from 1 on.
pub fn html(
    alloc: Global,
    input: &Input,
    targets: &[FlatTarget],
    options: u32,
    limit: usize,
) -> Result<Vec<u8>, Fault>
    ensures html { IfOk result (λ html. html.items ≡ html_of input.now targets.now options) }
    ensures input { IfOk result (λ _. IsHtmlInput input.now targets.now options limit) }
    ensures err { IfErr result (IsHtmlFault input.now targets.now options limit) }
{
    let allowed = known_options(options, targets)?;
    let run = input::text(alloc, input)?;
    let definitions = definitions(alloc, input, targets)?;
    let options = ParseOptions::of_bits(input.options);
    let parse_state = ParseState {
        bytes: input.bytes,
        options: &options,
        definitions: Vec::new(alloc),
        gfm_footnote_definitions: Vec::new(alloc),
    };
    let pieces = Pieces::new(alloc, input.pieces)?;
    let (pieces, events) = (pieces.as_slice(), run.events.as_slice());
    check_limit(
        alloc,
        &parse_state,
        pieces,
        &events,
        &definitions,
        allowed,
        limit_in(limit, input.bytes.len()),
    )?;
    let calls = &mut FootnoteCalls::new(alloc);
    Ok(to_html(
        alloc,
        &parse_state,
        pieces,
        &events,
        &definitions,
        calls,
        allowed,
    )?)
}
