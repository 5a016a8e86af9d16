//! Writes the HTML of a paragraph. `words` has the page that `--help` prints.
#![tactic(auto)]

ghost use Rattle.std.specs.Prelude.{◌≡◌, ◌≤◌, [], IfOk, IfSome};
ghost use Rattle.markdown_content.specs.Content.{IsContent, content_of};
ghost use Rattle.markdown_content.specs.Tree.{Forest, events_of};
ghost use Rattle.markdown_html.specs.Brought.{brought};
ghost use Rattle.markdown_html.specs.View.{page_from};
ghost use Rattle.markdown_html_model.specs.Html.{html};
ghost use Rattle.markdown_model.specs.InlineTree.{text_tree};
ghost use Rattle.markdown_run_text.specs.RunSetting.{text_setting_of};

mod fault;
mod words;

use fault::Fault;
use markdown_html::footnotes::FootnoteCalls;
use markdown_html::targets::Targets;
use markdown_html::{is_within_limit, to_html};
use markdown_html_model::options::HtmlOptions;
use markdown_inline::event_list::EventSlice;
use markdown_inline::parser::{ParseState, Piece};
use markdown_inline::run;
use std::alloc::{AllocError, Global};
use std::io::{ErrorKind, Read, Write};
use std::process::ExitCode;
use std::{env, fs};
use words::Asked;

// How many bytes definitions may bring to an input that has no more.
const LEAST_LIMIT: usize = 100_000;

// Whether definitions bring more than the limit, if there is one, to the tree of these events.
fn check_limit(
    alloc: Global,
    parse_state: &ParseState,
    pieces: &[Piece],
    events: &EventSlice,
    definitions: &Targets,
    options: HtmlOptions,
    limit: Option<usize>,
) -> Result<(), Fault>
    requires { IsContent parse_state.now.bytes.now pieces.now }
    ensures { (t : Forest) → events.now ≡ events_of t → IfOk result (λ _. IfSome limit (λ most.
        brought (page_from parse_state.now pieces.now definitions.now options) t ≤ most)) }
{
    let Some(limit) = limit else {
        return Ok(());
    };
    let is_within = is_within_limit(
        alloc,
        parse_state,
        pieces,
        events,
        definitions,
        options,
        limit,
    )?;
    if is_within {
        Ok(())
    } else {
        Err(Fault::References)
    }
}

// The HTML of pieces of a document, to which definitions bring no more than the limit, if there is one.
fn html_of(
    alloc: Global,
    parse_state: &ParseState,
    pieces: &[Piece],
    first_of_item: bool,
    definitions: &Targets,
    options: HtmlOptions,
    limit: Option<usize>,
) -> Result<Vec<u8>, Fault>
    ensures html { let s = text_setting_of parse_state.now first_of_item in let tree = text_tree s (content_of s.bytes pieces.now) in
        IfOk result (λ written. written.items ≡ html (page_from parse_state.now pieces.now definitions.now options) [] tree) }
    ensures limit { let s = text_setting_of parse_state.now first_of_item in let tree = text_tree s (content_of s.bytes pieces.now) in
        IfOk result (λ _. IfSome limit (λ most. brought (page_from parse_state.now pieces.now definitions.now options) tree ≤ most)) }
{
    if !run::is_text(parse_state.bytes, pieces) {
        return Err(Fault::BlankLine);
    }
    let found = run::text_list(alloc, parse_state, pieces, first_of_item)?;
    let events = found.events.as_slice();
    check_limit(
        alloc,
        parse_state,
        pieces,
        &events,
        definitions,
        options,
        limit,
    )?;
    let calls = &mut FootnoteCalls::new(alloc);
    Ok(to_html(
        alloc,
        parse_state,
        pieces,
        &events,
        definitions,
        calls,
        options,
    )?)
}

// The HTML of a paragraph with what the words ask.
fn html(alloc: Global, bytes: &[u8], asked: Asked) -> Result<Vec<u8>, Fault> {
    if str::from_utf8(bytes).is_err() {
        return Err(Fault::NotText);
    }
    let bytes = without_line_ending(bytes);
    let Asked {
        options,
        html,
        definitions,
        footnotes,
        first_of_item,
        is_limited,
        ..
    } = asked;
    let parse_state = ParseState {
        bytes,
        options: &options,
        definitions: words::identifiers_of(alloc, definitions.as_slice())?,
        gfm_footnote_definitions: footnotes,
    };
    let pieces = [Piece {
        start: (0, 0),
        end: (bytes.len(), 0),
    }];
    let definitions = words::targets_of(alloc, definitions)?;
    let limit = if is_limited {
        Some(bytes.len().max(LEAST_LIMIT))
    } else {
        None
    };
    html_of(
        alloc,
        &parse_state,
        &pieces,
        first_of_item,
        &definitions,
        html,
        limit,
    )
}

// The bytes without one final line ending.
fn without_line_ending(bytes: &[u8]) -> &[u8] {
    let bytes = bytes.strip_suffix(b"\n").unwrap_or(bytes);
    bytes.strip_suffix(b"\r").unwrap_or(bytes)
}

// Reads the file, or standard input where none is named.
fn read(rt: &HostRuntime, files: &[String]) -> Result<Vec<u8>, Fault> {
    let mut bytes = Vec::new(rt.alloc());
    match files {
        [] => {
            rt.stdin().read_to_end(&mut bytes).map_err(fault::of_read)?;
            Ok(bytes)
        }
        [file] => fs::read(rt, file.as_str()).map_err(fault::of_read),
        _ => Err(Fault::Usage),
    }
}

fn write(rt: &HostRuntime, bytes: &[u8]) -> Result<(), Fault> {
    let mut out = rt.stdout();
    out.write_all(bytes).map_err(fault::of_write)?;
    out.flush().map_err(fault::of_write)
}

// The words behind the program's name.
fn args(rt: &HostRuntime) -> Result<Vec<String>, Fault> {
    match env::args(rt) {
        Ok(args) => Ok(args.skip(1).collect(rt.alloc())?),
        Err(error) if error.kind() == ErrorKind::OutOfMemory => Err(Fault::OutOfMemory),
        Err(_) => Err(Fault::Words),
    }
}

// Does what the words ask.
fn run(rt: &HostRuntime) -> Result<(), Fault> {
    let words = args(rt)?;
    if let Some(page) = words::page(words.as_slice()) {
        return write(rt, page.as_bytes());
    }
    let (words, files) = words::split(words.as_slice());
    let asked = words::read(rt.alloc(), words)?;
    let bytes = read(rt, files)?;
    let html = html(rt.alloc(), bytes.as_slice(), asked)?;
    write(rt, html.as_slice())?;
    write(rt, b"\n")
}

fn main(rt: HostRuntime) -> ExitCode {
    match run(&rt) {
        Ok(()) => ExitCode::SUCCESS,
        Err(fault) => {
            let _ = eprintln!(rt; "inline_html: {fault}");
            ExitCode::from(fault.status())
        }
    }
}
