//! Reads cases from standard input, each a content and what it is read with, and prints what is found in each, a line a case.
//!
//! A case is one line of fields with tabs between them. The first field says how it is read:
//!
//! - `text` and `string`: a whole run. It is to find the same, moved, in a content of a prepared document with text before and behind it.
//! - `equal` and `count`: a text, of which the run, a run by its states alone, and its passes by name are to leave the same events; and how many they
//!   are. `passes`: the same of a string. `drawn`: as `equal`, of a text that is drawn by a seed.
//! - `counts` and `looks`: a text, how many runs of markers it has and how many pairs are made of them, or how many may open and how many may close.
//! - `steady`: a text, behind whose run memory is asked for once more in vain; then the calls that take none are to answer as ever.
//! - `value`: what the references in the document stand for. `edits`: a list of events that edits alone fill. `rules`: the rules that the options ask
//!   for.
//! - A single construct at the start of the content: by a word of `paths.rt` as `break`, where `span` is of code or of math; `task`, `protocol`,
//!   `www`, `footnote`, `end` (of the label of a link that starts before the content), `destination`, `title`,
//!   `label`; `data`, which stops at `*` and `h`; `space`, at least and at most so many blank codes on one line; `spacing`, blank codes with a line ending behind the first code;
//!   `linked`, the same at the start, linked where they begin with the line ending; `state`, the same by their first state, which puts no event back.
//! - The same by its reader: `wholeescape`, `wholelink`, `wholeattention`, `wholedata`, `wholeend`.
//! - A single call of a state, in the run of a text or a string: `text-call`, `string-call`. The call is the first of the state named `state=NAME`
//!   at the byte `at=INDEX`, given as in a piece, where the scratch fields that are not at rest are those of `fields=FIELDS`. Indexes, the markers
//!   of data, and whether a text is the first of an item are left out there.
//! - `met`: a text, of which each link, image and footnote call is to name the definition that it refers to. Here the row defines labels.
//! - `named`: labels that the row defines, each of which is to name the definition that it refers to.
//! - A run of the program: `program`, of which the document is the input; `slow`, with a reader that gives it a byte at a time, and may have a fault
//!   behind; `broken`, with such a reader and a byte behind the document that is not UTF-8; `narrow`, with a writer that takes so many bytes at
//!   most; `mute`, with such a writer for what goes wrong, where the input is `a`; `wordless`, where the words cannot be read.
//!
//! The others are these, in any order but that pieces, definitions and parts of the document are taken as they come:
//!
//! - `+NAME` and `-NAME` turn a construct or an option on or off; at first CommonMark's constructs are on, as `ParseOptions::default` says. Of a
//!   case, `first_of_item` says that the text is the first of a list item, `leaves` asks for the innermost events, `lists` for the events in a list, and `flushes` says that a narrow
//!   writer hands on what it took.
//! - `definition=TEXT` and `footnote=TEXT` define an identifier.
//! - `word=TEXT` is a word of the program. `fault=KIND` is a kind of error.
//! - `document=TEXT` is appended to the document, as often as `times=N` said before.
//! - `piece=START-END` is a piece of the content, each place a byte, or a byte and the codes of its tab before the place, as `0.2`.
//! - `depth=N` asks for the events that lie in fewer than N others.
//! - `least=N` and `most=N` ask whether the probes are within these bounds, or are the bounds that the reading names.
//!
//! In a text a backslash stands before `n` for LF, `r` for CR, `t` for TAB, `0` for NUL, and before a backslash for itself.
//!
//! A line of answer is the first field, and, of what may refer, its name, the byte where it begins, and a number or `-`; else for each event `+NAME` or `-NAME`, line, column, byte and codes of the tab before the place. The
//! beginning of linked content goes on with its content, and with the numbers of the previous and the next event of its chain. Of a single
//! construct it also says whether it holds, how many starts of labels are open then, at which byte the tokenizer stands, and whether whitespace
//! is still asked for. Of a single call it says what the state answers, at which
//! place it stands behind the call, which events the call adds, then the scratch fields that are not at rest, and the attempts that it opens, the
//! innermost first. A line of answer of the program is its status, how many bytes it writes to each of its writers, and what it writes, with `;`
//! for each line ending.
//!
//! Where memory is refused, the answers end there, and the status is 3.
#![tactic(auto)]

mod answers;
mod calls;
mod constructs;
mod counted;
mod edits;
mod ends;
mod fakes;
mod lines;
mod listed;
mod met;
mod moved;
mod pairs;
mod passes;
mod paths;
mod program;
mod row;
mod run;
mod steady;

use crate::answers::Answers;
use crate::row::Row;
use std::alloc::{AllocError, Global};
use std::io;
use std::process::ExitCode;

// Prints what is found in a case, or that it is not understood.
fn print_answer(alloc: Global, line: &str, out: &mut Answers) -> Result<(), AllocError> {
    let (reading, fields) = line.split_once('\t').unwrap_or((line, ""));
    out.say(reading);
    let mut row = Row::new(alloc);
    if row.read_fields(alloc, fields)? {
        run::print_found(alloc, reading, row, out)?;
    } else {
        out.say(" not understood");
    }
    out.say("\n");
    Ok(())
}

// Prints the answers of all cases.
fn print_answers(alloc: Global, input: &str, out: &mut Answers) -> Result<(), AllocError> {
    for line in input.lines() {
        print_answer(alloc, line, out)?;
    }
    Ok(())
}

// Reads the cases, and prints their answers. There is room for some from the start, so that those can be told apart where memory is refused.
fn print_all(rt: &(impl Input + AllocGlobal), out: &mut Answers) -> io::Result<()> {
    out.reserve(1 << 16);
    let input = io::read_to_string(rt.alloc(), rt.reader())?;
    print_answers(rt.alloc(), input.as_str(), out)?;
    Ok(())
}

fn main(rt: HostRuntime) -> io::Result<ExitCode> {
    let mut out = Answers::new(rt.alloc());
    let is_whole = print_all(&rt, &mut out).is_ok() && out.is_whole();
    print!(rt; "{}", out.text())?;
    Ok(ExitCode::from(if is_whole { 0 } else { 3 }))
}
