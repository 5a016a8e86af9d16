//! Calls functions of the crates below `markdown_run` on cases that it reads from standard input, and prints what each answers.
//!
//! A line of the input is a case: a word for the part, a word for the call, the call's own words, and behind ` | ` its text, if it has one.
//! Each module says which calls it knows, and what is printed for them; `case` says how numbers, pieces and texts are written. A line that
//! begins with `#`, and an empty one, is no case.
//!
//! Printed is the line, and behind ` =>` what was answered. To add a case, add its line to `stdin`, and the line with its answer to `stdout`. Where
//! memory is refused, the answers end there, and the status is 3.
#![tactic(auto)]

mod answers;
mod attempts;
mod case;
mod character;
mod content;
mod cursor;
mod document;
mod emphasis;
mod event_list;
mod events;
mod index;
mod lists;
mod mail;
mod parts;
mod reference;
mod spaces;

use crate::answers::Answers;
use crate::case::Case;
use std::alloc::{AllocError, Global};
use std::io;
use std::process::ExitCode;

// Appends what a case answers whose words are pieces.
fn answer_on_pieces(alloc: Global, part: &str, case: &Case, out: &mut Answers) {
    let Ok(pieces) = case.pieces(alloc) else {
        return out.end();
    };
    if part == "content" {
        content::answer(case, pieces.as_slice(), out);
    } else {
        cursor::answer(alloc, case, pieces.as_slice(), out);
    }
}

// Appends what a case answers, where its part is known.
fn answer(alloc: Global, part: &str, case: &Case, out: &mut Answers) {
    match part {
        "attempts" | "parts" | "spaces" => document::answer(alloc, part, case, out),
        "content" | "cursor" => answer_on_pieces(alloc, part, case, out),
        "character" => character::answer(case, out),
        "emphasis" => emphasis::answer(alloc, case, out),
        "event_list" => event_list::answer(alloc, case, out),
        "events" => events::answer(alloc, case, out),
        "index" => index::answer(alloc, case, out),
        "lists" => lists::answer(alloc, case, out),
        "mail" => mail::answer(alloc, case, out),
        "reference" => reference::answer(alloc, case, out),
        _ => out.say(" no such part"),
    }
}

// Appends the line of a case, with what it answers.
fn answer_line(alloc: Global, line: &str, out: &mut Answers) -> Result<(), AllocError> {
    let (part, rest) = line.split_once(' ').unwrap_or((line, ""));
    let case = Case::read(alloc, rest)?;
    out.say(line);
    out.say(" =>");
    answer(alloc, part, &case, out);
    out.say("\n");
    Ok(())
}

// Appends the answers to all lines.
fn answer_all(alloc: Global, input: &str, out: &mut Answers) -> Result<(), AllocError> {
    for line in input.lines() {
        if !line.is_empty() && !line.starts_with('#') {
            answer_line(alloc, line, out)?;
        }
    }
    Ok(())
}

// Reads the cases, and answers them.
fn read_all(rt: &(impl Input + AllocGlobal), out: &mut Answers) -> io::Result<()> {
    let input = io::read_to_string(rt.alloc(), rt.reader())?;
    answer_all(rt.alloc(), input.as_str(), out)?;
    Ok(())
}

fn main(rt: HostRuntime) -> io::Result<ExitCode> {
    let mut out = Answers::new(rt.alloc());
    let is_whole = read_all(&rt, &mut out).is_ok() && out.is_whole();
    print!(rt; "{}", out.text())?;
    Ok(ExitCode::from(if is_whole { 0 } else { 3 }))
}
