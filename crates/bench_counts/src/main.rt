//! Counts the events of the contents of a text, to measure what each way of reading costs.
//!
//! The first word says how contents are read. It may be several with commas between; then there is a line for each.
//!
//! | Word | How the contents are read |
//! |---|---|
//! | `run` | as pieces of one document, by `run::is_text` and `run::text_list` |
//! | `documents` | each as a document by itself, by the same calls |
//! | `document` | as contents of one `Document` |
//! | `prepare` | not at all: a `Document` is made alone |
//!
//! A content is what stands between two line endings in a row and two others. All constructs are on. Of the other words `made=N` makes N definitions,
//! `definition 0` and so on; `cut=N` leaves out the first N bytes of each line, as those of a block quote's prefix, so that each line is a piece;
//! `commonmark` asks for CommonMark's rules; `note=NAME` makes a footnote of this identifier; and each other word is the identifier of a definition. The
//! status is 0; 2 where the first word is not known; 5 where memory is refused; 6 where reading or writing fails.
#![tactic(auto)]

mod counts;

use std::alloc::Global;
use std::env;
use std::io::{self, ErrorKind, Read, Write};
use std::process::ExitCode;

// Reads the text, and prints how many events its contents have in each way.
fn run<R: Read, W: Write>(
    alloc: Global,
    words: &[String],
    reader: &mut R,
    out: &mut W,
) -> io::Result<bool> {
    let mut bytes = Vec::new(alloc);
    reader.read_to_end(&mut bytes)?;
    let Some((ways, rest)) = words.split_first() else {
        return Ok(false);
    };
    for way in ways.as_str().split(',') {
        let Some(events) = counts::count(alloc, bytes.as_slice(), way, rest)? else {
            return Ok(false);
        };
        writeln!(out, "{events}")?;
    }
    out.flush()?;
    Ok(true)
}

// The words after the program's name.
fn words_of(rt: &HostRuntime, alloc: Global) -> io::Result<Vec<String>> {
    Ok(env::args(rt)?.skip(1).collect(alloc)?)
}

fn main(rt: HostRuntime) -> ExitCode {
    let alloc = rt.alloc();
    let ended = match words_of(&rt, alloc) {
        Ok(words) => run(alloc, words.as_slice(), &mut rt.stdin(), &mut rt.stdout()),
        Err(error) => Err(error),
    };
    ExitCode::from(match ended {
        Ok(true) => 0,
        Ok(false) => 2,
        Err(error) => match error.kind() {
            ErrorKind::OutOfMemory => 5,
            _ => 6,
        },
    })
}
