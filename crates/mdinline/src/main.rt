//! Prints the events of the inline tree of a Markdown content that it reads from standard input.
#![tactic(auto)]

use markdown_program::program;
use std::alloc::Global;
use std::process::ExitCode;
use std::{env, io};

// The words after the program's name.
fn words(rt: &HostRuntime, alloc: Global) -> io::Result<Vec<String>> {
    let mut args = env::args(rt)?;
    args.next();
    Ok(args.collect(alloc)?)
}

fn main(rt: HostRuntime) -> ExitCode {
    let alloc = rt.alloc();
    let status = match words(&rt, alloc) {
        Ok(words) => program::run(
            alloc,
            words.as_slice(),
            &mut rt.stdin(),
            &mut rt.stdout(),
            &mut rt.stderr(),
        ),
        Err(error) => program::run_without_words(&error, &mut rt.stderr()),
    };
    ExitCode::from(status)
}
