//! Goes through the files, prints what is asked of each, and finds the status that the program ends with.

use crate::arguments::{self, Asked, File};
use crate::fault::{self, Fault};
use crate::lines::{Form, Lines};
use crate::links;
use crate::task::{Output, Task};
use markdown_page::document::{Page, to_html_within};
use std::alloc::Global;
use std::fs;
use std::io::{Read, Write};
use std::process::ExitCode;

// What some editors write before a file's text. The library passes over it too, but counts its bytes as columns, so a tab on the first line would be narrower.
const BYTE_ORDER_MARK: &[u8] = b"\xEF\xBB\xBF";

// The HTML of a file.
fn html_of(alloc: Global, bytes: &[u8], task: &Task) -> Result<Vec<u8>, Fault> {
    let text = bytes.strip_prefix(BYTE_ORDER_MARK).unwrap_or(bytes);
    let limit = task.limit(text);
    match to_html_within(
        alloc,
        text,
        task.extensions,
        &task.reading,
        task.html,
        Some(limit),
    )? {
        Page::Html(html) => Ok(html),
        Page::NoDocument => Err(fault::not_text(bytes)),
        Page::BeyondLimit => Err(Fault::Limit(limit)),
    }
}

// Reads a file, or standard input.
fn read(rt: &HostRuntime, name: Option<&str>) -> Result<Vec<u8>, Fault> {
    if let Some(name) = name {
        return fs::read(rt, name).map_err(fault::of_read);
    }
    let mut bytes = Vec::new(rt.alloc());
    match rt.stdin().read_to_end(&mut bytes) {
        Ok(_) => Ok(bytes),
        Err(error) => Err(fault::of_read(error)),
    }
}

fn print(rt: &HostRuntime, bytes: &[u8]) -> Result<(), Fault> {
    rt.stdout().write_all(bytes).map_err(fault::of_write)
}

// Prints what is asked of a file, or of standard input.
fn print_of(rt: &HostRuntime, task: &Task, name: Option<&str>) -> Result<(), Fault> {
    let bytes = read(rt, name)?;
    match task.output {
        Output::Html => print(rt, html_of(rt.alloc(), bytes.as_slice(), task)?.as_slice()),
        Output::Links => {
            let form = Form::of(name, task.is_json);
            let lines = Lines::new(rt.alloc(), rt.stdout(), form);
            links::print(rt.alloc(), bytes.as_slice(), task, lines)
        }
    }
}

// Tells why nothing, or not all, was printed of a file, or of any. Returns the status.
fn tell(rt: &HostRuntime, name: Option<&str>, fault: &Fault) -> u8 {
    if fault.is_told() {
        let _ = match name {
            Some(name) => eprintln!(rt; "mdhtml: {name:?}: {fault}"),
            None => eprintln!(rt; "mdhtml: {fault}"),
        };
    }
    fault.status()
}

// Prints what is asked of a file that is named.
fn print_file(rt: &HostRuntime, task: &Task, file: &File) -> Result<(), Fault> {
    match file {
        File::Named(name) => print_of(rt, task, Some(name.as_str())),
        File::NotText(number) => Err(Fault::NotTextName(*number)),
    }
}

// Goes through the files, past those with a fault of their own, or takes standard input where none is named. Returns the status of the first fault.
fn print_all(rt: &HostRuntime, task: &Task, files: &[File]) -> Result<u8, Fault> {
    if files.is_empty() {
        print_of(rt, task, None)?;
    }
    let mut status = 0;
    for file in files {
        let Err(fault) = print_file(rt, task, file) else {
            continue;
        };
        let found = tell(rt, file.name(), &fault);
        if status == 0 {
            status = found;
        }
        if !fault.is_of_file() {
            break;
        }
    }
    Ok(status)
}

// Does what the arguments ask. Returns the status, where each fault of a file was told.
fn run(rt: &HostRuntime) -> Result<u8, Fault> {
    match arguments::read(rt)? {
        Asked::Page(page) => {
            print(rt, page.as_bytes())?;
            Ok(0)
        }
        Asked::Files(task, files) => print_all(rt, &task, files.as_slice()),
    }
}

/// Runs the program, and returns the status that it ends with: 0, or that of the first fault. Each fault is told on a line of standard error.
pub(crate) fn main(rt: &HostRuntime) -> ExitCode {
    match run(rt) {
        Ok(status) => ExitCode::from(status),
        Err(fault) => ExitCode::from(tell(rt, None, &fault)),
    }
}
