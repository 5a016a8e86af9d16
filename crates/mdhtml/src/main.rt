//! Renders Markdown files to HTML, or lists their links. `HELP` of `arguments` is the page that `--help` prints.
#![tactic(auto)]

mod arguments;
mod fault;
mod files;
mod lines;
mod links;
mod task;

use std::process::ExitCode;

fn main(rt: HostRuntime) -> ExitCode {
    files::main(&rt)
}
