//! The library in use: five examples, each in a module of its own. The program prints what each of them finds.
//!
//! | Module | What it shows |
//! |---|---|
//! | `events` | the events of a paragraph that stands in a block quote |
//! | `contents` | many paragraphs of one document, which is prepared once |
//! | `html` | the HTML of a paragraph |
//! | `plain` | the text of a paragraph without its markup |
//! | `tree` | a tree over events; a function with a contract that rests on that of the library |
#![tactic(auto)]

mod contents;
mod events;
mod html;
mod plain;
mod tree;

use std::alloc::Global;
use std::io::{self, Write};

// Prints what each example finds, behind its name.
fn print<W: Write>(alloc: Global, out: &mut W) -> io::Result<()> {
    out.write_all(b"events\n")?;
    out.write_all(events::listed(alloc)?.as_bytes())?;
    out.write_all(b"\ncontents\n")?;
    out.write_all(contents::counted(alloc)?.as_bytes())?;
    out.write_all(b"\nhtml\n")?;
    out.write_all(html::written(alloc)?.as_slice())?;
    out.write_all(b"\n\nplain\n")?;
    out.write_all(plain::text(alloc)?.as_slice())?;
    out.write_all(b"\n\ntree\n")?;
    out.write_all(tree::listed(alloc)?.as_bytes())?;
    out.flush()
}

fn main(rt: HostRuntime) -> io::Result<()> {
    print(rt.alloc(), &mut rt.stdout())
}
