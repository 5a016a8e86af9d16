//! The arguments after the program's name.

use crate::fault::Fault;
use crate::task::{Output, Task};
use std::alloc::{AllocError, Global};
use std::env::{Env, FillError};

/// The page that `--help` prints.
const HELP: &str =
    "mdhtml renders Markdown files to HTML, following CommonMark 0.31.2, or lists their links.

    mdhtml [OPTION].. [--] FILE..   each file is a document of its own
    mdhtml [OPTION].. < FILE
    mdhtml --help | --version       this page, or the version

No text becomes markup except by the rules of Markdown, and no link leads to a script, unless an
option says otherwise.

What is printed
    --to=html     HTML; this is the default
    --to=links    a line for each link or image of a named file, FILE:LINE:COLUMN: DESTINATION;
                  of standard input line, column, kind, destination and title, separated by tabs
    --json        with --to=links: a JSON object for each link, one a line, with the members file
                  (if it is named), line, column, kind, destination and title

Constructs beside CommonMark's
    --strikethrough  ~~a~~ and ~a~ are struck through
    --bare-urls      URLs and email addresses are links without < and > too
    --tasks          [ ] and [x] that begin a list item are checkboxes
    --math           $a$ and $$a$$ are math, and so are lines between two lines of $$
    --front-matter   lines between two lines of --- or of +++ at the start of a file are left out

HTML
    --raw         HTML of the file stays HTML; otherwise it is escaped
    --any-link    links may have any destination; otherwise only relative ones and those of
                  listed schemes
    --lf, --crlf  each line ending is written as LF, as CR LF; otherwise it stays as in the file

Limits
    --no-limit    references may repeat any number of bytes of link definitions; otherwise 100,000,
                  or as many as the file has if it is longer. HTML may have up to 9 times as many

A link's kind is link, image, autolink, or literal for a bare URL. Lines and columns count from 1.
A column counts bytes, and a tab as all columns up to its tab stop. A control character is printed
as \\u and four hexadecimal digits.

Statuses, of the first error; a line on standard error says what is wrong
    0  everything was printed
    2  an argument is unknown or not UTF-8
    3  a file is not UTF-8
    5  out of memory
    6  a file cannot be read, or the output cannot be written
    7  references repeat more bytes than the limit
If nobody reads the output any more, as with | head, the status is 141, and nothing is said.
";

/// The line that `--version` prints.
const VERSION: &str = "mdhtml 1.0.0\n";

/// A file that an argument names.
#[derive(Drop)]
pub(crate) enum File {
    /// The file of this name.
    Named(String),
    /// A file that cannot be opened: its name, the argument of this number, is not UTF-8.
    NotText(usize),
}

impl File {
    /// Its name, if that can be told.
    pub(crate) fn name(&self) -> Option<&str> {
        match self {
            File::Named(name) => Some(name.as_str()),
            File::NotText(_) => None,
        }
    }
}

/// What the arguments ask for.
#[derive(Drop)]
pub(crate) enum Asked {
    /// This text.
    Page(&'static str),
    /// This task for each of these files, or for standard input if there is none.
    Files(Task, Vec<File>),
}

// What the arguments so far ask for.
#[derive(Drop)]
struct Arguments {
    task: Task,
    files: Vec<File>,
    // Whether `--` has come: all arguments after it are files.
    are_files: bool,
}

impl Arguments {
    fn push(&mut self, file: File) -> Result<(), AllocError> {
        self.files.push(file)?;
        Ok(())
    }

    // Takes an argument. Returns the page that it asks for, if it does.
    fn take(&mut self, argument: String) -> Result<Option<&'static str>, Fault> {
        if self.are_files || !argument.starts_with("-") {
            self.push(File::Named(argument))?;
            return Ok(None);
        }
        match argument.as_str() {
            "--" => self.are_files = true,
            "--help" => return Ok(Some(HELP)),
            "--version" => return Ok(Some(VERSION)),
            "--gfm" => return Err(Fault::Gfm),
            option if self.task.set(option) => {}
            _ => return Err(Fault::Unknown(argument)),
        }
        Ok(None)
    }

    // Takes an argument that is not UTF-8: its number, and whether it begins as options do.
    fn take_other(&mut self, number: usize, is_option: bool) -> Result<(), Fault> {
        if is_option && !self.are_files {
            return Err(Fault::NotTextOption(number));
        }
        self.push(File::NotText(number))?;
        Ok(())
    }

    // What all arguments ask for.
    fn asked(self) -> Result<Asked, Fault> {
        let Arguments { task, files, .. } = self;
        match task.output {
            Output::Html if task.is_json => Err(Fault::Json),
            _ => Ok(Asked::Files(task, files)),
        }
    }
}

// The argument of a number; `None` after the last.
fn argument(rt: &HostRuntime, number: usize) -> Result<Option<Vec<u8>>, AllocError> {
    let mut bytes = vec![in rt.alloc(); 0u8; 256]?;
    for _ in 0..usize::BITS {
        match rt.arg(number, bytes.as_mut_slice()) {
            Ok(len) => {
                bytes.truncate(len);
                return Ok(Some(bytes));
            }
            Err(FillError::NotPresent) => return Ok(None),
            Err(FillError::TooLong) => bytes.resize(bytes.len().saturating_mul(2), 0)?,
        }
    }
    Err(AllocError)
}

/// Reads the arguments after the program's name.
pub(crate) fn read(rt: &HostRuntime) -> Result<Asked, Fault> {
    let mut arguments = Arguments {
        task: Task::new(),
        files: Vec::new(rt.alloc()),
        are_files: false,
    };
    for number in 1..usize::MAX {
        let Some(bytes) = argument(rt, number)? else {
            break;
        };
        let is_option = bytes.as_slice().starts_with(b"-");
        let Ok(text) = String::from_utf8(bytes) else {
            arguments.take_other(number, is_option)?;
            continue;
        };
        if let Some(page) = arguments.take(text)? {
            return Ok(Asked::Page(page));
        }
    }
    arguments.asked()
}
