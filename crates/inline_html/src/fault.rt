//! Why the program ends without its output.

use std::alloc::AllocError;
use std::fmt::{self, Display, Formatter};
use std::io::{self, ErrorKind};

/// Why the program ends without its output.
#[derive(Drop)]
pub(crate) enum Fault {
    /// The first word is not `text`, or there is more than one file.
    Usage,
    /// This word is not known, or stands where it may not.
    Word(String),
    /// A label is defined, and nothing says where it leads.
    NoTarget,
    /// A word is not UTF-8.
    Words,
    /// The input is not UTF-8.
    NotText,
    /// A line of the input is blank.
    BlankLine,
    /// Memory was refused.
    OutOfMemory,
    /// The input cannot be read.
    Read(io::Error),
    /// The output cannot be written.
    Write(io::Error),
    /// Definitions bring more bytes than they may.
    References,
}

impl Fault {
    /// The status that the program ends with.
    pub(crate) fn status(&self) -> u8 {
        match self {
            Fault::Usage | Fault::Word(_) | Fault::NoTarget | Fault::Words => 2,
            Fault::NotText => 3,
            Fault::BlankLine => 4,
            Fault::OutOfMemory => 5,
            Fault::Read(_) | Fault::Write(_) => 6,
            Fault::References => 7,
        }
    }
}

impl Display for Fault {
    fn fmt<W: fmt::Write>(&self, f: &mut Formatter<W>) -> fmt::Result {
        match self {
            Fault::Usage => f.write_str("usage: inline_html text [WORD].. [-- FILE], or --help"),
            Fault::Word(word) => write!(
                f,
                "word {word:?} is not known, or may not stand there: see --help"
            ),
            Fault::NoTarget => f.write_str("a word define= has no word to= behind it"),
            Fault::Words => f.write_str("a word is not UTF-8"),
            Fault::NotText => f.write_str("input is not UTF-8"),
            Fault::BlankLine => f.write_str("blank line in text"),
            Fault::OutOfMemory => f.write_str("out of memory"),
            Fault::Read(error) => write!(f, "read failed: {error}"),
            Fault::Write(error) => write!(f, "write failed: {error}"),
            Fault::References => { f.write_str("definitions bring more bytes than they may") }
        }
    }
}

impl From<AllocError> for Fault {
    fn from(_error: AllocError) -> Fault {
        Fault::OutOfMemory
    }
}

/// What an error of reading is: refused memory is that wherever it comes.
pub(crate) fn of_read(error: io::Error) -> Fault {
    match error.kind() {
        ErrorKind::OutOfMemory => Fault::OutOfMemory,
        _ => Fault::Read(error),
    }
}

/// What an error of writing is.
pub(crate) fn of_write(error: io::Error) -> Fault {
    match error.kind() {
        ErrorKind::OutOfMemory => Fault::OutOfMemory,
        _ => Fault::Write(error),
    }
}
