//! Why the program ends without all of its output.

use std::alloc::AllocError;
use std::fmt::{self, Display, Formatter};
use std::io::{self, ErrorKind};

/// Why nothing, or not all, is printed of a file, or of any.
#[derive(Drop)]
pub(crate) enum Fault {
    /// This option is unknown.
    Unknown(String),
    /// GitHub's Markdown as a whole, of which tables and footnotes are not there.
    Gfm,
    /// Links are to be printed as JSON, but no links are to be printed.
    Json,
    /// The argument of this number begins as an option, and is not UTF-8.
    NotTextOption(usize),
    /// The argument of this number names a file, and is not UTF-8.
    NotTextName(usize),
    /// The file is not UTF-8: the line and the column of the first wrong byte.
    NotText(usize, usize),
    /// An allocation failed.
    OutOfMemory,
    /// The file cannot be read.
    Read(io::Error),
    /// The output cannot be written.
    Write(io::Error),
    /// Nobody reads the output.
    Closed,
    /// References repeat more than this number of bytes.
    Limit(usize),
}

impl Fault {
    /// The status that the program ends with. If nobody reads the output, it is that of a program that the signal SIGPIPE has ended, as a shell tells it.
    pub(crate) fn status(&self) -> u8 {
        match self {
            Fault::Unknown(_) | Fault::Gfm | Fault::Json => 2,
            Fault::NotTextOption(_) | Fault::NotTextName(_) => 2,
            Fault::NotText(_, _) => 3,
            Fault::OutOfMemory => 5,
            Fault::Read(_) | Fault::Write(_) => 6,
            Fault::Limit(_) => 7,
            Fault::Closed => 141,
        }
    }

    /// Whether it is a fault of one file, so that the next can be read.
    pub(crate) fn is_of_file(&self) -> bool {
        matches!(
            self,
            Fault::NotTextName(_) | Fault::NotText(_, _) | Fault::Read(_) | Fault::Limit(_)
        )
    }

    /// Whether a line on standard error tells of it.
    pub(crate) fn is_told(&self) -> bool {
        !matches!(self, Fault::Closed)
    }
}

impl Display for Fault {
    fn fmt<W: fmt::Write>(&self, f: &mut Formatter<W>) -> fmt::Result {
        match self {
            Fault::Unknown(option) => write!(
                f,
                "unknown option {option:?}: mdhtml --help lists the options"
            ),
            Fault::Gfm => f.write_str(
                "--gfm is not there yet, for want of tables and footnotes: use --strikethrough, --bare-urls and --tasks",
            ),
            Fault::Json => f.write_str("--json prints links: add --to=links"),
            Fault::NotTextOption(number) => write!(
                f,
                "argument {number} is an unknown option, and not UTF-8: mdhtml --help lists the options"
            ),
            Fault::NotTextName(number) => write!(
                f,
                "argument {number} is not UTF-8, so no file of this name can be opened: use mdhtml < FILE"
            ),
            Fault::NotText(line, column) => write!(
                f,
                "not UTF-8 at line {line}, column {column}: convert the file to UTF-8, for example with iconv"
            ),
            Fault::OutOfMemory => f.write_str("out of memory"),
            Fault::Read(error) => write!(f, "read failed: {error}"),
            Fault::Write(error) => write!(f, "write failed: {error}"),
            Fault::Closed => f.write_str("nobody reads the output"),
            Fault::Limit(limit) => write!(
                f,
                "references repeat more than {limit} bytes of link definitions, of which HTML may have up to 9 times as many: --no-limit lifts this limit"
            ),
        }
    }
}

impl From<AllocError> for Fault {
    fn from(_error: AllocError) -> Fault {
        Fault::OutOfMemory
    }
}

/// What an error of reading is: a failed allocation is that wherever it comes.
pub(crate) fn of_read(error: io::Error) -> Fault {
    match error.kind() {
        ErrorKind::OutOfMemory => Fault::OutOfMemory,
        _ => Fault::Read(error),
    }
}

/// What an error of writing is.
pub(crate) fn of_write(error: io::Error) -> Fault {
    match error.kind() {
        ErrorKind::OutOfMemory => Fault::OutOfMemory,
        ErrorKind::BrokenPipe => Fault::Closed,
        _ => Fault::Write(error),
    }
}

// The line and the column of the end of a text, from 1. A column counts bytes.
fn end_of(text: &[u8]) -> (usize, usize) {
    let mut line: usize = 1;
    let mut column: usize = 1;
    let mut last = 0;
    for byte in text {
        let ends_line = *byte == b'\r' || (*byte == b'\n' && last != b'\r');
        if ends_line {
            line = line.saturating_add(1);
        }
        column = match *byte {
            b'\n' | b'\r' => 1,
            _ => column.saturating_add(1),
        };
        last = *byte;
    }
    (line, column)
}

/// What is wrong with a file that is not UTF-8.
pub(crate) fn not_text(bytes: &[u8]) -> Fault {
    let len = match str::from_utf8(bytes) {
        Ok(_) => bytes.len(),
        Err(error) => error.valid_up_to(),
    };
    let (line, column) = end_of(bytes.get(..len).unwrap_or(bytes));
    Fault::NotText(line, column)
}
