//! Why a call refuses its input, and the statuses that say so.

ghost use Rattle.std.specs.Prelude.{◌≡◌, IfErr, IfOk};
ghost use Rattle.markdown_inline_c.specs.Statuses.{fault_status};
ghost use Rattle.markdown_inline_c.specs.declared.fault.Fault.TheVariants.{Memory};

use std::alloc::AllocError;

/// The status of a call that is done.
pub const DONE: u32 = 0;

/// The status of a call that is lent too small an array.
pub const TOO_SMALL: u32 = 6;

/// Why a call refuses its input.
#[derive(Clone, Copy, Debug, PartialEq, Eq)]
pub enum Fault {
    /// A bit of the options is none of an option.
    UnknownOption,
    /// The document is not UTF-8.
    NotUtf8,
    /// A line of the text is blank, or it ends with a line ending.
    BlankLine,
    /// Memory was refused.
    Memory,
    /// The pieces are no content of the document.
    NoContent,
    /// The range of a definition is no text of the labels.
    Definition,
    /// The document is longer than an eighth of `usize::MAX`.
    TooLong,
    /// The bytes are no character reference.
    NoReference,
    /// References bring more than the limit.
    References,
    /// A string has a part that is no text of the bytes, or its parts are none of those given.
    NoString,
}

impl Fault {
    /// The status that says so.
    pub fn status(self) -> u32
        ensures { result ≡ fault_status self }
    {
        match self {
            Fault::UnknownOption => 2,
            Fault::NotUtf8 => 3,
            Fault::BlankLine => 4,
            Fault::Memory => 5,
            Fault::NoContent => 7,
            Fault::Definition => 8,
            Fault::TooLong => 9,
            Fault::NoReference => 10,
            Fault::References => 11,
            Fault::NoString => 12,
        }
    }
}

impl From<AllocError> for Fault {
    ghost from_gives = { λ _ e. e ≡ Memory };

    fn from(_error: AllocError) -> Fault {
        Fault::Memory
    }
}

// The status of a test.
pub(crate) fn status_of(tested: Result<(), Fault>) -> u32
    ensures ok { IfOk tested (λ _. result ≡ 0) }
    ensures err { IfErr tested (λ fault. result ≡ fault_status fault) }
{
    match tested {
        Ok(()) => DONE,
        Err(fault) => fault.status(),
    }
}
