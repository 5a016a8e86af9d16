//! Why a call refuses its input, and which part of it is to blame.

ghost use Rattle.std.specs.Prelude.{◌≡◌};
ghost use Rattle.markdown_inline_c.specs.FlatEvents.{number_or_max};
ghost use Rattle.markdown_inline_c.specs.Refusals.{blames, blames_none};
ghost use Rattle.markdown_inline_c.specs.declared.fault.Fault.TheVariants.{Memory};

use crate::fault::Fault;
use crate::flat::number_or_max;
use std::alloc::AllocError;

/// Why a call refuses its input, and the number of what is to blame, where that is one of many.
#[derive(Clone, Copy, Debug, PartialEq, Eq)]
pub struct Refusal {
    /// Why.
    pub fault: Fault,
    /// The number of what is to blame.
    pub at: Option<usize>,
}

impl Refusal {
    /// The refusal of one of many, by its number. Nothing is to blame where memory was refused.
    pub fn of(fault: Fault, number: usize) -> Refusal
        ensures { result ≡ blames fault number }
    {
        match fault {
            Fault::Memory => Refusal { fault, at: None },
            _ => Refusal {
                fault,
                at: Some(number),
            },
        }
    }

    /// The number of what is to blame, or `usize::MAX`.
    pub fn blamed(self) -> usize
        ensures { result ≡ number_or_max self.at }
    {
        number_or_max(self.at)
    }
}

impl From<Fault> for Refusal {
    ghost from_gives = { λ fault r. r ≡ blames_none fault };

    fn from(fault: Fault) -> Refusal {
        Refusal { fault, at: None }
    }
}

impl From<AllocError> for Refusal {
    ghost from_gives = { λ _ r. r ≡ blames_none Memory };

    fn from(_error: AllocError) -> Refusal {
        Refusal {
            fault: Fault::Memory,
            at: None,
        }
    }
}
