//! How far a call for many comes.

ghost use Rattle.std.specs.Prelude.{◌≡◌, ◌∷◌, ◌++◌, ℕ, ◌+◌, List, [], length, IfOk, OnErr, OnOk, MatchOption, None};
ghost use Rattle.markdown_inline_c.specs.HandingOut.{HasRoom, IsPlaced, counted, nothing_done};
ghost use Rattle.markdown_inline_c.specs.Many.{AreHandedOut, blamed_by, status_of};

use crate::fault::{DONE, TOO_SMALL};
use crate::flat::number_or_max;
use crate::found::Found;
use crate::refusal::Refusal;
use std::alloc::AllocError;

/// What a call for many tells beside its arrays.
#[repr(C)]
#[derive(Clone, Copy, Debug, PartialEq, Eq)]
pub struct Outcome {
    /// How many of the first are written: as many as have room whole.
    pub done: usize,
    /// How many elements were found in all that were read, those for which there is no room among them.
    pub count: usize,
    /// The number of what is to blame, or `usize::MAX`.
    pub blamed: usize,
}

impl Outcome {
    /// Nothing so far.
    pub fn nothing() -> Outcome
        ensures { result ≡ nothing_done }
    {
        Outcome {
            done: 0,
            count: 0,
            blamed: number_or_max(None),
        }
    }

    // Counts what is found in one more of many. The answer is where it goes, if there is room for it behind all before.
    fn place(
        &mut self,
        number: usize,
        len: usize,
        room: usize,
        room_of_ends: usize,
    ) -> Result<Option<usize>, AllocError>
        ensures room { IfOk result (λ place.
            MatchOption place (HasRoom self.old number len room room_of_ends → ⊥) (λ _. HasRoom self.old number len room room_of_ends)) }
        ensures placed { IfOk result (λ place. MatchOption place (self.new ≡ counted len self.old) (λ from. IsPlaced len self.old self.new from)) }
        ensures err { OnErr result (self.new ≡ self.old) }
    {
        let from = self.count;
        let Some(count) = from.checked_add(len) else {
            return Err(AllocError);
        };
        self.count = count;
        if self.done != number || number >= room_of_ends || count > room {
            return Ok(None);
        }
        self.done += 1;
        Ok(Some(from))
    }

    /// Hands out what is found in one more of many, if there is room for it behind all before.
    ///
    /// The only error is that memory was refused, or that more is found than a number can count; nothing changes then.
    pub fn hand_out<X, F: Found<X>>(
        &mut self,
        number: usize,
        found: &F,
        array: &mut [X],
        ends: &mut [usize],
    ) -> Result<(), AllocError>
        ensures ok { (all : List (List X)) (old : List X) (ends_old : List ℕ) → length all ≡ number
            → AreHandedOut all old array.old ends_old ends.old self.old
            → OnOk result (AreHandedOut (all ++ F.items found.now ∷ []) old array.new ends_old ends.new self.new) }
        ensures err { OnErr result ((array.new ≡ array.old) × ((ends.new ≡ ends.old) × (self.new ≡ self.old))) }
    {
        let count = found.count();
        match self.place(number, count, array.len(), ends.len())? {
            Some(from) => {
                found.write(&mut array[from..from + count]);
                ends[number] = from + count;
            }
            None => {}
        }
        Ok(())
    }

    /// The status of a call for so many that ends so; what is to blame is noted.
    pub fn ended(&mut self, end: Result<(), Refusal>, many: usize) -> u32
        ensures status { result ≡ status_of many self.old.done end }
        ensures outcome { self.new ≡ record self.old { blamed = blamed_by end } }
    {
        match end {
            Ok(()) => {
                self.blamed = number_or_max(None);
                if self.done == many { DONE } else { TOO_SMALL }
            }
            Err(refusal) => {
                self.blamed = refusal.blamed();
                refusal.fault.status()
            }
        }
    }
}
