//! Hands out what was found, in an array that the caller lends.

ghost use Rattle.std.specs.Prelude.{◌≡◌, ◌≤◌, ◌++◌, drop, length, IfErr, IfOk};
ghost use Rattle.markdown_inline_c.specs.Answers.{IsHandedOut};
ghost use Rattle.markdown_inline_c.specs.Statuses.{fault_status};

use crate::fault::{DONE, Fault, TOO_SMALL};
use crate::found::Found;

/// Hands out what was found where there is room for it, or else says why not by its status.
pub fn answer<X, F: Found<X> + Drop>(
    found: Result<F, Fault>,
    array: &mut [X],
    count: &mut usize,
) -> u32
    ensures ok { IfOk found (λ found. IsHandedOut (F.items found) array.old array.new count.new result) }
    ensures err { IfErr found (λ fault. (result ≡ fault_status fault) × ((array.new ≡ array.old) × (count.new ≡ count.old))) }
{
    match found {
        Ok(found) => {
            let all = found.count();
            *count = all;
            if all > array.len() {
                return TOO_SMALL;
            }
            found.write(&mut array[..all]);
            DONE
        }
        Err(fault) => fault.status(),
    }
}

/// Writes what was found to the front of an array that has room for it.
pub(crate) fn write_front<X: Copy>(found: &[X], array: &mut [X])
    requires { length found.now ≤ length array.old }
    ensures { array.new ≡ found.now ++ drop (length found.now) array.old }
{
    array[..found.len()].copy_from_slice(found);
}
