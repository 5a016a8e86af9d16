//! How many bytes are a given one, which bounds how many codes are it.
ghost use Rattle.std.specs.Prelude.{◌≡◌, ◌<◌, ◌≤◌, ◌+◌, ◌*◌, ◌==◌, ◌∷◌, [], length, take, drop, IsTrue};
ghost use Rattle.std.specs.List.{count_by, slice_range};
ghost use Rattle.markdown_content.specs.Codes.{count_among};
ghost use Rattle.markdown_content.specs.Content.{are_pieces, content_of};

use crate::lanes::{LANES, same_among};
use crate::parser::Piece;

// How many bytes are this one in so many groups of sixteen from this index on.
#[inline(always)]
fn count_in_groups(bytes: &[u8], from: usize, groups: usize, byte: u8) -> usize
    requires { from + LANES * groups ≤ length bytes.now }
    ensures { result ≡ count_by (λ b. b == byte) (take (LANES * groups) (drop from bytes.now)) }
{
    let mut count = 0;
    for group in 0..groups {
        count += same_among(bytes, from + LANES * group, byte);
    }
    count
}

// How many bytes from an index up to another are this one.
fn count_between(bytes: &[u8], from: usize, to: usize, byte: u8) -> usize
    requires order { from ≤ to }
    requires within { to ≤ length bytes.now }
    ensures { result ≡ count_by (λ b. b == byte) (slice_range bytes.now from to) }
{
    let groups = (to - from) / LANES;
    let mut count = count_in_groups(bytes, from, groups, byte);
    for at in from + LANES * groups..to {
        if bytes[at] == byte {
            count += 1;
        }
    }
    count
}

/// Whether fewer than so many codes of these pieces are this byte, which is neither blank nor a control: as the bytes of the pieces tell it, since no other
/// byte makes such a code.
pub(crate) fn have_fewer(bytes: &[u8], pieces: &[Piece], byte: u8, times: usize) -> bool
    requires pieces { IsTrue (are_pieces bytes.now pieces.now) }
    requires ink { 32 < byte }
    ensures { IsTrue result → count_among (byte ∷ []) (content_of bytes.now pieces.now) < times }
{
    let mut left = times;
    for piece in pieces {
        let to = piece.end.0.min(bytes.len());
        let found = count_between(bytes, piece.start.0.min(to), to, byte);
        if left <= found {
            return false;
        }
        left -= found;
    }
    left > 0
}
