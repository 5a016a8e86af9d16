//! The bytes of a content between two indexes of the document: what its pieces leave out is not among them.
ghost use Rattle.std.specs.Prelude.{◌≡◌, ◌≤◌, ◌++◌, IsTrue, List, OnOk, length, slice_range, ℕ};
ghost use Rattle.markdown_content.specs.Content.{IsContent, content_of};
ghost use Rattle.markdown_content.specs.ContentBytes.{bytes_within};

use crate::beside::ending_by;
use crate::parser::Piece;
use std::alloc::AllocError;

/// Whether one piece has all bytes of the document from an index to another, so that the content leaves none of them out. The pieces are searched by
/// halving.
pub fn is_in_one_piece(bytes: &[u8], pieces: &[Piece], from: usize, to: usize) -> bool
    requires { IsContent bytes.now pieces.now }
    ensures { IsTrue result → (text : List ℕ) → bytes_within text from to (content_of bytes.now pieces.now) ≡ slice_range text from to }
{
    let piece = ending_by(bytes, pieces, from);
    piece < pieces.len() && pieces[piece].start.0 <= from && to <= pieces[piece].end.0
}

// The part of a text from an index to another, nothing where that is not behind it.
fn part(text: &[u8], from: usize, to: usize) -> &[u8]
    requires { to ≤ length text.now }
    ensures { result.now ≡ slice_range text.now from to }
{
    if from < to { &text[from..to] } else { b"" }
}

/// Appends the bytes of a text, such as the document, at which the content's stand between two indexes of the document. The pieces are searched by halving,
/// and read from there on.
///
/// The only error is that memory was refused.
pub fn push_between(
    out: &mut Vec<u8>,
    text: &[u8],
    bytes: &[u8],
    pieces: &[Piece],
    from: usize,
    to: usize,
) -> Result<(), AllocError>
    requires content { IsContent bytes.now pieces.now }
    requires inside { to ≤ length text.now }
    ensures { OnOk result (out.new.items ≡ out.old.items ++ bytes_within text.now from to (content_of bytes.now pieces.now)) }
{
    for at in ending_by(bytes, pieces, from)..pieces.len() {
        let piece = pieces[at];
        if to <= piece.start.0 {
            return Ok(());
        }
        out.extend_from_slice(part(text, from.max(piece.start.0), to.min(piece.end.0)))?;
    }
    Ok(())
}
