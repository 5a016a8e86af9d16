//! Whether a code of a content stands right beside a place of the document, as the pieces of the content tell it.
ghost use Rattle.std.specs.Prelude.{◌≡◌, true, false, not, nat_lt};
ghost use Rattle.std.specs.List.Sorted.{IsPartitionPoint};
ghost use Rattle.markdown_content.specs.Beside.{has_code_before, has_code_behind};
ghost use Rattle.markdown_content.specs.Content.{IsContent, content_of};
ghost use Rattle.markdown_content.specs.declared.parser.Piece.{Piece as Stretch};

use crate::parser::Piece;

// How many of the pieces end before the byte of an index.
fn ending_before(bytes: &[u8], pieces: &[Piece], index: usize) -> usize
    requires { IsContent bytes.now pieces.now }
    ensures { IsPartitionPoint (λ (p : Stretch). nat_lt p.end.0 index ≡ true) (λ (p : Stretch). nat_lt p.end.0 index ≡ false) pieces.now result }
{
    pieces.partition_point(|piece| piece.end.0 < index)
}

// How many of the pieces end at the byte of an index or before it.
pub(crate) fn ending_by(bytes: &[u8], pieces: &[Piece], index: usize) -> usize
    requires { IsContent bytes.now pieces.now }
    ensures { IsPartitionPoint (λ (p : Stretch). not (nat_lt index p.end.0) ≡ true) (λ (p : Stretch). not (nat_lt index p.end.0) ≡ false)
        pieces.now result }
{
    pieces.partition_point(|piece| piece.end.0 <= index)
}

// Whether a code of the content of these pieces stands right before the byte of an index.
pub(crate) fn have_code_before(bytes: &[u8], pieces: &[Piece], index: usize) -> bool
    requires { IsContent bytes.now pieces.now }
    ensures { result ≡ has_code_before (content_of bytes.now pieces.now) index }
{
    let piece = ending_before(bytes, pieces, index);
    piece < pieces.len() && pieces[piece].start.0 < index
}

// Whether a code of the content of these pieces stands right behind the place before the byte of an index.
pub(crate) fn have_code_behind(bytes: &[u8], pieces: &[Piece], index: usize) -> bool
    requires { IsContent bytes.now pieces.now }
    ensures { result ≡ has_code_behind (content_of bytes.now pieces.now) index }
{
    let piece = ending_by(bytes, pieces, index);
    piece < pieces.len() && pieces[piece].start.0 <= index
}
