//! Texts without the whitespace at their end.

ghost use Rattle.std.specs.Prelude.{◌≡◌, ◌≤◌, ℕ, List, [], true, length, drop, IsUtf8, IfOk, MatchOption};
ghost use Rattle.markdown_content.specs.Codes.{codes_of};
ghost use Rattle.markdown_content.specs.Content.{document_limit, is_piece, are_pieces, piece_codes, content_of, IsTextContent};
ghost use Rattle.markdown_block_model.specs.LineRests.{trimmed_end};
ghost use Rattle.markdown_blocks.specs.TextTrims.{is_space_byte, IsTrimmedPiece};
ghost use Rattle.markdown_blocks.specs.TextRows.{ArePlaced, IsTrimmedText};

use markdown_content::parser::Piece;
use std::alloc::AllocError;

// Whether a byte is a space, a tab, or one of a line ending.
fn is_space(byte: u8) -> bool
    ensures { result ≡ is_space_byte byte }
{
    byte == b' ' || byte == b'\t' || byte == b'\n' || byte == b'\r'
}

/// Returns a piece of a document without the whitespace at its end, or `None` if it has nothing else.
pub fn trimmed(document: &[u8], piece: Piece) -> Option<Piece>
    requires { is_piece document.now piece ≡ true }
    ensures { MatchOption result (trimmed_end (piece_codes (codes_of document.now) piece) ≡ []) (IsTrimmedPiece document.now piece) }
{
    let mut index = piece.end.0;
    while index > piece.start.0 {
        if !is_space(document[index - 1]) {
            return Some(Piece {
                start: piece.start,
                end: (index, 0),
            });
        }
        index -= 1;
    }
    None
}

/// Cuts the whitespace at the end of a text. Then it is a text content, as the inline layer takes it. If nothing else was in it, no piece is left.
///
/// The only error is that memory was refused.
pub fn trim_end(document: &[u8], text: &mut Vec<Piece>) -> Result<(), AllocError>
    requires { are_pieces document.now text.old.items ≡ true }
    ensures codes { IfOk result (λ _. content_of document.now text.new.items ≡ trimmed_end (content_of document.now text.old.items)) }
    ensures empty { IfOk result (λ _. content_of document.now text.new.items ≡ [] → text.new.items ≡ []) }
    ensures text { IfOk result (λ _. ArePlaced document.now text.old.items → IsTrimmedText document.now text.new.items) }
    ensures content { IfOk result (λ _. ArePlaced document.now text.old.items → IsUtf8 document.now → length document.now ≤ document_limit
        → IsTextContent document.now text.new.items) }
{
    while let Some(last) = text.pop() {
        if let Some(piece) = trimmed(document, last) {
            text.push(piece)?;
            return Ok(());
        }
    }
    Ok(())
}

/// Cuts the first lines of a text, so many.
pub fn cut_lines(text: &mut Vec<Piece>, count: usize)
    requires { count ≤ length text.old.items }
    ensures pieces { text.new.items ≡ drop count text.old.items }
    ensures placed { (bytes : List ℕ) → ArePlaced bytes text.old.items → ArePlaced bytes text.new.items }
{
    let len = text.len();
    text.rotate_left(count);
    text.truncate(len - count);
}
