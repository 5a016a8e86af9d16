//! What the reader asks of a paragraph.

ghost use Rattle.std.specs.Prelude.{◌≡◌, Bool, List, IfOk};
ghost use Rattle.markdown_content.specs.Codes.{Code};
ghost use Rattle.markdown_content.specs.Content.{content_of};

use markdown_content::parser::Piece;
use std::alloc::{AllocError, Global};

/// Tells whether text is left of a paragraph behind the link reference definitions at its front (CommonMark 4.7).
pub trait HasText {
    // what it tells
    ghost has_text: { List Code → Bool };

    /// Returns whether text is left of the paragraph that has these pieces of the document. The only error is that memory was refused.
    fn test(&self, alloc: Global, document: &[u8], text: &[Piece]) -> Result<bool, AllocError>
        ensures { IfOk result (λ b. b ≡ has_text (content_of document.now text.now)) };
}
