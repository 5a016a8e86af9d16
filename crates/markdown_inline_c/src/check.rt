//! Tests pieces, and finds out what is wrong with them.

ghost use Rattle.std.specs.Prelude.{◌≡◌, ◌⊎◌, ◌≤◌, IfErr, IfOk, IsUtf8, length};
ghost use Rattle.markdown_content.specs.Content.{document_limit, IsContent, IsTextContent};
ghost use Rattle.markdown_inline_c.specs.FlatInput.{pieces_of, pieces_listed};
ghost use Rattle.markdown_inline_c.specs.Refusals.{IsDocumentRefused};
ghost use Rattle.markdown_inline_c.specs.Statuses.{IsContentFault, IsPiecesFault};

use crate::fault::Fault;
use crate::flat::{FlatPiece, piece_of};
use crate::refusal::Refusal;
use markdown_content::content::DOCUMENT_LIMIT;
use markdown_content::parser::Piece;
use markdown_run::run;
use std::alloc::{AllocError, Global};

/// Pieces as a run takes them. One piece, which most contents are, takes no memory.
#[derive(Debug, Drop)]
pub enum Pieces {
    /// One piece.
    One([Piece; 1]),
    /// Any number of them.
    Many(Vec<Piece>),
}

impl Pieces {
    /// The pieces of these.
    pub fn new(alloc: Global, pieces: &[FlatPiece]) -> Result<Pieces, AllocError>
        ensures { IfOk result (λ found. pieces_listed found ≡ pieces_of pieces.now) }
    {
        match pieces {
            [piece] => Ok(Pieces::One([piece_of(*piece)])),
            _ => Ok(Pieces::Many(pieces.iter().map(|piece| piece_of(*piece)).collect(alloc)?)),
        }
    }

    /// The pieces one after another.
    pub fn as_slice(&self) -> &[Piece]
        ensures { result.now ≡ pieces_listed self.now }
    {
        match self {
            Pieces::One(pieces) => pieces,
            Pieces::Many(pieces) => pieces.as_slice(),
        }
    }
}

/// Whether it can be a document, or else why not. Of bytes that are not UTF-8 the first is to blame.
pub fn check_document(bytes: &[u8]) -> Result<(), Refusal>
    ensures ok { IfOk result (λ _. IsUtf8 bytes.now × (length bytes.now ≤ document_limit)) }
    ensures err { IfErr result (IsDocumentRefused bytes.now) }
{
    if bytes.len() > DOCUMENT_LIMIT {
        return Err(Refusal::from(Fault::TooLong));
    }
    match str::from_utf8(bytes) {
        Ok(_) => Ok(()),
        Err(error) => Err(Refusal::of(Fault::NotUtf8, error.valid_up_to())),
    }
}

/// Whether the pieces are a content of the document, or else why not.
pub fn check_content(bytes: &[u8], pieces: &[Piece]) -> Result<(), Fault>
    ensures ok { IfOk result (λ _. IsContent bytes.now pieces.now) }
    ensures err { IfErr result (IsContentFault bytes.now pieces.now) }
{
    if run::is_content(bytes, pieces) {
        return Ok(());
    }
    match check_document(bytes) {
        Ok(()) => Err(Fault::NoContent),
        Err(refusal) => Err(refusal.fault),
    }
}

/// Whether the pieces are a text of the document, or else why not.
pub fn check_text(bytes: &[u8], pieces: &[Piece]) -> Result<(), Fault>
    ensures ok { IfOk result (λ _. IsTextContent bytes.now pieces.now) }
    ensures err { IfErr result (IsPiecesFault bytes.now pieces.now) }
{
    if run::is_text(bytes, pieces) {
        return Ok(());
    }
    check_content(bytes, pieces)?;
    Err(Fault::BlankLine)
}

/// Whether these pieces are a content of the document, or else why not.
pub fn is_content(alloc: Global, bytes: &[u8], pieces: &[FlatPiece]) -> Result<(), Fault>
    ensures ok { IfOk result (λ _. IsContent bytes.now (pieces_of pieces.now)) }
    ensures err { IfErr result (IsContentFault bytes.now (pieces_of pieces.now)) }
{
    let pieces = Pieces::new(alloc, pieces)?;
    check_content(bytes, pieces.as_slice())
}

/// Whether these pieces are a text of the document, or else why not.
pub fn is_text(alloc: Global, bytes: &[u8], pieces: &[FlatPiece]) -> Result<(), Fault>
    ensures ok { IfOk result (λ _. IsTextContent bytes.now (pieces_of pieces.now)) }
    ensures err { IfErr result (IsPiecesFault bytes.now (pieces_of pieces.now)) }
{
    let pieces = Pieces::new(alloc, pieces)?;
    check_text(bytes, pieces.as_slice())
}
