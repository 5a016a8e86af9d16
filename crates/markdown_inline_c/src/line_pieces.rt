//! The pieces of a paragraph, by where its lines begin.

ghost use Rattle.std.specs.Prelude.{◌≡◌, IfErr, IfOk};
ghost use Rattle.markdown_inline_c.specs.FlatLines.{AreLinePieces, AreStartsRefused, flat_piece, line_pieces, start_refusal};
ghost use Rattle.markdown_lines.specs.PiecesOfLines.{AreLines};

use crate::answer::answer;
use crate::fault::{DONE, Fault};
use crate::flat::FlatPiece;
use crate::outcome::Outcome;
use crate::refusal::Refusal;
use markdown_content::parser::Piece;
use markdown_lines::lines::{LineFault, check_lines, pieces_of_lines};
use std::alloc::Global;

pub(crate) fn flat_piece(piece: Piece) -> FlatPiece
    ensures { result ≡ flat_piece piece }
{
    FlatPiece {
        start: piece.start.0,
        start_vs: piece.start.1,
        end: piece.end.0,
        end_vs: piece.end.1,
    }
}

fn start_refusal(fault: LineFault) -> Refusal
    ensures { result ≡ start_refusal fault }
{
    match fault {
        LineFault::Misplaced(number) => Refusal::of(Fault::NoContent, number),
        LineFault::Blank(number) => Refusal::of(Fault::BlankLine, number),
    }
}

/// The pieces of the lines that begin at these starts, or why there are none.
pub fn line_pieces(alloc: Global, bytes: &[u8], starts: &[usize]) -> Result<Vec<FlatPiece>, Refusal>
    ensures pieces { IfOk result (λ found. found.items ≡ line_pieces bytes.now starts.now) }
    ensures lines { IfOk result (λ _. AreLines bytes.now starts.now) }
    ensures err { IfErr result (AreStartsRefused bytes.now starts.now) }
{
    if let Err(fault) = check_lines(bytes, starts) {
        return Err(start_refusal(fault));
    }
    let pieces = pieces_of_lines(alloc, bytes, starts)?;
    Ok(
        pieces
            .iter()
            .map(|piece| flat_piece(*piece))
            .collect(alloc)?,
    )
}

/// Hands out the pieces of the lines that begin at these starts, where there is room for all of them, or else says why not by its status.
pub fn write_line_pieces(
    alloc: Global,
    bytes: &[u8],
    starts: &[usize],
    pieces: &mut [FlatPiece],
    outcome: &mut Outcome,
) -> u32
    ensures { AreLinePieces bytes.now starts.now pieces.old pieces.new outcome.new result }
{
    *outcome = Outcome::nothing();
    match line_pieces(alloc, bytes, starts) {
        Ok(found) => {
            let status = answer(Ok(found), pieces, &mut outcome.count);
            if status == DONE {
                outcome.done = outcome.count;
            }
            status
        }
        Err(refusal) => {
            outcome.blamed = refusal.blamed();
            refusal.fault.status()
        }
    }
}
