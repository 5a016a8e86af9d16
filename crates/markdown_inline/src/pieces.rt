//! The pieces of a document that leaves are, which a run reads as a string: a label's, a title's or a destination's.
ghost use Rattle.std.specs.Prelude.{◌≡◌, ◌++◌, [], IfOk, OnOk, List};
ghost use Rattle.markdown_content.specs.declared.parser.Piece.{Piece};
ghost use Rattle.markdown_innermost.specs.InnermostEvents.{has_nothing_inside};
ghost use Rattle.markdown_model_laws.specs.LeafPieces.{meets, leaf_pieces};
ghost use Rattle.markdown_inline.specs.LastPiece.{with_last, in_front, with_leaf};

use markdown_content::parser::Piece;
use markdown_engine::event_list::EventSlice;
use markdown_event::event::{Event, Kind};
use std::alloc::{AllocError, Global};

// Whether the second begins where the first ends.
fn meets(piece: Piece, next: Piece) -> bool
    ensures { result ≡ meets piece next }
{
    piece.end.0 == next.start.0 && piece.end.1 == next.start.1
}

// Whether these two events are an Enter and its Exit, where the one stands right behind the other.
fn has_nothing_inside(enter: Event, exit: Event) -> bool
    ensures { result ≡ has_nothing_inside enter.kind exit.kind }
{
    matches!((enter.kind, exit.kind), (Kind::Enter, Kind::Exit))
}

// Adds a piece behind these and the last one, which the next may meet.
fn add(pieces: &mut Vec<Piece>, last: &mut Option<Piece>, piece: Piece) -> Result<(), AllocError>
    ensures { OnOk result ((more : List Piece)
        → pieces.new.items ++ with_last last.new more ≡ pieces.old.items ++ with_last last.old (in_front piece more)) }
{
    if meets(piece, piece) {
        return Ok(());
    }
    let before = *last;
    *last = Some(piece);
    if let Some(before) = before {
        if meets(before, piece) {
            *last = Some(Piece {
                start: before.start,
                end: piece.end,
            });
        } else {
            pieces.push(before)?;
        }
    }
    Ok(())
}

// Adds the piece that a leaf is, where these two are an Enter with its Exit right behind it.
fn add_leaf(
    pieces: &mut Vec<Piece>,
    last: &mut Option<Piece>,
    enter: Event,
    exit: Event,
) -> Result<(), AllocError>
    ensures { OnOk result ((more : List Piece)
        → pieces.new.items ++ with_last last.new more ≡ pieces.old.items ++ with_last last.old (with_leaf enter exit more)) }
{
    if !has_nothing_inside(enter, exit) {
        return Ok(());
    }
    let piece = Piece {
        start: (enter.point.index, enter.point.vs),
        end: (exit.point.index, exit.point.vs),
    };
    add(pieces, last, piece)
}

// All pieces: these, and the last one.
fn with_last(pieces: Vec<Piece>, last: Option<Piece>) -> Result<Vec<Piece>, AllocError>
    ensures { IfOk result (λ all. all.items ≡ pieces.items ++ with_last last []) }
{
    let mut all = pieces;
    if let Some(piece) = last {
        all.push(piece)?;
    }
    Ok(all)
}

/// The pieces that the innermost of these events are, those that meet as one.
///
/// Of the events of a node, or others that stand one after another in a run's answer, they are a content of its document: `laws::leaves_are_contents`.
///
/// The error comes only where memory is refused.
pub fn leaf_pieces(alloc: Global, events: &EventSlice) -> Result<Vec<Piece>, AllocError>
    ensures { IfOk result (λ pieces. pieces.items ≡ leaf_pieces events.now) }
{
    let mut pieces = Vec::new(alloc);
    let mut last = None;
    for index in 1..events.len() {
        add_leaf(
            &mut pieces,
            &mut last,
            events.at(index - 1),
            events.at(index),
        )?;
    }
    with_last(pieces, last)
}
