//! The rest of a line: what is read beside CommonMark, the document, where the line begins, the values of its codes, and how many of these stand before the rest.

ghost use Rattle.std.specs.Prelude.{◌≡◌, ◌<◌, ◌≤◌, ◌+◌, ◌||◌, ◌∷◌, [], length, take, drop, not, is_some, true, false, List, IfSome};
ghost use Rattle.std.specs.List.{list_all};
ghost use Rattle.markdown_content.specs.Codes.{Code, codes_of};
ghost use Rattle.markdown_content.specs.Content.{document_limit, piece_codes};
ghost use Rattle.markdown_content.specs.DocumentWalk.{IsPoint};
ghost use Rattle.markdown_model.specs.CodeTests.{values_of};
ghost use Rattle.markdown_block_model.specs.LineRests.{indent, is_blank_line};
ghost use Rattle.markdown_block_model.specs.BlockTree.{Tree};
ghost use Rattle.markdown_block_model.specs.TextStarts.{lines_begin, is_line};
ghost use Rattle.markdown_block_model.specs.LeafStarts.{underline};
ghost use Rattle.markdown_block_model.specs.BlockStarts.{begun};
ghost use Rattle.markdown_block_model.specs.DocumentBlocks.{rest_inside, is_nothing};
ghost use Rattle.markdown_block_line.specs.DocumentLines.{line_from};
ghost use Rattle.markdown_block_line.specs.LineBlocks.{extensions_of, container_of, Says};
ghost use Rattle.markdown_block_line.specs.LineStarts.{begun_of, StandsWhere, IsWithin};
ghost use Rattle.markdown_blocks.specs.ItemRows.{IsBare};
ghost use Rattle.markdown_blocks.specs.LineRest.{behind, IsLineStart};
ghost use Rattle.markdown_blocks.specs.TextRows.{StandsBetween, is_outer, begins_ascii, AreLinePieces, ArePlaced, IsLineRest, IsLineEnd};

use markdown_block_line::begins::{self, Begun};
use markdown_block_line::breaks::{BreakLens, break_lens};
use markdown_block_line::containers::{self, Container};
use markdown_block_line::document::past_codes;
use markdown_block_line::extensions::Extensions;
use markdown_block_line::{line, starts};
use markdown_content::parser::Piece;
use markdown_event::event::Point;
use std::marker::Model;

/// The rest of a line of a document.
#[derive(Drop)]
pub struct Rest<'a> {
    // What is read beside CommonMark.
    extensions: Extensions,
    document: &'a [u8],
    // Where the line begins.
    start: Point,
    // The values of the line's codes.
    values: &'a [u8],
    // Which rests of the line are thematic breaks.
    breaks: BreakLens,
    // How many codes of the line stand before the rest.
    at: usize,
}

impl<'a> Model for Rest<'a> {
    ghost use Rattle.std.specs.Prelude.{drop};
    ghost use Rattle.markdown_block_line.specs.DocumentLines.{line_from};
    ghost use Rattle.markdown_blocks.specs.LineRest.{LineRest, IsRest};

    ghost Value = { LineRest };

    ghost view = { λ r. record { extensions = r.extensions; bytes = r.document.now; start = r.start; codes = drop r.at (line_from r.document.now r.start) } };

    ghost invariant = { λ r. IsRest r.document.now r.start r.values.now r.breaks r.at };
}

impl<'a> Rest<'a> {
    /// Makes the rest of a line that has all of it.
    pub fn new(
        extensions: Extensions,
        document: &'a [u8],
        start: Point,
        values: &'a [u8],
    ) -> Rest<'a>
        requires fits { length document.now ≤ document_limit }
        requires is_point { IsPoint document.now start }
        requires filled { start.index < length document.now }
        requires begins { IsLineStart document.now start (line_from document.now start) }
        requires same { values_of (line_from document.now start) ≡ values.now }
        requires between { StandsBetween document.now start }
        ensures { result ≡ record { extensions = extensions; bytes = document.entry.now; start = start; codes = line_from document.entry.now start } }
    {
        Rest {
            extensions,
            document,
            start,
            values,
            breaks: break_lens(values),
            at: 0,
        }
    }

    /// Returns the document.
    pub fn document(&self) -> &'a [u8]
        ensures { result.now ≡ self.now.bytes }
    {
        self.document
    }

    /// Returns the values of the codes that are left.
    pub fn values(&self) -> &'a [u8]
        ensures { values_of self.now.codes ≡ result.now }
    {
        &self.values[self.at..]
    }

    /// Returns how many codes are left.
    pub fn len(&self) -> usize
        ensures { result ≡ length self.now.codes }
    {
        self.values.len() - self.at
    }

    /// Returns the rest behind so many codes, which are ASCII and no line ending.
    pub fn behind(&self, count: usize) -> Rest<'a>
        requires within { count ≤ length self.now.codes }
        requires outer { list_all is_outer (take count self.now.codes) ≡ true }
        ensures { result ≡ behind count self.now }
    {
        Rest {
            extensions: self.extensions,
            document: self.document,
            start: self.start,
            values: self.values,
            breaks: self.breaks,
            at: self.at + count,
        }
    }

    /// Returns whether nothing but blanks and a line ending is left (CommonMark 2.1).
    pub fn is_blank(&self) -> bool
        ensures { result ≡ is_blank_line self.now.codes }
    {
        line::is_blank_line(self.values())
    }

    /// Returns whether no code is left but the line ending, if there is one.
    pub fn is_bare(&self) -> bool
        ensures { result ≡ true → IsBare self.now.codes }
    {
        is_bare(self.values())
    }

    /// Returns the level of the heading that the line underlines (CommonMark 4.3).
    pub fn underline(&self) -> Option<usize>
        ensures { result ≡ underline self.now.codes }
    {
        starts::underline(self.values())
    }

    /// Returns how many codes stand outside a container that the line continues, of which `is_empty` says whether it holds nothing; or `None`.
    pub fn outside(&self, container: Container, is_empty: bool) -> Option<usize>
        ensures found { (inside : Tree) → is_nothing inside ≡ is_empty
            → Says result (λ k. drop k self.now.codes) (rest_inside (container_of container) inside self.now.codes) }
        ensures within { IfSome result (λ k. k ≤ length self.now.codes) }
    {
        containers::rest_inside(container, is_empty, self.values())
    }

    /// Returns what begins here, or `None`. `in_paragraph` says that a paragraph stands right before, and `after_text` that one is open here or further inside.
    pub fn begun(&self, in_paragraph: bool, after_text: bool) -> Option<Begun>
        ensures found { Says result (begun_of self.now.codes) (begun (extensions_of self.now.extensions) in_paragraph after_text self.now.codes) }
        ensures start { IfSome result (StandsWhere self.now.codes) }
        ensures within { IfSome result (IsWithin (length self.now.codes)) }
    {
        begins::begun_at(
            self.extensions,
            in_paragraph,
            after_text,
            self.breaks,
            self.values(),
        )
    }

    /// Returns whether the line would continue a paragraph lazily (CommonMark 5.1).
    pub fn is_lazy(&self) -> bool
        ensures { result ≡ not (is_blank_line self.now.codes || is_some (begun (extensions_of self.now.extensions) false true self.now.codes)) }
    {
        begins::is_lazy_line(self.extensions, self.breaks, self.values())
    }

    /// Returns the piece of the document that has so many codes, behind so many.
    pub fn piece(&self, from: usize, len: usize) -> Piece
        requires { from + len ≤ length self.now.codes }
        ensures codes { piece_codes (codes_of self.now.bytes) result ≡ take len (drop from self.now.codes) }
        ensures placed { list_all is_outer (take from self.now.codes) ≡ true → begins_ascii (drop (from + len) self.now.codes) ≡ true
            → lines_begin true (take len (drop from self.now.codes)) ≡ true → ArePlaced self.now.bytes (result ∷ []) }
        ensures inside { list_all is_outer (take from self.now.codes) ≡ true → begins_ascii (drop (from + len) self.now.codes) ≡ true
            → AreLinePieces self.now.bytes (result ∷ []) }
        ensures rest { list_all is_outer (take from self.now.codes) ≡ true → from + len ≡ length self.now.codes
            → IsLineRest self.now.bytes self.now.start result }
        ensures line { list_all is_outer (take from self.now.codes) ≡ true → from + len ≡ length self.now.codes
            → lines_begin true (drop from self.now.codes) ≡ true → IsLineEnd self.now.bytes self.now.start result }
        ensures is_line { is_line self.now.codes ≡ true }
    {
        let start = past_codes(self.document, self.start, self.at + from);
        let end = past_codes(self.document, start, len);
        Piece {
            start: (start.index, start.vs),
            end: (end.index, end.vs),
        }
    }

    /// Returns the piece of the document that has the codes behind so many.
    pub fn piece_from(&self, from: usize) -> Piece
        requires { from ≤ length self.now.codes }
        ensures codes { piece_codes (codes_of self.now.bytes) result ≡ drop from self.now.codes }
        ensures rest { list_all is_outer (take from self.now.codes) ≡ true → IsLineRest self.now.bytes self.now.start result }
        ensures line { list_all is_outer (take from self.now.codes) ≡ true → from < length self.now.codes
            → lines_begin true (drop from self.now.codes) ≡ true → IsLineEnd self.now.bytes self.now.start result }
        ensures is_line { is_line self.now.codes ≡ true }
    {
        self.piece(from, self.len() - from)
    }

    /// Returns the piece of the document that has the codes from the first on that is not blank.
    pub fn trimmed_piece(&self) -> Piece
        ensures codes { piece_codes (codes_of self.now.bytes) result ≡ drop (indent self.now.codes) self.now.codes }
        ensures line { is_blank_line self.now.codes ≡ false → IsLineEnd self.now.bytes self.now.start result }
    {
        self.piece_from(line::indent(self.values()))
    }
}

// Whether no code is left but the line ending, if there is one.
fn is_bare(values: &[u8]) -> bool
    ensures { result ≡ true → (cs : List Code) → values_of cs ≡ values.now → IsBare cs }
{
    if values.len() == 0 {
        return true;
    }
    values.len() == 1 && values[0] == b'\n'
}
