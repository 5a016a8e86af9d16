//! HTML (CommonMark 4.6).

ghost use Rattle.std.specs.Prelude.{◌≡◌, ◌<◌, ◌≤◌, ◌+◌, ◌*◌, ◌++◌, ◌∷◌, [], ◌||◌, not, nat_lt, List, OnOk, IfOk, length, true, false, if◌then◌else◌};
ghost use Rattle.markdown_content.specs.Codes.{Code, codes_of};
ghost use Rattle.markdown_content.specs.Content.{content_of, piece_codes};
ghost use Rattle.markdown_block_definitions.specs.TextCopies.{IsSpot, IsRead, codes_left, is_spot_before, spot_place};
ghost use Rattle.markdown_block_definitions.specs.declared.copy.Spot as copy;
ghost use Rattle.markdown_block_model.specs.LineRests.{lines_of};
ghost use Rattle.markdown_html_model.specs.Html.{raw_html};
ghost use Rattle.markdown_html_model.specs.declared.role.Within as within;
ghost use Rattle.markdown_page_model.specs.PageTexts.{lines_html};
ghost use Rattle.markdown_page.specs.CodeLines.{text_as};
ghost use Rattle.markdown_page.specs.GivenPage.{bytes_of, page_of};
ghost use Rattle.markdown_page.specs.LinesByCode.{lines_from};

use crate::given::Given;
use crate::lines::{is_leading, push_as, push_ending_at};
use crate::tags::push_line_start;
use markdown_block_definitions::copy::{
    Spot, first_spot, is_before, is_line_ending, past_plain, read,
};
use markdown_content::parser::Piece;
use std::alloc::AllocError;

// A line of HTML, so far.
#[derive(Clone, Copy)]
struct Line {
    // Whether it has a code.
    has_begun: bool,
    // Whether all its codes are later columns of a tab.
    is_leading: bool,
}

const NO_LINE: Line = Line {
    has_begun: false,
    is_leading: true,
};

// A line whose last code is a byte above 13.
const TEXT_LINE: Line = Line {
    has_begun: true,
    is_leading: false,
};

// Appends the value of a code, unless it is a later column of a tab behind another code.
fn push_value(
    out: &mut Vec<u8>,
    raw: bool,
    leading: bool,
    spot: Spot,
    value: u8,
) -> Result<(), AllocError>
    ensures { OnOk result (out.new.items ≡ out.old.items ++ (if leading || not (nat_lt 0 spot.vs) then text_as raw (value ∷ []) else [])) }
{
    if leading || spot.vs == 0 {
        return push_as(out, raw, &[value]);
    }
    Ok(())
}

// Appends a code of a line, and returns the line with it.
fn push_code(
    given: &Given,
    out: &mut Vec<u8>,
    bytes: &[u8],
    line: Line,
    spot: Spot,
    value: u8,
) -> Result<Line, AllocError>
    requires same { bytes.now ≡ bytes_of given.now }
    requires stands { IsSpot bytes.now spot }
    requires begins { spot.index < length bytes.now }
    ensures { let g = given.now in let raw = g.options.raw_html in IfOk result (λ next. (behind : copy.Spot) (r : IsRead bytes.now spot value behind) (cs : List Code) → out.new.items ++ lines_from (page_of g) raw next cs ≡ out.old.items ++ lines_from (page_of g) raw line (r.code ∷ cs)) }
{
    if is_line_ending(bytes[spot.index]) {
        push_ending_at(given, out, bytes, spot.index)?;
        return Ok(NO_LINE);
    }
    let leading = is_leading(line.is_leading, spot);
    push_value(out, given.options.raw_html, line.is_leading, spot, value)?;
    Ok(Line {
        has_begun: true,
        is_leading: leading,
    })
}

// Appends codes that stand at a place of a piece, one at least, and returns the line with them and the place behind them.
fn push_codes(
    given: &Given,
    out: &mut Vec<u8>,
    bytes: &[u8],
    line: Line,
    piece: Piece,
    spot: Spot,
) -> Result<(Line, Spot), AllocError>
    requires same { bytes.now ≡ bytes_of given.now }
    requires is_spot { IsSpot bytes.now spot }
    requires begins { spot.index < length bytes.now }
    requires started { is_spot_before spot piece.start ≡ false }
    requires before_end { is_spot_before spot piece.end ≡ true }
    ensures text { let g = given.now in let raw = g.options.raw_html in IfOk result (λ next. (cs : List Code) → out.new.items ++ lines_from (page_of g) raw next.0 (codes_left bytes.now piece (spot_place next.1) ++ cs) ≡ out.old.items ++ lines_from (page_of g) raw line (codes_left bytes.now piece (spot_place spot) ++ cs)) }
    ensures stands { IfOk result (λ next. IsSpot bytes.now next.1) }
    ensures started { IfOk result (λ next. is_spot_before next.1 piece.start ≡ false) }
    ensures later { IfOk result (λ next. 4 * spot.index + spot.vs + 1 ≤ 4 * next.1.index + next.1.vs) }
{
    let behind = past_plain(bytes, piece, spot);
    if behind.index > spot.index {
        push_as(
            out,
            given.options.raw_html,
            &bytes[spot.index..behind.index],
        )?;
        return Ok((TEXT_LINE, behind));
    }
    let (value, behind) = read(bytes, spot);
    let line = push_code(given, out, bytes, line, spot, value)?;
    Ok((line, behind))
}

// Appends the codes of a piece, and returns the line behind them.
fn push_piece(
    given: &Given,
    out: &mut Vec<u8>,
    line: Line,
    piece: Piece,
) -> Result<Line, AllocError>
    ensures { let g = given.now in let raw = g.options.raw_html in IfOk result (λ next. (cs : List Code) → out.new.items ++ lines_from (page_of g) raw next cs ≡ out.old.items ++ lines_from (page_of g) raw line (piece_codes (codes_of (bytes_of g)) piece ++ cs)) }
{
    let bytes = given.document.parse_state().bytes;
    let mut line = line;
    let mut spot = first_spot(bytes, piece);
    while spot.index < bytes.len() {
        if !is_before(spot, piece.end) {
            return Ok(line);
        }
        let (next, behind) = push_codes(given, out, bytes, line, piece, spot)?;
        line = next;
        spot = behind;
    }
    Ok(line)
}

// Appends the lines of HTML.
pub(crate) fn push_html(given: &Given, out: &mut Vec<u8>, text: &[Piece]) -> Result<(), AllocError>
    ensures { let g = given.now in OnOk result (out.new.items ≡ out.old.items ++ lines_html (page_of g) (raw_html (page_of g) within.Within.Outside) (lines_of (content_of (bytes_of g) text.now))) }
{
    let mut line = NO_LINE;
    for piece in text {
        line = push_piece(given, out, line, *piece)?;
    }
    push_line_start(given, out, line.has_begun)
}
