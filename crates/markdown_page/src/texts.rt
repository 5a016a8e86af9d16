//! The text of paragraphs and headings.

ghost use Rattle.std.specs.Prelude.{◌≡◌, ◌++◌, IfErr, OnOk};
ghost use Rattle.markdown_content.specs.Content.{content_of, IsTextContent};
ghost use Rattle.markdown_page_model.specs.PageHtml.{text_html};
ghost use Rattle.markdown_page.specs.DocumentBrought.{text_brought};
ghost use Rattle.markdown_page.specs.BroughtSoFar.{IsSpent, IsStop};
ghost use Rattle.markdown_page.specs.GivenPage.{bytes_of, setting_at, page_of};

use crate::given::Given;
use crate::limit::{Stop, spend};
use markdown_content::parser::Piece;
use markdown_html::footnotes::FootnoteCalls;
use markdown_html::push_html;
use std::alloc::Global;

// Appends the HTML of a text, if definitions bring no more to it than what is left of the limit. `is_first` says that it is a paragraph, and the first block of
// an item.
pub(crate) fn push_text(
    alloc: Global,
    given: &Given,
    out: &mut Vec<u8>,
    left: &mut Option<usize>,
    is_first: bool,
    pieces: &[Piece],
) -> Result<(), Stop>
    requires { IsTextContent (bytes_of given.now) pieces.now }
    ensures html { let g = given.now in OnOk result (out.new.items ≡ out.old.items ++ text_html (setting_at g is_first) (page_of g) (content_of (bytes_of g) pieces.now)) }
    ensures spent { let g = given.now in OnOk result (IsSpent left.old (text_brought (setting_at g is_first) (page_of g) (content_of (bytes_of g) pieces.now)) left.new) }
    ensures stop { let g = given.now in IfErr result (IsStop left.old (text_brought (setting_at g is_first) (page_of g) (content_of (bytes_of g) pieces.now))) }
{
    let run = given.document.text_list(alloc, pieces, is_first)?;
    let events = run.events.as_slice();
    *left = spend(alloc, given, pieces, &events, *left)?;
    let mut calls = FootnoteCalls::new(alloc);
    push_html(
        alloc,
        out,
        given.document.parse_state(),
        pieces,
        &events,
        given.targets,
        &mut calls,
        given.options,
    )?;
    Ok(())
}
