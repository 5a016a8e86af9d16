//! A limit on what definitions bring to a document.

ghost use Rattle.std.specs.Prelude.{◌≡◌, IfErr, IfOk};
ghost use Rattle.markdown_content.specs.Content.{content_of, IsContent};
ghost use Rattle.markdown_content.specs.Tree.{Forest, events_of};
ghost use Rattle.markdown_html.specs.Brought.{brought};
ghost use Rattle.markdown_html_model.specs.Html.{page_of_content};
ghost use Rattle.markdown_page.specs.BroughtSoFar.{IsSpent, IsStop};
ghost use Rattle.markdown_page.specs.GivenPage.{bytes_of, page_of};

use crate::given::Given;
use markdown_content::parser::Piece;
use markdown_engine_events::event_list::EventSlice;
use markdown_html::left_of_limit;
use std::alloc::{AllocError, Global};

// Why the writer of a page stops.
#[derive(Clone, Copy)]
pub(crate) enum Stop {
    // Memory was refused.
    Memory,
    // Definitions bring more than the limit.
    BeyondLimit,
}

impl From<AllocError> for Stop {
    ghost use Rattle.std.specs.Prelude.{◌≡◌};
    ghost use Rattle.markdown_page.specs.declared.limit.Stop.TheVariants.{Memory};

    ghost from_gives = { λ _ e. e ≡ Memory };

    fn from(_error: AllocError) -> Stop {
        Stop::Memory
    }
}

// What is left of a limit, if there is one, once definitions bring what they do to the text of these events.
pub(crate) fn spend(
    alloc: Global,
    given: &Given,
    pieces: &[Piece],
    events: &EventSlice,
    left: Option<usize>,
) -> Result<Option<usize>, Stop>
    requires content { IsContent (bytes_of given.now) pieces.now }
    ensures ok { let g = given.now in let page = page_of_content (content_of (bytes_of g) pieces.now) (page_of g) in
        (t : Forest) → events.now ≡ events_of t → IfOk result (λ rest. IsSpent left (brought page t) rest) }
    ensures err { let g = given.now in let page = page_of_content (content_of (bytes_of g) pieces.now) (page_of g) in
        (t : Forest) → events.now ≡ events_of t → IfErr result (IsStop left (brought page t)) }
{
    let Some(limit) = left else {
        return Ok(None);
    };
    let parse_state = given.document.parse_state();
    let (targets, options) = (given.targets, given.options);
    match left_of_limit(alloc, parse_state, pieces, events, targets, options, limit)? {
        Some(rest) => Ok(Some(rest)),
        None => Err(Stop::BeyondLimit),
    }
}
