//! How many runs of markers a text has, and how many pairs are made of them.
ghost use Rattle.markdown_inline.specs.markdown_content.Content.{IsTextContent};

use crate::answers::Answers;
use crate::lines::print_probes;
use crate::passes::runs_of_text;
use crate::row::Asked;
use markdown_inline::event::{Event, Kind, Name};
use markdown_inline::parser::{ParseState, Piece};
use markdown_inline::run::text;
use std::alloc::{AllocError, Global};

// Whether a group of two runs begins here.
fn opens_pair(event: &Event) -> bool {
    let groups = matches!(
        event.name,
        Name::Emphasis | Name::Strong | Name::GfmStrikethrough
    );
    event.kind == Kind::Enter && groups
}

/// Prints how many runs a text has and how many pairs are made of them, or how many runs may open and how many may close; and whether the probes are
/// within their bounds.
pub(crate) fn print_counts(
    alloc: Global,
    reading: &str,
    parse_state: &ParseState,
    pieces: &[Piece],
    asked: Asked,
    out: &mut Answers,
) -> Result<(), AllocError>
    requires { IsTextContent parse_state.now.bytes.now pieces.now }
{
    let run = text(alloc, parse_state, pieces, asked.first_of_item)?;
    let runs = runs_of_text(alloc, parse_state, pieces, asked.first_of_item)?;
    if reading == "looks" {
        let opening = runs.iter().filter(|run| run.may_open).count();
        let closing = runs.iter().filter(|run| run.may_close).count();
        out.count(" ", opening);
        out.count(" open, ", closing);
        out.say(" close,");
    } else {
        let pairs = run.events.iter().filter(|event| opens_pair(event)).count();
        out.count(" ", runs.len());
        out.count(" runs, ", pairs);
        out.say(" pairs,");
    }
    print_probes(run.probes, asked, out);
    Ok(())
}
