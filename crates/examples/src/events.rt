// Lists the events of a paragraph that stands in a block quote: whether each begins or ends, its name, and its byte.
use markdown_inline::configuration::ParseOptions;
use markdown_inline::parser::{ParseState, Piece};
use markdown_inline::run;
use markdown_inline::util::normalize_identifier::normalize_identifier;
use std::alloc::{AllocError, Global};

/// A block quote.
pub(crate) const QUOTE: &[u8] = b"> a *b\n> c* [d]";
/// The paragraph in it: what stands behind each `> `.
pub(crate) const PARAGRAPH: [Piece; 2] = [
    Piece {
        start: (2, 0),
        end: (7, 0),
    },
    Piece {
        start: (9, 0),
        end: (15, 0),
    },
];

// A line for each event.
pub(crate) fn listed(alloc: Global) -> Result<String, AllocError> {
    let options = ParseOptions::default();
    let mut definitions = Vec::new(alloc);
    definitions.push(normalize_identifier(alloc, "D")?)?;
    let parse_state = ParseState {
        bytes: QUOTE,
        options: &options,
        definitions,
        gfm_footnote_definitions: Vec::new(alloc),
    };
    let mut lines = String::new(alloc);
    if run::is_text(QUOTE, &PARAGRAPH) {
        for event in &run::text(alloc, &parse_state, &PARAGRAPH, false)?.events {
            writeln!(
                lines,
                "{:?} {:?} {}",
                event.kind, event.name, event.point.index
            )?;
        }
    }
    Ok(lines)
}
