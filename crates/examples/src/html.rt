// Writes the HTML of a paragraph: raw HTML as text, and no link to a script.
use markdown_html::footnotes::FootnoteCalls;
use markdown_html::targets::Targets;
use markdown_html::to_html;
use markdown_html_model::options::{Definition, HtmlOptions};
use markdown_inline::configuration::ParseOptions;
use markdown_inline::parser::{ParseState, Piece};
use markdown_inline::run;
use markdown_inline::util::normalize_identifier::normalize_identifier;
use std::alloc::{AllocError, Global};

// A paragraph.
const TEXT: &[u8] = b"*See* <b>[this][d]</b> and [that](javascript:alert(1)).";

// The HTML of pieces of a document; nothing where they are no text.
fn html_of(
    alloc: Global,
    parse_state: &ParseState,
    pieces: &[Piece],
    targets: &Targets,
) -> Result<Vec<u8>, AllocError> {
    if !run::is_text(parse_state.bytes, pieces) {
        return Ok(Vec::new(alloc));
    }
    let found = run::text_list(alloc, parse_state, pieces, false)?;
    to_html(
        alloc,
        parse_state,
        pieces,
        &found.events.as_slice(),
        targets,
        &mut FootnoteCalls::new(alloc),
        HtmlOptions::safe(),
    )
}

// The HTML of the paragraph, in a document where `[D]` leads to `/u`.
pub(crate) fn written(alloc: Global) -> Result<Vec<u8>, AllocError> {
    let identifier = normalize_identifier(alloc, "D")?;
    let mut definitions = Vec::new(alloc);
    definitions.push(identifier.clone()?)?;
    let mut targets = Targets::new(alloc);
    targets.push(Definition {
        identifier,
        destination: String::from_str(alloc, "/u")?,
        title: None,
    })?;
    let parse_state = ParseState {
        bytes: TEXT,
        options: &ParseOptions::default(),
        definitions,
        gfm_footnote_definitions: Vec::new(alloc),
    };
    let whole = [Piece {
        start: (0, 0),
        end: (TEXT.len(), 0),
    }];
    html_of(alloc, &parse_state, &whole, &targets)
}
