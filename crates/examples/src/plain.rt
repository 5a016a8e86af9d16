// The text of a paragraph without its markup, as a search index wants it, or the description of an image.
use markdown_html::text_of;
use markdown_inline::configuration::ParseOptions;
use markdown_inline::parser::{ParseState, Piece};
use markdown_inline::run;
use std::alloc::{AllocError, Global};

// A paragraph.
const TEXT: &[u8] = b"*a* `b` [c](d \"e\") ![f](g) &amp; \\* <h> <https://i.j>\nk\\\nl";

// The text of pieces of a document: of a link what it shows, and of an image its description; nothing where they are no text.
fn plain_of(
    alloc: Global,
    parse_state: &ParseState,
    pieces: &[Piece],
) -> Result<Vec<u8>, AllocError> {
    if !run::is_text(parse_state.bytes, pieces) {
        return Ok(Vec::new(alloc));
    }
    let found = run::text_list(alloc, parse_state, pieces, false)?;
    text_of(alloc, parse_state.bytes, &found.events.as_slice())
}

// The text of the paragraph.
pub(crate) fn text(alloc: Global) -> Result<Vec<u8>, AllocError> {
    let parse_state = ParseState {
        bytes: TEXT,
        options: &ParseOptions::default(),
        definitions: Vec::new(alloc),
        gfm_footnote_definitions: Vec::new(alloc),
    };
    let whole = [Piece {
        start: (0, 0),
        end: (TEXT.len(), 0),
    }];
    plain_of(alloc, &parse_state, &whole)
}
