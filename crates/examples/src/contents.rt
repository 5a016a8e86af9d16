// Counts the events of each paragraph of a document, which is prepared once for all of them.
use markdown_inline::document::Document;
use markdown_inline::options::ALL_CONSTRUCTS;
use markdown_inline::parser::{ParseState, Piece};
use std::alloc::{AllocError, Global};

// A document of two paragraphs, and where each begins and ends.
const DOCUMENT: &[u8] = b"One *word* of many.\n\nSee www.example.com for ~~others~~ more.\n";

const PARAGRAPHS: [(usize, usize); 2] = [(0, 19), (21, 61)];

// A line for each paragraph.
pub(crate) fn counted(alloc: Global) -> Result<String, AllocError> {
    let parse_state = ParseState {
        bytes: DOCUMENT,
        options: &ALL_CONSTRUCTS,
        definitions: Vec::new(alloc),
        gfm_footnote_definitions: Vec::new(alloc),
    };
    let mut lines = String::new(alloc);
    let Some(document) = Document::new(alloc, parse_state)? else {
        return Ok(lines);
    };
    for (from, to) in PARAGRAPHS {
        let pieces = [Piece {
            start: (from, 0),
            end: (to, 0),
        }];
        if let Some(content) = document.content(&pieces)
            && content.is_text()
        {
            let events = content.text_list(alloc, false)?.events;
            writeln!(lines, "{} events from byte {from} to {to}", events.len())?;
        }
    }
    Ok(lines)
}
