//! The contents of a text, and how many events they have in each way of reading: runs alone, without the printing of their events.
use markdown_inline::configuration::ParseOptions;
use markdown_inline::document::Document;
use markdown_inline::options::ALL_CONSTRUCTS;
use markdown_inline::parser::ParseState;
use markdown_inline::run::{self, Piece};
use std::alloc::{AllocError, Global};

// Appends so many made definitions.
fn make(alloc: Global, found: &mut Vec<String>, count: usize) -> Result<(), AllocError> {
    for number in 0..count {
        found.push(format!(in alloc; "definition {number}")?)?;
    }
    Ok(())
}

// Whether a word asks for something other than a definition.
fn asks_otherwise(word: &str) -> bool {
    word == "commonmark"
        || word.as_bytes().starts_with(b"cut=")
        || word.as_bytes().starts_with(b"note=")
}

// The definitions that words ask for.
fn definitions(alloc: Global, words: &[String]) -> Result<Vec<String>, AllocError> {
    let mut found = Vec::new(alloc);
    for word in words {
        match word.as_str().strip_prefix("made=") {
            Some(count) => make(alloc, &mut found, count.parse().unwrap_or(0))?,
            None if asks_otherwise(word.as_str()) => {}
            None => found.push(word.clone()?)?,
        }
    }
    Ok(found)
}

// The footnotes that words ask for.
fn footnotes(alloc: Global, words: &[String]) -> Result<Vec<String>, AllocError> {
    let mut found = Vec::new(alloc);
    for word in words {
        if let Some(name) = word.as_str().strip_prefix("note=") {
            found.push(String::from_str(alloc, name)?)?;
        }
    }
    Ok(found)
}

// How many bytes words leave out at the front of each line.
fn cut_of(words: &[String]) -> usize {
    let mut found = 0;
    for word in words {
        if let Some(count) = word.as_str().strip_prefix("cut=") {
            found = count.parse().unwrap_or(0);
        }
    }
    found
}

// The options that words ask for.
fn options(words: &[String]) -> ParseOptions {
    ParseOptions {
        commonmark: words.iter().any(|word| word.as_str() == "commonmark"),
        ..ALL_CONSTRUCTS
    }
}

// The contents of a text, each as its first index and the one past its last.
fn contents(alloc: Global, bytes: &[u8]) -> Result<Vec<(usize, usize)>, AllocError> {
    let mut found = Vec::new(alloc);
    let mut from = 0;
    for at in 0..bytes.len() {
        let ends = bytes[at] == b'\n' && (at + 1 == bytes.len() || bytes[at + 1] == b'\n');
        if ends {
            if from < at {
                found.push((from, at))?;
            }
            from = at.saturating_add(2);
        }
    }
    if from < bytes.len() {
        found.push((from, bytes.len()))?;
    }
    Ok(found)
}

// The content from an index to another, as one piece.
fn whole(from: usize, to: usize) -> [Piece; 1] {
    [Piece {
        start: (from, 0),
        end: (to, 0),
    }]
}

// The content from an index to another, as a piece for each line, without so many bytes at the front of each.
fn lines(
    alloc: Global,
    bytes: &[u8],
    from: usize,
    to: usize,
    cut: usize,
) -> Result<Vec<Piece>, AllocError> {
    let mut found = Vec::new(alloc);
    let mut start = from.saturating_add(cut);
    for at in from..to {
        if bytes.get(at) == Some(&b'\n') {
            found.push(Piece {
                start: (start, 0),
                end: (at.saturating_add(1), 0),
            })?;
            start = at.saturating_add(cut).saturating_add(1);
        }
    }
    found.push(Piece {
        start: (start, 0),
        end: (to, 0),
    })?;
    Ok(found)
}

// The number of events of pieces of a document, read by themselves.
fn count_run(
    alloc: Global,
    parse_state: &ParseState,
    pieces: &[Piece],
) -> Result<usize, AllocError> {
    if !run::is_text(parse_state.bytes, pieces) {
        return Ok(0);
    }
    Ok(
        run::text_list(alloc, parse_state, pieces, false)?
            .events
            .len(),
    )
}

// The number of events of a content of a prepared document.
fn count_content(
    alloc: Global,
    document: &Document,
    pieces: &[Piece],
) -> Result<usize, AllocError> {
    match document.content(pieces) {
        Some(content) if content.is_text() => Ok(content.text_list(alloc, false)?.events.len()),
        _ => Ok(0),
    }
}

// The number of events of these contents, each a document by itself or all pieces of one. It is no part of its caller when it runs, nor is
// the next function, so that their work can be told.
#[inline(never)]
fn count_runs(
    alloc: Global,
    parse_state: ParseState,
    contents: &[(usize, usize)],
    cut: usize,
    apart: bool,
) -> Result<usize, AllocError> {
    let bytes = parse_state.bytes;
    let mut parse_state = parse_state;
    let mut total = 0usize;
    for content in contents {
        let (mut from, mut to) = *content;
        if apart {
            parse_state.bytes = bytes.get(from..to).unwrap_or(b"");
            (from, to) = (0, parse_state.bytes.len());
        }
        let found = if cut == 0 {
            count_run(alloc, &parse_state, &whole(from, to))?
        } else {
            let pieces = lines(alloc, parse_state.bytes, from, to, cut)?;
            count_run(alloc, &parse_state, pieces.as_slice())?
        };
        total = total.saturating_add(found);
    }
    Ok(total)
}

// The number of events of these contents as contents of one document.
#[inline(never)]
fn count_contents(
    alloc: Global,
    parse_state: ParseState,
    contents: &[(usize, usize)],
    cut: usize,
) -> Result<usize, AllocError> {
    let bytes = parse_state.bytes;
    let Some(document) = Document::new(alloc, parse_state)? else {
        return Ok(0);
    };
    let mut total = 0usize;
    for content in contents {
        let (from, to) = *content;
        let found = if cut == 0 {
            count_content(alloc, &document, &whole(from, to))?
        } else {
            let pieces = lines(alloc, bytes, from, to, cut)?;
            count_content(alloc, &document, pieces.as_slice())?
        };
        total = total.saturating_add(found);
    }
    Ok(total)
}

/// The number of events of all contents, read in the way of a word, with the options and definitions that other words ask for; none where that word is not
/// known.
pub(crate) fn count(
    alloc: Global,
    bytes: &[u8],
    way: &str,
    words: &[String],
) -> Result<Option<usize>, AllocError> {
    let contents = contents(alloc, bytes)?;
    let options = options(words);
    let parse_state = ParseState {
        bytes,
        options: &options,
        definitions: definitions(alloc, words)?,
        gfm_footnote_definitions: footnotes(alloc, words)?,
    };
    let (read, cut) = (contents.as_slice(), cut_of(words));
    let events = match way {
        "run" => count_runs(alloc, parse_state, read, cut, false)?,
        "documents" => count_runs(alloc, parse_state, read, cut, true)?,
        "document" => count_contents(alloc, parse_state, read, cut)?,
        "prepare" => count_contents(alloc, parse_state, &[], cut)?,
        _ => return Ok(None),
    };
    Ok(Some(events))
}
