//! A case: what a line of the input says behind the word for its part.
//!
//!     CALL WORD.. | TEXT
//!
//! A number is written in base 10. A place is the index of a byte, or where codes of a tab there stand before it, as `1+2` for two of them.
//! A piece is two places with `-` between: `0-1+2`. A text has one part or more with ` | ` between. In a part `%09` stands for the byte with
//! this number in base 16, and `3*ab` for `ababab`. A case without ` | ` has the empty text.
use markdown_content::parser::Piece;
use percent_encoding::percent_decode;
use std::alloc::{AllocError, Global};

#[derive(Drop)]
pub(crate) struct Case<'a> {
    // What is called.
    pub(crate) call: &'a str,
    // Its words, with spaces between.
    words: &'a str,
    // Its text.
    pub(crate) text: Vec<u8>,
}

impl<'a> Case<'a> {
    // The case that a line says.
    pub(crate) fn read(alloc: Global, line: &'a str) -> Result<Case<'a>, AllocError> {
        let (head, written) = line.split_once(" | ").unwrap_or((line, ""));
        let (call, words) = head.split_once(' ').unwrap_or((head, ""));
        let text = text_of(alloc, written)?;
        Ok(Case { call, words, text })
    }

    // The word of this number, from 0 on, and an empty one where there are fewer.
    pub(crate) fn word(&self, number: usize) -> &'a str {
        self.words
            .split_ascii_whitespace()
            .nth(number)
            .unwrap_or("")
    }

    // What the word of this number says as a number.
    pub(crate) fn number(&self, number: usize) -> usize {
        number_of(self.word(number))
    }

    // The words from this number on.
    pub(crate) fn words(&self, from: usize, alloc: Global) -> Result<Vec<&'a str>, AllocError> {
        self.words
            .split_ascii_whitespace()
            .skip(from)
            .collect(alloc)
    }

    // The words that are pieces.
    pub(crate) fn pieces(&self, alloc: Global) -> Result<Vec<Piece>, AllocError> {
        self.words
            .split_ascii_whitespace()
            .filter_map(piece_of)
            .collect(alloc)
    }

    // The text as characters. It is empty where the bytes are not UTF-8.
    pub(crate) fn characters(&self) -> &str {
        str::from_utf8(&self.text).unwrap_or("")
    }
}

// The text that is written here.
fn text_of(alloc: Global, written: &str) -> Result<Vec<u8>, AllocError> {
    let mut text = Vec::new(alloc);
    for part in written.split(" | ") {
        push_part(&mut text, part)?;
    }
    Ok(text)
}

// Appends the bytes of a part of a text.
fn push_part(text: &mut Vec<u8>, part: &str) -> Result<(), AllocError> {
    let (times, written) = match part.split_once('*') {
        Some((times, rest)) if times.parse::<usize>().is_ok() => (number_of(times), rest),
        _ => (1, part),
    };
    for _ in 0..times {
        percent_decode(written.as_bytes()).append_to(text)?;
    }
    Ok(())
}

// What a word says as a number. It is the greatest one where the word says none.
pub(crate) fn number_of(word: &str) -> usize {
    word.parse().unwrap_or(usize::MAX)
}

// What a word says as a place.
fn place_of(word: &str) -> (usize, usize) {
    let (index, codes) = word.split_once('+').unwrap_or((word, "0"));
    (number_of(index), number_of(codes))
}

// What a word says as a piece, if it is one.
fn piece_of(word: &str) -> Option<Piece> {
    let (start, end) = word.split_once('-')?;
    Some(Piece {
        start: place_of(start),
        end: place_of(end),
    })
}

// The whole of a document as its only piece.
pub(crate) fn whole(bytes: &[u8]) -> [Piece; 1] {
    [Piece {
        start: (0, 0),
        end: (bytes.len(), 0),
    }]
}

// A request for room for these bytes, whose refusal is no fault.
pub(crate) fn ask_in_vain(alloc: Global, bytes: &[u8]) -> Vec<u8> {
    let mut held = Vec::new(alloc);
    let _ = held.extend_from_slice(bytes);
    held
}

// Whether these bytes are held, or none where they were refused.
pub(crate) fn is_held(held: &[u8], bytes: &[u8]) -> bool {
    held.is_empty() || held == bytes
}
