//! What a run reads.
use crate::configuration::ParseOptions;

/// A piece of a document, from a place to a place.
///
/// Each place is the index of a byte and the number of codes of the tab there that stand before it.
#[derive(Clone, Copy, Debug, PartialEq, Eq)]
pub struct Piece {
    /// The place of the first code.
    pub start: (usize, usize),
    /// The place after the last code.
    pub end: (usize, usize),
}

/// What all runs over one document have in common.
#[derive(Drop)]
pub struct ParseState<'a> {
    /// The document.
    pub bytes: &'a [u8],
    /// What is looked for.
    pub options: &'a ParseOptions,
    /// The identifiers of the definitions, normalized by `normalize_identifier`; they are compared as they are given.
    pub definitions: Vec<String>,
    /// Those of the footnote definitions, normalized alike.
    pub gfm_footnote_definitions: Vec<String>,
}
