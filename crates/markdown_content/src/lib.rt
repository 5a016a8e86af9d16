//! What the inline layer reads: a document as codes with their places, the pieces that are one content, with tests of them, a cursor over
//! them, and trees.
#![tactic(auto)]

mod beside;
mod byte_counts;
pub mod bytes;
pub mod configuration;
pub mod content;
pub mod cursor;
pub mod label_kind;
pub mod lanes;
pub mod parser;
pub mod part;
pub mod util;
pub mod walk;
