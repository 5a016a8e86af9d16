//! Reads the blocks of a document, by CommonMark 0.31.2: `document::blocks` returns them as rows.
//!
//! A row is a block and its depth: how many containers stand round it. A text is pieces of the document, one for each line of it, so no byte is copied.
//! The rows are exactly the tree that `markdown_block_model` defines, with link reference definitions still in their paragraphs.
#![tactic(auto)]

pub mod block;
pub mod document;
pub mod ends;
mod leaves;
mod matter;
mod path;
mod read;
mod reader;
mod rest;
pub mod text;
