//! The HTML of a Markdown document, by CommonMark 0.31.2.
#![tactic(auto)]

mod code;
pub mod definitions;
pub mod document;
mod given;
mod html;
mod leaves;
mod limit;
mod lines;
pub mod lists;
mod page;
mod tags;
mod texts;
mod write;
