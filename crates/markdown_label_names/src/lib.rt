//! What labels stand for: their identifiers, and whether these are defined; cut from `markdown_label` so that it is proved beside the crates of
//! parts and of passes.
#![tactic(auto)]

pub mod identifier;
mod label_text;
mod lookup;
