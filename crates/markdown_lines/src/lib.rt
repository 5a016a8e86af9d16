//! Pieces of paragraphs, made of where their lines begin.
#![tactic(auto)]

pub mod laws;
pub mod lines;
