//! A tree over the events of a run, without a copy of them; and definitions by their labels, with which of them a link, an image or a
//! footnote call refers to.
#![tactic(auto)]

pub mod definitions;
mod index;
pub mod labels;
pub mod laws;
pub mod node;
pub mod tree;
