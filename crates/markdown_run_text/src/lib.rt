//! What a text is read by: the states of strings and of texts, which try what may begin at the code at hand, and the passes that end a run over
//! them; readers of one construct each; and rows, what a run over a text leaves behind.
#![tactic(auto)]

pub mod readers;
pub mod string;
pub mod text;
mod tries;
