//! The program, over any reader and writer: the words that it is given, what it finds in a content, and the printed lines of events.
#![tactic(auto)]

pub mod lines;
pub mod program;
pub mod words;
