//! Reads link reference definitions at the front of a text, by CommonMark 0.31.2.
#![tactic(auto)]

pub mod copy;
mod definition;
mod destinations;
pub mod document;
pub mod front;
mod resolved;
mod spacing;
mod texts;
