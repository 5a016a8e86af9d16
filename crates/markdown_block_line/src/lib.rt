//! The first half of a reader of blocks: what stands on the rest of a line, by CommonMark 0.31.2.
//!
//! The rest of a line is a slice of bytes, one for each code of the line from a place on: the value of the code. A line with no tab and no
//! carriage return has these bytes in the document, so that its rest is borrowed from there. Each contract speaks of every list of codes that has
//! these values.
#![tactic(auto)]

pub mod begins;
pub mod breaks;
pub mod containers;
pub mod document;
pub mod extensions;
pub mod html;
pub mod leaves;
pub mod line;
pub mod matter;
pub mod starts;
mod tags;
