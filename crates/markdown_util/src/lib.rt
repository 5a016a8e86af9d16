//! Character references with the text that a whole one stands for, identifiers and classes of characters, as the inline layer of Markdown
//! reads them.
#![tactic(auto)]

pub mod decoding;
pub mod laws;
pub mod util;
