//! The constructs that stand alone and need no whitespace: escapes, references, hard breaks by a backslash, spans and autolinks.
#![tactic(auto)]

pub mod autolink;
pub mod character_escape;
pub mod character_reference;
pub mod hard_break_escape;
mod marks;
pub mod raw_text;
mod renaming;
