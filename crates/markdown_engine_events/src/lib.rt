//! Lists of events with links between them, and edits of such a list; cut from `markdown_engine` so that it is proved beside the crates of contents
//! and of notes.
#![tactic(auto)]

pub mod event_list;
pub mod events;
mod packed;
pub mod subtokenize;
pub mod util;
mod whole;
