//! Walks over lists of events, edits of them, and what is lent of a document.

pub use markdown_content::util::{skip, slice};
pub use markdown_engine_events::util::edit_map;
