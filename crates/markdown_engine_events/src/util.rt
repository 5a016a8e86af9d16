//! Edits of a list of events.

pub mod edit_map;
pub(crate) mod edits_in_place;
