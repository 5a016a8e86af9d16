//! The parts that several constructs share: data, whitespace on one line, whitespace with a line ending; and the parts of resources and
//! references: destinations, titles and labels.
#![tactic(auto)]

mod leaf;
mod linked_text;
pub mod literal_words;
pub mod partial_data;
pub mod partial_destination;
pub mod partial_label;
pub mod partial_space_or_tab;
pub mod partial_space_or_tab_eol;
pub mod partial_title;
