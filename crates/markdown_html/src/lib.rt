//! The HTML of an inline tree, written from its events.
#![tactic(auto)]

mod addresses;
mod brought;
mod brought_at_most;
mod calls;
pub mod footnotes;
mod found;
mod groups;
mod leaves;
mod references;
mod stretch;
pub mod targets;
mod writer;

pub use brought::left_of_limit;
pub use brought_at_most::is_within_limit;
pub use writer::{push_html, text_by, text_of, to_html};
