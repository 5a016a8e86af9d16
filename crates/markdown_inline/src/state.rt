//! The names of states, what a state answers, and the states of inline content by their names.

pub use markdown_event::state::{State, StateName};
pub use markdown_run::state::{Inline, call};
