//! Runs over a content, by the loop over its elements or by the states alone; and the layer: the states and passes of inline content by name, with
//! the laws of all states.
#![tactic(auto)]

mod by_states;
mod elements;
pub mod laws;
pub mod resolve;
pub mod run;
pub mod state;
pub mod text;

pub use markdown_attention::attention;
