//! The engine of the inline layer: the tokenizer, attempts, and the loop that runs a layer's states. What it stands on is reached through it too.
#![tactic(auto)]

pub mod layer;
pub mod run;
pub mod tokenizer;
pub mod util;

pub use markdown_content::{bytes, configuration, cursor, parser, walk};
pub use markdown_engine_events::{event_list, events, subtokenize};
pub use markdown_event::{event, resolve, state};
pub use markdown_notes::{bracket_index, name_index, run_index, sequence_index, title_index};
