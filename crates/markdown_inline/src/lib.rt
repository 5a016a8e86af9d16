//! Markdown's inline layer whole: its states and passes by name, its runs, and the program. All that a caller names stands here: what is read and
//! answered (`parser`, `configuration`, `event`), the modules of the constructs, and the tokenizer by which single calls are made, with the types
//! of its fields. The notes of what cannot come, which some scratch fields hold, are taken by the runs, so their types stay in `markdown_notes`.
//!
//! The definitions of each crate below stand here too, under the crate's name, and so do its lemmas: a contract that speaks of a content cites
//! `Rattle.markdown_inline.specs.markdown_content.Content`. So a crate that calls this one names no other in `crates.txt`.
#![tactic(auto)]

pub mod gfm_autolink_literal;
pub mod label_end;
pub mod laws;
pub mod options;
pub mod partial_data;
pub mod pieces;
pub mod resolve;
pub mod run;
pub mod state;
pub mod util;

pub use markdown_content::{bytes, configuration, content, cursor, parser, walk};
pub use markdown_document::document;
pub use markdown_engine::{layer, tokenizer};
pub use markdown_engine_events::{event_list, events, subtokenize};
pub use markdown_event::{event, place_index, seq};
pub use markdown_label::{gfm_label_start_footnote, label_start_image, label_start_link};
pub use markdown_leaf::{
    autolink, character_escape, character_reference, hard_break_escape, raw_text,
};
pub use markdown_leaf_gfm::gfm_task_list_item_check;
pub use markdown_leaf_html::html_text;
pub use markdown_partial::{
    partial_destination, partial_label, partial_space_or_tab, partial_space_or_tab_eol,
    partial_title,
};
pub use markdown_passes::partial_whitespace;
pub use markdown_program::{lines, program};
pub use markdown_run::{attention, text};
pub use markdown_run_text::string;
pub use markdown_tree::{definitions, labels, node, tree};
