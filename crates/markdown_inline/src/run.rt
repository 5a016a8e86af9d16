//! Runs over a content, and the innermost events of what they find.

pub use markdown_engine::run::resume;
pub use markdown_innermost::leaf::{Leaf, Leaves};
pub use markdown_innermost::leaves;
pub use markdown_run::run::{
    ListRun, Piece, Run, construct, is_content, is_text, run_through, string, string_list, text,
    text_by_states, text_list, text_through,
};
