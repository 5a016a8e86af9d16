//! The names of passes, and the passes of inline content by their names.

pub use markdown_event::resolve::ResolveName;
pub use markdown_run::resolve::call;
