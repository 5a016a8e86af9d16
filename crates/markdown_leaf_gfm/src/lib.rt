//! Constructs of GitHub Flavored Markdown: checks of task list items, and autolink literals.
#![tactic(auto)]

pub mod domain_outlook;
pub mod gfm_autolink_literal;
pub mod gfm_task_list_item_check;
