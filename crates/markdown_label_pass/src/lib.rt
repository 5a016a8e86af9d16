//! The pass that makes links, images and footnote calls of the labels that a run has found; cut from `markdown_label` so that `markdown_run_text`
//! does not wait for it.
#![tactic(auto)]

pub mod label_groups;
