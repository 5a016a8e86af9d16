//! Emphasis, strong emphasis and strikethrough.
#![tactic(auto)]

pub mod attention;
