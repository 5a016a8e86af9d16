//! Where the links, images, footnote calls, autolinks and literals of a tree lead.
#![tactic(auto)]

pub mod links;
pub mod strings;
pub mod target;
