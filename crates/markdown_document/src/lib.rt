//! Documents that are prepared once: their known places, and runs over many contents of each.
#![tactic(auto)]

pub mod document;
pub mod places;
