//! What every word of the inline layer means: definitions, in `specs/`, and the laws on them.
//!
//! Nothing here is run. A function of this crate has no parameters and an empty body: its contract is a law, and
//! the check proves it.
#![tactic(auto)]

pub mod laws;
