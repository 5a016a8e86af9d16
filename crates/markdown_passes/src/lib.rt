//! The passes over data, which merge neighbours, set whitespace apart, and set email literals apart.
#![tactic(auto)]

mod clear;
pub mod email;
mod literal;
pub mod partial_data;
pub mod partial_whitespace;
