//! Notes of what cannot come, so that nobody looks for it: where in a content runs, sequences and titles stand, found in one walk; and the
//! names of definitions in order, with the brackets in them and in a content.
#![tactic(auto)]

pub mod bracket_index;
pub mod name_index;
pub mod run_index;
pub mod sequence_index;
pub mod title_index;
