//! Events: what a run answers, in order, with the places at which they stand. The names of states and of passes, and what a state answers.
//! Lists that contracts see as the list of their items: those that grow at their end, those that grow on top, and places in order.
#![tactic(auto)]

pub mod event;
pub mod place_index;
pub mod resolve;
pub mod seq;
pub mod state;
