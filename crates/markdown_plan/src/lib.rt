//! What constructs share: tests on bytes, and the method by which their states are proved.
//!
//! The method is in `specs/` and `proofs/`: the plan of a construct, which says by the codes still to come how a run from its middle
//! ends; leaves whose name is settled at their end; the steps from one state to the next; and what whole readings cover.
#![tactic(auto)]

pub mod bytes;
