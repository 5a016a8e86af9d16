//! Walks over lists of events, and what is lent of a document.

pub mod skip;
pub mod slice;
