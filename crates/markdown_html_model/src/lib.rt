//! What the HTML of an inline tree is: the definition, in `specs/`, and the types that it speaks of; texts, addresses and strings as HTML
//! writes them; and laws that hold of the HTML whatever the document says.
#![tactic(auto)]

pub mod escape;
mod kept;
pub mod laws;
pub mod options;
pub mod resolve;
pub mod role;
pub mod scheme;
