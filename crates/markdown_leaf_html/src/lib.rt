//! HTML in text: tags, comments, instructions, declarations and CDATA sections.
#![tactic(auto)]

pub mod html_text;
