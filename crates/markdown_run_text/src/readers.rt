//! Readers of the elements of a text: each reads one construct whole, where it stands, without the states.
//!
//! A reader stands at the place of a tokenizer. Where its construct stands there in a form that it knows, it appends the events, moves behind the
//! construct and answers `true`. Otherwise it answers `false`, and the tokenizer is as before. The head of each module says which forms its reader
//! knows; the loop over elements, `elements` of `markdown_run`, has the states try the others. The reader of data alone answers nothing, since data may
//! begin at any code.
//!
//! In the heads `Data 0-2` stands for two events, an Enter at byte 0 and an Exit at byte 2; what stands inside is indented. In pictures the carets
//! are under the codes that a function passes or reads. Where it passes none, they are under the codes that it looks at, from the place on.
#![tactic(auto)]

pub mod attention;
pub mod character_escape;
mod events;
pub mod label_end;
mod label_end_reference;
pub mod label_start_image;
pub mod label_start_link;
pub mod partial_data;
pub mod raw_text;
