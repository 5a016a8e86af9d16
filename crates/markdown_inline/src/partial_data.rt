//! Data, text that means itself (CommonMark 6.9). The states are those of `markdown_partial`; the pass `resolve`, which merges neighbouring data, is
//! that of `markdown_passes`.
//!
//!     data ::= (code (code - stop)*)?
//!
//! The modules there have the grammar, the events and the definitions.

pub use markdown_partial::partial_data::{at_break, inside, inside_stops, start};
pub use markdown_passes::partial_data::{mark, next_data, opens_data, resolve};
