//! Values that the constructs of the inline layer stand on, each of which may also be called alone.

pub mod char;
pub mod character_reference;
pub mod constant;
mod html_lines;
pub mod normalize_identifier;
mod reference_rows;
