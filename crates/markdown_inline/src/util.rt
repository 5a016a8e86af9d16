//! Values that the constructs stand on: character references, identifiers, classes of characters, and the limits; and what helps with events: edits,
//! slices of the document, and the search for a name.

pub use markdown_content::util::{skip, slice};
pub use markdown_engine_events::util::edit_map;
pub use markdown_util::util::{char, normalize_identifier};

/// The text that a character reference stands for, and texts with references.
pub mod character_reference {
    pub use markdown_util::decoding::{
        Decoding, decode, decode_by, decode_in, decode_numeric, decode_numeric_by, parse,
    };
    pub use markdown_util::util::character_reference::{
        Names, decode_named, decode_named_in, known_names, value_max, value_test,
    };
}

/// The limits of the inline grammar, and the tables of named character references.
pub mod constant {
    // The longest document, in bytes, and the distance between two tab stops, in columns: the engine asks for both.
    pub use markdown_content::content::DOCUMENT_LIMIT;
    pub use markdown_content::walk::TAB_SIZE;
    pub use markdown_util::util::constant::{
        AUTOLINK_DOMAIN_SIZE_MAX, AUTOLINK_SCHEME_SIZE_MAX, CHARACTER_REFERENCE_DECIMAL_SIZE_MAX,
        CHARACTER_REFERENCE_HEXADECIMAL_SIZE_MAX, CHARACTER_REFERENCE_NAMED_SIZE_MAX,
        CHARACTER_REFERENCES, CHARACTER_REFERENCES_HTML, CHARACTER_REFERENCES_HTML_4,
        HARD_BREAK_PREFIX_SIZE_MIN, HTML_CDATA_PREFIX, LINK_REFERENCE_SIZE_MAX,
        RESOURCE_DESTINATION_BALANCE_MAX,
    };
}
