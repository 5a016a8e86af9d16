//! The limits of the inline grammar, and the tables of named character references.

use crate::util::reference_rows::character_references;

/// The most bytes that the name of a named character reference may have.
pub const CHARACTER_REFERENCE_NAMED_SIZE_MAX: usize = 31;

/// The most digits that a decimal character reference may have.
pub const CHARACTER_REFERENCE_DECIMAL_SIZE_MAX: usize = 7;

/// The most digits that a hexadecimal character reference may have.
pub const CHARACTER_REFERENCE_HEXADECIMAL_SIZE_MAX: usize = 6;

/// The most bytes that the scheme of an autolink may have; the least is 2.
pub const AUTOLINK_SCHEME_SIZE_MAX: usize = 32;

/// The most bytes that a label between the dots of an email autolink's domain may have.
pub const AUTOLINK_DOMAIN_SIZE_MAX: usize = 63;

/// The greatest depth of parentheses in the raw destination of a resource.
pub const RESOURCE_DESTINATION_BALANCE_MAX: usize = 32;

/// The most codes that the label of a full reference may have.
pub const LINK_REFERENCE_SIZE_MAX: usize = 999;

/// The fewest spaces before a line ending that make a hard break.
pub const HARD_BREAK_PREFIX_SIZE_MIN: usize = 2;

/// What follows `<![` in the opening of a CDATA section.
pub const HTML_CDATA_PREFIX: [u8; 6] = *b"CDATA[";

// The lines of HTML 5 in the parts that are given.
macro_rules! html_5 {
    ($([$($name:literal $(: $text:literal)? $(=> $new:literal $(| $old:literal)?)? $(+> $html:literal)?,)*])*) => {
        [$($($(($name, $text),)? $(($name, $new),)?)*)*]
    };
}

// The lines of HTML 4 in the parts that are given.
macro_rules! html_4 {
    ($([$($name:literal $(: $text:literal)? $(=> $new:literal $(| $old:literal)?)? $(+> $html:literal)?,)*])*) => {
        [$($($(($name, $text),)? $($(($name, $old),)?)?)*)*]
    };
}

// The lines of HTML in the parts that are given.
macro_rules! html {
    ($([$($name:literal $(: $text:literal)? $(=> $new:literal $(| $old:literal)?)? $(+> $html:literal)?,)*])*) => {
        [$($($(($name, $text),)? $(($name, $new),)? $(($name, $html),)?)*)*]
    };
}

// The lines of HTML in the parts that are given, in one text: of each its name, a `;`, its text and a space.
macro_rules! html_text {
    ($([$($name:literal $(: $text:literal)? $(=> $new:literal $(| $old:literal)?)? $(+> $html:literal)?,)*])*) => {
        concat!($($($name, ";", $($text,)? $($new,)? $($html,)? " ",)*)*)
    };
}

// The lines of one part, before which stand as many others as there are words in the first brackets.
macro_rules! part {
    ($rows:ident [] [$($row:tt)*] $($rest:tt)*) => { $rows! { [$($row)*] } };
    ($rows:ident [skip $($more:tt)*] [$($row:tt)*] $($rest:tt)*) => { part! { $rows [$($more)*] $($rest)* } };
}

/// The named character references of HTML 4: each name, without `&` and `;`, and the text that it stands for. The
/// names stand in the order of their bytes.
pub const CHARACTER_REFERENCES_HTML_4: [(&str, &str); 252] = character_references!(html_4);

/// The named character references of HTML 5 that are shipped: those of HTML 4, two of them with another text, and 42
/// more. The names stand in the order of their bytes.
pub const CHARACTER_REFERENCES: [(&str, &str); 294] = character_references!(html_5);

/// The named character references of HTML: each name, without `&` and `;`, and the text that it stands for. The
/// texts of HTML 5 as it is shipped are the same here. The names stand in the order of their bytes.
pub const CHARACTER_REFERENCES_HTML: [(&str, &str); 2125] = character_references!(html);

// The same lines in one text, which a program holds in a quarter of the space: of each its name, a `;`, its text and a space.
pub(crate) const HTML_LINES: &str = character_references!(html_text);

// The lines of HTML 5 whose names begin with a capital letter.
pub(crate) const HTML_5_CAPITALS: [(&str, &str); 73] = character_references!(part html_5 []);

// The lines of HTML 5 whose names begin with `a` to `d`.
pub(crate) const HTML_5_A_TO_D: [(&str, &str); 44] = character_references!(part html_5 [skip]);

// The lines of HTML 5 whose names begin with `e` to `l`.
pub(crate) const HTML_5_E_TO_L: [(&str, &str); 61] = character_references!(part html_5 [skip skip]);

// The lines of HTML 5 whose names begin with `m` to `r`.
pub(crate) const HTML_5_M_TO_R: [(&str, &str); 69] =
    character_references!(part html_5 [skip skip skip]);

// The lines of HTML 5 whose names begin with `s` to `z`.
pub(crate) const HTML_5_S_TO_Z: [(&str, &str); 47] =
    character_references!(part html_5 [skip skip skip skip]);

// The lines of HTML 4 whose names begin with a capital letter.
pub(crate) const HTML_4_CAPITALS: [(&str, &str); 59] = character_references!(part html_4 []);

// The lines of HTML 4 whose names begin with `a` to `d`.
pub(crate) const HTML_4_A_TO_D: [(&str, &str); 37] = character_references!(part html_4 [skip]);

// The lines of HTML 4 whose names begin with `e` to `l`.
pub(crate) const HTML_4_E_TO_L: [(&str, &str); 53] = character_references!(part html_4 [skip skip]);

// The lines of HTML 4 whose names begin with `m` to `r`.
pub(crate) const HTML_4_M_TO_R: [(&str, &str); 59] =
    character_references!(part html_4 [skip skip skip]);

// The lines of HTML 4 whose names begin with `s` to `z`.
pub(crate) const HTML_4_S_TO_Z: [(&str, &str); 44] =
    character_references!(part html_4 [skip skip skip skip]);
