//! The characters beside an index of a text, and their classes.

ghost use Rattle.std.specs.Prelude.{◌≡◌, IsUtf8};
ghost use Rattle.std.specs.Str.{IsCharBoundary};
ghost use Rattle.unicode.specs.Binary.{is_white_space};
ghost use Rattle.unicode.specs.GeneralCategory.{general_category};
ghost use Rattle.markdown_util.specs.Neighbours.{before_index, after_index, class_of, listed_class_of, is_listed_space, is_zs, is_punctuation};

use unicode::properties::{GeneralCategory, GeneralCategoryGroup, is_white_space};

/// The class of a character, by which a run of markers may open or close.
#[derive(Clone, Copy, Debug, PartialEq, Eq)]
pub enum Kind {
    /// White space by Unicode, or no character at all.
    Whitespace,
    /// A character of the general categories P (punctuation) and S (symbols).
    Punctuation,
    /// Every other character.
    Other,
}

/// The character just before an index of a text in UTF-8, and none at its start. The index is that
/// of a byte.
pub fn before_index(bytes: &[u8], index: usize) -> Option<char>
    requires utf8 { IsUtf8 bytes.now }
    requires boundary { IsCharBoundary bytes.now index }
    ensures { result ≡ before_index bytes.now index }
{
    // SAFETY: a text in UTF-8 is cut at a character boundary.
    let front = unsafe { str::from_utf8_unchecked(&bytes[..index]) };
    front.chars().next_back()
}

/// The character at an index of a text in UTF-8, and none at its end. The index is that of a byte.
pub fn after_index(bytes: &[u8], index: usize) -> Option<char>
    requires utf8 { IsUtf8 bytes.now }
    requires boundary { IsCharBoundary bytes.now index }
    ensures { result ≡ after_index bytes.now index }
{
    // SAFETY: a text in UTF-8 is cut at a character boundary.
    let rest = unsafe { str::from_utf8_unchecked(&bytes[index..]) };
    rest.chars().next()
}

/// The class of a character. A missing one, at the start or the end of a text, is whitespace.
#[tactic(auto, unfolding(crate::specs::Neighbours::class_of))]
pub fn classify_opt(char_opt: Option<char>) -> Kind
    ensures { result ≡ class_of char_opt }
{
    match char_opt {
        None => Kind::Whitespace,
        Some(c) if is_space(c) => Kind::Whitespace,
        Some(c) if is_punctuation(c) => Kind::Punctuation,
        Some(_) => Kind::Other,
    }
}

/// The class of a character, where whitespace is what CommonMark lists: general category Zs, tab, line feed, form feed and carriage
/// return. A missing character is whitespace here too.
#[tactic(auto, unfolding(crate::specs::Neighbours::listed_class_of))]
pub fn classify_listed(char_opt: Option<char>) -> Kind
    ensures { result ≡ listed_class_of char_opt }
{
    let Some(c) = char_opt else {
        return Kind::Whitespace;
    };
    if is_listed_space(c) {
        Kind::Whitespace
    } else if is_punctuation(c) {
        Kind::Punctuation
    } else {
        Kind::Other
    }
}

/// The class of the character at an index of a text in UTF-8. The index is that of a byte.
pub fn kind_after_index(bytes: &[u8], index: usize) -> Kind
    requires utf8 { IsUtf8 bytes.now }
    requires boundary { IsCharBoundary bytes.now index }
    ensures { result ≡ class_of (after_index bytes.now index) }
{
    classify_opt(after_index(bytes, index))
}

// Whether a character is white space by Unicode. Of ASCII this needs no look into the tables.
#[tactic(auto, using(crate::proofs::AsciiClasses::white_space_ascii))]
#[inline]
fn is_space(c: char) -> bool
    ensures { result ≡ is_white_space c }
{
    if c.is_ascii() {
        return ('\t' <= c && c <= '\r') || c == ' ';
    }
    is_white_space(c)
}

// Whether CommonMark lists a character as whitespace.
fn is_listed_space(c: char) -> bool
    ensures { result ≡ is_listed_space c }
{
    matches!(c, '\t' | '\n' | '\x0C' | '\r') || is_space_separator(c)
}

// Whether the general category of a character is Zs. Of ASCII this needs no look into the tables.
#[tactic(auto, using(crate::proofs::AsciiClasses::space_separator_ascii))]
#[inline]
fn is_space_separator(c: char) -> bool
    ensures { result ≡ is_zs (general_category c) }
{
    if c.is_ascii() {
        return c == ' ';
    }
    is_zs(GeneralCategory::for_char(c))
}

// Whether a general category is Zs.
fn is_zs(category: GeneralCategory) -> bool
    ensures { result ≡ is_zs category }
{
    matches!(category, GeneralCategory::SpaceSeparator)
}

// Whether the general category of a character is P or S. Of ASCII this needs no look into the tables.
#[inline]
fn is_punctuation(c: char) -> bool
    ensures { result ≡ is_punctuation c }
{
    if c.is_ascii() {
        return c.is_ascii_punctuation();
    }
    is_in_punctuation(c)
}

// The same of any character, by the tables.
fn is_in_punctuation(c: char) -> bool
    ensures { result ≡ is_punctuation c }
{
    let category = GeneralCategory::for_char(c);
    GeneralCategoryGroup::Punctuation.contains(category)
        || GeneralCategoryGroup::Symbol.contains(category)
}
