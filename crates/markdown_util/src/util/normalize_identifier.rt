//! Identifiers of labels and definitions.

ghost use Rattle.std.specs.Prelude.{◌≡◌, ◌==◌, IfOk, chars, encode_utf8_all, map, string_bytes};
ghost use Rattle.std.specs.List.{list_any};
ghost use Rattle.markdown_util.specs.Identifier.{separates_words, joined_words, identifier_by, identifier_of, replaced_nul};

use caseless::Caseless;
use std::alloc::{AllocError, Global};

/// The identifier of a text: its words between runs of TAB, LF, CR and space, joined by one space
/// and fully case folded. Two labels match where their identifiers are equal.
///
/// The only error is that memory was refused.
pub fn normalize_identifier(alloc: Global, value: &str) -> Result<String, AllocError>
    ensures { IfOk result (λ identifier. string_bytes identifier ≡ identifier_of value.now) }
{
    let mut joined = joined_words(alloc, value)?;
    if joined.as_str().is_ascii() {
        joined.make_ascii_lowercase();
        return Ok(joined);
    }
    caseless::default_case_fold_str(alloc, joined.as_str())
}

/// As `normalize_identifier`, of a text in which NUL is read as U+FFFD where that is asked for (CommonMark 2.3).
///
/// The only error is that memory was refused.
pub fn identifier_by(
    alloc: Global,
    value: &str,
    nul_is_replaced: bool,
) -> Result<String, AllocError>
    ensures { IfOk result (λ identifier. string_bytes identifier ≡ identifier_by nul_is_replaced value.now) }
{
    if !nul_is_replaced || !has_nul(value) {
        return normalize_identifier(alloc, value);
    }
    let text = without_nul(alloc, value)?;
    normalize_identifier(alloc, text.as_str())
}

// Whether a text has a NUL.
fn has_nul(value: &str) -> bool
    ensures { result ≡ list_any (λ c. c == 0) (chars value.now) }
{
    value.chars().any(|c| c == '\0')
}

// A text with U+FFFD in place of each NUL.
fn without_nul(alloc: Global, value: &str) -> Result<String, AllocError>
    ensures { IfOk result (λ text. string_bytes text ≡ encode_utf8_all (map replaced_nul (chars value.now))) }
{
    let mut text = String::with_capacity(alloc, value.len())?;
    for c in value.chars() {
        text.push(if c == '\0' { '\u{FFFD}' } else { c })?;
    }
    Ok(text)
}

/// The words joined by one space. Room for the whole text is made at once: no joined words are longer.
fn joined_words(alloc: Global, value: &str) -> Result<String, AllocError>
    ensures { IfOk result (λ joined. string_bytes joined ≡ encode_utf8_all (joined_words (chars value.now))) }
{
    let mut joined = String::with_capacity(alloc, value.len())?;
    let mut pending = false;
    for c in value.chars() {
        if separates_words(c) {
            pending = true;
        } else {
            if pending && !joined.is_empty() {
                joined.push(' ')?;
            }
            pending = false;
            joined.push(c)?;
        }
    }
    Ok(joined)
}

fn separates_words(c: char) -> bool
    ensures { result ≡ separates_words c }
{
    matches!(c, '\t' | '\n' | '\r' | ' ')
}
