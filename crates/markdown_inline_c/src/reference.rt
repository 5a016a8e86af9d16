//! Decoded character references.

ghost use Rattle.std.specs.Prelude.{◌≡◌, IfErr, IfOk};
ghost use Rattle.std.specs.Str.{chars};
ghost use Rattle.markdown_inline_c.specs.References.{IsReference, character_ahead, only, reference_text};
ghost use Rattle.markdown_inline_c.specs.Statuses.{IsReferenceFault};

use crate::fault::Fault;
use crate::input::known_options;
use markdown_html_model::resolve::{decoding_of, reference_ahead};
use markdown_util::decoding::Decoding;
use std::alloc::{AllocError, Global};

/// The text that a character reference stands for by these options, in UTF-8, or why there is none.
pub fn decoded(alloc: Global, options: u32, reference: &[u8]) -> Result<Vec<u8>, Fault>
    ensures ok { IfOk result (λ found. found.items ≡ reference_text options reference.now) }
    ensures reference { IfOk result (λ _. IsReference options reference.now) }
    ensures err { IfErr result (IsReferenceFault options reference.now) }
{
    let options = known_options(options)?;
    let how = decoding_of(&options);
    let Some((b'&', after)) = reference.split_first() else {
        return Err(Fault::NoReference);
    };
    match reference_ahead(alloc, how, after)? {
        Some((text, taken)) if taken == after.len() => Ok(text.into_bytes()),
        _ => Err(Fault::NoReference),
    }
}

// The only character of a text.
fn only_character(text: &str) -> Option<char>
    ensures { result ≡ only (chars text.now) }
{
    let mut characters = text.chars();
    let first = characters.next()?;
    match characters.next() {
        Some(_) => None,
        None => Some(first),
    }
}

/// The character that the reference stands for which begins these bytes; none where it stands for several, and where no whole reference begins.
///
/// The error comes only where memory is refused.
pub fn character_ahead(
    alloc: Global,
    how: Decoding,
    bytes: &[u8],
) -> Result<Option<char>, AllocError>
    ensures { IfOk result (λ found. found ≡ character_ahead how bytes.now) }
{
    let Some((b'&', after)) = bytes.split_first() else {
        return Ok(None);
    };
    match reference_ahead(alloc, how, after)? {
        Some((text, _)) => Ok(only_character(text.as_str())),
        None => Ok(None),
    }
}
