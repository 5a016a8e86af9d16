//! The words that the program is given: how it reads, with which options and definitions.
ghost use Rattle.std.specs.Prelude.{◌≡◌, IfOk, map, string_bytes, codes, nat_eq, ◌||◌};
ghost use Rattle.std.specs.List.{list_all, starts_with};
ghost use Rattle.std.specs.Option.{option_map};
ghost use Rattle.std.specs.Str.{bytes_eq};
ghost use Rattle.markdown_program.specs.ProgramWords.{is_option, is_mode, are_known, reads_text, without_line_ending, has_word, options_of, defined_word, defined_by};

use markdown_content::configuration::{Constructs, ParseOptions};
use markdown_util::util::normalize_identifier::normalize_identifier;
use std::alloc::{AllocError, Global};

// Whether the word sets an option, or defines a label or a footnote.
fn sets_or_defines(word: &str) -> bool
    ensures { result ≡ (bytes_eq word.now (codes "cm-lengths") || bytes_eq word.now (codes "cm-shortcut")
        || bytes_eq word.now (codes "html-references") || bytes_eq word.now (codes "commonmark")
        || starts_with nat_eq word.now (codes "label=") || starts_with nat_eq word.now (codes "note=")) }
{
    word == "cm-lengths"
        || word == "cm-shortcut"
        || word == "html-references"
        || word == "commonmark"
        || word.as_bytes().starts_with(b"label=")
        || word.as_bytes().starts_with(b"note=")
}

// Whether the word is one that may follow the mode.
fn is_option(word: &str) -> bool
    ensures { result ≡ is_option word.now }
{
    word == "gfm" || word == "math" || word == "task" || sets_or_defines(word)
}

// Whether all words may follow the mode.
fn are_options(words: &[String]) -> bool
    ensures { result ≡ list_all (λ word. is_option (string_bytes word)) words.now }
{
    words.iter().all(|word| is_option(word.as_str()))
}

// Whether the word says how the content is read.
fn is_mode(word: &str) -> bool
    ensures { result ≡ is_mode word.now }
{
    word == "text" || word == "string"
}

/// Answers whether the words are a mode and options. Takes no memory.
pub fn are_known(words: &[String]) -> bool
    ensures { result ≡ are_known words.now }
{
    let Some((mode, options)) = words.split_first() else {
        return false;
    };
    is_mode(mode.as_str()) && are_options(options)
}

/// Answers whether the content is to be read as text. Takes no memory.
pub fn reads_text(words: &[String]) -> bool
    ensures { result ≡ reads_text words.now }
{
    matches!(words.first(), Some(mode) if mode.as_str() == "text")
}

// The bytes without one final line ending.
fn without_line_ending(bytes: &[u8]) -> &[u8]
    ensures { result.now ≡ without_line_ending bytes.now }
{
    if bytes.ends_with(b"\r\n") {
        &bytes[..bytes.len() - 2]
    } else if bytes.ends_with(b"\n") || bytes.ends_with(b"\r") {
        &bytes[..bytes.len() - 1]
    } else {
        bytes
    }
}

/// Answers whether the word is among the words. Takes no memory.
pub fn has(words: &[String], word: &str) -> bool
    ensures { result ≡ has_word word.now words.now }
{
    words.iter().any(|w| w.as_str() == word)
}

/// Answers the options that the words ask for. Takes no memory.
pub fn options_of(words: &[String]) -> ParseOptions
    ensures { result ≡ options_of words.now }
{
    let gfm = has(words, "gfm");
    let constructs = Constructs {
        gfm_autolink_literal: gfm,
        gfm_label_start_footnote: gfm,
        gfm_strikethrough: gfm,
        gfm_task_list_item: gfm,
        math_text: has(words, "math"),
        ..Constructs::default()
    };
    ParseOptions {
        constructs,
        attention_first_lengths: has(words, "cm-lengths"),
        label_shortcut_before_bracket: has(words, "cm-shortcut"),
        commonmark: has(words, "commonmark"),
        html_references: has(words, "html-references"),
        ..ParseOptions::default()
    }
}

// The identifier of what follows the prefix, if the word has it.
fn defined_word(alloc: Global, prefix: &str, word: &str) -> Result<Option<String>, AllocError>
    ensures { IfOk result (λ found. option_map string_bytes found ≡ defined_word prefix.now word.now) }
{
    match word.strip_prefix(prefix) {
        Some(text) => Ok(Some(normalize_identifier(alloc, text)?)),
        None => Ok(None),
    }
}

/// Answers the identifiers that the words with this prefix define, in order.
///
/// The error comes where memory is refused.
pub fn defined_by(alloc: Global, prefix: &str, words: &[String]) -> Result<Vec<String>, AllocError>
    ensures { IfOk result (λ found. map string_bytes found.items ≡ defined_by prefix.now words.now) }
{
    let mut found = Vec::new(alloc);
    for word in words {
        if let Some(identifier) = defined_word(alloc, prefix, word.as_str())? {
            found.push(identifier)?;
        }
    }
    Ok(found)
}

/// Drops one final line ending: CR LF, LF or CR. Takes no memory.
pub fn drop_line_ending(bytes: &mut Vec<u8>)
    ensures { bytes.new.items ≡ without_line_ending bytes.old.items }
{
    let len = without_line_ending(bytes.as_slice()).len();
    bytes.truncate(len);
}
