//! Code (CommonMark 4.4 and 4.5).

ghost use Rattle.std.specs.Prelude.{◌≡◌, ◌≤◌, ◌<◌, ◌++◌, ℕ, OnOk, IfOk, take, drop, length, slice_index, codes, true, false, [], ◌==◌, if◌then◌else◌};
ghost use Rattle.std.specs.Str.{byte};
ghost use Rattle.std.specs.Char.{is_ascii_whitespace};
ghost use Rattle.markdown_content.specs.Codes.{codes_of};
ghost use Rattle.markdown_content.specs.Content.{piece_codes};
ghost use Rattle.markdown_html_model.specs.Escaped.{escaped};
ghost use Rattle.markdown_html_model.specs.Resolved.{resolved};
ghost use Rattle.markdown_page_model.specs.PageTexts.{filled, first_word, text_of};
ghost use Rattle.markdown_page_model.specs.PageHtml.{code_html, fenced_html, language_class};
ghost use Rattle.markdown_page.specs.CodeLines.{lines_in};
ghost use Rattle.markdown_page.specs.GivenPage.{bytes_of, page_of};

use crate::given::Given;
use crate::lines::{push_lines, push_piece_text};
use crate::lists::is_blank_piece;
use crate::tags::push_ending;
use markdown_block_line::starts::Fence;
use markdown_content::parser::Piece;
use markdown_html_model::escape::push_escaped;
use markdown_html_model::resolve::{decoding_of, push_resolved};
use std::alloc::{AllocError, Global};

// How many lines of indented code stand before the blank ones at its end.
fn filled_len(bytes: &[u8], lines: &[Piece]) -> usize
    ensures within { result ≤ length lines.now }
    ensures filled { lines_in bytes.now (take result lines.now) ≡ filled (lines_in bytes.now lines.now) }
{
    let mut len = lines.len();
    while len > 0 {
        if !is_blank_piece(bytes, lines[len - 1]) {
            return len;
        }
        len -= 1;
    }
    len
}

// How many bytes of whitespace a text begins with.
fn word_start(text: &[u8]) -> usize
    ensures within { result ≤ length text.now }
    ensures same { first_word (drop result text.now) ≡ first_word text.now }
    ensures begins { result < length text.now → is_ascii_whitespace (slice_index text.now result) ≡ false }
{
    let mut start = 0;
    while start < text.len() {
        if !text[start].is_ascii_whitespace() {
            return start;
        }
        start += 1;
    }
    start
}

// How many bytes a text begins with that are no whitespace.
fn word_len(text: &[u8]) -> usize
    ensures within { result ≤ length text.now }
    ensures word { (i : ℕ) → i < result → is_ascii_whitespace (slice_index text.now i) ≡ false }
    ensures ends { result < length text.now → is_ascii_whitespace (slice_index text.now result) ≡ true }
{
    let mut len = 0;
    while len < text.len() {
        if text[len].is_ascii_whitespace() {
            return len;
        }
        len += 1;
    }
    len
}

// The first word of a text; empty where there is none.
fn first_word<'a>(text: &'a [u8]) -> &'a [u8]
    ensures { result.now ≡ first_word text.now }
{
    let rest = &text[word_start(text)..];
    &rest[..word_len(rest)]
}

// Appends a text that is escaped, between two others.
fn push_between(
    out: &mut Vec<u8>,
    before: &[u8],
    text: &[u8],
    after: &[u8],
) -> Result<(), AllocError>
    ensures { OnOk result (out.new.items ≡ out.old.items ++ (before.now ++ escaped text.now ++ after.now)) }
{
    out.extend_from_slice(before)?;
    push_escaped(out, text)?;
    out.extend_from_slice(after)
}

// Appends the class that names a language, if there is one.
fn push_class(out: &mut Vec<u8>, language: &[u8]) -> Result<(), AllocError>
    ensures { OnOk result (out.new.items ≡ out.old.items ++ language_class language.now) }
{
    if language.is_empty() {
        return Ok(());
    }
    push_between(out, b" class=\"language-", language, b"\"")
}

// Appends code in a language.
fn push_code(
    given: &Given,
    out: &mut Vec<u8>,
    language: &[u8],
    lines: &[Piece],
) -> Result<(), AllocError>
    ensures { let g = given.now in OnOk result (out.new.items ≡ out.old.items ++ code_html (page_of g) language.now (lines_in (bytes_of g) lines.now)) }
{
    out.extend_from_slice(b"<pre><code")?;
    push_class(out, language)?;
    out.extend_from_slice(b">")?;
    push_lines(given, out, false, lines)?;
    out.extend_from_slice(b"</code></pre>")?;
    push_ending(given, out)
}

// Appends indented code.
pub(crate) fn push_indented(
    given: &Given,
    out: &mut Vec<u8>,
    lines: &[Piece],
) -> Result<(), AllocError>
    ensures { let g = given.now in OnOk result (out.new.items ≡ out.old.items ++ code_html (page_of g) [] (filled (lines_in (bytes_of g) lines.now))) }
{
    let len = filled_len(given.document.parse_state().bytes, lines);
    push_code(given, out, b"", &lines[..len])
}

// What an info string says, behind escapes and character references.
fn info_text(alloc: Global, given: &Given, info: Piece) -> Result<Vec<u8>, AllocError>
    ensures { let g = given.now in IfOk result (λ v. v.items ≡ resolved (page_of g).decoding (text_of (piece_codes (codes_of (bytes_of g)) info))) }
{
    let state = given.document.parse_state();
    let mut text = Vec::new(alloc);
    push_piece_text(&mut text, state.bytes, info)?;
    let mut resolved = Vec::new(alloc);
    push_resolved(
        alloc,
        &mut resolved,
        decoding_of(state.options),
        text.as_slice(),
    )?;
    Ok(resolved)
}

// The class of fenced code behind `language-`: the first word of its info string, or that of math, which is fenced with dollars.
fn language<'a>(fence: Fence, info: &'a [u8]) -> &'a [u8]
    ensures { result.now ≡ (if fence.value == byte "$" then codes "math math-display" else first_word info.now) }
{
    if fence.value == b'$' {
        return b"math math-display";
    }
    first_word(info)
}

// Appends fenced code.
pub(crate) fn push_fenced(
    alloc: Global,
    given: &Given,
    out: &mut Vec<u8>,
    fence: Fence,
    info: Piece,
    lines: &[Piece],
) -> Result<(), AllocError>
    ensures { let g = given.now in OnOk result (out.new.items ≡ out.old.items ++ fenced_html (page_of g) fence.value (first_word (resolved (page_of g).decoding (text_of (piece_codes (codes_of (bytes_of g)) info)))) (lines_in (bytes_of g) lines.now)) }
{
    let info = info_text(alloc, given, info)?;
    push_code(given, out, language(fence, info.as_slice()), lines)
}
