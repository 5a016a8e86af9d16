//! Character references and identifiers.
//!
//!     named TABLE NAME           the numbers of the characters that the name stands for, or `-`; of the name without its last byte; of the
//!                                name with a `0` behind it. TABLE is `html4`, `html5` or `html`
//!     numeric RADIX DIGITS       the number of the character
//!     decode TABLE MARKER VALUE  the numbers of the characters, or `-`; TABLE may also be `commonmark`: all names of HTML, and controls are kept
//!     parse | TEXT               the text with its references decoded, between quotation marks
//!     value MARKER               the most bytes that a value may have
//!     value MARKER BYTE          whether a value may hold the byte
//!     identifier | TEXT          the identifier, between quotation marks
//!
//! Numbers of characters are in base 16, with `+` between.
ghost use Rattle.std.specs.Prelude.{◌≡◌, ◌≢◌, ◌⊎◌, IsTrue};
ghost use Rattle.std.specs.Str.{byte};
ghost use Rattle.markdown_util.specs.Reference.{IsReferenceMarker, IsNumber, radix_of};

use crate::answers::Answers;
use crate::case::Case;
use markdown_util::decoding::{Decoding, decode, decode_by, decode_in, decode_numeric, parse};
use markdown_util::util::character_reference::{
    Names, decode_named, decode_named_in, known_names, value_max, value_test,
};
use markdown_util::util::normalize_identifier::normalize_identifier;
use std::alloc::{AllocError, Global};

// Appends what a case answers.
pub(crate) fn answer(alloc: Global, case: &Case, out: &mut Answers) {
    let outcome = match case.call {
        "named" => named(alloc, case, out),
        "numeric" => return numeric(case, out),
        "decode" => decoded(alloc, case, out),
        "parse" => push_parsed(alloc, case, out),
        "value" => return value(case, out),
        "identifier" => push_identifier(alloc, case, out),
        _ => return out.say(" no such call"),
    };
    out.keep(outcome);
}

// Appends a text between quotation marks.
fn push_text(out: &mut Answers, text: &str) {
    out.say(" \"");
    out.say(text);
    out.say("\"");
}

// A text with its references decoded.
fn push_parsed(alloc: Global, case: &Case, out: &mut Answers) -> Result<(), AllocError> {
    let text = parse(alloc, case.characters())?;
    push_text(out, text.as_str());
    Ok(())
}

// The identifier that a text is.
fn push_identifier(alloc: Global, case: &Case, out: &mut Answers) -> Result<(), AllocError> {
    let text = normalize_identifier(alloc, case.characters())?;
    push_text(out, text.as_str());
    Ok(())
}

// Appends the numbers of the characters of a text, if there is one.
fn push_codes(out: &mut Answers, text: Option<&str>) {
    let mut is_first = true;
    for c in text.unwrap_or("").chars() {
        out.say(if is_first { " " } else { "+" });
        out.print_hex(c);
        is_first = false;
    }
    if text.is_none() {
        out.say(" -");
    }
}

// The text of a name in a table.
fn text_of(table: &str, name: &str) -> Option<&'static str> {
    match table {
        "html" => decode_named_in(name, Names::Html),
        _ => decode_named(name, table == "html5"),
    }
}

// A name, the name without its last byte, and the name with a digit more.
fn named(alloc: Global, case: &Case, out: &mut Answers) -> Result<(), AllocError> {
    let table = case.word(0);
    let name = case.word(1);
    push_codes(out, text_of(table, name));
    let mut letters = name.chars();
    let _ = letters.next_back();
    push_codes(out, text_of(table, letters.as_str()));
    let longer = format!(in alloc; "{name}0")?;
    push_codes(out, text_of(table, longer.as_str()));
    Ok(())
}

// Whether a word is a number of 32 bits in a radix.
fn is_number(digits: &str, radix: u32) -> bool
    requires { (radix ≡ 10) ⊎ (radix ≡ 16) }
    ensures { IsTrue result → IsNumber radix digits.now }
{
    match digits.as_bytes() {
        [] | [b'+', ..] => false,
        _ => u32::from_str_radix(digits, radix).is_ok(),
    }
}

// The character that a number stands for.
fn numeric(case: &Case, out: &mut Answers) {
    let radix = if case.word(0) == "16" { 16 } else { 10 };
    let digits = case.word(1);
    if !is_number(digits, radix) {
        return out.say(" no number");
    }
    out.say(" ");
    out.print_hex(decode_numeric(digits, radix));
}

// The marker that a word is.
fn marker_of(word: &str) -> u8
    ensures { IsReferenceMarker result }
{
    match word {
        "#" => b'#',
        "x" => b'x',
        _ => b'&',
    }
}

// Whether a value may be decoded behind a marker.
fn is_value(marker: u8, value: &str) -> bool
    ensures { IsTrue result → marker ≢ byte "&" → IsNumber (radix_of marker) value.now }
{
    match marker {
        b'&' => true,
        b'#' => is_number(value, 10),
        _ => is_number(value, 16),
    }
}

// As CommonMark decodes references.
fn commonmark() -> Decoding {
    Decoding {
        names: known_names(true),
        controls_are_kept: true,
    }
}

// What the value of a reference stands for.
fn decoded(alloc: Global, case: &Case, out: &mut Answers) -> Result<(), AllocError> {
    let marker = marker_of(case.word(1));
    let value = case.word(2);
    if !is_value(marker, value) {
        out.say(" no number");
        return Ok(());
    }
    let text = match case.word(0) {
        "html" => decode_in(alloc, value, marker, Names::Html)?,
        "commonmark" => decode_by(alloc, value, marker, commonmark())?,
        table => decode(alloc, value, marker, table == "html5")?,
    };
    push_codes(out, text.as_deref());
    Ok(())
}

// How long values may be, or what may stand in them.
fn value(case: &Case, out: &mut Answers) {
    let marker = marker_of(case.word(0));
    match case.word(1).as_bytes() {
        [byte] => out.show(value_test(marker, *byte)),
        _ => out.show(value_max(marker)),
    }
}
