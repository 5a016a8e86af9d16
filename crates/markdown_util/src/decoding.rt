//! The text that a whole character reference stands for, and texts with references.

ghost use Rattle.std.specs.Prelude.{◌≡◌, ◌≢◌, ◌⊎◌, ◌==◌, true, IfOk, MatchOption, encode_utf8, option_map, string_bytes, take};
ghost use Rattle.std.specs.List.{after_first, prefix_len};
ghost use Rattle.markdown_util.specs.ReferenceParts.{IsMarkedReference};
ghost use Rattle.std.specs.Str.{byte};
ghost use Rattle.std.specs.Str.Parse.{digits_value};
ghost use Rattle.markdown_util.specs.Reference.{character_by, decoded_by, is_no_character, rows_for, rows_named, shipped_decoding};
ghost use Rattle.markdown_util.specs.Reference.{html_4_rows, character_of, is_replaced, IsNumber, IsReferenceMarker, radix_of, value_size_max, is_value_byte, decoded, reference_text, is_semicolon, parsed};

use crate::util::character_reference::{
    Names, decode_named_in, shipped_names, value_max, value_test,
};
use std::alloc::{AllocError, Global};

/// How references are decoded: which names are known, and which numbers stand for a character.
#[derive(Clone, Copy, Debug, PartialEq, Eq)]
pub struct Decoding {
    /// The table of names.
    pub names: Names,
    /// Whether a number stands for its character where this is a control or a noncharacter too, as
    /// CommonMark says.
    pub controls_are_kept: bool,
}

impl Decoding {
    /// The names of HTML 5 as they are shipped, and U+FFFD for controls and noncharacters.
    pub fn shipped() -> Decoding
        ensures { result ≡ shipped_decoding }
    {
        Decoding {
            names: Names::Html5,
            controls_are_kept: false,
        }
    }
}

/// The character that a number stands for, given by its digits in radix 10 or 16.
///
/// It is U+FFFD for a control other than TAB, LF, FF and CR, for a surrogate, for a noncharacter,
/// and for a number past U+10FFFF.
pub fn decode_numeric(value: &str, radix: u32) -> char
    requires radix { (radix ≡ 10) ⊎ (radix ≡ 16) }
    requires number { IsNumber radix value.now }
    ensures { result ≡ character_of (digits_value radix value.now) }
{
    let number = u32::from_str_radix(value, radix).unwrap();
    match char::from_u32(number) {
        Some(c) if !is_replaced(c) => c,
        _ => char::REPLACEMENT_CHARACTER,
    }
}

/// The character that a number stands for, given by its digits in radix 10 or 16, where controls
/// and noncharacters are kept, or else as [`decode_numeric`] has it.
///
/// Where they are kept, as CommonMark says, it is U+FFFD for 0, for a surrogate, and for a number
/// past U+10FFFF.
pub fn decode_numeric_by(value: &str, radix: u32, controls_are_kept: bool) -> char
    requires radix { (radix ≡ 10) ⊎ (radix ≡ 16) }
    requires number { IsNumber radix value.now }
    ensures { result ≡ character_by controls_are_kept (digits_value radix value.now) }
{
    if controls_are_kept {
        decode_kept(value, radix)
    } else {
        decode_numeric(value, radix)
    }
}

/// The character that a number stands for where controls and noncharacters are kept.
fn decode_kept(value: &str, radix: u32) -> char
    requires radix { (radix ≡ 10) ⊎ (radix ≡ 16) }
    requires number { IsNumber radix value.now }
    ensures { result ≡ character_by true (digits_value radix value.now) }
{
    let number = u32::from_str_radix(value, radix).unwrap();
    match char::from_u32(number) {
        Some(c) if !is_null(c) => c,
        _ => char::REPLACEMENT_CHARACTER,
    }
}

/// The text that a value stands for, by the marker of its reference: `&` for a name, `#` for a
/// decimal number and `x` for a hexadecimal one.
///
/// It is none for a name that the table does not have. The table is that of HTML 5 as it is shipped,
/// or else that of HTML 4. The only error is that memory was refused.
pub fn decode(
    alloc: Global,
    value: &str,
    marker: u8,
    html5: bool,
) -> Result<Option<String>, AllocError>
    requires marker { IsReferenceMarker marker }
    requires number { marker ≢ byte "&" → IsNumber (radix_of marker) value.now }
    ensures { IfOk result (λ text. option_map string_bytes text ≡ decoded (rows_for html5) value.now marker) }
{
    decode_in(alloc, value, marker, shipped_names(html5))
}

/// The text that a value stands for in a table of names, by the marker of its reference, as
/// [`decode`] has it.
///
/// It is none for a name that the table does not have. The only error is that memory was refused.
pub fn decode_in(
    alloc: Global,
    value: &str,
    marker: u8,
    names: Names,
) -> Result<Option<String>, AllocError>
    requires marker { IsReferenceMarker marker }
    requires number { marker ≢ byte "&" → IsNumber (radix_of marker) value.now }
    ensures { IfOk result (λ text. option_map string_bytes text ≡ decoded (rows_named names) value.now marker) }
{
    let how = Decoding {
        names,
        controls_are_kept: false,
    };
    decode_by(alloc, value, marker, how)
}

/// The text that a value stands for, by the marker of its reference, and by which names are known
/// and whether controls are kept.
///
/// It is none for a name that the table does not have. The only error is that memory was refused.
pub fn decode_by(
    alloc: Global,
    value: &str,
    marker: u8,
    how: Decoding,
) -> Result<Option<String>, AllocError>
    requires marker { IsReferenceMarker marker }
    requires number { marker ≢ byte "&" → IsNumber (radix_of marker) value.now }
    ensures { IfOk result (λ text. option_map string_bytes text ≡ decoded_by how value.now marker) }
{
    let kept = how.controls_are_kept;
    match marker {
        b'&' => match decode_named_in(value, how.names) {
            Some(text) => Ok(Some(String::from_str(alloc, text)?)),
            None => Ok(None),
        },
        b'#' => Ok(Some(string_of(alloc, decode_numeric_by(value, 10, kept))?)),
        b'x' => Ok(Some(string_of(alloc, decode_numeric_by(value, 16, kept))?)),
        _ => unreachable!(),
    }
}

/// The text with the value of each whole reference in its place, read from the left.
///
/// The names are those of HTML 4, and every other character stays, an `&` that begins no whole
/// reference among them. The only error is that memory was refused.
pub fn parse(alloc: Global, value: &str) -> Result<String, AllocError>
    ensures { IfOk result (λ text. string_bytes text ≡ parsed html_4_rows value.now) }
{
    let mut parsed = String::new(alloc);
    let mut rest = value;
    while let Some((before, after)) = rest.split_once('&') {
        parsed.push_str(before)?;
        match decode_after(alloc, after)? {
            Some((text, behind)) => {
                parsed.push_str(text.as_str())?;
                rest = behind;
            }
            None => {
                parsed.push('&')?;
                rest = after;
            }
        }
    }
    parsed.push_str(rest)?;
    Ok(parsed)
}

/// The text of the whole reference that an `&` begins in front of this text, and what stands
/// behind its `;`. It is none where no whole reference begins.
fn decode_after(alloc: Global, after: &str) -> Result<Option<(String, &str)>, AllocError>
    ensures { IfOk result (λ read. MatchOption read (reference_text html_4_rows after.now ≡ None)
        (λ r. (reference_text html_4_rows after.now ≡ Some (string_bytes r.0)) × (r.1.now ≡ after_first is_semicolon after.now))) }
{
    let (marker, body) = marker_of(after);
    let (value, rest) = body.split_at(value_len(body, marker));
    let Some(behind) = rest.strip_prefix(';') else {
        return Ok(None);
    };
    if value.is_empty() {
        return Ok(None);
    }
    let text = decode(alloc, value, marker, false)?;
    Ok(text.map(|text| (text, behind)))
}

/// The marker of a reference that would begin in front of this text, and what follows the marker.
fn marker_of(after: &str) -> (u8, &str)
    ensures { IsMarkedReference after.now result.0 result.1.now }
{
    let Some(number) = after.strip_prefix('#') else {
        return (b'&', after);
    };
    match number.strip_prefix('x').or(number.strip_prefix('X')) {
        Some(digits) => (b'x', digits),
        None => (b'#', number),
    }
}

/// How many bytes a value at the front of a text has, if one stands there.
fn value_len(text: &str, marker: u8) -> usize
    requires { IsReferenceMarker marker }
    ensures { result ≡ prefix_len (is_value_byte marker) (take (value_size_max marker) text.now) }
{
    let max = value_max(marker);
    text.bytes()
        .take(max)
        .take_while(|byte| value_test(marker, *byte))
        .count()
}

/// Whether a number that is the code of this character stands for U+FFFD all the same.
fn is_replaced(c: char) -> bool
    ensures { result ≡ is_replaced c }
{
    let control = c.is_control() && !matches!(c, '\t' | '\n' | '\u{C}' | '\r');
    let noncharacter = matches!(c, '\u{FDD0}'..='\u{FDEF}') || c as u32 % 0x1_0000 >= 0xFFFE;
    control || noncharacter
}

/// Whether a character is that of the number 0.
fn is_null(c: char) -> bool
    ensures { result ≡ (c == 0) }
{
    c == '\0'
}

fn string_of(alloc: Global, c: char) -> Result<String, AllocError>
    ensures { IfOk result (λ text. string_bytes text ≡ encode_utf8 c) }
{
    let mut text = String::new(alloc);
    text.push(c)?;
    Ok(text)
}
