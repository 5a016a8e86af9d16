//! Tags of HTML (CommonMark 6.6) at the start of the rest of a line. Each takes time linear in the rest at most, and allocates nothing.

ghost use Rattle.std.specs.Prelude.{◌≡◌, ◌<◌, ◌≤◌, if◌then◌else◌, length, take, drop, List, true, IfSome, Some};
ghost use Rattle.std.specs.Str.{byte};
ghost use Rattle.markdown_content.specs.Codes.{Code};
ghost use Rattle.markdown_model.specs.CodeTests.{values_of, is_value, next_is, is_alphanumeric};
ghost use Rattle.markdown_model.specs.Grammar.{repeatedly};
ghost use Rattle.markdown_model.specs.HtmlText.{ends_value, tag_name, quoted_value, unquoted_value, attribute_value, attribute, open_tag, closing_tag};
ghost use Rattle.markdown_block_line.specs.LineValues.{front};
ghost use Rattle.markdown_block_line.specs.LineTags.{code_of, in_class, name, assigned_value, spaced_attribute, tag_end, Reads};

use crate::line::is_whitespace;

// Classes of codes.
#[derive(Clone, Copy)]
pub(crate) enum Class {
    Letter,
    // What stands in the name of a tag behind its first letter.
    TagName,
    // What the name of an attribute begins with, and what stands in it.
    NameStart,
    AttributeName,
    Whitespace,
    // What a value without quotes begins with, what stands in it, and what has to follow it.
    ValueStart,
    Unquoted,
    ValueEnd,
    // This code alone, or all others.
    Only(u8),
    Other(u8),
}

// Whether a code is a letter.
pub(crate) fn is_letter(value: u8) -> bool
    ensures { result ≡ in_class Class.Letter value }
{
    (b'A' <= value && value <= b'Z') || (b'a' <= value && value <= b'z')
}

// Whether a code is a letter or a digit.
fn is_alphanumeric(value: u8) -> bool
    ensures { result ≡ is_alphanumeric (code_of value) }
{
    is_letter(value) || (b'0' <= value && value <= b'9')
}

// Whether a code ends a value without quotes.
fn ends_value(value: u8) -> bool
    ensures { result ≡ ends_value (code_of value) }
{
    is_whitespace(value) || matches!(value, b'"' | b'\'' | b'<' | b'=' | b'>' | b'`')
}

// Whether a code is of the class.
pub(crate) fn is_in(class: Class, value: u8) -> bool
    ensures { result ≡ in_class class value }
{
    match class {
        Class::Letter => is_letter(value),
        Class::TagName => is_alphanumeric(value) || value == b'-',
        Class::NameStart => is_letter(value) || matches!(value, b':' | b'_'),
        Class::AttributeName => is_alphanumeric(value)
            || matches!(value, b'-' | b'.' | b':' | b'_'),
        Class::Whitespace => is_whitespace(value),
        Class::ValueStart => !ends_value(value),
        Class::Unquoted => !ends_value(value),
        Class::ValueEnd => is_whitespace(value) || matches!(value, b'/' | b'>'),
        Class::Only(only) => value == only,
        Class::Other(other) => value != other,
    }
}

// Whether a code of the class stands first.
pub(crate) fn next_in(class: Class, line: &[u8]) -> bool
    ensures first { (cs : List Code) → values_of cs ≡ line.now → result ≡ next_is (λ c. in_class class c.value) cs }
    ensures within { result ≡ true → 0 < length line.now }
{
    line.len() > 0 && is_in(class, line[0])
}

// How many codes of the class stand first.
fn count_in(class: Class, line: &[u8]) -> usize
    ensures count { result ≡ front (in_class class) line.now }
    ensures within { result ≤ length line.now }
{
    let mut count = 0;
    while count < line.len() {
        if !is_in(class, line[count]) {
            return count;
        }
        count += 1;
    }
    count
}

// How many codes a name has that stands first: one code of the first class, and then those of the other.
fn name_len(first: Class, more: Class, line: &[u8]) -> Option<usize>
    ensures read { (cs : List Code) → values_of cs ≡ line.now → Reads (name first more) cs result }
    ensures within { IfSome result (λ k. (0 < k) × (k ≤ length line.now)) }
{
    if !next_in(first, line) {
        return None;
    }
    Some(1 + count_in(more, &line[1..]))
}

// How many codes the name of a tag has that stands first.
pub(crate) fn tag_name_len(line: &[u8]) -> Option<usize>
    ensures read { (cs : List Code) → values_of cs ≡ line.now → Reads tag_name cs result }
    ensures within { IfSome result (λ k. (0 < k) × (k ≤ length line.now)) }
{
    name_len(Class::Letter, Class::TagName, line)
}

// How many codes a value in these quotes has that stands first.
fn quoted_len(quote: u8, line: &[u8]) -> Option<usize>
    ensures read { (cs : List Code) → values_of cs ≡ line.now → Reads (quoted_value quote) cs result }
    ensures within { IfSome result (λ k. k ≤ length line.now) }
{
    if !next_in(Class::Only(quote), line) {
        return None;
    }
    let len = 1 + count_in(Class::Other(quote), &line[1..]);
    if !next_in(Class::Only(quote), &line[len..]) {
        return None;
    }
    Some(len + 1)
}

// How many codes a value without quotes has that stands first.
fn unquoted_len(line: &[u8]) -> Option<usize>
    ensures read { (cs : List Code) → values_of cs ≡ line.now → Reads (unquoted_value true) cs result }
    ensures within { IfSome result (λ k. k ≤ length line.now) }
{
    let Some(len) = name_len(Class::ValueStart, Class::Unquoted, line) else {
        return None;
    };
    if !next_in(Class::ValueEnd, &line[len..]) {
        return None;
    }
    Some(len)
}

// How many codes the value of an attribute has that stands first.
fn attribute_value_len(line: &[u8]) -> Option<usize>
    ensures read { (cs : List Code) → values_of cs ≡ line.now → Reads (attribute_value true) cs result }
    ensures within { IfSome result (λ k. k ≤ length line.now) }
{
    if let Some(len) = quoted_len(b'"', line) {
        return Some(len);
    }
    if let Some(len) = quoted_len(b'\'', line) {
        return Some(len);
    }
    unquoted_len(line)
}

// How many codes an equals sign and a value have that stand first, with whitespace before and between them.
fn assigned_len(line: &[u8]) -> Option<usize>
    ensures read { (cs : List Code) → values_of cs ≡ line.now → Reads assigned_value cs result }
    ensures within { IfSome result (λ k. k ≤ length line.now) }
{
    let spaces = count_in(Class::Whitespace, line);
    if !next_in(Class::Only(b'='), &line[spaces..]) {
        return None;
    }
    let behind = spaces + 1;
    let value = behind + count_in(Class::Whitespace, &line[behind..]);
    let Some(len) = attribute_value_len(&line[value..]) else {
        return None;
    };
    Some(value + len)
}

// How many codes an attribute has that stands first.
fn attribute_len(line: &[u8]) -> Option<usize>
    ensures read { (cs : List Code) → values_of cs ≡ line.now → Reads (attribute true) cs result }
    ensures within { IfSome result (λ k. (0 < k) × (k ≤ length line.now)) }
{
    let Some(name) = name_len(Class::NameStart, Class::AttributeName, line) else {
        return None;
    };
    let Some(len) = assigned_len(&line[name..]) else {
        return Some(name);
    };
    Some(name + len)
}

// How many codes an attribute has that stands first, with whitespace before it.
fn spaced_attribute_len(line: &[u8]) -> Option<usize>
    ensures read { (cs : List Code) → values_of cs ≡ line.now → Reads spaced_attribute cs result }
    ensures within { IfSome result (λ k. (0 < k) × (k ≤ length line.now)) }
{
    let spaces = count_in(Class::Whitespace, line);
    if spaces == 0 {
        return None;
    }
    let Some(len) = attribute_len(&line[spaces..]) else {
        return None;
    };
    Some(spaces + len)
}

// How many codes the attributes have that stand first.
fn attributes_len(line: &[u8]) -> usize
    ensures read { (cs : List Code) → values_of cs ≡ line.now → repeatedly spaced_attribute cs ≡ Some (take result cs, drop result cs) }
    ensures within { result ≤ length line.now }
{
    let mut len = 0;
    while let Some(more) = spaced_attribute_len(&line[len..]) {
        len += more;
    }
    len
}

// How many slashes stand first, one at most.
pub(crate) fn slash_len(line: &[u8]) -> usize
    ensures count { (cs : List Code) → values_of cs ≡ line.now → result ≡ (if next_is (is_value (byte "/")) cs then 1 else 0) }
    ensures within { result ≤ length line.now }
{
    if next_in(Class::Only(b'/'), line) {
        1
    } else {
        0
    }
}

// How many codes the end of an opening tag has that stands first.
fn tag_end_len(line: &[u8]) -> Option<usize>
    ensures read { (cs : List Code) → values_of cs ≡ line.now → Reads tag_end cs result }
    ensures within { IfSome result (λ k. k ≤ length line.now) }
{
    let spaces = count_in(Class::Whitespace, line);
    let len = spaces + slash_len(&line[spaces..]);
    if !next_in(Class::Only(b'>'), &line[len..]) {
        return None;
    }
    Some(len + 1)
}

// How many codes an opening tag has that stands first.
pub(crate) fn open_tag_len(line: &[u8]) -> Option<usize>
    ensures read { (cs : List Code) → values_of cs ≡ line.now → Reads (open_tag true) cs result }
    ensures within { IfSome result (λ k. (0 < k) × (k ≤ length line.now)) }
{
    if !next_in(Class::Only(b'<'), line) {
        return None;
    }
    let Some(name) = tag_name_len(&line[1..]) else {
        return None;
    };
    let behind = 1 + name;
    let end = behind + attributes_len(&line[behind..]);
    let Some(len) = tag_end_len(&line[end..]) else {
        return None;
    };
    Some(end + len)
}

// How many codes a closing tag has that stands first.
pub(crate) fn closing_tag_len(line: &[u8]) -> Option<usize>
    ensures read { (cs : List Code) → values_of cs ≡ line.now → Reads closing_tag cs result }
    ensures within { IfSome result (λ k. (0 < k) × (k ≤ length line.now)) }
{
    if !line.starts_with(b"</") {
        return None;
    }
    let Some(name) = tag_name_len(&line[2..]) else {
        return None;
    };
    let behind = 2 + name;
    let end = behind + count_in(Class::Whitespace, &line[behind..]);
    if !next_in(Class::Only(b'>'), &line[end..]) {
        return None;
    }
    Some(end + 1)
}
