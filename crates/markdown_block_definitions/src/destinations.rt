//! Destinations (CommonMark 6.3). Each function takes time linear in what it reads, and allocates nothing.

ghost use Rattle.std.specs.Prelude.{◌≡◌, ◌≤◌, ◌&&◌, length, codes, List, false, IfSome};
ghost use Rattle.markdown_content.specs.Codes.{Code};
ghost use Rattle.markdown_model.specs.CodeTests.{values_of, is_among, is_control};
ghost use Rattle.markdown_model.specs.Resource.{raw_from, destination, resource_names};
ghost use Rattle.markdown_block_line.specs.LineTags.{code_of};
ghost use Rattle.markdown_block_line.specs.LineValues.{is_whitespace_value};
ghost use Rattle.markdown_block_definitions.specs.TextReadings.{left_by, behind, DoesToRaw};

use crate::spacing::{begins_with, is_blank};
use crate::texts::literal_len;

// What a code does to a raw destination.
pub(crate) enum RawStep {
    // It stands in the destination. Behind it, whether it is a backslash that is not escaped, and how many parentheses are open.
    Goes(bool, usize),
    Stops,
    Breaks,
}

// Whether a code is whitespace.
fn is_whitespace(value: u8) -> bool
    ensures { result ≡ is_whitespace_value value }
{
    is_blank(value) || value == b'\n'
}

// Whether a code is an ASCII control other than NUL.
fn is_control(value: u8) -> bool
    ensures { result ≡ is_control (code_of value) }
{
    (1 <= value && value <= 31) || value == 127
}

// Whether a code is escaped. `slash` says that a backslash stands before that is not escaped.
fn is_escaped(slash: bool, value: u8) -> bool
    ensures { result ≡ (slash && is_among (codes "()\\") (code_of value)) }
{
    slash && matches!(value, b'(' | b')' | b'\\')
}

// What a code does to a raw destination, if no backslash escapes it.
fn read_bare(depth: usize, value: u8) -> RawStep
    ensures { DoesToRaw false depth value result }
{
    if is_whitespace(value) {
        if depth == 0 {
            return RawStep::Stops;
        }
        return RawStep::Breaks;
    }
    if is_control(value) {
        return RawStep::Breaks;
    }
    if value == b'(' {
        if depth < 32 {
            return RawStep::Goes(false, depth + 1);
        }
        return RawStep::Breaks;
    }
    if value == b')' {
        if depth == 0 {
            return RawStep::Stops;
        }
        return RawStep::Goes(false, depth - 1);
    }
    RawStep::Goes(value == b'\\', depth)
}

// What a code does to a raw destination. `slash` says that a backslash stands before that is not escaped, and `depth` how many parentheses are open.
fn read_raw(slash: bool, depth: usize, value: u8) -> RawStep
    ensures { DoesToRaw slash depth value result }
{
    if is_escaped(slash, value) {
        return RawStep::Goes(false, depth);
    }
    read_bare(depth, value)
}

// How many codes a raw destination has that stands first.
fn raw_len(values: &[u8]) -> Option<usize>
    ensures read { (cs : List Code) → values_of cs ≡ values.now → left_by (raw_from 32 false 0 cs) ≡ behind result cs }
    ensures within { IfSome result (λ k. k ≤ length values.now) }
{
    let mut slash = false;
    let mut depth = 0;
    let mut len = 0;
    while len < values.len() {
        match read_raw(slash, depth, values[len]) {
            RawStep::Goes(escapes, inner) => {
                slash = escapes;
                depth = inner;
                len += 1;
            }
            RawStep::Stops => return Some(len),
            RawStep::Breaks => return None,
        }
    }
    if depth > 0 {
        return None;
    }
    Some(len)
}

// How many codes a destination has that stands first.
pub(crate) fn destination_len(values: &[u8]) -> Option<usize>
    ensures read { (cs : List Code) → values_of cs ≡ values.now → left_by (destination 32 resource_names cs) ≡ behind result cs }
    ensures within { IfSome result (λ k. k ≤ length values.now) }
{
    if begins_with(values, b'<') {
        return literal_len(values);
    }
    match raw_len(values) {
        Some(len) => {
            if len == 0 {
                return None;
            }
            Some(len)
        }
        None => None,
    }
}
