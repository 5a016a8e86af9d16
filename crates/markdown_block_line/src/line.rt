//! Words on the rest of a line (CommonMark 2.1 and 2.2). Each takes time linear in the rest at most, and allocates nothing.

ghost use Rattle.std.specs.Prelude.{◌≡◌, ◌≤◌, min, length, take, List};
ghost use Rattle.markdown_content.specs.Codes.{Code};
ghost use Rattle.markdown_model.specs.CodeTests.{values_of};
ghost use Rattle.markdown_block_model.specs.LineRests.{indent, trimmed, skip, is_blank_line, is_gap, count_first, trimmed_end};
ghost use Rattle.markdown_block_line.specs.LineValues.{is_blank_value, is_whitespace_value, is_row_value, len_without_end};

// Whether a code is a space, a tab, or a column of a tab.
pub(crate) fn is_blank(value: u8) -> bool
    ensures { result ≡ is_blank_value value }
{
    value == b' ' || value == b'\t'
}

// Whether a code is a blank or a line ending.
pub(crate) fn is_whitespace(value: u8) -> bool
    ensures { result ≡ is_whitespace_value value }
{
    is_blank(value) || value == b'\n'
}

/// Returns how many columns the rest begins with that are blank, counted up to `most` (CommonMark 2.2).
pub fn indent_to(line: &[u8], most: usize) -> usize
    ensures count { (cs : List Code) → values_of cs ≡ line.now → result ≡ min most (indent cs) }
    ensures within { result ≤ length line.now }
{
    let mut count = 0;
    while count < most && count < line.len() {
        if !is_blank(line[count]) {
            return count;
        }
        count += 1;
    }
    count
}

/// Returns how many columns the rest begins with that are blank (CommonMark 2.2).
pub fn indent(line: &[u8]) -> usize
    ensures count { (cs : List Code) → values_of cs ≡ line.now → result ≡ indent cs }
    ensures within { result ≤ length line.now }
{
    indent_to(line, line.len())
}

/// Returns the rest from its first code on that is not blank.
pub fn trimmed<'a>(line: &'a [u8]) -> &'a [u8]
    ensures { (cs : List Code) → values_of cs ≡ line.now → values_of (trimmed cs) ≡ result.now }
{
    &line[indent(line)..]
}

/// Returns the rest behind so many columns, as far as they are blank.
pub fn skip<'a>(columns: usize, line: &'a [u8]) -> &'a [u8]
    ensures { (cs : List Code) → values_of cs ≡ line.now → values_of (skip columns cs) ≡ result.now }
{
    &line[indent_to(line, columns)..]
}

/// Returns whether nothing but blanks and a line ending is left (CommonMark 2.1).
pub fn is_blank_line(line: &[u8]) -> bool
    ensures { (cs : List Code) → values_of cs ≡ line.now → result ≡ is_blank_line cs }
{
    for value in line {
        if !is_whitespace(*value) {
            return false;
        }
    }
    true
}

/// Returns whether a blank or a line ending stands first, or nothing is left.
pub fn is_gap(line: &[u8]) -> bool
    ensures { (cs : List Code) → values_of cs ≡ line.now → result ≡ is_gap cs }
{
    line.len() == 0 || is_whitespace(line[0])
}

/// Returns how often this value stands first.
pub fn count_first(line: &[u8], value: u8) -> usize
    ensures count { (cs : List Code) → values_of cs ≡ line.now → result ≡ count_first value cs }
    ensures within { result ≤ length line.now }
{
    let mut count = 0;
    while count < line.len() {
        if line[count] != value {
            return count;
        }
        count += 1;
    }
    count
}

/// Returns how many codes are left without the blanks and the line ending at the end.
pub fn trimmed_len(line: &[u8]) -> usize
    ensures same { (cs : List Code) → values_of cs ≡ line.now → trimmed_end cs ≡ take result cs }
    ensures within { result ≤ length line.now }
{
    len_before(line, b' ')
}

// Whether a code has this value, or is whitespace.
fn is_row_value(value: u8, code: u8) -> bool
    ensures { result ≡ is_row_value value code }
{
    code == value || is_whitespace(code)
}

// How many codes are left without those at the end that have this value or are whitespace.
pub(crate) fn len_before(line: &[u8], value: u8) -> usize
    ensures same { result ≡ len_without_end (is_row_value value) line.now }
    ensures within { result ≤ length line.now }
{
    let mut len = line.len();
    while len > 0 {
        if !is_row_value(value, line[len - 1]) {
            return len;
        }
        len -= 1;
    }
    0
}
