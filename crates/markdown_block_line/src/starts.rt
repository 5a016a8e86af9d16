//! What begins with the rest of a line (CommonMark 4.1 to 4.3, 4.5, 5.1 and 5.2). Each takes time linear in the rest at most, and allocates nothing.

ghost use Rattle.std.specs.Prelude.{◌≡◌, ◌<◌, ◌≤◌, ◌+◌, min, length, take, drop, List, [], false, IfSome, ◌||◌, ◌&&◌, ◌==◌};
ghost use Rattle.markdown_content.specs.Codes.{Code};
ghost use Rattle.markdown_model.specs.CodeTests.{values_of, is_value};
ghost use Rattle.markdown_block_model.specs.LineRests.{trimmed_end, without_end};
ghost use Rattle.markdown_block_model.specs.BlockTree.{heading, fenced_code, bullet, ordered};
ghost use Rattle.markdown_block_model.specs.LeafStarts.{is_break, ends_blank, heading_text, heading_at, is_row_of, underline, may_be_info, fence_least, fence_at, is_closing};
ghost use Rattle.markdown_block_model.specs.ContainerStarts.{behind_quote, bullet_at, ordered_at};
ghost use Rattle.markdown_block_line.specs.LineBlocks.{extensions_of, fence_of, Says};
ghost use Rattle.markdown_block_line.specs.LineStarts.{heading_start, fence_start};
ghost use Rattle.markdown_block_line.specs.LineValues.{front, is_break_values, is_digit_value, number_values};

use crate::extensions::Extensions;
use crate::line::{self, count_first, indent, indent_to, is_blank_line, is_gap, trimmed_len};

/// A heading of number signs: its level, and where its text stands in the rest that was read.
#[derive(Clone, Copy)]
pub struct Heading {
    /// The number of its markers, 1 to 6.
    pub level: usize,
    /// How many codes stand before the text.
    pub start: usize,
    /// How many codes the text has.
    pub len: usize,
}

/// How code is fenced.
#[derive(Clone, Copy)]
pub struct Fence {
    /// A grave accent, a tilde or, with math, a dollar.
    pub value: u8,
    /// How often it stands: 3 times at least, a dollar 2 times.
    pub count: usize,
    /// How many columns stand before it.
    pub columns: usize,
}

/// A fence that begins code, and where the info string stands in the rest that was read.
#[derive(Clone, Copy)]
pub struct OpenFence {
    /// The fence.
    pub fence: Fence,
    /// How many codes stand before the info string.
    pub start: usize,
    /// How many codes the info string has.
    pub len: usize,
}

/// The marker of an ordered item.
#[derive(Clone, Copy)]
pub struct OrderedMarker {
    /// A full stop or a closing parenthesis.
    pub delimiter: u8,
    /// The number before the delimiter, of nine digits at most.
    pub number: u32,
    /// How many codes the marker has.
    pub len: usize,
}

// Digits that stand first: how many, and their number.
#[derive(Clone, Copy)]
struct Digits {
    count: usize,
    number: u32,
}

/// Returns whether the rest is a thematic break (CommonMark 4.1). The rest begins behind the indent.
pub fn is_break(line: &[u8]) -> bool
    ensures { (cs : List Code) → values_of cs ≡ line.now → result ≡ is_break cs }
{
    is_any_break(line)
}

// Whether the rest is a thematic break of one of the markers.
fn is_any_break(line: &[u8]) -> bool
    ensures { result ≡ (is_break_values 42 line.now || is_break_values 45 line.now || is_break_values 95 line.now) }
{
    is_break_of(line, b'*') || is_break_of(line, b'-') || is_break_of(line, b'_')
}

// Whether the rest is a thematic break of this marker.
fn is_break_of(line: &[u8], marker: u8) -> bool
    ensures { result ≡ is_break_values marker line.now }
{
    let mut count: usize = 0;
    for value in line {
        if *value == marker {
            count += 1;
        } else if !line::is_whitespace(*value) {
            return false;
        }
    }
    count >= 3
}

/// Returns the level of the heading that a whole line underlines, or `None` where the line is no underline (CommonMark 4.3).
pub fn underline(line: &[u8]) -> Option<usize>
    ensures { (cs : List Code) → values_of cs ≡ line.now → result ≡ underline cs }
{
    let columns = indent_to(line, 4);
    if columns == 4 {
        return None;
    }
    let rest = &line[columns..];
    if is_row_of(rest, b'=') {
        return Some(1);
    }
    if is_row_of(rest, b'-') {
        return Some(2);
    }
    None
}

// Whether the rest is a row of this marker, and blanks behind it.
fn is_row_of(line: &[u8], marker: u8) -> bool
    ensures { (cs : List Code) → values_of cs ≡ line.now → result ≡ is_row_of marker cs }
{
    let count = count_first(line, marker);
    if count == 0 {
        return false;
    }
    is_blank_line(&line[count..])
}

/// Returns how many codes of a line stand outside a quote that it begins or continues: the indent, the marker, and a blank behind it. `None` where
/// no quote is marked (CommonMark 5.1).
pub fn behind_quote(line: &[u8]) -> Option<usize>
    ensures found { (cs : List Code) → values_of cs ≡ line.now → Says result (λ k. drop k cs) (behind_quote cs) }
    ensures within { IfSome result (λ k. (0 < k) × (k ≤ length line.now)) }
{
    let at = indent_to(line, 4);
    if at == 4 {
        return None;
    }
    if at == line.len() {
        return None;
    }
    if line[at] != b'>' {
        return None;
    }
    Some(at + 1 + indent_to(&line[at + 1..], 1))
}

/// Returns the bullet that stands first, or `None` (CommonMark 5.2). Its marker is one code long, and the rest begins behind the indent.
pub fn bullet_at(line: &[u8]) -> Option<u8>
    ensures found { (cs : List Code) → values_of cs ≡ line.now → Says result (λ n. (bullet n, 1)) (bullet_at cs) }
    ensures within { IfSome result (λ n. 0 < length line.now) }
{
    if line.len() == 0 {
        return None;
    }
    let first = line[0];
    if first == b'-' || first == b'+' || first == b'*' {
        return Some(first);
    }
    None
}

/// Returns the marker of an ordered item that stands first, or `None` (CommonMark 5.2). The rest begins behind the indent.
pub fn ordered_at(line: &[u8]) -> Option<OrderedMarker>
    ensures found { (cs : List Code) → values_of cs ≡ line.now → Says result (λ m. (ordered m.delimiter m.number, m.len)) (ordered_at cs) }
    ensures within { IfSome result (λ m. (0 < m.len) × (m.len ≤ length line.now)) }
{
    let digits = digits_at(line);
    if digits.count == 0 {
        return None;
    }
    if digits.count == line.len() {
        return None;
    }
    let delimiter = line[digits.count];
    if !is_delimiter(delimiter) {
        return None;
    }
    Some(OrderedMarker {
        delimiter,
        number: digits.number,
        len: digits.count + 1,
    })
}

// Whether a code may end the marker of an ordered item.
fn is_delimiter(value: u8) -> bool
    ensures { result ≡ (value == 46 || value == 41) }
{
    value == b'.' || value == b')'
}

// Whether a code is a digit.
fn is_digit(value: u8) -> bool
    ensures { result ≡ is_digit_value value }
{
    b'0' <= value && value <= b'9'
}

// The digits that stand first, of more than nine the first nine.
fn digits_at(line: &[u8]) -> Digits
    ensures count { result.count ≡ min 9 (front is_digit_value line.now) }
    ensures within { result.count ≤ length line.now }
    ensures number { result.number ≡ number_values 0 (take result.count line.now) }
{
    let mut count = 0;
    let mut number: u32 = 0;
    while count < 9 && count < line.len() {
        let value = line[count];
        if !is_digit(value) {
            return Digits { count, number };
        }
        number = number * 10 + u32::from(value - b'0');
        count += 1;
    }
    Digits { count, number }
}

/// Returns the heading of number signs that the rest is, or `None` (CommonMark 4.2). The rest begins behind the indent.
pub fn heading_at(line: &[u8]) -> Option<Heading>
    ensures found { (cs : List Code) → values_of cs ≡ line.now → Says result (λ h. heading h.level (take h.len (drop h.start cs))) (heading_at cs) }
    ensures start { (cs : List Code) → values_of cs ≡ line.now → IfSome result (λ h. h.start ≡ heading_start cs) }
    ensures within { IfSome result (λ h. h.start + h.len ≤ length line.now) }
{
    let level = count_first(line, b'#');
    if level == 0 {
        return None;
    }
    if level > 6 {
        return None;
    }
    let inside = &line[level..];
    if !is_gap(inside) {
        return None;
    }
    let start = level + indent(inside);
    let len = heading_len(&line[start..]);
    Some(Heading { level, start, len })
}

// How many codes are left of a heading's text without whitespace at its end and the markers that close it.
fn heading_len(text: &[u8]) -> usize
    ensures same { (cs : List Code) → values_of cs ≡ text.now → heading_text (trimmed_end cs) ≡ take result cs }
    ensures within { result ≤ length text.now }
{
    let len = trimmed_len(text);
    let open = open_len(&text[..len]);
    if ends_blank(&text[..open]) {
        return trimmed_len(&text[..open]);
    }
    len
}

// Whether the last code is a blank, or there is none.
fn ends_blank(text: &[u8]) -> bool
    ensures { (cs : List Code) → values_of cs ≡ text.now → result ≡ ends_blank cs }
{
    if text.len() == 0 {
        return true;
    }
    line::is_blank(text[text.len() - 1])
}

// How many codes are left without the number signs at the end.
fn open_len(text: &[u8]) -> usize
    ensures same { (cs : List Code) → values_of cs ≡ text.now → without_end (is_value 35) cs ≡ take result cs }
    ensures within { result ≤ length text.now }
{
    let mut len = text.len();
    while len > 0 {
        if text[len - 1] != b'#' {
            return len;
        }
        len -= 1;
    }
    0
}

/// Returns the fence that begins code behind an indent of so many columns, or `None` (CommonMark 4.5). The rest begins behind the indent.
pub fn fence_at(extensions: Extensions, columns: usize, line: &[u8]) -> Option<OpenFence>
    ensures found { (cs : List Code) → values_of cs ≡ line.now
        → Says result (λ f. fenced_code (fence_of f.fence) (take f.len (drop f.start cs)) [] false) (fence_at (extensions_of extensions) columns cs) }
    ensures start { (cs : List Code) → values_of cs ≡ line.now → IfSome result (λ f. f.start ≡ fence_start cs) }
    ensures within { IfSome result (λ f. f.start + f.len ≤ length line.now) }
{
    if line.len() == 0 {
        return None;
    }
    let value = line[0];
    let count = count_first(line, value);
    if count < fence_least(value) {
        return None;
    }
    let info = &line[count..];
    if !may_be_info(extensions, info, value) {
        return None;
    }
    let start = count + indent(info);
    let len = trimmed_len(&line[start..]);
    let fence = Fence {
        value,
        count,
        columns,
    };
    Some(OpenFence { fence, start, len })
}

// How often a marker stands in a fence at least.
fn fence_least(value: u8) -> usize
    ensures { result ≡ fence_least value }
{
    if value == b'$' {
        return 2;
    }
    3
}

// Whether fences are made of this marker, and their info strings have none of it.
fn is_apart(extensions: Extensions, value: u8) -> bool
    ensures { result ≡ (value == 96 || (extensions.math && value == 36)) }
{
    value == b'`' || extensions.math && value == b'$'
}

// Whether an info string may stand behind this marker.
fn may_be_info(extensions: Extensions, info: &[u8], value: u8) -> bool
    ensures { (cs : List Code) → values_of cs ≡ info.now → result ≡ may_be_info (extensions_of extensions) value cs }
{
    if value == b'~' {
        return true;
    }
    if !is_apart(extensions, value) {
        return false;
    }
    !info.contains(&value)
}

/// Returns whether a whole line ends the code of this fence (CommonMark 4.5).
pub fn is_closing(fence: Fence, line: &[u8]) -> bool
    ensures { (cs : List Code) → values_of cs ≡ line.now → result ≡ is_closing (fence_of fence) cs }
{
    let at = indent_to(line, 4);
    if at == 4 {
        return false;
    }
    let rest = &line[at..];
    let len = count_first(rest, fence.value);
    if len < fence.count {
        return false;
    }
    is_blank_line(&rest[len..])
}
