//! The thematic breaks of a line (CommonMark 4.1), found once: a reader that asked at each marker of `- - - a` would look at the whole rest each time.

ghost use Rattle.std.specs.Prelude.{◌≡◌, ◌≤◌, ◌||◌, ◌==◌, ℕ, length, drop, nat_le, nat_lt};
ghost use Rattle.markdown_model.specs.CodeTests.{is_between};
ghost use Rattle.markdown_block_line.specs.LineValues.{count_value};
ghost use Rattle.markdown_block_line.specs.LineBreaks.{IsBreakLens, AreLensOf};

use crate::line::len_before;

/// How many codes are left of a line where a thematic break begins.
#[derive(Clone, Copy)]
pub struct BreakLens {
    /// The fewest.
    pub least: usize,
    /// The most.
    pub most: usize,
}

impl BreakLens {
    /// Returns whether a rest of so many codes is a thematic break.
    pub fn contains(&self, len: usize) -> bool
        ensures { result ≡ is_between self.now.least self.now.most len }
    {
        self.least <= len && len <= self.most
    }
}

// Of a line without a thematic break.
const NO_BREAK: BreakLens = BreakLens { least: 1, most: 0 };

/// Returns where a line has thematic breaks (CommonMark 4.1).
pub fn break_lens(line: &[u8]) -> BreakLens
    ensures { IsBreakLens result line.now }
{
    let len = len_before(line, b' ');
    if len == 0 {
        return NO_BREAK;
    }
    let marker = line[len - 1];
    if !is_break_marker(marker) {
        return NO_BREAK;
    }
    break_lens_of(line, marker)
}

// Whether a code is the marker of thematic breaks.
fn is_break_marker(value: u8) -> bool
    ensures { result ≡ (value == 42 || value == 45 || value == 95) }
{
    value == b'*' || value == b'-' || value == b'_'
}

// Where a line has thematic breaks of this marker.
fn break_lens_of(line: &[u8], marker: u8) -> BreakLens
    ensures { AreLensOf marker result line.now }
{
    let from = len_before(line, marker);
    let until = third_last(line, marker);
    BreakLens {
        least: line.len() + 1 - until,
        most: line.len() - from,
    }
}

// Up to which place, exclusive, this value stands three times behind it.
fn third_last(line: &[u8], value: u8) -> usize
    ensures thrice { (k : ℕ) → nat_le 3 (count_value value (drop k line.now)) ≡ nat_lt k result }
    ensures within { result ≤ length line.now }
{
    let mut count: usize = 0;
    let mut at = line.len();
    while at > 0 {
        if line[at - 1] == value {
            count += 1;
            if count == 3 {
                return at;
            }
        }
        at -= 1;
    }
    0
}
