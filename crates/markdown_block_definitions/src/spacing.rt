//! Whitespace between the parts of a definition (CommonMark 4.7). Each function takes time linear in what it passes, and allocates nothing.

ghost use Rattle.std.specs.Prelude.{◌≡◌, ◌<◌, ◌≤◌, length, List, true, None, IfSome};
ghost use Rattle.markdown_content.specs.Codes.{Code};
ghost use Rattle.markdown_model.specs.CodeTests.{values_of, is_value, next_is};
ghost use Rattle.markdown_model.specs.Whitespace.{space_or_tab_eol};
ghost use Rattle.markdown_block_model.specs.LinkDefinitions.{line_end};
ghost use Rattle.markdown_block_line.specs.LineValues.{is_blank_value};
ghost use Rattle.markdown_block_definitions.specs.TextReadings.{left_by, behind};

use markdown_block_line::line::indent;

// Whether a code of this value stands first.
pub(crate) fn begins_with(values: &[u8], value: u8) -> bool
    ensures first { (cs : List Code) → values_of cs ≡ values.now → next_is (is_value value) cs ≡ result }
    ensures within { result ≡ true → 0 < length values.now }
{
    values.len() > 0 && values[0] == value
}

// Whether a code is a space, a tab, or a column of a tab.
pub(crate) fn is_blank(value: u8) -> bool
    ensures { result ≡ is_blank_value value }
{
    value == b' ' || value == b'\t'
}

// How many codes the whitespace between two parts has that stands first: it has one line ending at most, and something follows on its line.
pub(crate) fn gap_len(values: &[u8]) -> Option<usize>
    ensures read { (cs : List Code) → values_of cs ≡ values.now → left_by (space_or_tab_eol None cs) ≡ behind result cs }
    ensures within { IfSome result (λ k. k ≤ length values.now) }
{
    let blanks = indent(values);
    if begins_with(&values[blanks..], b'\n') {
        let len = blanks + 1 + indent(&values[blanks + 1..]);
        if len == values.len() {
            return None;
        }
        if values[len] == b'\n' {
            return None;
        }
        return Some(len);
    }
    if blanks == 0 {
        return None;
    }
    Some(blanks)
}

// How many codes stand before the next line, or the end, where nothing but blanks is left of the line.
pub(crate) fn line_end_len(values: &[u8]) -> Option<usize>
    ensures read { (cs : List Code) → values_of cs ≡ values.now → left_by (line_end cs) ≡ behind result cs }
    ensures within { IfSome result (λ k. k ≤ length values.now) }
{
    let blanks = indent(values);
    if begins_with(&values[blanks..], b'\n') {
        return Some(blanks + 1);
    }
    if blanks == values.len() {
        return Some(blanks);
    }
    None
}
