//! The fences of front matter. Each takes time linear in the line at most, and allocates nothing.

ghost use Rattle.std.specs.Prelude.{◌≡◌, ◌||◌, ◌&&◌, ◌==◌, length, List, true, false, MatchOption};
ghost use Rattle.markdown_content.specs.Codes.{Code};
ghost use Rattle.markdown_model.specs.CodeTests.{values_of};
ghost use Rattle.markdown_block_model.specs.LineRests.{first_value};
ghost use Rattle.markdown_block_model.specs.FrontMatter.{is_matter_fence, begins_matter};

use crate::line::{count_first, is_blank_line};

/// Returns whether a line is a fence of front matter: this marker three times, then only whitespace.
pub fn is_matter_fence(marker: u8, line: &[u8]) -> bool
    ensures { (cs : List Code) → values_of cs ≡ line.now → result ≡ is_matter_fence marker cs }
{
    if count_first(line, marker) != 3 {
        return false;
    }
    is_blank_line(&line[3..])
}

// Whether fences of front matter are made of this character.
fn is_marker(value: u8) -> bool
    ensures { result ≡ (value == 45 || value == 43) }
{
    value == b'-' || value == b'+'
}

/// Returns the marker of the fence of front matter that a document's first line is, or `None`.
pub fn matter_marker(line: &[u8]) -> Option<u8>
    ensures { (cs : List Code) → values_of cs ≡ line.now
        → MatchOption result (begins_matter (first_value cs) cs ≡ false) (λ n. (n ≡ first_value cs) × (begins_matter (first_value cs) cs ≡ true)) }
{
    if line.len() == 0 {
        return None;
    }
    let marker = line[0];
    if !is_marker(marker) {
        return None;
    }
    if !is_matter_fence(marker, line) {
        return None;
    }
    Some(marker)
}
