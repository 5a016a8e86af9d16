//! Leaves that a further line continues (CommonMark 4.4, 4.5 and 4.6). Each takes time linear in the line at most, and allocates nothing.

ghost use Rattle.std.specs.Prelude.{◌≡◌, ◌≤◌, ◌&&◌, nat_le, ◌++◌, ◌∷◌, [], length, drop, List, false, Some, IfSome};
ghost use Rattle.markdown_content.specs.Codes.{Code};
ghost use Rattle.markdown_model.specs.CodeTests.{values_of};
ghost use Rattle.markdown_block_model.specs.LineRests.{is_blank_line};
ghost use Rattle.markdown_block_model.specs.BlockTree.{no_extensions, indented_code, fenced_code, html};
ghost use Rattle.markdown_block_model.specs.DocumentBlocks.{with_next};
ghost use Rattle.markdown_block_line.specs.LineBlocks.{fence_of, Says, fenced_with};

use crate::html::ends_html;
use crate::line::{indent_to, is_blank_line};
use crate::starts::{Fence, is_closing};

/// Returns how many codes of a line are no code, or `None` where the line ends the code of this fence (CommonMark 4.5). The code was not ended before.
pub fn fenced_line(fence: Fence, line: &[u8]) -> Option<usize>
    ensures next { (cs info : List Code) (ls : List (List Code)) → values_of cs ≡ line.now
        → with_next no_extensions (fenced_code (fence_of fence) info ls false) cs ≡ Some (fenced_with result (fence_of fence) info ls cs) }
    ensures within { IfSome result (λ k. k ≤ length line.now) }
{
    if is_closing(fence, line) {
        return None;
    }
    Some(indent_to(line, fence.columns))
}

/// Returns how many codes of a line are no code, or `None` where the line does not continue indented code (CommonMark 4.4).
pub fn indented_line(line: &[u8]) -> Option<usize>
    ensures next { (cs : List Code) (ls : List (List Code)) → values_of cs ≡ line.now
        → Says result (λ k. indented_code (ls ++ drop k cs ∷ [])) (with_next no_extensions (indented_code ls) cs) }
    ensures within { IfSome result (λ k. k ≤ length line.now) }
{
    let count = indent_to(line, 4);
    if count < 4 && !is_blank_line(line) {
        return None;
    }
    Some(count)
}

// Whether HTML of this kind ends before a line.
fn ends_before(kind: usize, line: &[u8]) -> bool
    ensures { (cs : List Code) → values_of cs ≡ line.now → result ≡ (nat_le 6 kind && is_blank_line cs) }
{
    kind >= 6 && is_blank_line(line)
}

/// Returns whether a line ends HTML of this kind, or `None` where the HTML ends before the line (CommonMark 4.6). It was not ended before.
pub fn html_line(kind: usize, line: &[u8]) -> Option<bool>
    ensures { (cs text : List Code) → values_of cs ≡ line.now → Says result (html kind (text ++ cs)) (with_next no_extensions (html kind text false) cs) }
{
    if ends_before(kind, line) {
        return None;
    }
    Some(ends_html(kind, line))
}
