//! The search of a name among the lines of HTML, which stand in one text.
//!
//! Of each line the text has the name, a `;`, what the name stands for, and a space. A cut of the text behind a space parts lines from lines, so the
//! text is searched by halving, as a list of lines would be.

ghost use Rattle.std.specs.Prelude.{◌≡◌, ◌≢◌, ◌≤◌, ◌<◌, All, length, MatchOption, []};
ghost use Rattle.std.specs.Option.{option_copied};
ghost use Rattle.markdown_util.specs.Reference.{Table, html_rows, named_value};
ghost use Rattle.markdown_util.specs.TableText.{html_text, IsTableText, IsSortedText, IsLineOf, IsSplitAtByte, StartsLine};

use crate::util::constant::HTML_LINES;
use std::cmp::Ordering;

/// A line, with the lines before it and behind it.
#[derive(Drop)]
struct Line {
    before: &'static str,
    name: &'static str,
    text: &'static str,
    behind: &'static str,
}

/// The text that a name stands for in HTML, and none where HTML does not have the name.
pub(crate) fn html(name: &str) -> Option<&'static str>
    ensures { option_copied result ≡ named_value html_rows name.now }
{
    text_in(html_lines(), name)
}

/// All lines of HTML.
#[tactic(auto, unfolding(crate::specs::TableText::html_text))]
fn html_lines() -> &'static str
    ensures { result.now ≡ html_text }
{
    HTML_LINES
}

/// The text in the line with this name.
fn text_in(lines: &'static str, name: &str) -> Option<&'static str>
    requires { IsSortedText html_rows lines.now }
    ensures { option_copied result ≡ named_value html_rows name.now }
{
    let mut lines = lines;
    while let Some(line) = middle(lines) {
        match line.name.cmp(name) {
            Ordering::Less => lines = line.behind,
            Ordering::Equal => return Some(line.text),
            Ordering::Greater => lines = line.before,
        }
    }
    None
}

/// The line in the middle of such a text, and none where it has no line.
fn middle(lines: &'static str) -> Option<Line>
    ensures { (rows : Table) → IsTableText rows lines.now → MatchOption result (rows ≡ []) (λ line. IsLineOf rows line.before.now line.name.now line.text.now line.behind.now) }
{
    let (before, rest) = lines.split_at(line_start(lines, lines.len() / 2));
    let (name, rest) = split_at_byte(rest, b';')?;
    let (text, behind) = split_at_byte(rest, b' ')?;
    Some(Line {
        before,
        name,
        text,
        behind,
    })
}

/// Where the line starts that has this place.
fn line_start(lines: &str, at: usize) -> usize
    requires { at ≤ length lines.now }
    ensures near { result ≤ at }
    ensures starts { StartsLine lines.now result }
{
    match lines.as_bytes()[..at]
        .iter()
        .rposition(|byte| *byte == b' ')
    {
        Some(space) => space + 1,
        None => 0,
    }
}

/// What stands before the first such byte of a text, and behind it.
#[tactic(auto, using(std::proofs::lemmas::Str::lead_after_ascii))]
fn split_at_byte(text: &'static str, byte: u8) -> Option<(&'static str, &'static str)>
    requires { byte < 128 }
    ensures { MatchOption result (All (λ b. b ≢ byte) text.now) (λ parts. IsSplitAtByte byte text.now parts.0.now parts.1.now) }
{
    let at = text.bytes().position(|it| it == byte)?;
    Some((&text[..at], &text[at + 1..]))
}
