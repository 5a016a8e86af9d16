//! Texts between two markers (CommonMark 6.3). Each function takes time linear in what it reads, and allocates nothing.

ghost use Rattle.std.specs.Prelude.{◌≡◌, ◌<◌, ◌≤◌, ◌+◌, ◌∷◌, ◌&&◌, not, length, drop, List, true, false, IfSome, MatchOption};
ghost use Rattle.markdown_content.specs.Codes.{Code};
ghost use Rattle.markdown_content.specs.Content.{has_no_blank_line};
ghost use Rattle.markdown_model.specs.Resource.{counted, label, reference_names, title_between, title, title_names, literal_destination, resource_names};
ghost use Rattle.markdown_model.specs.CodeTests.{values_of, is_value, is_between, next_is};
ghost use Rattle.markdown_block_line.specs.LineValues.{is_blank_value};
ghost use Rattle.markdown_block_definitions.specs.TextReadings.{left_by, behind, closer, is_escapable, is_refused, text_of, is_first, firsts_of, DoesToText};

use crate::spacing::{begins_with, is_blank};
use markdown_block_line::line::is_blank_line;

// A text, by its markers.
#[derive(Clone, Copy)]
pub(crate) enum Text {
    // Between `[` and `]`.
    Label,
    // Between these two. The flag says that the first has to be escaped too.
    Title(bool, u8, u8),
    // Between `<` and `>`.
    Literal,
}

// What a code does to a text.
enum Step {
    // It stands in the text. The flag says that it is a backslash that is not escaped.
    Passes(bool),
    Ends,
    Fails,
}

// What ends a text.
fn closer(text: Text) -> u8
    ensures { result ≡ closer text }
{
    match text {
        Text::Label => b']',
        Text::Title(_, _, closer) => closer,
        Text::Literal => b'>',
    }
}

// Whether a backslash escapes a code in a text.
fn is_escapable(text: Text, value: u8) -> bool
    ensures { result ≡ is_escapable text value }
{
    match text {
        Text::Label => matches!(value, b'[' | b'\\' | b']'),
        Text::Title(both, opener, closer) => {
            value == b'\\' || value == closer || (both && value == opener)
        }
        Text::Literal => matches!(value, b'<' | b'>' | b'\\'),
    }
}

// Whether a code may not stand in a text bare.
fn is_refused(text: Text, value: u8) -> bool
    ensures { result ≡ is_refused text value }
{
    match text {
        Text::Label => value == b'[',
        Text::Title(both, opener, _) => both && value == opener,
        Text::Literal => value == b'<' || value == b'\n',
    }
}

// Whether a code is escaped. `slash` says that a backslash stands before that is not escaped.
fn is_escaped(text: Text, slash: bool, value: u8) -> bool
    ensures { result ≡ (slash && is_escapable text value) }
{
    slash && is_escapable(text, value)
}

// What a code does to a text. `slash` says that a backslash stands before that is not escaped.
fn read_code(text: Text, slash: bool, value: u8) -> Step
    ensures { DoesToText text slash value result }
{
    if is_escaped(text, slash, value) {
        return Step::Passes(false);
    }
    if value == closer(text) {
        return Step::Ends;
    }
    if is_refused(text, value) {
        return Step::Fails;
    }
    Step::Passes(value == b'\\')
}

// How many codes stand before the code that ends a text.
fn text_len(text: Text, values: &[u8]) -> Option<usize>
    ensures read { (cs : List Code) → values_of cs ≡ values.now → left_by (text_of text cs) ≡ behind result cs }
    ensures closed { IfSome result (λ k. (cs : List Code) → values_of cs ≡ values.now → next_is (is_value (closer text)) (drop k cs) ≡ true) }
    ensures within { IfSome result (λ k. k < length values.now) }
{
    let mut slash = false;
    let mut len = 0;
    while len < values.len() {
        match read_code(text, slash, values[len]) {
            Step::Passes(escapes) => {
                slash = escapes;
                len += 1;
            }
            Step::Ends => return Some(len),
            Step::Fails => return None,
        }
    }
    None
}

// Whether the line is filled behind a code, or `None` where the code ends a blank line.
fn filled_behind(filled: bool, value: u8) -> Option<bool>
    ensures { (c : Code) (cs : List Code) → c.value ≡ value → MatchOption result (has_no_blank_line filled (c ∷ cs)
        ≡ false) (λ now. has_no_blank_line filled (c ∷ cs) ≡ has_no_blank_line now cs) }
{
    if value == b'\n' {
        if !filled {
            return None;
        }
        return Some(false);
    }
    if filled {
        return Some(true);
    }
    Some(!is_blank(value))
}

// Whether no line is blank, where the first one is filled.
fn has_no_blank_line(values: &[u8]) -> bool
    ensures { (cs : List Code) → values_of cs ≡ values.now → has_no_blank_line true cs ≡ result }
{
    let mut filled = true;
    let mut len = 0;
    while len < values.len() {
        match filled_behind(filled, values[len]) {
            Some(now) => {
                filled = now;
                len += 1;
            }
            None => return false,
        }
    }
    filled
}

// Whether a code is a blank before which only blanks stand on its line.
fn is_indent(indented: bool, value: u8) -> bool
    ensures { result ≡ (indented && is_blank_value value) }
{
    indented && is_blank(value)
}

// Whether a code begins a character. `first` says that it is no later column of a tab.
fn begins_character(value: u8, first: bool) -> bool
    ensures { result ≡ (not (is_between 128 191 value) && first) }
{
    (value < 128 || value > 191) && first
}

// How many characters a code counts, and whether only blanks may stand before the next code on its line.
fn count_code(indented: bool, value: u8, first: bool) -> (usize, bool)
    ensures count { (c : Code) (cs : List Code) → c.value ≡ value → is_first c ≡ first → counted true indented (c ∷ cs) ≡ result.0 + counted true result.1 cs }
    ensures within { result.0 ≤ 1 }
{
    if value == b'\n' {
        return (1, true);
    }
    if is_indent(indented, value) {
        return (0, true);
    }
    if begins_character(value, first) {
        return (1, false);
    }
    (0, false)
}

// How many characters a label counts.
fn count_characters(values: &[u8], firsts: &[bool]) -> usize
    requires { length firsts.now ≡ length values.now }
    ensures { (cs : List Code) → values_of cs ≡ values.now → firsts_of cs ≡ firsts.now → counted true false cs ≡ result }
{
    let mut count = 0;
    let mut indented = false;
    let mut len = 0;
    while len < values.len() {
        let (more, now) = count_code(indented, values[len], firsts[len]);
        count += more;
        indented = now;
        len += 1;
    }
    count
}

// How many codes a label has that stands first. `firsts` says which of the codes are no later columns of a tab.
pub(crate) fn label_len(values: &[u8], firsts: &[bool]) -> Option<usize>
    requires { length firsts.now ≡ length values.now }
    ensures read { (cs : List Code) → values_of cs ≡ values.now → firsts_of cs ≡ firsts.now → left_by (label true reference_names cs) ≡ behind result cs }
    ensures within { IfSome result (λ k. (0 < k) × (k ≤ length values.now)) }
{
    if !begins_with(values, b'[') {
        return None;
    }
    let Some(len) = text_len(Text::Label, &values[1..]) else {
        return None;
    };
    let end = 1 + len;
    if is_blank_line(&values[1..end]) {
        return None;
    }
    let count = count_characters(&values[1..end], &firsts[1..end]);
    if count > 999 {
        return None;
    }
    if !has_no_blank_line(&values[1..end + 1]) {
        return None;
    }
    Some(end + 1)
}

// How many codes a title between these markers has that stands first. The flag says that the opener has to be escaped too.
fn title_between_len(both: bool, opener: u8, closer: u8, values: &[u8]) -> Option<usize>
    ensures read { (cs : List Code) → values_of cs ≡ values.now → left_by (title_between both opener closer title_names cs) ≡ behind result cs }
    ensures within { IfSome result (λ k. k ≤ length values.now) }
{
    if !begins_with(values, opener) {
        return None;
    }
    let Some(len) = text_len(Text::Title(both, opener, closer), &values[1..]) else {
        return None;
    };
    let end = 1 + len;
    if !has_no_blank_line(&values[1..end + 1]) {
        return None;
    }
    Some(end + 1)
}

// How many codes a title has that stands first.
pub(crate) fn title_len(values: &[u8]) -> Option<usize>
    ensures read { (cs : List Code) → values_of cs ≡ values.now → left_by (title true title_names cs) ≡ behind result cs }
    ensures within { IfSome result (λ k. k ≤ length values.now) }
{
    if let Some(len) = title_between_len(false, b'"', b'"', values) {
        return Some(len);
    }
    if let Some(len) = title_between_len(false, b'\'', b'\'', values) {
        return Some(len);
    }
    title_between_len(true, b'(', b')', values)
}

// How many codes a destination between `<` and `>` has that stands first.
pub(crate) fn literal_len(values: &[u8]) -> Option<usize>
    ensures read { (cs : List Code) → values_of cs ≡ values.now → left_by (literal_destination resource_names cs) ≡ behind result cs }
    ensures within { IfSome result (λ k. k ≤ length values.now) }
{
    if !begins_with(values, b'<') {
        return None;
    }
    let Some(len) = text_len(Text::Literal, &values[1..]) else {
        return None;
    };
    Some(1 + len + 1)
}
