//! Characters beside an index of a text, and their classes.
//!
//!     beside INDEX | TEXT   the character before the index, the one after it, and the class of the latter
//!     class | TEXT          the class of each character of the text; of the empty text that of a missing one
//!     listed | TEXT         the same, where whitespace is what CommonMark lists
//!
//! An index is no end of a character where `no boundary` is printed.
ghost use Rattle.std.specs.Prelude.{◌≡◌};

use crate::answers::Answers;
use crate::case::Case;
use markdown_util::util::char::{
    after_index, before_index, classify_listed, classify_opt, kind_after_index,
};

// Appends what a case answers.
pub(crate) fn answer(case: &Case, out: &mut Answers) {
    match case.call {
        "beside" => beside(case.characters(), case.number(0), out),
        "class" => classes(case.characters(), out),
        "listed" => listed(case.characters(), out),
        _ => out.say(" no such call"),
    }
}

// The neighbours of an index.
fn beside(text: &str, index: usize, out: &mut Answers) {
    if !text.is_char_boundary(index) {
        return out.say(" no boundary");
    }
    let bytes = text.as_bytes();
    out.show(before_index(bytes, index));
    out.show(after_index(bytes, index));
    out.show(kind_after_index(bytes, index));
}

// The classes of the characters of a text.
fn classes(text: &str, out: &mut Answers) {
    if text.is_empty() {
        out.show(classify_opt(None));
    }
    for c in text.chars() {
        out.show(classify_opt(Some(c)));
    }
}

// The same, where whitespace is what CommonMark lists.
fn listed(text: &str, out: &mut Answers) {
    if text.is_empty() {
        out.show(classify_listed(None));
    }
    for c in text.chars() {
        out.show(classify_listed(Some(c)));
    }
}
