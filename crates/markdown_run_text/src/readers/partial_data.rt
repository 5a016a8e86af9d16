//! The reader of data of a text, which is text that means itself (CommonMark 6.9).
//!
//!     data ::= code (code - stop)*
//!     stop ::= '_' | literal | one of ! $ & * < [ \ ] ` ~
//!     literal ::= 'https://' | 'http://' | 'www.'              in either case, where literals are on
//!
//! The first code belongs to data, whatever it is. An underscore between two ASCII letters or digits is no `stop`; of a `literal` only the first letter is
//! one. Line endings belong to data too.
//!
//! Events:
//!
//!     Data          a stretch on one line
//!     LineEnding    a line ending
//!
//! Example: the data of `see x_y *z*` before the first star.
//!
//!     Data 0-8
//!
//! Definition: `data_up_to` in `markdown_model/specs/TextLines.antt`. A text has data code by code, as `data_code` in `Elements.antt`; the proof of a run
//! compares the two.
//!
//! The reader reads all data of a text, and leaves none to the states. It is called where every construct has failed.
//!
//! Data goes on past letters with which literals begin (GFM 6.9), but where a whole word of theirs stands. Such a word is letters and then a
//! sign: a `.` behind a `w`, or a `:` before a `/`. So letters are looked at only in a stretch that ends at such a sign.
//!
//! It also goes on past an *inner* underscore, one between two ASCII letters or digits, which may neither open nor close emphasis
//! (CommonMark 6.2).
#![tactic(auto, using(markdown_engine::proofs::OperationFields::op_rules))]

ghost use Rattle.std.specs.Prelude.{◌≡◌, ◌<◌, ◌==◌, ◌||◌, ◌&&◌, length, map, true, false, codes, not, IfOk, OnOk, OnErr, IsSome, IsTrue, None};
ghost use Rattle.std.specs.List.{list_any};
ghost use Rattle.std.specs.Str.{byte};
ghost use Rattle.markdown_engine.specs.Operations.{HasCode, ahead, done};
ghost use Rattle.markdown_engine.specs.PastTree.{Reads};
ghost use Rattle.markdown_content.specs.Place.{ahead_at, code_at, code_before, moved};
ghost use Rattle.markdown_model.specs.TextLines.{data_up_to};
ghost use Rattle.markdown_partial.specs.PartialData.{ending, is_some_mark};
ghost use Rattle.markdown_run_text.specs.PlacesPassed.{past_data, past_inner, goes_on, goes_past, goes_in_line, is_some_alphanumeric, is_some_letter, is_some_value, is_word, line_stops, may_begin, one_stands, signs, markers_and_signs, sign_at, data_read, line_read};
ghost use Rattle.markdown_run_text.specs.TextStops.{begins_word, is_inner_underscore, reader_stops};
ghost use Rattle.markdown_run_text.specs.TextContent.{plain_markers};

use crate::readers::events::append_leaf;
use crate::tries::plain_tries;
use markdown_content::byte_table;
use markdown_content::bytes::{ByteSet, ByteTable};
use markdown_content::cursor::Cursor;
use markdown_engine::tokenizer::Tokenizer;
use markdown_event::event::Name;
use markdown_partial::literal_letters;
use markdown_partial::literal_words::SCHEMES;
use markdown_plan::bytes::{is_alphanumeric, is_letter};
use std::alloc::AllocError;

// The bytes of all lines.
macro_rules! bytes_of {
    ($($kind:ident { $([$($of_row:literal)*] $construct:ident $(, $otherwise:ident)?;)* })*) => {
        byte_table!($($($($of_row),*),*),*)
    };
}

// The same, and the signs in words of literals.
macro_rules! bytes_and_signs_of {
    ($($kind:ident { $([$($of_row:literal)*] $construct:ident $(, $otherwise:ident)?;)* })*) => {
        byte_table!($($($($of_row),*),*),*, b'.', b':')
    };
}

const MARKERS: ByteTable = plain_tries!(bytes_of);

const MARKERS_AND_SIGNS: ByteTable = plain_tries!(bytes_and_signs_of);

// The bytes at which data stops, but for the letters of literals.
#[inline(always)]
fn markers() -> ByteSet
    ensures { result ≡ plain_markers }
{
    ByteSet::new(&MARKERS)
}

// These bytes, and the signs in words of literals.
#[inline(always)]
fn markers_and_signs() -> ByteSet
    ensures { result ≡ markers_and_signs }
{
    ByteSet::new(&MARKERS_AND_SIGNS)
}

// Whether the code is this letter, in either case, or this other byte. The letter is given in lower case.
fn is_same(code: Option<u8>, letter: u8) -> bool
    ensures { result ≡ is_some_letter letter code }
{
    match code {
        Some(byte) => byte == letter || (is_letter(byte) && byte + 32 == letter),
        None => false,
    }
}

// Whether the word stands at the place, its letters in either case. It is given in lower case; here it is `www.`:
//
//     > | see WWW.x.y
//             ^^^^
fn stands(cursor: &Cursor, word: &[u8]) -> bool
    ensures { result ≡ is_word word.now cursor.now }
{
    let mut place = cursor.save();
    for letter in word {
        if !is_same(place.current(), *letter) {
            return false;
        }
        place.consume();
    }
    true
}

// Whether one of these words stands at the place. They are given in lower case; here one of them is `http://`:
//
//     > | see http://x.y
//             ^^^^^^^
fn one_of(cursor: &Cursor, mut words: &[&[u8]]) -> bool
    ensures { result ≡ one_stands (map (λ w. w.now) words.entry.now) cursor.now }
{
    while let [word, rest @ ..] = words {
        if stands(cursor, word) {
            return true;
        }
        words = rest;
    }
    false
}

// Whether one of the words stands at the place with which literals begin: a scheme, or `www.`.
//
//     > | see http://x.y or www.x.y
//             ^^^^^^^       ^^^^
#[inline(never)]
fn one_stands(cursor: &Cursor) -> bool
    ensures { result ≡ begins_word (ahead_at cursor.now) }
{
    one_of(cursor, &SCHEMES) || stands(cursor, b"www.")
}

// Whether a letter of literals is at the place, and behind it one with which they go on.
macro_rules! may_begin_with {
    ($cursor:ident $($literals:ident { $([$($first:literal)*] then [$($second:literal)*];)* })*) => {
        match $cursor.current() {
            $($(Some($($first)|*) => matches!($cursor.next(), Some($($second)|*)),)*)*
            _ => false,
        }
    };
}

// Whether the code at the place and the one behind it are the first of a word with which literals begin. In `wo` they are not, in `ww` they are:
//
//     > | see two www.x.y
//              ^^ ^^
#[inline(always)]
fn may_begin(cursor: &Cursor) -> bool
    ensures { result ≡ may_begin cursor.now }
{
    literal_letters!(may_begin_with cursor)
}

// Whether a word stands at the place with which literals begin. Words are looked for only where their first two letters are.
//
//     > | see http://x.y or www.x.y
//             ^^^^^^^       ^^^^
#[inline(always)]
fn begins_word(cursor: &Cursor) -> bool
    ensures { result ≡ begins_word (ahead_at cursor.now) }
{
    if !may_begin(cursor) {
        return false;
    }
    one_stands(cursor)
}

// Whether data stops at the byte at the place, which is given. It stops at each underscore, and at no line ending.
//
//     > | see www.x.y *z*
//             ^       ^ ^
#[inline(always)]
fn stops(cursor: &Cursor, byte: u8, literals: bool) -> bool
    ensures { result ≡ list_any (λ n. byte == n) plain_markers || (literals && begins_word (ahead_at cursor.now)) }
{
    markers().contains(byte) || (literals && begins_word(cursor))
}

/// Whether a code is at the place at which nothing but data begins, where `literals` says whether those are on. An underscore is no such code,
/// though `read` goes past one between two ASCII letters or digits.
///
///     > | see x_y *z*
///         ^^^^^ ^^ ^
#[inline(always)]
pub fn goes_on(cursor: &Cursor, literals: bool) -> bool
    ensures { result ≡ goes_on literals (ahead_at cursor.now) }
{
    match cursor.current() {
        Some(byte) => !stops(cursor, byte, literals),
        None => false,
    }
}

// The same, of a code that is no line ending, where literals are on.
//
//     > | see www.x *z*
//         ^^^^ ^^^^^ ^
fn goes_in_line(cursor: &Cursor) -> bool
    ensures { result ≡ goes_in_line cursor.now }
{
    match cursor.current() {
        Some(b'\n') => false,
        _ => goes_on(cursor, true),
    }
}

// Whether a sign is at the place that a word of literals may hold: a `.` behind a `w`, or a `:` before a `/`.
//
//     > | a. http://x or www.y
//                ^          ^
#[inline(always)]
fn is_at_sign(cursor: &Cursor) -> bool
    ensures { result ≡ sign_at cursor.now }
{
    match cursor.current() {
        Some(b'.') => matches!(cursor.previous(), Some(b'W' | b'w')),
        Some(b':') => matches!(cursor.next(), Some(b'/')),
        _ => false,
    }
}

// Whether a sign is at the place, a `.` or a `:`, in a word or not.
//
//     > | a. http://x or www.y
//          ^     ^          ^
#[inline(always)]
fn is_at_any_sign(cursor: &Cursor) -> bool
    ensures { result ≡ is_some_mark signs (code_at cursor.now) }
{
    matches!(cursor.current(), Some(b'.' | b':'))
}

// Moves past the sign at the place, and answers whether one is there.
//
//     > | a. http://x or www.y
//          ^     ^          ^
#[inline(always)]
fn pass_sign(cursor: &mut Cursor) -> bool
    ensures is { result ≡ is_some_mark signs (code_at cursor.old) }
    ensures past { result ≡ true → cursor.new ≡ moved cursor.old }
    ensures stays { result ≡ false → cursor.new ≡ cursor.old }
{
    let found = is_at_any_sign(cursor);
    if found {
        cursor.consume();
    }
    found
}

// Moves past data code by code, up to where it stops, or to a sign and past it, and answers whether data may go on: whether it has passed a sign.
//
//     > | www, www.x
//         ^^^^^
#[inline(never)]
fn pass_codes(cursor: &mut Cursor) -> bool
    ensures past { past_data true cursor.new ≡ past_data true cursor.old }
    ensures stops { result ≡ false → past_data true cursor.new ≡ cursor.new }
    ensures on { result ≡ true → length (ahead_at cursor.new) < length (ahead_at cursor.old) }
{
    while goes_in_line(cursor) {
        if pass_sign(cursor) {
            return true;
        }
        cursor.consume();
    }
    false
}

// Moves past data up to where it stops, or to a sign and past it, and answers whether data may go on: whether it has passed a sign. Where the sign is
// in no word of literals, none begins before it, so all up to it is passed at once.
//
//     > | yes. So
//         ^^^^
#[inline(always)]
fn pass_part(cursor: &mut Cursor) -> bool
    ensures past { past_data true cursor.new ≡ past_data true cursor.old }
    ensures stops { result ≡ false → past_data true cursor.new ≡ cursor.new }
    ensures on { result ≡ true → length (ahead_at cursor.new) < length (ahead_at cursor.old) }
{
    let start = cursor.save();
    cursor.consume_stretch(&markers_and_signs());
    if !is_at_any_sign(cursor) {
        return false;
    }
    if is_at_sign(cursor) {
        *cursor = start;
        return pass_codes(cursor);
    }
    cursor.consume();
    true
}

// Moves past data of the line at hand, where literals are on. It answers nothing.
//
//     > | yes. So *z*
//         ^^^^^^^^
fn pass_parts(cursor: &mut Cursor)
    ensures { cursor.new ≡ past_data true cursor.old }
{
    while pass_part(cursor) {}
}

// Moves past data of the line at hand, up to a line ending, an underscore or where else data stops. It answers nothing.
//
//     > | see x_y *z*
//         ^^^^^
#[inline(always)]
fn pass_data(cursor: &mut Cursor, literals: bool)
    ensures { cursor.new ≡ past_data literals cursor.old }
{
    if literals {
        pass_parts(cursor);
    } else {
        cursor.consume_stretch(&markers());
    }
}

// Whether a line ending is at the place.
//
//     > | see
//            ^
//     > | x_y *z*
#[inline(always)]
fn is_at_ending(cursor: &Cursor) -> bool
    ensures { result ≡ is_some_mark (codes "\n") (code_at cursor.now) }
{
    matches!(cursor.current(), Some(b'\n'))
}

// Whether a `.` is at the place that no word of literals holds: one that is not behind a `w`.
//
//     > | yes. So
//            ^
#[inline(always)]
fn is_at_plain_dot(cursor: &Cursor) -> bool
    ensures { result ≡ true → sign_at cursor.now ≡ false }
{
    match cursor.current() {
        Some(b'.') => !matches!(cursor.previous(), Some(b'W' | b'w')),
        _ => false,
    }
}

// The bytes at which data stops, but for the letters of literals, and where those are on, the signs in words of theirs.
#[inline(always)]
fn stops_of(literals: bool) -> ByteSet
    ensures { result ≡ line_stops literals }
{
    if literals {
        markers_and_signs()
    } else {
        markers()
    }
}

// Moves past the code at hand and data of the line behind it, and answers whether data goes on: it does only at a line ending.
//
//     > | see x_y *z*
//         ^^^^^
#[inline(never)]
fn pass_any_line(cursor: &mut Cursor, literals: bool) -> bool
    requires { IsSome (code_at cursor.old) }
    ensures past { cursor.new ≡ past_data literals (moved cursor.old) }
    ensures on { result ≡ goes_on literals (ahead_at cursor.new) }
{
    cursor.consume();
    pass_data(cursor, literals);
    goes_on(cursor, literals)
}

// The same, at once where the codes are ordinary and no sign is among them: then data goes on at a line ending alone. A first `.` that no word
// holds is where the rest is passed from.
//
//     > | see x_y *z*
//         ^^^^^
#[inline(always)]
fn pass_line(cursor: &mut Cursor, literals: bool) -> bool
    requires { IsSome (code_at cursor.old) }
    ensures past { cursor.new ≡ past_data literals (moved cursor.old) }
    ensures on { result ≡ goes_on literals (ahead_at cursor.new) }
{
    let Some(end) = cursor.past_ordinary(&stops_of(literals)) else {
        return pass_any_line(cursor, literals);
    };
    if !is_at_any_sign(&end) {
        *cursor = end;
        return is_at_ending(cursor);
    }
    if !literals || !is_at_plain_dot(&end) {
        return pass_any_line(cursor, literals);
    }
    *cursor = end;
    pass_any_line(cursor, literals)
}

// Whether the code is an ASCII letter or digit.
fn is_some_alphanumeric(code: Option<u8>) -> bool
    ensures { result ≡ is_some_alphanumeric code }
{
    match code {
        Some(byte) => is_alphanumeric(byte),
        None => false,
    }
}

// Whether an underscore is at the place.
//
//     > | see x_y *z*
//              ^
#[inline(always)]
fn is_at_underscore(cursor: &Cursor) -> bool
    ensures { result ≡ is_some_value (byte "_") (code_at cursor.now) }
{
    matches!(cursor.current(), Some(b'_'))
}

// Whether an ASCII letter or digit is before the code at the place, and one behind it. The caret is under that code:
//
//     > | see x_y *z*
//              ^
fn is_between_alphanumerics(cursor: &Cursor) -> bool
    ensures { result ≡ is_some_alphanumeric (code_before cursor.now) && is_some_alphanumeric (code_at (moved cursor.now)) }
{
    is_some_alphanumeric(cursor.previous()) && is_some_alphanumeric(cursor.next())
}

// Whether an inner underscore is at the place.
//
//     > | see x_y *z*
//              ^
#[inline(always)]
fn is_inner_underscore(cursor: &Cursor) -> bool
    ensures { result ≡ is_inner_underscore cursor.now.codes (ahead_at cursor.now) }
{
    is_at_underscore(cursor) && is_between_alphanumerics(cursor)
}

// Whether data has stopped at an inner underscore, where `on` says whether it goes on.
//
//     > | see x_y *z*
//              ^
#[inline(always)]
fn stops_at_inner(cursor: &Cursor, on: bool) -> bool
    ensures { result ≡ not on && is_inner_underscore cursor.now.codes (ahead_at cursor.now) }
{
    !on && is_inner_underscore(cursor)
}

// Moves past the code at hand, data of the line behind it, and inner underscores, and answers whether data goes on.
//
//     > | see x_y *z*
//              ^^^
#[inline(never)]
fn pass_more_inner(cursor: &mut Cursor, literals: bool) -> bool
    requires { IsSome (code_at cursor.old) }
    ensures past { cursor.new ≡ past_inner literals (moved cursor.old) }
    ensures on { result ≡ goes_past cursor.new.codes literals (ahead_at cursor.new) }
{
    loop {
        let on = pass_line(cursor, literals);
        if !stops_at_inner(cursor, on) {
            return on;
        }
    }
}

// The same, at once where no inner underscore is behind the first data.
//
//     > | see x_y *z*
//         ^^^^^^^^
#[inline(always)]
fn pass_inner(cursor: &mut Cursor, literals: bool) -> bool
    requires { IsSome (code_at cursor.old) }
    ensures past { cursor.new ≡ past_inner literals (moved cursor.old) }
    ensures on { result ≡ goes_past cursor.new.codes literals (ahead_at cursor.new) }
{
    let first = pass_line(cursor, literals);
    if !stops_at_inner(cursor, first) {
        return first;
    }
    pass_more_inner(cursor, literals)
}

// Reads the line ending at hand, and answers whether data goes on.
//
//     > | see
//            ^
//     > | x_y *z*
#[tactic(auto, unfolding(markdown_engine::specs::Operations::applied))]
fn read_ending(tokenizer: &mut Tokenizer, literals: bool) -> Result<bool, AllocError>
    requires { HasCode tokenizer.old }
    ensures ok { OnOk result (tokenizer.new ≡ done ending tokenizer.old) }
    ensures on { IfOk result (λ on. on ≡ goes_on literals (ahead tokenizer.new)) }
    ensures err { OnErr result (IsTrue tokenizer.new.failed) }
{
    let from = tokenizer.point();
    tokenizer.consume();
    append_leaf(tokenizer, Name::LineEnding, from)?;
    Ok(goes_on(&tokenizer.cursor, literals))
}

// Reads data of one line from the code at hand on, and answers whether data goes on.
//
//     > | see x_y *z*
//         ^^^^^^^^
#[inline(always)]
#[tactic(auto, unfolding(markdown_engine::specs::Operations::applied))]
fn read_stretch(tokenizer: &mut Tokenizer, literals: bool) -> Result<bool, AllocError>
    requires { HasCode tokenizer.old }
    ensures ok { OnOk result (tokenizer.new ≡ data_read literals tokenizer.old) }
    ensures on { IfOk result (λ on. on ≡ goes_past tokenizer.new.cursor.codes literals (ahead tokenizer.new)) }
    ensures err { OnErr result (IsTrue tokenizer.new.failed) }
{
    let from = tokenizer.point();
    let on = pass_inner(&mut tokenizer.cursor, literals);
    append_leaf(tokenizer, Name::Data, from)?;
    Ok(on)
}

// Reads the line ending at hand, or data of one line, and answers whether data goes on.
//
//     > | see
//         ^^^^
//     > | x_y *z*
//         ^^^^
#[inline(always)]
fn read_line(tokenizer: &mut Tokenizer, literals: bool) -> Result<bool, AllocError>
    requires { HasCode tokenizer.old }
    ensures ok { OnOk result (tokenizer.new ≡ line_read literals tokenizer.old) }
    ensures on { IfOk result (λ on. on ≡ goes_past tokenizer.new.cursor.codes literals (ahead tokenizer.new)) }
    ensures err { OnErr result (IsTrue tokenizer.new.failed) }
{
    match tokenizer.current() {
        Some(b'\n') => read_ending(tokenizer, literals),
        _ => read_stretch(tokenizer, literals),
    }
}

/// Reads data from the code at hand on: that code, whatever it is, and all up to the next at which another element of a text may begin. It answers
/// nothing.
///
///     > | see
///         ^^^^
///     > | x_y *z*
///         ^^^^
///
/// Data stops at the codes at which something is tried. At a letter it stops only where a word stands with which a literal begins, and where
/// `literals` says that these are on. At an underscore it stops unless an ASCII letter or digit is on both sides. It goes on past line endings.
/// Its events are a `Data` for each line and a `LineEnding` for each line ending.
///
/// The error comes where a growth is refused; then `failed` is true.
pub fn read(tokenizer: &mut Tokenizer, literals: bool) -> Result<(), AllocError>
    requires { HasCode tokenizer.old }
    ensures ok { OnOk result (Reads (data_up_to (reader_stops tokenizer.old.cursor.codes literals)) None tokenizer.old.tokenize_state tokenizer.old tokenizer.new) }
    ensures err { OnErr result (IsTrue tokenizer.new.failed) }
{
    loop {
        let on = read_line(tokenizer, literals)?;
        if !on {
            return Ok(());
        }
    }
}
