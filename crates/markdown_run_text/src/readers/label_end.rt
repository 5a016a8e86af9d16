//! The reader of ends of labels: a closing bracket, with a plain resource or a plain reference behind it (CommonMark 6.3 and 6.4).
//!
//!     plain_end ::= ']' (plain_resource | plain_full | plain_shortcut)
//!     plain_resource ::= '(' destination (blank title)? ')'
//!     destination ::= '<' (code - ('<' | '>' | '\' | line_ending))+ '>' | front raw*
//!     front ::= raw - '<'
//!     raw ::= code - (control | ' ' | '(' | ')' | '\' | line_ending)
//!     title ::= '"' in_quotes('"') '"' | "'" in_quotes("'") "'"
//!     in_quotes(quote) ::= (code - (quote | '\' | line_ending))+
//!
//! `control` is an ASCII control other than NUL, and `blank` a space or a tab of one column. `label_end_reference` has `plain_full` and
//! `plain_shortcut`. An end takes the last start that no end has used; that is an image's, or a link's behind which no link or call was made.
//!
//! Events:
//!
//!     LabelEnd
//!       LabelMarker                                `]`
//!     Resource
//!       ResourceMarker                             `(`
//!       ResourceDestination
//!         ResourceDestinationRaw                   without angle brackets, or
//!         ResourceDestinationLiteral               with a ResourceDestinationLiteralMarker for each bracket
//!           ResourceDestinationString              in either of the two
//!             Data                                 the text, linked as a string
//!       SpaceOrTab                                 before a title
//!       ResourceTitle
//!         ResourceTitleMarker                      the first quote
//!         ResourceTitleString
//!           Data                                   the text, linked as a string
//!         ResourceTitleMarker                      the other quote
//!       ResourceMarker                             `)`
//!
//! In place of the `Resource` stands a `Reference`, as in `label_end_reference`, or nothing behind a shortcut. The start and the end are noted as a label,
//! and the pass `Label` is registered before all others. After the run that pass makes a link or an image of the label.
//!
//! Example: the end of `[a](b "c")`.
//!
//!     LabelEnd 2-3
//!       LabelMarker 2-3
//!     Resource 3-10
//!       ResourceMarker 3-4
//!       ResourceDestination 4-5
//!         ResourceDestinationRaw 4-5
//!           ResourceDestinationString 4-5
//!             Data 4-5
//!       SpaceOrTab 5-6
//!       ResourceTitle 6-9
//!         ResourceTitleMarker 6-7
//!         ResourceTitleString 7-8
//!           Data 7-8
//!         ResourceTitleMarker 8-9
//!       ResourceMarker 9-10
//!
//! Definition: `label_end` in `markdown_model/specs/LabelEnd.antt`, with `resource` in `Resource.antt`.
//!
//! All other ends are left to the states: those of footnote calls; those that make nothing; those whose resource is empty, has an empty part, whitespace
//! elsewhere, a line ending, a backslash, parentheses in a destination without angle brackets, or a title in parentheses; and those that
//! `label_end_reference` names.
//!
//! Whether one stands there is seen before any event is appended. A text stops at the byte that a text of its kind begins behind: a destination at
//! a `(` or a `<`, a title at its quote. So texts of one kind never overlap, and all that is looked through in vain is at most a few times as long
//! as the content.
#![tactic(auto, using(markdown_engine::proofs::OperationFields::op_rules))]

ghost use Rattle.std.specs.Prelude.{◌≡◌, ◌&&◌, ◌||◌, true, IfOk, OnOk, OnErr, IsTrue, is_some};
ghost use Rattle.markdown_engine.specs.Operations.{current_of};
ghost use Rattle.markdown_content.specs.Place.{code_at, moved};
ghost use Rattle.markdown_content.specs.Stretch.{is_free};
ghost use Rattle.markdown_label.specs.LabelEnd.{Ends, LabelEndStartReady};
ghost use Rattle.markdown_partial.specs.PartialDestination.{enclosed_stops, raw_stops};
ghost use Rattle.markdown_run_text.specs.PlacesPassed.{is_some_value};
ghost use Rattle.markdown_run_text.specs.PlainReference.{reference_here};
ghost use Rattle.markdown_run_text.specs.PlainResource.{EndsOrStays, between_read, closes_behind, destination_at, destination_read, enclosed_read, has_markers, may_make, past_between, past_destination, past_title, plain_at, plain_here, raw_read, resource_read, stands_between, tail_at, tail_read, takes_resource, text_read, title_at, title_read, title_stops};

use crate::readers::events::{
    append_enter, append_exit, append_string, read_marker, read_marker_in,
};
use crate::readers::label_end_reference::{read_reference, refers_here};
use markdown_content::byte_table;
use markdown_content::bytes::{ByteSet, ByteTable};
use markdown_content::cursor::Cursor;
use markdown_engine::tokenizer::{LabelKind, LabelStart, TokenizeState, Tokenizer};
use markdown_event::event::Name;
use markdown_label::label_end;
use std::alloc::AllocError;

const RAW_STOPS: ByteTable = byte_table!(b' ', b'(', b')', b'\\'; controls);

const ENCLOSED_STOPS: ByteTable = byte_table!(b'<', b'>', b'\\');

const QUOTATION_MARK_OR_BACKSLASH: ByteTable = byte_table!(b'"', b'\\');

const APOSTROPHE_OR_BACKSLASH: ByteTable = byte_table!(b'\'', b'\\');

// The bytes at which a destination without brackets ends, or is not plain.
#[inline(always)]
fn raw_stops() -> ByteSet
    ensures { result ≡ raw_stops }
{
    ByteSet::new(&RAW_STOPS)
}

// The bytes at which a destination in brackets ends, or is not plain.
#[inline(always)]
fn enclosed_stops() -> ByteSet
    ensures { result ≡ enclosed_stops }
{
    ByteSet::new(&ENCLOSED_STOPS)
}

// The bytes at which a title that begins with this quote ends, or is not plain.
#[inline(always)]
fn title_stops(quote: u8) -> ByteSet
    ensures { result ≡ title_stops quote }
{
    if quote == b'"' {
        ByteSet::new(&QUOTATION_MARK_OR_BACKSLASH)
    } else {
        ByteSet::new(&APOSTROPHE_OR_BACKSLASH)
    }
}

// Whether there is a code, and it is this one.
pub(crate) fn is_same(code: Option<u8>, byte: u8) -> bool
    ensures { result ≡ is_some_value byte code }
{
    match code {
        Some(other) => other == byte,
        None => false,
    }
}

// Whether there is a code that is neither a line ending nor one of these bytes.
pub(crate) fn is_free(code: Option<u8>, stops: &ByteSet) -> bool
    ensures { result ≡ is_free stops.now code }
{
    match code {
        Some(byte) => !(byte == b'\n' || stops.contains(byte)),
        None => false,
    }
}

// Moves from the marker at the place past the text behind it, and past the code that ends the text, and answers whether text stands there, up to
// this code.
//
//     > | [a](<b> "c")
//             ^^^ ^^^
#[inline(always)]
fn pass_between(cursor: &mut Cursor, stops: &ByteSet, closer: u8) -> bool
    requires { is_some (code_at cursor.old) ≡ true }
    ensures holds { result ≡ stands_between stops.now closer cursor.old }
    ensures place { IsTrue result → cursor.new ≡ past_between stops.now cursor.old }
{
    cursor.consume();
    if !is_free(cursor.current(), stops) {
        return false;
    }
    cursor.consume_stretch(stops);
    if !is_same(cursor.current(), closer) {
        return false;
    }
    cursor.consume();
    true
}

// Moves past the plain destination at the place, and answers whether one stands there.
//
//     > | [a](b "c") or [a](<b> "c")
//             ^             ^^^
fn pass_destination(cursor: &mut Cursor) -> bool
    ensures holds { result ≡ destination_at cursor.old }
    ensures place { IsTrue result → cursor.new ≡ past_destination cursor.old }
{
    if is_same(cursor.current(), b'<') {
        return pass_between(cursor, &enclosed_stops(), b'>');
    }
    let stands = is_free(cursor.current(), &raw_stops());
    cursor.consume_stretch(&raw_stops());
    stands
}

// Moves past a space or a tab, and a plain title behind it, and answers whether they stand there.
//
//     > | [a](b "c")
//              ^^^^
fn pass_title(cursor: &mut Cursor) -> bool
    ensures holds { result ≡ title_at cursor.old }
    ensures place { IsTrue result → cursor.new ≡ past_title cursor.old }
{
    if !matches!(cursor.current(), Some(b' ' | b'\t')) {
        return false;
    }
    cursor.consume();
    match cursor.current() {
        Some(quote @ (b'"' | b'\'')) => pass_between(cursor, &title_stops(quote), quote),
        _ => false,
    }
}

// Whether at the place a `)` stands, or a title before one. Where a title stands, the place moves behind it.
//
//     > | [a](b "c") or [a](b)
//              ^^^^^         ^
fn is_closed(cursor: &mut Cursor) -> bool
    ensures { result ≡ tail_at cursor.old }
{
    if is_same(cursor.current(), b')') {
        return true;
    }
    pass_title(cursor) && is_same(cursor.current(), b')')
}

// Whether at the place a `]` stands, and a plain resource behind it.
//
//     > | [a](b "c")
//           ^^^^^^^^
fn stands(cursor: &Cursor) -> bool
    ensures { result ≡ plain_at cursor.now }
{
    if !is_same(cursor.current(), b']') || !is_same(cursor.next(), b'(') {
        return false;
    }
    let mut place = cursor.save();
    place.consume();
    place.consume();
    pass_destination(&mut place) && is_closed(&mut place)
}

// Whether an end makes a label of this start where a resource stands behind it, whatever is defined.
fn takes_resource(start: LabelStart) -> bool
    ensures { result ≡ takes_resource start.kind start.inactive }
{
    match start.kind {
        LabelKind::Image => true,
        LabelKind::GfmFootnote => false,
        _ => !start.inactive,
    }
}

// Whether there is a last start, and an end makes a label of it where a resource stands behind it.
pub(crate) fn may_make(state: &TokenizeState) -> bool
    ensures { result ≡ may_make state.now.label_starts }
{
    match state.label_starts.top() {
        Some(start) => takes_resource(*start),
        None => false,
    }
}

// Whether ends are on, and one with a plain resource is at the place.
//
//     > | [a](b "c")
//           ^^^^^^^^
fn is_here(tokenizer: &Tokenizer) -> bool
    ensures { result ≡ plain_here tokenizer.now }
{
    tokenizer.parse_state.options.constructs.label_end
        && may_make(&tokenizer.tokenize_state)
        && stands(&tokenizer.cursor)
}

// Reads the text at hand up to where it stops, as a string under this name: appends its events, and moves behind it.
//
//     > | [a](b "c")
//             ^  ^
#[inline(always)]
#[tactic(auto, unfolding(markdown_engine::specs::Operations::applied))]
fn read_text(tokenizer: &mut Tokenizer, name: Name, stops: &ByteSet) -> Result<(), AllocError>
    ensures ok { OnOk result (tokenizer.new ≡ text_read name stops.now tokenizer.old) }
    ensures err { OnErr result (IsTrue tokenizer.new.failed) }
{
    let from = tokenizer.point();
    append_enter(tokenizer, name, from)?;
    tokenizer.cursor.consume_stretch(stops);
    append_string(tokenizer, from)?;
    append_exit(tokenizer, name)
}

// Reads the text at hand with the markers around it, under these names.
//
//     > | [a](<b> "c")
//             ^^^ ^^^
#[inline(always)]
#[tactic(auto, unfolding(markdown_engine::specs::Operations::applied))]
pub(crate) fn read_between(
    tokenizer: &mut Tokenizer,
    whole: Name,
    marker: Name,
    text: Name,
    stops: &ByteSet,
) -> Result<(), AllocError>
    requires { has_markers stops.now tokenizer.old.cursor ≡ true }
    ensures ok { OnOk result (tokenizer.new ≡ between_read whole marker text stops.now tokenizer.old) }
    ensures err { OnErr result (IsTrue tokenizer.new.failed) }
{
    append_enter(tokenizer, whole, tokenizer.point())?;
    read_marker(tokenizer, marker)?;
    read_text(tokenizer, text, stops)?;
    read_marker(tokenizer, marker)?;
    append_exit(tokenizer, whole)
}

// Reads the plain destination in brackets at hand.
//
//     > | [a](<b> "c")
//             ^^^
fn read_enclosed(tokenizer: &mut Tokenizer) -> Result<(), AllocError>
    requires { has_markers enclosed_stops tokenizer.old.cursor ≡ true }
    ensures ok { OnOk result (tokenizer.new ≡ enclosed_read tokenizer.old) }
    ensures err { OnErr result (IsTrue tokenizer.new.failed) }
{
    read_between(
        tokenizer,
        Name::ResourceDestinationLiteral,
        Name::ResourceDestinationLiteralMarker,
        Name::ResourceDestinationString,
        &enclosed_stops(),
    )
}

// Reads the plain destination without brackets at hand.
//
//     > | [a](b "c")
//             ^
#[tactic(auto, unfolding(markdown_engine::specs::Operations::applied))]
fn read_raw(tokenizer: &mut Tokenizer) -> Result<(), AllocError>
    ensures ok { OnOk result (tokenizer.new ≡ raw_read tokenizer.old) }
    ensures err { OnErr result (IsTrue tokenizer.new.failed) }
{
    append_enter(tokenizer, Name::ResourceDestinationRaw, tokenizer.point())?;
    read_text(tokenizer, Name::ResourceDestinationString, &raw_stops())?;
    append_exit(tokenizer, Name::ResourceDestinationRaw)
}

// Reads the plain destination at hand, with brackets or without.
//
//     > | [a](b "c") or [a](<b> "c")
//             ^             ^^^
#[tactic(auto, unfolding(markdown_engine::specs::Operations::applied))]
fn read_destination(tokenizer: &mut Tokenizer) -> Result<(), AllocError>
    requires { destination_at tokenizer.old.cursor ≡ true }
    ensures ok { OnOk result (tokenizer.new ≡ destination_read tokenizer.old) }
    ensures err { OnErr result (IsTrue tokenizer.new.failed) }
{
    append_enter(tokenizer, Name::ResourceDestination, tokenizer.point())?;
    if is_same(tokenizer.current(), b'<') {
        read_enclosed(tokenizer)?;
    } else {
        read_raw(tokenizer)?;
    }
    append_exit(tokenizer, Name::ResourceDestination)
}

// Reads the space and the plain title at hand.
//
//     > | [a](b "c")
//              ^^^^
#[tactic(auto, unfolding(markdown_engine::specs::Operations::applied))]
fn read_title(tokenizer: &mut Tokenizer) -> Result<(), AllocError>
    requires { title_at tokenizer.old.cursor ≡ true }
    ensures ok { OnOk result (tokenizer.new ≡ title_read tokenizer.old) }
    ensures err { OnErr result (IsTrue tokenizer.new.failed) }
{
    read_marker(tokenizer, Name::SpaceOrTab)?;
    let Some(quote) = tokenizer.current() else {
        return Ok(());
    };
    read_between(
        tokenizer,
        Name::ResourceTitle,
        Name::ResourceTitleMarker,
        Name::ResourceTitleString,
        &title_stops(quote),
    )
}

// Reads the title at hand, if there is one, and the `)` behind it.
//
//     > | [a](b "c") or [a](b)
//              ^^^^^         ^
#[tactic(auto, unfolding(markdown_engine::specs::Operations::applied))]
fn read_tail(tokenizer: &mut Tokenizer) -> Result<(), AllocError>
    requires { tail_at tokenizer.old.cursor ≡ true }
    ensures ok { OnOk result (tokenizer.new ≡ tail_read tokenizer.old) }
    ensures err { OnErr result (IsTrue tokenizer.new.failed) }
{
    if !is_same(tokenizer.current(), b')') {
        read_title(tokenizer)?;
    }
    read_marker(tokenizer, Name::ResourceMarker)
}

// Reads the plain resource at hand.
//
//     > | [a](b "c")
//            ^^^^^^^
#[tactic(auto, unfolding(markdown_engine::specs::Operations::applied))]
fn read_resource(tokenizer: &mut Tokenizer) -> Result<(), AllocError>
    requires { is_some_value 40 (current_of tokenizer.old) && closes_behind (moved tokenizer.old.cursor) ≡ true }
    ensures ok { OnOk result (tokenizer.new ≡ resource_read tokenizer.old) }
    ensures err { OnErr result (IsTrue tokenizer.new.failed) }
{
    append_enter(tokenizer, Name::Resource, tokenizer.point())?;
    read_marker(tokenizer, Name::ResourceMarker)?;
    read_destination(tokenizer)?;
    read_tail(tokenizer)?;
    append_exit(tokenizer, Name::Resource)
}

// Reads the end at hand, and the plain resource or reference behind it. The last start makes a label.
//
//     > | [a](b "c") or ![c][d]
//           ^^^^^^^^       ^^^^
fn read_here(tokenizer: &mut Tokenizer) -> Result<(), AllocError>
    requires ready { LabelEndStartReady tokenizer.old }
    requires here { plain_here tokenizer.old || reference_here tokenizer.old ≡ true }
    ensures ok { OnOk result (Ends tokenizer.old tokenizer.new) }
    ensures err { OnErr result (IsTrue tokenizer.new.failed) }
{
    tokenizer.tokenize_state.end = tokenizer.events.len();
    read_marker_in(tokenizer, Name::LabelEnd, Name::LabelMarker)?;
    if is_same(tokenizer.current(), b'(') {
        read_resource(tokenizer)?;
    } else {
        read_reference(tokenizer)?;
    }
    let _made = label_end::ok(tokenizer)?;
    Ok(())
}

/// Reads the end of a label at hand, where a plain resource or a plain reference stands behind its `]`, or the label is a shortcut, and answers
/// whether one is read: none is where `label_end` is off, nor unless the last start that no end has used is a link's without a link behind it, or an
/// image's.
///
///     > | [a](b "c") or ![c][d]
///           ^^^^^^^^       ^^^^
///
/// Its events are a `LabelEnd` with a `LabelMarker`, and a `Resource` with its `ResourceDestination` and, if there is one, its `ResourceTitle`, or
/// a `Reference` with its `ReferenceString`; behind a shortcut none. The start makes a label. After a link the starts before it are barred. The
/// pass of labels is registered before all others.
///
/// Where none is read, the tokenizer is as before, and another end of a label may stand there. The error comes where memory is refused; then
/// `failed` is true.
pub fn read(tokenizer: &mut Tokenizer) -> Result<bool, AllocError>
    requires { LabelEndStartReady tokenizer.old }
    ensures here { IfOk result (λ ok. ok ≡ (plain_here tokenizer.old || reference_here tokenizer.old)) }
    ensures reads { IfOk result (λ ok. EndsOrStays tokenizer.old ok tokenizer.new) }
    ensures err { OnErr result (IsTrue tokenizer.new.failed) }
{
    if !is_here(tokenizer) && !refers_here(tokenizer)? {
        return Ok(false);
    }
    read_here(tokenizer)?;
    Ok(true)
}
