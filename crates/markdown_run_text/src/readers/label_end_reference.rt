//! Ends of labels with a plain reference, for the reader `label_end`: whether one stands at the place, and how its reference is read (CommonMark 6.3).
//!
//!     plain_end ::= ']' (plain_full | plain_shortcut)
//!     plain_full ::= '[' front (code - stop){0,998} ']'        its text names a definition
//!     front ::= code - (stop | blank)
//!     stop ::= '[' | '\' | ']' | line_ending
//!     plain_shortcut ::= nothing                               before no '[' and no '('; the label names a definition
//!
//! Events of a full reference; a shortcut has none:
//!
//!     Reference
//!       ReferenceMarker      `[`
//!       ReferenceString
//!         Data               the text, linked as a string
//!       ReferenceMarker      `]`
//!
//! Example: the reference of `![c][d]`, where `d` is defined.
//!
//!     Reference 4-7
//!       ReferenceMarker 4-5
//!       ReferenceString 5-6
//!         Data 5-6
//!       ReferenceMarker 6-7
//!
//! Definition: `full_reference` and `shortcut` in `markdown_model/specs/LabelEnd.antt`.
//!
//! What is not plain is left to the states: collapsed references, shortcuts before a `[` or a `(`, labels of footnote calls, references on several lines
//! or with a backslash, and those whose text begins with a blank code. So is what names no definition; the states look it up once more.
//!
//! A text stops at the bracket that the next one begins behind, so no two that are looked through overlap.
#![tactic(auto, using(markdown_engine::proofs::OperationFields::op_rules))]

ghost use Rattle.std.specs.Prelude.{◌≡◌, ◌&&◌, true, IfOk, OnOk, OnErr, IsTrue};
ghost use Rattle.std.specs.Str.{byte};
ghost use Rattle.markdown_content.specs.Place.{code_at, moved};
ghost use Rattle.markdown_label.specs.LabelEnd.{LabelEndStartReady};
ghost use Rattle.markdown_label_names.specs.LabelSetting.{setting_in};
ghost use Rattle.markdown_run_text.specs.PlacesPassed.{is_some_value};
ghost use Rattle.markdown_run_text.specs.PlainReference.{ends_here, front_stops, is_named, label_stops, names_at, past_text, reference_here, reference_read, text_at};
ghost use Rattle.markdown_run_text.specs.PlainResource.{has_markers};

use crate::readers::label_end::{is_free, is_same, may_make, read_between};
use markdown_content::byte_table;
use markdown_content::bytes::{ByteSet, ByteTable};
use markdown_content::cursor::Cursor;
use markdown_engine::tokenizer::Tokenizer;
use markdown_event::event::Name;
use markdown_label_names::identifier::{is_defined_from, is_label_from};
use std::alloc::AllocError;

// How many codes the text of a reference has at most.
const MOST: usize = 999;

const LABEL_STOPS: ByteTable = byte_table!(b'[', b'\\', b']');

const FRONT_STOPS: ByteTable = byte_table!(b'\t', b' ', b'[', b'\\', b']');

// The bytes at which the text of a reference ends, or is not plain.
#[inline(always)]
fn label_stops() -> ByteSet
    ensures { result ≡ label_stops }
{
    ByteSet::new(&LABEL_STOPS)
}

// The bytes with which no plain text begins.
#[inline(always)]
fn front_stops() -> ByteSet
    ensures { result ≡ front_stops }
{
    ByteSet::new(&FRONT_STOPS)
}

// Moves past the plain text at the place, and answers whether one stands there, up to a `]`.
//
//     > | ![c][d]
//              ^
fn pass_text(cursor: &mut Cursor) -> bool
    ensures holds { result ≡ text_at cursor.old }
    ensures place { IsTrue result → cursor.new ≡ past_text cursor.old }
{
    if !is_free(cursor.current(), &front_stops()) {
        return false;
    }
    let before = cursor.passed();
    cursor.consume_stretch(&label_stops());
    is_same(cursor.current(), b']') && cursor.passed().saturating_sub(before) <= MOST
}

// Whether behind the `][` at the place a plain text stands that names a definition.
//
//     > | ![c][d]
//            ^^^^
fn is_full(tokenizer: &mut Tokenizer) -> Result<bool, AllocError>
    requires ready { LabelEndStartReady tokenizer.old }
    requires here { is_some_value (byte "]") (code_at tokenizer.old.cursor) && is_some_value (byte "[") (code_at (moved tokenizer.old.cursor)) ≡ true }
    ensures full { IfOk result (λ full. full ≡ names_at (setting_in tokenizer.old) (moved (moved tokenizer.old.cursor))) }
    ensures same { OnOk result (tokenizer.new ≡ tokenizer.old) }
    ensures err { OnErr result (IsTrue tokenizer.new.failed) }
{
    let mut place = tokenizer.cursor.save();
    place.consume();
    place.consume();
    let start = place.point().index;
    if !pass_text(&mut place) {
        return Ok(false);
    }
    let end = place.exit_point().index.max(start);
    is_defined_from(tokenizer, start, end)
}

// Whether the label before the `]` at the place names a definition itself. What it looks up is the label's text, here `c`:
//
//     > | ![c]
//           ^
fn is_named(tokenizer: &mut Tokenizer) -> Result<bool, AllocError>
    requires ready { LabelEndStartReady tokenizer.old }
    requires here { is_some_value (byte "]") (code_at tokenizer.old.cursor) ≡ true }
    ensures named { IfOk result (λ named. named ≡ is_named tokenizer.old.tokenize_state.label_starts tokenizer.old) }
    ensures same { OnOk result (tokenizer.new ≡ tokenizer.old) }
    ensures err { OnErr result (IsTrue tokenizer.new.failed) }
{
    let Some(top) = tokenizer.tokenize_state.label_starts.top() else {
        return Ok(false);
    };
    let start = tokenizer.events.at(top.start.1).point.index;
    let end = tokenizer.cursor.point().index.max(start);
    is_label_from(tokenizer, start, end)
}

// Whether ends are on, and the `]` of one is at the place that may make a label.
//
//     > | ![c][d]
//            ^
fn may_end(tokenizer: &Tokenizer) -> bool
    ensures { result ≡ ends_here tokenizer.now }
{
    tokenizer.parse_state.options.constructs.label_end
        && may_make(&tokenizer.tokenize_state)
        && is_same(tokenizer.cursor.current(), b']')
}

// Whether ends are on, and one with a plain reference is at the place: what follows its `]` names a definition, or where it cannot, the label
// before it does.
//
//     > | ![c][d] [d]
//            ^^^^   ^
pub(crate) fn refers_here(tokenizer: &mut Tokenizer) -> Result<bool, AllocError>
    requires { LabelEndStartReady tokenizer.old }
    ensures here { IfOk result (λ here. here ≡ reference_here tokenizer.old) }
    ensures same { OnOk result (tokenizer.new ≡ tokenizer.old) }
    ensures err { OnErr result (IsTrue tokenizer.new.failed) }
{
    if !may_end(tokenizer) {
        return Ok(false);
    }
    match tokenizer.cursor.next() {
        Some(b'[') => is_full(tokenizer),
        Some(b'(') => Ok(false),
        _ => is_named(tokenizer),
    }
}

// Reads the full reference at hand, if a `[` is there, and nothing otherwise: appends its events, and moves behind it.
//
//     > | ![c][d]
//             ^^^
pub(crate) fn read_reference(tokenizer: &mut Tokenizer) -> Result<(), AllocError>
    requires { IsTrue (is_some_value (byte "[") (code_at tokenizer.old.cursor)) → has_markers label_stops tokenizer.old.cursor ≡ true }
    ensures ok { OnOk result (tokenizer.new ≡ reference_read tokenizer.old) }
    ensures err { OnErr result (IsTrue tokenizer.new.failed) }
{
    if !is_same(tokenizer.cursor.current(), b'[') {
        return Ok(());
    }
    read_between(
        tokenizer,
        Name::Reference,
        Name::ReferenceMarker,
        Name::ReferenceString,
        &label_stops(),
    )
}
