//! The reader of starts of images: the exclamation mark and the bracket before an image's description (CommonMark 6.4).
//!
//!     label_start_image ::= '!['
//!
//! Where `gfm_label_start_footnote` is on and a caret follows, no image starts: the mark is data, and a footnote call may start at the bracket.
//!
//! Events:
//!
//!     LabelImage
//!       LabelImageMarker    `!`
//!       LabelMarker         `[`
//!
//! The start is kept until an end takes it, and the pass `Label` is registered before all others. After the run that pass makes an image of the
//! start, or data.
//!
//! Example: the codes `![` of `x![y](z)`.
//!
//!     LabelImage 1-3
//!       LabelImageMarker 1-2
//!       LabelMarker 2-3
//!
//! Definition: `label_start_image` in `markdown_model/specs/Elements.antt`.
//!
//! The reader knows every form: where it answers `false`, no image starts at the place, and nothing is left to the states.
#![tactic(auto)]

ghost use Rattle.std.specs.Prelude.{◌≡◌, ◌&&◌, ◌++◌, true, is_some, IfOk, OnOk, OnErr, IsTrue};
ghost use Rattle.std.specs.Str.{byte};
ghost use Rattle.markdown_engine.specs.Operations.{done};
ghost use Rattle.markdown_content.specs.Place.{code_at, moved};
ghost use Rattle.markdown_label.specs.LabelStarts.{image_back, image_front};
ghost use Rattle.markdown_model.specs.SingleConstructs.{label_start_image_here};
ghost use Rattle.markdown_run_text.specs.PlacesPassed.{bang_at, calls_here, image_here, is_some_value};
ghost use Rattle.markdown_run_text.specs.ReaderEnds.{BeginsOrStays, options_here};

use crate::readers::attention::is_at;
use crate::readers::events::{append_enter, append_exit, read_marker};
use markdown_content::cursor::Cursor;
use markdown_engine::tokenizer::Tokenizer;
use markdown_event::event::Name;
use markdown_label::label_start_image;
use std::alloc::AllocError;

// Whether this code is behind the one at the place. Here it is `[`:
//
//     > | x![y](z)
//           ^
fn comes_next(cursor: &Cursor, code: u8) -> bool
    ensures { result ≡ is_some_value code (code_at (moved cursor.now)) }
{
    match cursor.next() {
        Some(byte) => byte == code,
        None => false,
    }
}

// Whether behind the two codes at the place a caret stands.
//
//     > | x![^y](z)
//            ^
fn has_caret(cursor: &Cursor) -> bool
    requires { is_some (code_at cursor.now) ≡ true }
    ensures { result ≡ is_some_value (byte "^") (code_at (moved (moved cursor.now))) }
{
    let mut place = cursor.save();
    place.consume();
    comes_next(&place, b'^')
}

// Whether `![` is at the place.
//
//     > | x![y](z)
//          ^^
fn stands(cursor: &Cursor) -> bool
    ensures { result ≡ bang_at cursor.now }
{
    is_at(cursor, b'!') && comes_next(cursor, b'[')
}

// Whether calls of footnotes are on, and behind the two codes at the place a caret stands.
//
//     > | x![^y](z)
//            ^
fn begins_call(tokenizer: &Tokenizer) -> bool
    requires { is_some (code_at tokenizer.now.cursor) ≡ true }
    ensures { result ≡ calls_here tokenizer.now }
{
    tokenizer
        .parse_state
        .options
        .constructs
        .gfm_label_start_footnote
        && has_caret(&tokenizer.cursor)
}

// Whether starts of images are on, and one is at the place: a `![`, whose `[` begins no footnote call.
//
//     > | x![y](z)
//          ^^^
fn is_here(tokenizer: &Tokenizer) -> bool
    ensures { result ≡ image_here tokenizer.now }
{
    tokenizer.parse_state.options.constructs.label_start_image
        && stands(&tokenizer.cursor)
        && !begins_call(tokenizer)
}

// Reads the `![` at hand: appends its events, and moves behind it.
//
//     > | x![y](z)
//          ^^
#[tactic(auto, unfolding(markdown_engine::specs::Operations::applied))]
fn read_front(tokenizer: &mut Tokenizer) -> Result<(), AllocError>
    requires { is_some (code_at tokenizer.old.cursor) && is_some (code_at (moved tokenizer.old.cursor)) ≡ true }
    ensures ok { OnOk result (tokenizer.new ≡ done (image_front ++ image_back) tokenizer.old) }
    ensures err { OnErr result (IsTrue tokenizer.new.failed) }
{
    append_enter(tokenizer, Name::LabelImage, tokenizer.point())?;
    read_marker(tokenizer, Name::LabelImageMarker)?;
    read_marker(tokenizer, Name::LabelMarker)?;
    append_exit(tokenizer, Name::LabelImage)
}

/// Reads the start of an image at hand, its `![`, keeps it until an end takes it, and answers whether one is read; none is where
/// `label_start_image` is off, and none before a caret where `gfm_label_start_footnote` is on.
///
///     > | x![y](z)
///          ^^
///
/// Its events are a `LabelImage` with a `LabelImageMarker` and a `LabelMarker`. The pass of labels is registered before all others.
///
/// Where none is read, the tokenizer is as before. The error comes where a growth is refused; then `failed` is true.
pub fn read(tokenizer: &mut Tokenizer) -> Result<bool, AllocError>
    ensures reads { IfOk result (λ ok. BeginsOrStays (label_start_image_here (options_here tokenizer.old)) tokenizer.old ok tokenizer.new) }
    ensures err { OnErr result (IsTrue tokenizer.new.failed) }
{
    if !is_here(tokenizer) {
        return Ok(false);
    }
    read_front(tokenizer)?;
    let _kept = label_start_image::after(tokenizer)?;
    Ok(true)
}
