//! The reader of starts of links: the bracket before a link's text (CommonMark 6.3).
//!
//!     label_start_link ::= '['
//!
//! Events:
//!
//!     LabelLink
//!       LabelMarker    `[`
//!
//! The start is kept until an end takes it, and the pass `Label` is registered before all others. After the run that pass makes a link of the start,
//! or data.
//!
//! Example: the first bracket of `x[y](z)`.
//!
//!     LabelLink 1-2
//!       LabelMarker 1-2
//!
//! Definition: `label_start_link` in `markdown_model/specs/Elements.antt`.
//!
//! The reader knows every form: where it answers `false`, no link starts at the place. Where a caret follows, the states of footnote calls are tried
//! before this reader.
#![tactic(auto)]

ghost use Rattle.std.specs.Prelude.{◌≡◌, IfOk, OnErr, IsTrue};
ghost use Rattle.markdown_model.specs.SingleConstructs.{label_start_link_here};
ghost use Rattle.markdown_run_text.specs.PlacesPassed.{link_here};
ghost use Rattle.markdown_run_text.specs.ReaderEnds.{BeginsOrStays, options_here};

use crate::readers::attention::is_at;
use crate::readers::events::read_marker_in;
use markdown_engine::tokenizer::{LabelKind, Tokenizer};
use markdown_event::event::Name;
use markdown_label::starts::keep_start;
use std::alloc::AllocError;

// Whether starts of links are on, and one is at the place: a `[`.
//
//     > | x[y](z)
//          ^
fn is_here(tokenizer: &Tokenizer) -> bool
    ensures { result ≡ link_here tokenizer.now }
{
    tokenizer.parse_state.options.constructs.label_start_link && is_at(&tokenizer.cursor, b'[')
}

/// Reads the start of a link at hand, its `[`, keeps it until an end takes it, and answers whether one is read; none is where `label_start_link`
/// is off.
///
///     > | x[y](z)
///          ^
///
/// Its events are a `LabelLink` with a `LabelMarker`. The pass of labels is registered before all others.
///
/// Where none is read, the tokenizer is as before. The error comes where a growth is refused; then `failed` is true.
pub fn read(tokenizer: &mut Tokenizer) -> Result<bool, AllocError>
    ensures reads { IfOk result (λ ok. BeginsOrStays (label_start_link_here (options_here tokenizer.old)) tokenizer.old ok tokenizer.new) }
    ensures err { OnErr result (IsTrue tokenizer.new.failed) }
{
    if !is_here(tokenizer) {
        return Ok(false);
    }
    read_marker_in(tokenizer, Name::LabelLink, Name::LabelMarker)?;
    keep_start(tokenizer, LabelKind::Link, 4)?;
    Ok(true)
}
