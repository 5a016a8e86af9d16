//! The reader of runs of markers, those of emphasis, strong emphasis and strikethrough (CommonMark 6.2, GFM 6.5).
//!
//!     attention_run ::= '*'+ | '_'+ | '~'+
//!
//! A run is as long as it can be. `*` and `_` begin one where `attention` is on, and `~` where `gfm_strikethrough` is.
//!
//! Events:
//!
//!     AttentionSequence    the run
//!
//! Behind a run the pass `Attention` is registered, which pairs runs once all are read. It leaves no event of this name.
//!
//! Example: `so **very** ok` has two runs.
//!
//!     AttentionSequence 3-5
//!     AttentionSequence 9-11
//!
//! Definition: `attention_run` in `markdown_model/specs/Elements.antt`; with its switches `attention_here` in `SingleConstructs.antt`.
//!
//! The reader knows every form: where it answers `false`, no run begins at the place, and nothing is left to the states.
#![tactic(auto, using(markdown_engine::proofs::OperationFields::law_rules), unfolding(markdown_engine::specs::Operations::scratched))]

ghost use Rattle.std.specs.Prelude.{◌≡◌, IfOk, OnErr, IsTrue, None, Some};
ghost use Rattle.markdown_engine.specs.Operations.{current_of};
ghost use Rattle.markdown_event.specs.declared.resolve.ResolveName.TheVariants as R;
ghost use Rattle.markdown_content.specs.Place.{code_at};
ghost use Rattle.markdown_model.specs.SingleConstructs.{attention_here, begins_run};
ghost use Rattle.markdown_run_text.specs.PlacesPassed.{is_some_value, past_run};
ghost use Rattle.markdown_run_text.specs.ReaderEnds.{ReadsOrStays, options_here};

use crate::readers::events::append_leaf;
use markdown_content::configuration::Constructs;
use markdown_content::cursor::Cursor;
use markdown_engine::tokenizer::Tokenizer;
use markdown_event::event::Name;
use markdown_event::resolve::ResolveName;
use std::alloc::AllocError;

// Whether a run may begin with this byte, as the constructs are switched.
fn begins_run(constructs: Constructs, byte: u8) -> bool
    ensures { result ≡ begins_run constructs byte }
{
    match byte {
        b'*' | b'_' => constructs.attention,
        b'~' => constructs.gfm_strikethrough,
        _ => false,
    }
}

// Whether this code is at the place. Here it is `*`:
//
//     > | so **very** ok
//            ^
pub(crate) fn is_at(cursor: &Cursor, code: u8) -> bool
    ensures { result ≡ is_some_value code (code_at cursor.now) }
{
    match cursor.current() {
        Some(byte) => byte == code,
        None => false,
    }
}

// Moves past the codes at the place that are this marker, of which there may be none. It answers nothing.
//
//     > | so **very** ok
//            ^^
#[inline(always)]
pub(crate) fn pass_markers(cursor: &mut Cursor, marker: u8)
    ensures { cursor.new ≡ past_run marker cursor.old }
{
    while is_at(cursor, marker) {
        cursor.consume();
    }
}

/// Reads the run of the marker at hand, which is given, and answers whether one is read: `*` and `_` begin one where `attention` is on, and `~`
/// where `gfm_strikethrough` is.
///
///     > | so **very** ok
///            ^^    ^^
///
/// A run is as long as it can be: an `AttentionSequence`. The pass that pairs runs is registered behind it.
///
/// Where none is read, the tokenizer is as before. The error comes where a growth is refused; then `failed` is true.
pub fn read(tokenizer: &mut Tokenizer, marker: u8) -> Result<bool, AllocError>
    requires { current_of tokenizer.old ≡ Some marker }
    ensures reads { IfOk result (λ ok.
        ReadsOrStays (Some R.Attention) (attention_here (options_here tokenizer.old)) None tokenizer.old.tokenize_state
        tokenizer.old ok tokenizer.new) }
    ensures err { OnErr result (IsTrue tokenizer.new.failed) }
{
    if !begins_run(tokenizer.parse_state.options.constructs, marker) {
        return Ok(false);
    }
    let from = tokenizer.point();
    pass_markers(&mut tokenizer.cursor, marker);
    append_leaf(tokenizer, Name::AttentionSequence, from)?;
    tokenizer.register_resolver(ResolveName::Attention)?;
    Ok(true)
}
