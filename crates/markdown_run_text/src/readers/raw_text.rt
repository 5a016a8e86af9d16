//! The reader of code spans (CommonMark 6.1), and of math spans alike, whose text is a single stretch of one line.
//!
//!     plain_span ::= plain_code | plain_math
//!     plain_code ::= '`'{n} text '`'{n}                        n ≥ 1
//!     plain_math ::= '$'{n} text '$'{n}                        n ≥ 1, or n ≥ 2 without `math_text_single_dollar`
//!     text ::= (code - (line_ending | marker))+
//!
//! Runs are as long as they can be. No such marker stands right before a span, unless as the value of an escape.
//!
//! Events, with `Math` for `Code` in a math span:
//!
//!     CodeText
//!       CodeTextSequence    the opening run
//!       CodeTextData        the text
//!       CodeTextSequence    the closing run
//!
//! Example: the span of ```x ``y z`` ```.
//!
//!     CodeText 2-9
//!       CodeTextSequence 2-4
//!       CodeTextData 4-7
//!       CodeTextSequence 7-9
//!
//! Definition: `raw_text_here` in `markdown_model/specs/SingleConstructs.antt`, by `span_of` in `LeafConstructs.antt`.
//!
//! The reader knows the spans of this grammar. It leaves those whose text has line endings, or runs of the marker of another length, to the states.
//! `is_ruled_out` tells by an index of the content whether any run can close; where none can, the states are not tried.
#![tactic(auto)]

ghost use Rattle.std.specs.Prelude.{◌≡◌, ◌==◌, codes, IfOk, OnOk, OnErr, IsTrue, Some};
ghost use Rattle.std.specs.List.{list_any};
ghost use Rattle.markdown_engine.specs.Operations.{current_of};
ghost use Rattle.markdown_content.specs.Place.{ahead_at};
ghost use Rattle.markdown_notes.specs.RunIndex.{leading};
ghost use Rattle.markdown_leaf.specs.RawText.{is_ruled_out, span_at};
ghost use Rattle.markdown_run_text.specs.PlacesPassed.{past_run};
ghost use Rattle.markdown_run_text.specs.PlainSpan.{begins_span, names_for, opens_span, past_span_text, with_span};
ghost use Rattle.markdown_run_text.specs.ReaderEnds.{ReadsOrLeaves};

use crate::readers::attention::pass_markers;
use crate::readers::events::{append_enter, append_exit, append_leaf, append_leaf_between};
use markdown_content::byte_table;
use markdown_content::bytes::{ByteSet, ByteTable};
use markdown_content::cursor::Cursor;
use markdown_engine::tokenizer::Tokenizer;
use markdown_event::event::{Name, Point};
use markdown_leaf::raw_text::is_barred;
use std::alloc::AllocError;

// The names of a span of this marker: of the whole, of its runs, and of its text.
#[inline(always)]
fn names_of(marker: u8) -> (Name, Name, Name)
    ensures whole { result.0 ≡ (names_for marker).whole }
    ensures sequence { result.1 ≡ (names_for marker).sequence }
    ensures text { result.2 ≡ (names_for marker).text }
{
    if marker == b'`' {
        (Name::CodeText, Name::CodeTextSequence, Name::CodeTextData)
    } else {
        (Name::MathText, Name::MathTextSequence, Name::MathTextData)
    }
}

// Whether the run of this marker, which is at hand, may open a span: spans of it are on, and the run is long enough.
//
//     > | x $$y$$
//           ^^
#[inline(always)]
fn opens(tokenizer: &Tokenizer, marker: u8) -> bool
    ensures { result ≡ opens_span marker tokenizer.now }
{
    let options = &tokenizer.parse_state.options;
    match marker {
        b'`' => options.constructs.code_text,
        b'$' => {
            options.constructs.math_text
                && (options.math_text_single_dollar || tokenizer.cursor.next() == Some(b'$'))
        }
        _ => false,
    }
}

// Moves past the codes at the place that are this marker, and answers how many they are.
//
//     > | x ``y z``
//           ^^   ^^
#[inline(always)]
fn pass_run(cursor: &mut Cursor, marker: u8) -> usize
    ensures past { cursor.new ≡ past_run marker cursor.old }
    ensures size { result ≡ leading marker (ahead_at cursor.old) }
{
    let start = cursor.passed();
    pass_markers(cursor, marker);
    cursor.passed() - start
}

const BACKTICK: ByteTable = byte_table!(b'`');

const DOLLAR: ByteTable = byte_table!(b'$');

// Moves past the text of a span of this marker: up to the marker, a line ending or the end. It answers nothing.
//
//     > | x ``y z``
//             ^^^
#[inline(always)]
fn pass_text(cursor: &mut Cursor, marker: u8)
    requires { IsTrue (list_any (λ n. marker == n) (codes "`$")) }
    ensures { cursor.new ≡ past_span_text marker cursor.old }
{
    if marker == b'`' {
        cursor.consume_stretch(&ByteSet::new(&BACKTICK));
    } else {
        cursor.consume_stretch(&ByteSet::new(&DOLLAR));
    }
}

// Appends the events of a span that begins at the first point and ends at the place, and whose text stands between the others. All its codes are
// passed before.
//
//     > | x ``y z``
//           ^^^^^^^
#[inline(always)]
fn append_span(
    tokenizer: &mut Tokenizer,
    marker: u8,
    start: Point,
    from: Point,
    to: Point,
) -> Result<(), AllocError>
    ensures ok { OnOk result (tokenizer.new ≡ with_span (names_for marker) start from to tokenizer.old) }
    ensures err { OnErr result (IsTrue tokenizer.new.failed) }
{
    let (whole, sequence, text) = names_of(marker);
    append_enter(tokenizer, whole, start)?;
    append_leaf_between(tokenizer, sequence, start, from)?;
    append_leaf_between(tokenizer, text, from, to)?;
    append_leaf(tokenizer, sequence, to)?;
    append_exit(tokenizer, whole)
}

/// Reads the span of the marker at hand, which is given, where its text is a single stretch of one line, and answers whether one is read; none is
/// where spans of the marker are off.
///
///     > | x ``y z``
///           ^^^^^^^
///
/// Its events are a `CodeText` with a `CodeTextSequence`, a `CodeTextData` and another `CodeTextSequence`, and those of math alike.
///
/// Where none is read, the tokenizer is as before, and another span may stand there: one whose text has line endings, or runs of the marker of
/// another length. The error comes where a growth is refused; then `failed` is true.
///
/// The codes are passed as far as the next run of the marker or the line's end, and none from the middle of a run. So calls at all runs of a
/// marker pass text once, and each run twice at most.
pub fn read(tokenizer: &mut Tokenizer, marker: u8) -> Result<bool, AllocError>
    requires { current_of tokenizer.old ≡ Some marker }
    ensures reads { IfOk result (λ ok. ReadsOrLeaves (span_at tokenizer.old) tokenizer.old ok tokenizer.new) }
    ensures err { OnErr result (IsTrue tokenizer.new.failed) }
{
    if !opens(tokenizer, marker) || is_barred(tokenizer, marker) {
        return Ok(false);
    }
    let saved = tokenizer.cursor.save();
    let start = tokenizer.point();
    let size = pass_run(&mut tokenizer.cursor, marker);
    let from = tokenizer.cursor.exit_point();
    pass_text(&mut tokenizer.cursor, marker);
    let to = tokenizer.cursor.exit_point();
    let closing = pass_run(&mut tokenizer.cursor, marker);
    if closing != size {
        tokenizer.cursor = saved;
        return Ok(false);
    }
    append_span(tokenizer, marker, start, from, to)?;
    Ok(true)
}

/// Whether it is known that no span of this marker is read at the place: none as long as the run at hand follows. Takes no memory.
///
///     > | x ``y z`
///           ^^
///
/// Where the marker is barred, the run is not passed, so that each run is passed once.
pub fn is_ruled_out(tokenizer: &Tokenizer, marker: u8) -> bool
    ensures { result ≡ is_ruled_out marker tokenizer.now }
{
    if is_barred(tokenizer, marker) {
        return false;
    }
    let mut behind = tokenizer.cursor.save();
    let size = pass_run(&mut behind, marker);
    tokenizer
        .tokenize_state
        .runs
        .rules_out(marker, size, behind.passed())
}
