//! The elements of a text, read in one loop (CommonMark 6): at each code what may begin there is tried, and where nothing holds data is read.
//!
//!     text ::= gfm_task_list_item_check? element*
//!     element ::= raw_text | attention_run | gfm_label_start_footnote | label_start_link | label_start_image | character_escape
//!         | hard_break_escape | autolink | html_text | label_end | character_reference | gfm_autolink_literal | data
//!
//! The byte at hand says what is tried. A reader of `markdown_run_text` comes first where there is one; the states read what it leaves:
//!
//!     ` or $        the reader `raw_text`, then its states
//!     * or _ or ~   the reader `attention`
//!     [             the states of `gfm_label_start_footnote` where a `^` follows, then the reader `label_start_link`
//!     !             the reader `label_start_image`
//!     \             the reader `character_escape`, then the states of `hard_break_escape`
//!     <             the states of `autolink`, then those of `html_text`
//!     ]             the reader `label_end`, then its states
//!     &             the states of `character_reference`
//!     H, h, W, w    the states of `gfm_autolink_literal`, where literals are on and their word stands
//!     any other     nothing; it is data
//!
//! Where nothing holds, the reader `partial_data` reads on from there. Line endings are part of its data. What is tried at which byte is as in the states
//! of a text, in the module `text` of `markdown_run_text`.
//!
//! Events: those of the constructs, and `Data` and `LineEnding`; the passes have not run.
//!
//! Example: `a *b* [c](d)`. What stands inside `LabelLink`, `LabelEnd` and `Resource` is left out.
//!
//!     Data 0-2
//!     AttentionSequence 2-3
//!     Data 3-4
//!     AttentionSequence 4-5
//!     Data 5-6
//!     LabelLink 6-7
//!     Data 7-8
//!     LabelEnd 8-9
//!     Resource 9-12
//!
//! Definition: `text_element` in `markdown_model/specs/Elements.antt`.
//!
//! Some constructs look in vain for an end that does not come. What rules them out in the content is made known only once one has failed that it may
//! rule out, so most texts need no such walk.
//!
//! In the pictures the carets are under the codes that a function reads or looks at.
//!
//! Each function answers the error where a growth is refused; then `failed` is true.
#![tactic(auto)]

ghost use Rattle.std.specs.Prelude.{◌≡◌, ◌==◌, false, [], ◌∷◌, None, Some, IfOk, OnOk, OnErr, IsTrue};
ghost use Rattle.std.specs.List.{list_any};
ghost use Rattle.std.specs.Str.{byte};
ghost use Rattle.markdown_engine.specs.Operations.{HasCode, ahead, current_of};
ghost use Rattle.markdown_content.specs.ListFunctions.{rest_of};
ghost use Rattle.markdown_notes.specs.RunIndex.{is_asked};
ghost use Rattle.markdown_model.specs.CodeTests.{is_value, next_is};
ghost use Rattle.markdown_model.specs.GfmAutolinkLiteral.{first_letters, www};
ghost use Rattle.markdown_run_text.specs.PlacesPassed.{goes_on};
ghost use Rattle.markdown_run_text.specs.TextContent.{TextStartReady, other_markers, sole_try, span_markers, text_passed};
ghost use Rattle.markdown_run.specs.ElementsOfText.{FinishesAt, PassesAny, IsReady, KnowsNothing, Learns, MayTry, PassesData, ReadsElement, PassesSome, forgotten, text_named};

use crate::run::construct;
use markdown_engine::tokenizer::Tokenizer;
use markdown_event::resolve::ResolveName;
use markdown_event::state::StateName;
use markdown_leaf_gfm::gfm_autolink_literal;
use markdown_leaf_html::html_text;
use markdown_notes::run_index::RunIndex;
use markdown_notes::sequence_index::SequenceIndex;
use markdown_run_text::readers::{
    attention, character_escape, label_end, label_start_image, label_start_link, partial_data,
    raw_text,
};
use markdown_run_text::text;
use std::alloc::AllocError;

// Tries the check of a task, where the content may begin with one. Whether one is read is not answered: the elements behind it come either way.
//
//     > | [x] tea
//         ^^^
fn read_check(tokenizer: &mut Tokenizer) -> Result<(), AllocError>
    requires { MayTry tokenizer.old }
    ensures ok { OnOk result (PassesAny tokenizer.old tokenizer.new) }
    ensures err { OnErr result (IsTrue tokenizer.new.failed) }
{
    if tokenizer
        .tokenize_state
        .document_at_first_paragraph_of_list_item
    {
        let _held = construct(StateName::GfmTaskListItemCheckStart, tokenizer)?;
    }
    Ok(())
}

// Whether this byte comes behind the code at hand. Here it is `^`:
//
//     > | x[^a]
//           ^
fn comes_next(tokenizer: &Tokenizer, byte: u8) -> bool
    ensures { result ≡ next_is (is_value byte) (rest_of (ahead tokenizer.now)) }
{
    match tokenizer.cursor.next() {
        Some(next) => next == byte,
        None => false,
    }
}

// Tries an autolink, and then HTML, unless it is known that this does not end, and answers whether one is read.
//
//     > | <ftp:x> <b> <!-- c -->
//         ^^^^^^^ ^^^ ^^^^^^^^^^
fn read_angle(tokenizer: &mut Tokenizer) -> Result<bool, AllocError>
    requires ready { IsReady tokenizer.old }
    requires here { current_of tokenizer.old ≡ Some (byte "<") }
    ensures reads { IfOk result (λ ok. ReadsElement tokenizer.old ok tokenizer.new) }
    ensures err { OnErr result (IsTrue tokenizer.new.failed) }
{
    let held = construct(StateName::AutolinkStart, tokenizer)?;
    if held {
        return Ok(true);
    }
    if html_text::is_ruled_out(tokenizer) {
        return Ok(false);
    }
    construct(StateName::HtmlTextStart, tokenizer)
}

// Tries an escape, and then a hard break, and answers whether one is read.
//
//     > | 5 \* 3\
//           ^^  ^
//     > | x
fn read_backslash(tokenizer: &mut Tokenizer) -> Result<bool, AllocError>
    requires ready { IsReady tokenizer.old }
    requires here { current_of tokenizer.old ≡ Some (byte "\\") }
    ensures reads { IfOk result (λ ok. ReadsElement tokenizer.old ok tokenizer.new) }
    ensures err { OnErr result (IsTrue tokenizer.new.failed) }
{
    let held = character_escape::read(tokenizer)?;
    if held {
        return Ok(true);
    }
    construct(StateName::HardBreakEscapeStart, tokenizer)
}

// Tries the start of a footnote call, where a `^` comes next, and then that of a link, and answers whether one is read.
//
//     > | x[^a] y[b](c)
//          ^^    ^
fn read_bracket(tokenizer: &mut Tokenizer) -> Result<bool, AllocError>
    requires ready { IsReady tokenizer.old }
    requires here { current_of tokenizer.old ≡ Some (byte "[") }
    ensures reads { IfOk result (λ ok. ReadsElement tokenizer.old ok tokenizer.new) }
    ensures err { OnErr result (IsTrue tokenizer.new.failed) }
{
    if !comes_next(tokenizer, b'^') {
        return label_start_link::read(tokenizer);
    }
    let held = construct(StateName::GfmLabelStartFootnoteStart, tokenizer)?;
    if held {
        return Ok(true);
    }
    label_start_link::read(tokenizer)
}

// Tries the end of a label, at once where a plain resource or reference stands behind it and else by its states, and answers whether it makes a label.
//
//     > | [a](b "c")
//           ^^^^^^^^
fn read_end(tokenizer: &mut Tokenizer) -> Result<bool, AllocError>
    requires ready { IsReady tokenizer.old }
    requires here { current_of tokenizer.old ≡ Some (byte "]") }
    ensures reads { IfOk result (λ ok. ReadsElement tokenizer.old ok tokenizer.new) }
    ensures err { OnErr result (IsTrue tokenizer.new.failed) }
{
    let held = label_end::read(tokenizer)?;
    if held {
        return Ok(true);
    }
    construct(StateName::LabelEndStart, tokenizer)
}

// Tries a span of the marker at hand, which is given, at once where its text is a single stretch of one line and else by its states, unless it is
// known that none closes, and answers whether one is read. The codes up to the next run of the marker are passed once more where the reader does not
// read them.
//
//     > | x ``y z``
//           ^^^^^^^
fn read_span(tokenizer: &mut Tokenizer, marker: u8) -> Result<bool, AllocError>
    requires ready { IsReady tokenizer.old }
    requires here { current_of tokenizer.old ≡ Some marker }
    requires marks { IsTrue (is_asked span_markers marker) }
    ensures reads { IfOk result (λ ok. ReadsElement tokenizer.old ok tokenizer.new) }
    ensures err { OnErr result (IsTrue tokenizer.new.failed) }
{
    let held = raw_text::read(tokenizer, marker)?;
    if held {
        return Ok(true);
    }
    if raw_text::is_ruled_out(tokenizer, marker) {
        return Ok(false);
    }
    construct(StateName::RawTextStart, tokenizer)
}

// Whether data goes on at the code at hand, so that nothing else begins there.
//
//     > | see x_y *z*
//         ^^^^^ ^^ ^
#[inline(always)]
fn is_in_data(tokenizer: &Tokenizer) -> bool
    ensures { result ≡ goes_on tokenizer.now.parse_state.now.options.now.constructs.gfm_autolink_literal (ahead tokenizer.now) }
{
    let literals = tokenizer
        .parse_state
        .options
        .constructs
        .gfm_autolink_literal;
    partial_data::goes_on(&tokenizer.cursor, literals)
}

// Tries a literal from `www.` on, where its word stands, unless it is known that no domain begins at its first letter, which is given, and answers
// whether one is read.
//
//     > | see www.x.y
//             ^^^^^^^
fn read_www(tokenizer: &mut Tokenizer, letter: u8) -> Result<bool, AllocError>
    requires ready { IsReady tokenizer.old }
    requires here { current_of tokenizer.old ≡ Some letter }
    requires begins { IsTrue (is_asked (first_letters (www ∷ [])) letter) }
    ensures reads { IfOk result (λ ok. ReadsElement tokenizer.old ok tokenizer.new) }
    ensures err { OnErr result (IsTrue tokenizer.new.failed) }
{
    if is_in_data(tokenizer) {
        return Ok(false);
    }
    if gfm_autolink_literal::is_ruled_out(tokenizer) {
        return Ok(false);
    }
    construct(StateName::GfmAutolinkLiteralWwwStart, tokenizer)
}

// Tries by this state what alone may begin with the byte at hand, which is given, and with which nothing else begins, and answers whether it is read;
// a literal is tried where its word stands.
//
//     > | a &amp; http://x.y
//           ^^^^^ ^^^^^^^^^^
#[inline(never)]
fn try_sole(tokenizer: &mut Tokenizer, byte: u8, start: StateName) -> Result<bool, AllocError>
    requires ready { IsReady tokenizer.old }
    requires here { current_of tokenizer.old ≡ Some byte }
    requires sole { list_any (λ n. byte == n) other_markers ≡ false }
    requires tried { sole_try byte ≡ Some start }
    ensures reads { IfOk result (λ ok. ReadsElement tokenizer.old ok tokenizer.new) }
    ensures err { OnErr result (IsTrue tokenizer.new.failed) }
{
    if is_in_data(tokenizer) {
        return Ok(false);
    }
    construct(start, tokenizer)
}

// Tries what alone may begin with the byte at hand, which is given, and with which nothing else begins, and answers whether it is read.
//
//     > | a &amp; http://x.y
//           ^^^^^ ^^^^^^^^^^
#[inline(always)]
fn read_sole(tokenizer: &mut Tokenizer, byte: u8) -> Result<bool, AllocError>
    requires ready { IsReady tokenizer.old }
    requires here { current_of tokenizer.old ≡ Some byte }
    requires sole { list_any (λ n. byte == n) other_markers ≡ false }
    ensures reads { IfOk result (λ ok. ReadsElement tokenizer.old ok tokenizer.new) }
    ensures err { OnErr result (IsTrue tokenizer.new.failed) }
{
    match text::sole_try(byte) {
        Some(start) => try_sole(tokenizer, byte, start),
        None => Ok(false),
    }
}

// Tries what may begin with the byte at hand, which is given, and answers whether it does.
//
//     > | a *b* [c](d)
//           ^ ^ ^ ^^^^
#[inline(always)]
fn read_construct(tokenizer: &mut Tokenizer, byte: u8) -> Result<bool, AllocError>
    requires ready { IsReady tokenizer.old }
    requires here { current_of tokenizer.old ≡ Some byte }
    ensures reads { IfOk result (λ ok. ReadsElement tokenizer.old ok tokenizer.new) }
    ensures err { OnErr result (IsTrue tokenizer.new.failed) }
{
    match byte {
        b'`' | b'$' => read_span(tokenizer, byte),
        b'*' | b'_' | b'~' => attention::read(tokenizer, byte),
        b'[' => read_bracket(tokenizer),
        b'!' => label_start_image::read(tokenizer),
        b'\\' => read_backslash(tokenizer),
        b'<' => read_angle(tokenizer),
        b']' => read_end(tokenizer),
        b'W' | b'w' => read_www(tokenizer, byte),
        _ => read_sole(tokenizer, byte),
    }
}

// Whether a construct that begins with the byte at hand, which is given, and has failed, may be ruled out the next time: a span, HTML that begins
// with `<!` or `<?`, an end of a label before a `(`, a resource behind an end that holds without it, and a literal from `www.` on.
//
//     > | a `b <!-- c
//           ^  ^^
fn may_be_ruled_out(tokenizer: &Tokenizer, byte: u8) -> bool {
    match byte {
        b'`' | b'$' => true,
        b'<' => matches!(tokenizer.cursor.next(), Some(b'!' | b'?')),
        b']' => matches!(tokenizer.cursor.next(), Some(b'(')),
        b'(' => matches!(tokenizer.cursor.previous(), Some(b']')),
        b'W' | b'w' => matches!(tokenizer.cursor.next(), Some(b'W' | b'w')),
        _ => false,
    }
}

// Makes known what rules constructs out in the content, where it is not yet, and what begins with this byte, which is at hand, has failed and may
// be ruled out the next time. `is_indexed` says whether it is known. The place stays.
//
//     > | a `b <!-- c
//           ^  ^^
#[inline(always)]
fn learn(tokenizer: &mut Tokenizer, byte: u8, is_indexed: &mut bool) -> Result<(), AllocError>
    requires { IsReady tokenizer.old }
    ensures ok { OnOk result (Learns tokenizer.old tokenizer.new) }
    ensures err { OnErr result (IsTrue tokenizer.new.failed) }
{
    let asks = !*is_indexed && may_be_ruled_out(tokenizer, byte);
    if !asks {
        return Ok(());
    }
    *is_indexed = true;
    text::index(tokenizer)
}

// Forgets what rules constructs out in the content.
fn forget(tokenizer: &mut Tokenizer)
    ensures { tokenizer.new ≡ forgotten tokenizer.old }
{
    tokenizer.tokenize_state.runs = RunIndex::new(tokenizer.alloc);
    tokenizer.tokenize_state.sequences = SequenceIndex::new();
    tokenizer.tokenize_state.titles = None;
    tokenizer.tokenize_state.no_domains = None;
}

// Reads data from the code at hand on, up to where another element may begin.
//
//     > | a *b* [c](d)
//         ^^ ^ ^ ^
#[inline(always)]
fn read_data(tokenizer: &mut Tokenizer) -> Result<(), AllocError>
    requires ready { IsReady tokenizer.old }
    requires some_code { HasCode tokenizer.old }
    ensures ok { OnOk result (PassesData tokenizer.old tokenizer.new) }
    ensures err { OnErr result (IsTrue tokenizer.new.failed) }
{
    let literals = tokenizer
        .parse_state
        .options
        .constructs
        .gfm_autolink_literal;
    partial_data::read(tokenizer, literals)
}

// Reads an element, or the data from the byte at hand on, which is given. `is_indexed` says whether what rules constructs out is known.
//
//     > | a *b* [c](d)
//         ^^^^^^^^^^^^
#[inline(always)]
fn read_element(
    tokenizer: &mut Tokenizer,
    byte: u8,
    is_indexed: &mut bool,
) -> Result<(), AllocError>
    requires ready { IsReady tokenizer.old }
    requires here { current_of tokenizer.old ≡ Some byte }
    ensures ok { OnOk result (PassesSome tokenizer.old tokenizer.new) }
    ensures err { OnErr result (IsTrue tokenizer.new.failed) }
{
    let held = read_construct(tokenizer, byte)?;
    if held {
        return Ok(());
    }
    learn(tokenizer, byte, is_indexed)?;
    read_data(tokenizer)
}

// Reads all elements from the place on, up to the end of the content.
//
//     > | a *b* [c](d)
//         ^^^^^^^^^^^^
fn read_elements(tokenizer: &mut Tokenizer) -> Result<(), AllocError>
    requires { IsReady tokenizer.old }
    ensures ok { OnOk result (PassesAny tokenizer.old tokenizer.new) }
    ensures end { OnOk result (current_of tokenizer.new ≡ None) }
    ensures err { OnErr result (IsTrue tokenizer.new.failed) }
{
    let mut is_indexed = false;
    while let Some(byte) = tokenizer.current() {
        read_element(tokenizer, byte, &mut is_indexed)?;
    }
    Ok(())
}

// Reads the elements of a text, from its start to its end, with the check of a task before them if there is one. Nothing is known of the content
// before.
//
//     > | [x] a *b*
//         ^^^^^^^^^
pub(crate) fn read_text(tokenizer: &mut Tokenizer) -> Result<(), AllocError>
    requires ready { TextStartReady tokenizer.old }
    requires alone { tokenizer.old.attempts ≡ [] }
    requires unknown { KnowsNothing tokenizer.old }
    ensures ok { OnOk result (FinishesAt (text_named tokenizer.old) (text_passed (forgotten tokenizer.new))) }
    ensures err { OnErr result (IsTrue tokenizer.new.failed) }
{
    text::index_names(tokenizer)?;
    read_check(tokenizer)?;
    read_elements(tokenizer)
}

// Ends a text whose elements are read: forgets what is known of the content, and registers the passes of a text.
//
//     > | a *b* [c](d)
//                     ^
pub(crate) fn end_text(tokenizer: &mut Tokenizer) -> Result<(), AllocError>
    ensures ok { OnOk result (tokenizer.new ≡ text_passed (forgotten tokenizer.old)) }
    ensures err { OnErr result (IsTrue tokenizer.new.failed) }
{
    forget(tokenizer);
    tokenizer.register_resolver(ResolveName::Data)?;
    tokenizer.register_resolver(ResolveName::Text)
}
