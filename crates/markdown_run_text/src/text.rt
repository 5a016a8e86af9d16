//! The states of text content, as in paragraphs and headings (CommonMark 6). Its pass is `text::resolve` of `markdown_run`.
//!
//!     text ::= gfm_task_list_item_check? element*
//!     element ::= character_escape | hard_break_escape | character_reference | raw_text | autolink | html_text | attention_run
//!         | gfm_autolink_literal | label_start_image | gfm_label_start_footnote | label_start_link | label_end | line_ending | data
//!
//! At each code the first of these that holds is the element; data holds everywhere.
//!
//! Events: those of the constructs, and `Data` and `LineEnding`. After the run the passes go over all events, in this order: `label_groups`,
//! attention's `grouping`, `partial_data`, and in `text::resolve` `partial_whitespace` and, where they are on, `email`.
//!
//! Example: `see *that*, [this](b) and &amp;`.
//!
//! Definition: `text_element` in `markdown_model/specs/Elements.antt`, and `text_tree` in `InlineTree.antt` for the whole.
//!
//! Each state answers the error where a growth is refused; then `failed` is true.
#![tactic(auto, using(markdown_engine::proofs::OperationFields::op_rules))]

ghost use Rattle.std.specs.Prelude.{◌≡◌, nat_le, IfOk, OnOk, OnErr, IsTrue, None, Some, length, string_bytes, true};
ghost use Rattle.std.specs.List.{list_any};
ghost use Rattle.markdown_engine.specs.Operations.{scratched};
ghost use Rattle.markdown_notes.specs.RunIndex.{last_runs};
ghost use Rattle.markdown_notes.specs.SequenceIndex.{last_begins};
ghost use Rattle.markdown_plan.specs.Characters.{ReadsText};
ghost use Rattle.markdown_run_text.specs.TextContent.{ended_fields, indexed_fields, named_fields, names_for, names_change, names_in, names_pay, order_pays, brackets_in, brackets_pay, titles_for, titles_pay, domains_for};
ghost use Rattle.markdown_run_text.specs.TextContent.{domains_pay, span_markers, data_markers, first_try, sole_try, attempt_step, start_step, before_step, before_html_step, before_hard_break_escape_step, before_label_start_link_step, before_data_step};

use crate::tries::plain_tries;
use markdown_content::byte_table;
use markdown_content::bytes::{ByteSet, ByteTable};
use markdown_content::cursor::Cursor;
use markdown_engine::tokenizer::Tokenizer;
use markdown_event::resolve::ResolveName;
use markdown_event::state::{State, StateName};
use markdown_leaf_gfm::domain_outlook;
use markdown_notes::bracket_index::BracketIndex;
use markdown_notes::name_index::Names;
use markdown_notes::run_index::RunIndex;
use markdown_notes::sequence_index::{Sequence, SequenceIndex};
use markdown_notes::title_index::TitleIndex;
use markdown_partial::literal_letters;
use std::alloc::AllocError;

// Where so many names are defined, and so many labels may end, an order of the names pays. Where so many titles may begin, it pays to note
// where they may end; and where so many literals may begin behind a `_`, where no domain does.
const MANY: usize = 16;

// Where a name has so many bytes, labels are read past their first front, so that an order of the names pays.
const LONG: usize = 64;

// What is tried at which bytes, as `plain_tries` hands it on, with literals before.
macro_rules! tries {
    ($of_rows:ident $($more:tt)*) => { literal_letters!(tries_with ($of_rows $($more)*)) };
}

macro_rules! tries_with {
    (($of_rows:ident $($more:tt)*)
        schemes { $([$($of_scheme:literal)*] then $scheme_next:tt;)* }
        www { $([$($of_www:literal)*] then $www_next:tt;)* }) => {
        plain_tries! {
            $of_rows $($more)*
            literals {
                [$($($of_scheme)*)*] GfmAutolinkLiteralProtocolStart;
                [$($($of_www)*)*] GfmAutolinkLiteralWwwStart;
            }
        }
    };
}

// The bytes at which data stops: those of all lines, and that at which an expression of MDX may be tried.
macro_rules! stops_of {
    ($($kind:ident { $([$($of_row:literal)*] $construct:ident $(, $otherwise:ident)?;)* })*) => {
        byte_table!(b'{', $($($($of_row),*),*),*)
    };
}

// What is tried first at a byte, if its line says so.
macro_rules! first_of {
    ($byte:ident
        literals { $([$($of_literal:literal)*] $literal:ident;)* }
        sole { $([$($of_sole:literal)*] $sole:ident;)* }
        other { $([$($of_row:literal)*] $construct:ident, $otherwise:ident;)* }) => {
        match $byte {
            $($($of_literal)|* => Some((StateName::$literal, StateName::TextBeforeData)),)*
            $($($of_sole)|* => Some((StateName::$sole, StateName::TextBeforeData)),)*
            $($($of_row)|* => Some((StateName::$construct, StateName::$otherwise)),)*
            _ => None,
        }
    };
}

// What alone is tried at a byte, if its line says so.
macro_rules! sole_of {
    ($byte:ident
        literals { $([$($of_literal:literal)*] $literal:ident;)* }
        sole { $([$($of_sole:literal)*] $sole:ident;)* }
        other { $($of_others:tt)* }) => {
        match $byte {
            $($($of_literal)|* => Some(StateName::$literal),)*
            $($($of_sole)|* => Some(StateName::$sole),)*
            _ => None,
        }
    };
}

const MARKERS: ByteTable = tries!(stops_of);

const SPAN_MARKERS: ByteTable = byte_table!(b'`', b'$');

const LABEL_ENDS: ByteTable = byte_table!(b']');

const RESOURCE_STARTS: ByteTable = byte_table!(b'(');

// The bytes at which data of a text stops.
fn markers() -> ByteSet
    ensures { result ≡ data_markers }
{
    ByteSet::new(&MARKERS)
}

// Answers the start of what is tried first at this byte, and the state to go on with where that does not hold.
fn first_try(byte: u8) -> Option<(StateName, StateName)>
    ensures { result ≡ first_try byte }
{
    tries!(first_of byte)
}

/// Answers the start of what alone is tried at this byte and reads one tree, if anything is.
pub fn sole_try(byte: u8) -> Option<StateName>
    ensures { result ≡ sole_try byte }
{
    tries!(sole_of byte)
}

// Tries a construct from this state, and goes on with another where it does not hold.
fn attempt(
    tokenizer: &mut Tokenizer,
    construct: StateName,
    otherwise: StateName,
) -> Result<State, AllocError>
    ensures ok { IfOk result (λ s. attempt_step construct otherwise tokenizer.old ≡ record { state = s; left = tokenizer.new }) }
    ensures err { OnErr result (IsTrue tokenizer.new.failed) }
{
    tokenizer.attempt(State::Next(StateName::TextBefore), State::Next(otherwise))?;
    Ok(State::Retry(construct))
}

// Makes known where the last runs begin at which spans may close; without a walk, where no mark of a span stands in the content. The
// sequences are those of the content.
#[tactic(auto, unfolding(markdown_engine::specs::Operations::scratched))]
fn index_runs(tokenizer: &mut Tokenizer) -> Result<(), AllocError>
    requires { tokenizer.old.tokenize_state.sequences ≡ Some (last_begins tokenizer.old.cursor.codes) }
    ensures ok { OnOk result (tokenizer.new
        ≡ scratched (record tokenizer.old.tokenize_state { runs = last_runs span_markers tokenizer.old.cursor.codes }) tokenizer.old) }
    ensures err { OnErr result (IsTrue tokenizer.new.failed) }
{
    let marks = ByteSet::new(&SPAN_MARKERS);
    let sequences = &tokenizer.tokenize_state.sequences;
    if sequences.rules_out(Sequence::SpanMark, 0) {
        tokenizer.tokenize_state.runs = RunIndex::without(tokenizer.alloc, marks);
        return Ok(());
    }
    match RunIndex::over(tokenizer.alloc, &tokenizer.cursor, marks) {
        Ok(runs) => {
            tokenizer.tokenize_state.runs = runs;
            Ok(())
        }
        Err(refused) => tokenizer.noted(Err(refused)),
    }
}

// Whether one of these names is so long that an order of them pays.
fn one_is_long(names: &[String]) -> bool
    ensures { result ≡ list_any (λ name. nat_le 64 (length (string_bytes name))) names.now }
{
    names.iter().any(|name| name.len() >= LONG)
}

// Whether these names are so many, or one of them is so long, that an order of them pays.
fn names_pay(names: &[String]) -> bool
    ensures { result ≡ names_pay names.now }
{
    names.len() >= MANY || one_is_long(names)
}

// Whether the names that are defined pay, and so many labels may end.
fn order_pays(tokenizer: &Tokenizer) -> bool
    ensures { result ≡ order_pays tokenizer.now.cursor.codes tokenizer.now.parse_state.now }
{
    let state = tokenizer.parse_state;
    (names_pay(state.definitions.as_slice())
        || names_pay(state.gfm_footnote_definitions.as_slice()))
        && tokenizer.cursor.holds(&ByteSet::new(&LABEL_ENDS), MANY)
}

// Whether anything is defined, and so many labels may end, that to note where opening brackets stand pays.
fn brackets_pay(tokenizer: &Tokenizer) -> bool
    ensures { result ≡ brackets_pay tokenizer.now.cursor.codes tokenizer.now.parse_state.now }
{
    let state = tokenizer.parse_state;
    !(state.definitions.is_empty() && state.gfm_footnote_definitions.is_empty())
        && tokenizer.cursor.holds(&ByteSet::new(&LABEL_ENDS), MANY)
}

// The brackets of the document from where the content begins to where it ends.
fn brackets_in(tokenizer: &Tokenizer) -> Result<BracketIndex, AllocError>
    ensures { IfOk result (λ brackets. brackets ≡ brackets_in tokenizer.now.cursor tokenizer.now.parse_state.now) }
{
    let first = tokenizer.cursor.restart();
    let start = first.point().index;
    let end = tokenizer.cursor.end_index();
    BracketIndex::over(tokenizer.alloc, tokenizer.parse_state.bytes, start, end)
}

// The names of what is defined, in order, and the brackets of the content.
fn names_in<'a>(tokenizer: &Tokenizer<'a>) -> Result<Names<'a>, AllocError>
    ensures { IfOk result (λ names. names ≡ names_in tokenizer.now.cursor tokenizer.now.parse_state.now) }
{
    let state = tokenizer.parse_state;
    let brackets = brackets_in(tokenizer)?;
    let definitions = state.definitions.as_slice();
    let footnotes = state.gfm_footnote_definitions.as_slice();
    Names::over(tokenizer.alloc, definitions, footnotes, brackets)
}

// The names that a text is read with where they are other than those that are lent, if any: those with brackets, else those of what is
// defined in order.
fn names_for<'a>(
    tokenizer: &Tokenizer<'a>,
    lent: Option<Names<'a>>,
) -> Result<Names<'a>, AllocError>
    requires { names_change lent tokenizer.now.cursor.codes tokenizer.now.parse_state.now ≡ true }
    ensures { IfOk result (λ names. Some names ≡ names_for lent.entry tokenizer.now.cursor tokenizer.now.parse_state.now) }
{
    let Some(mut names) = lent else {
        return names_in(tokenizer);
    };
    names.brackets = brackets_in(tokenizer)?;
    Ok(names)
}

// Whether a text is read with other names than those that are lent, if any: with brackets noted, or where none are lent with an order.
#[inline(always)]
fn names_change(tokenizer: &Tokenizer) -> bool
    ensures { result ≡ names_change tokenizer.now.tokenize_state.names tokenizer.now.cursor.codes tokenizer.now.parse_state.now }
{
    match &tokenizer.tokenize_state.names {
        Some(_) => brackets_pay(tokenizer),
        None => order_pays(tokenizer),
    }
}

// Makes known the names that a text is read with, which are other than those that are lent. It is kept out of line, since most texts are read
// with none.
#[inline(never)]
#[tactic(auto, unfolding(markdown_engine::specs::Operations::scratched))]
fn learn_names(tokenizer: &mut Tokenizer) -> Result<(), AllocError>
    requires { names_change tokenizer.old.tokenize_state.names tokenizer.old.cursor.codes tokenizer.old.parse_state.now ≡ true }
    ensures ok { OnOk result (tokenizer.new
        ≡ scratched (named_fields tokenizer.old.cursor tokenizer.old.parse_state.now tokenizer.old.tokenize_state) tokenizer.old) }
    ensures err { OnErr result (IsTrue tokenizer.new.failed) }
{
    let lent = tokenizer.tokenize_state.names.take();
    match names_for(tokenizer, lent) {
        Ok(names) => {
            tokenizer.tokenize_state.names = Some(names);
            Ok(())
        }
        Err(refused) => tokenizer.noted(Err(refused)),
    }
}

/// Makes known the names of what is defined, where they are lent or their order pays.
///
/// The error comes where memory is refused; then `failed` is true.
#[inline(always)]
#[tactic(auto, unfolding(markdown_engine::specs::Operations::scratched))]
pub fn index_names(tokenizer: &mut Tokenizer) -> Result<(), AllocError>
    ensures ok { OnOk result (tokenizer.new
        ≡ scratched (named_fields tokenizer.old.cursor tokenizer.old.parse_state.now tokenizer.old.tokenize_state) tokenizer.old) }
    ensures err { OnErr result (IsTrue tokenizer.new.failed) }
{
    if !names_change(tokenizer) {
        return Ok(());
    }
    learn_names(tokenizer)
}

// Whether so many titles in parentheses may begin, behind some of which a resource may end, that to note where each may end pays. The
// sequences are those of the content.
fn titles_pay(tokenizer: &Tokenizer) -> bool
    requires { tokenizer.now.tokenize_state.sequences ≡ Some (last_begins tokenizer.now.cursor.codes) }
    ensures { result ≡ titles_pay tokenizer.now.cursor.codes }
{
    let sequences = &tokenizer.tokenize_state.sequences;
    !sequences.rules_out(Sequence::ResourceEnd, 0)
        && tokenizer
            .cursor
            .holds(&ByteSet::new(&RESOURCE_STARTS), MANY)
}

// Makes known where titles in parentheses may end, where that pays.
#[tactic(auto, unfolding(markdown_engine::specs::Operations::scratched))]
fn index_titles(tokenizer: &mut Tokenizer) -> Result<(), AllocError>
    requires { tokenizer.old.tokenize_state.sequences ≡ Some (last_begins tokenizer.old.cursor.codes) }
    ensures ok { OnOk result (tokenizer.new
        ≡ scratched (record tokenizer.old.tokenize_state { titles = titles_for tokenizer.old.cursor.codes }) tokenizer.old) }
    ensures err { OnErr result (IsTrue tokenizer.new.failed) }
{
    if !titles_pay(tokenizer) {
        tokenizer.tokenize_state.titles = None;
        return Ok(());
    }
    match TitleIndex::over(tokenizer.alloc, &tokenizer.cursor) {
        Ok(titles) => {
            tokenizer.tokenize_state.titles = Some(titles);
            Ok(())
        }
        Err(refused) => tokenizer.noted(Err(refused)),
    }
}

// Whether literals are on, and so many from `www.` on may begin behind a `_` that to note where no domain begins pays. The sequences are
// those of the content.
fn domains_pay(tokenizer: &Tokenizer) -> bool
    requires { tokenizer.now.tokenize_state.sequences ≡ Some (last_begins tokenizer.now.cursor.codes) }
    ensures { result ≡ domains_pay tokenizer.now.cursor.codes tokenizer.now.parse_state.now }
{
    let constructs = &tokenizer.parse_state.options.constructs;
    let sequences = &tokenizer.tokenize_state.sequences;
    constructs.gfm_autolink_literal
        && !sequences.rules_out(Sequence::WwwDot, 0)
        && domain_outlook::opens_often(&tokenizer.cursor, MANY)
}

// Makes known where no domain begins behind a `_`, where that pays.
#[tactic(auto, unfolding(markdown_engine::specs::Operations::scratched))]
fn index_domains(tokenizer: &mut Tokenizer) -> Result<(), AllocError>
    requires text { ReadsText tokenizer.old }
    requires sequences { tokenizer.old.tokenize_state.sequences ≡ Some (last_begins tokenizer.old.cursor.codes) }
    ensures ok { OnOk result (tokenizer.new
        ≡ scratched (record tokenizer.old.tokenize_state {
          no_domains = domains_for tokenizer.old.cursor.codes
              tokenizer.old.cursor.end.index tokenizer.old.parse_state.now;
        }) tokenizer.old) }
    ensures err { OnErr result (IsTrue tokenizer.new.failed) }
{
    if !domains_pay(tokenizer) {
        tokenizer.tokenize_state.no_domains = None;
        return Ok(());
    }
    let bytes = tokenizer.parse_state.bytes;
    match domain_outlook::no_domains(tokenizer.alloc, bytes, &tokenizer.cursor) {
        Ok(places) => {
            tokenizer.tokenize_state.no_domains = Some(places);
            Ok(())
        }
        Err(refused) => tokenizer.noted(Err(refused)),
    }
}

// Makes known where the sequences last begin that end HTML and resources, and where titles in parentheses may end.
#[tactic(auto, unfolding(markdown_engine::specs::Operations::scratched))]
fn index_ends(tokenizer: &mut Tokenizer) -> Result<(), AllocError>
    ensures ok { OnOk result (tokenizer.new ≡ scratched (ended_fields tokenizer.old.cursor.codes tokenizer.old.tokenize_state) tokenizer.old) }
    ensures err { OnErr result (IsTrue tokenizer.new.failed) }
{
    tokenizer.tokenize_state.sequences = SequenceIndex::over(&tokenizer.cursor);
    index_titles(tokenizer)
}

/// Makes known what rules constructs out in the content.
///
/// A search of it finds the sequences that end HTML and resources, so that none is looked for in vain, and whether literals from `www.` on
/// and spans may begin. The others are made only where that search has seen what they look for. Where a mark of a span stands, one finds the
/// runs at which spans may close. Where many titles in parentheses may begin, and a resource may end behind one, one finds where each may end. Where many
/// literals from `www.` on may begin behind a `_`, one finds at which of these places no domain begins.
///
/// The error comes where memory is refused; then `failed` is true.
#[tactic(auto, unfolding(markdown_engine::specs::Operations::scratched))]
pub fn index(tokenizer: &mut Tokenizer) -> Result<(), AllocError>
    requires { ReadsText tokenizer.old }
    ensures ok { OnOk result (tokenizer.new
        ≡ scratched (indexed_fields tokenizer.old.cursor tokenizer.old.parse_state.now tokenizer.old.tokenize_state) tokenizer.old) }
    ensures err { OnErr result (IsTrue tokenizer.new.failed) }
{
    index_ends(tokenizer)?;
    index_runs(tokenizer)?;
    index_domains(tokenizer)
}

/// At the start of a text, where the check of a task may stand.
///
/// Where a resource may end is made known, which the states ask; of what else rules constructs out they ask nothing. Where many names are
/// defined and many labels may end, the names are put in order, so that each is found by a search; names that are lent, as those of a
/// `document::Document`, are in order already.
///
///     > | [ ] do *it*
///         ^
#[tactic(auto, using(markdown_engine::proofs::OperationFields::op_rules), unfolding(markdown_engine::specs::Operations::scratched))]
pub fn start(tokenizer: &mut Tokenizer) -> Result<State, AllocError>
    requires { ReadsText tokenizer.old }
    ensures ok { IfOk result (λ s. start_step tokenizer.old ≡ record { state = s; left = tokenizer.new }) }
    ensures err { OnErr result (IsTrue tokenizer.new.failed) }
{
    index_ends(tokenizer)?;
    tokenizer.tokenize_state.markers = markers();
    index_names(tokenizer)?;
    attempt(
        tokenizer,
        StateName::GfmTaskListItemCheckStart,
        StateName::TextBefore,
    )
}

/// Before an element of the text, or at its end.
///
///     > | a *b* c
///         ^ ^^^^ ^
pub fn before(tokenizer: &mut Tokenizer) -> Result<State, AllocError>
    ensures ok { IfOk result (λ s. before_step tokenizer.old ≡ record { state = s; left = tokenizer.new }) }
    ensures err { OnErr result (IsTrue tokenizer.new.failed) }
{
    match tokenizer.current() {
        None => {
            tokenizer.register_resolver(ResolveName::Data)?;
            tokenizer.register_resolver(ResolveName::Text)?;
            Ok(State::Ok)
        }
        Some(byte) => match first_try(byte) {
            Some((construct, otherwise)) => attempt(tokenizer, construct, otherwise),
            None => Ok(State::Retry(StateName::TextBeforeData)),
        },
    }
}

/// At a `<` that begins no autolink: before HTML.
///
///     > | a <b> c
///           ^
pub fn before_html(tokenizer: &mut Tokenizer) -> Result<State, AllocError>
    ensures ok { IfOk result (λ s. before_html_step tokenizer.old ≡ record { state = s; left = tokenizer.new }) }
    ensures err { OnErr result (IsTrue tokenizer.new.failed) }
{
    attempt(
        tokenizer,
        StateName::HtmlTextStart,
        StateName::TextBeforeData,
    )
}

/// At a backslash that escapes nothing: before a hard break.
///
///     > | one\
///            ^
///     > | two
pub fn before_hard_break_escape(tokenizer: &mut Tokenizer) -> Result<State, AllocError>
    ensures ok { IfOk result (λ s. before_hard_break_escape_step tokenizer.old ≡ record { state = s; left = tokenizer.new }) }
    ensures err { OnErr result (IsTrue tokenizer.new.failed) }
{
    attempt(
        tokenizer,
        StateName::HardBreakEscapeStart,
        StateName::TextBeforeData,
    )
}

/// At a `[` that begins no footnote call: before the start of a link.
///
///     > | see [that](x)
///             ^
pub fn before_label_start_link(tokenizer: &mut Tokenizer) -> Result<State, AllocError>
    ensures ok { IfOk result (λ s. before_label_start_link_step tokenizer.old ≡ record { state = s; left = tokenizer.new }) }
    ensures err { OnErr result (IsTrue tokenizer.new.failed) }
{
    attempt(
        tokenizer,
        StateName::LabelStartLinkStart,
        StateName::TextBeforeData,
    )
}

/// Before data, which holds everywhere.
///
///     > | 2 & 3
///         ^ ^
pub fn before_data(tokenizer: &mut Tokenizer) -> Result<State, AllocError>
    ensures ok { IfOk result (λ s. before_data_step tokenizer.old ≡ record { state = s; left = tokenizer.new }) }
    ensures err { OnErr result (IsTrue tokenizer.new.failed) }
{
    tokenizer.attempt(State::Next(StateName::TextBefore), State::Nok)?;
    Ok(State::Retry(StateName::DataStart))
}
