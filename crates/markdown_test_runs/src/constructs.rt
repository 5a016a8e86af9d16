//! Single constructs, each read at the start of a content. A tokenizer that has met a refusal of memory says so, and its next calls answer the error
//! at once, also where memory is to be had again.
ghost use Rattle.std.specs.Prelude.{◌≡◌, ◌≤◌, [], IsTrue};
ghost use Rattle.markdown_inline.specs.markdown_plan.Characters.{ReadsText};
ghost use Rattle.markdown_inline.specs.markdown_content.Content.{IsContent};
ghost use Rattle.markdown_inline.specs.markdown_engine.RestingFields.{at_rest};
ghost use Rattle.markdown_inline.specs.markdown_engine.Weights.{codes_left};
ghost use Rattle.markdown_inline.specs.markdown_event.declared.state.StateName.TheVariants.{DestinationStart, GfmTaskListItemCheckStart, LabelStart, SpaceOrTabStart, SpaceOrTabEolStart, TitleStart};
ghost use Rattle.markdown_inline.specs.markdown_partial.PartialSpaceOrTab.{most};
ghost use Rattle.markdown_inline.specs.markdown_run.RunConstruct.{IsConstruct};

use crate::answers::Answers;
use crate::ends::read_end;
use crate::lines::print_list;
use crate::paths::read_plain;
use crate::row::Asked;
use markdown_inline::bytes::{ByteSet, ByteTable};
use markdown_inline::event::{Content, Name};
use markdown_inline::parser::{ParseState, Piece};
use markdown_inline::resolve::{self, ResolveName};
use markdown_inline::run::construct;
use markdown_inline::state::{self, Inline, StateName};
use markdown_inline::tokenizer::Tokenizer;
use markdown_inline::{partial_space_or_tab, partial_space_or_tab_eol};
use markdown_notes::sequence_index::SequenceIndex;
use markdown_run_text::readers::{attention, character_escape, label_start_link, partial_data};
use std::alloc::{AllocError, Global};

// A tokenizer at the start of a content, where constructs may be read.
fn at_start<'a>(
    alloc: Global,
    parse_state: &'a ParseState<'a>,
    pieces: &'a [Piece],
) -> Tokenizer<'a>
    requires { IsContent parse_state.now.bytes.now pieces.now }
    ensures alone { result.attempts ≡ [] }
    ensures events { result.events ≡ [] }
    ensures rest { result.tokenize_state ≡ at_rest }
    ensures fits { codes_left result ≤ most }
    ensures text { ReadsText result }
{
    Tokenizer::new(alloc, parse_state, pieces)
}

// Whether a state, a pass and a construct answer the error, where the tokenizer has met a refusal, whatever else it holds.
fn calls_are_refused(tokenizer: &mut Tokenizer) -> bool
    requires { IsTrue tokenizer.old.failed }
    ensures { IsTrue result × IsTrue tokenizer.new.failed }
{
    state::call(StateName::CharacterEscapeStart, tokenizer).is_err()
        && resolve::call(ResolveName::Data, tokenizer).is_err()
        && construct(StateName::CharacterEscapeStart, tokenizer).is_err()
}

/// Answers the error once more, where each further call of a tokenizer that has met a refusal answers it at once; and else that one does not.
pub(crate) fn answer_again(tokenizer: &mut Tokenizer) -> Result<bool, AllocError> {
    let events = tokenizer.events.len();
    if tokenizer.failed() && calls_are_refused(tokenizer) && tokenizer.events.len() == events {
        return Err(AllocError);
    }
    Ok(false)
}

// Passes the first code.
fn pass_first(tokenizer: &mut Tokenizer)
    requires fits { codes_left tokenizer.old ≤ most }
    ensures alone { tokenizer.new.attempts ≡ tokenizer.old.attempts }
    ensures rest { tokenizer.new.tokenize_state ≡ tokenizer.old.tokenize_state }
    ensures fits { codes_left tokenizer.new ≤ most }
{
    if tokenizer.current().is_some() {
        tokenizer.consume();
    }
}

// Asks for blank codes on one line.
fn ask_for_space(tokenizer: &mut Tokenizer, asked: Asked) -> StateName
    requires rest { tokenizer.old.tokenize_state ≡ at_rest }
    ensures name { result ≡ SpaceOrTabStart }
    ensures alone { tokenizer.new.attempts ≡ tokenizer.old.attempts }
    ensures construct { IsConstruct SpaceOrTabStart tokenizer.new }
{
    let max = asked.most.unwrap_or(usize::MAX);
    partial_space_or_tab::space_or_tab_min_max(tokenizer, asked.least, max)
}

// Asks for blank codes with a line ending.
fn ask_for_spacing(tokenizer: &mut Tokenizer) -> StateName
    requires rest { tokenizer.old.tokenize_state ≡ at_rest }
    requires fits { codes_left tokenizer.old ≤ most }
    ensures name { result ≡ SpaceOrTabEolStart }
    ensures alone { tokenizer.new.attempts ≡ tokenizer.old.attempts }
    ensures construct { IsConstruct SpaceOrTabEolStart tokenizer.new }
{
    partial_space_or_tab_eol::space_or_tab_eol(tokenizer)
}

// Asks for blank codes with a line ending, linked where they begin with the line ending.
#[tactic(auto, unfolding(markdown_engine::specs::Operations::scratched))]
fn ask_for_linked_spacing(tokenizer: &mut Tokenizer) -> StateName
    requires rest { tokenizer.old.tokenize_state ≡ at_rest }
    requires fits { codes_left tokenizer.old ≤ most }
    ensures name { result ≡ SpaceOrTabEolStart }
    ensures alone { tokenizer.new.attempts ≡ tokenizer.old.attempts }
    ensures construct { IsConstruct SpaceOrTabEolStart tokenizer.new }
{
    let content = match tokenizer.current() {
        Some(b'\n') => Some(Content::String),
        _ => None,
    };
    let options = partial_space_or_tab_eol::Options {
        connect: false,
        content,
    };
    partial_space_or_tab_eol::space_or_tab_eol_with_options(tokenizer, options)
}

// Runs the states of blank codes with a line ending. Where these do not hold, their events are left.
fn run_spacing(tokenizer: &mut Tokenizer) -> Result<bool, AllocError>
    requires alone { tokenizer.old.attempts ≡ [] }
    requires rest { tokenizer.old.tokenize_state ≡ at_rest }
    requires fits { codes_left tokenizer.old ≤ most }
{
    let name = ask_for_spacing(tokenizer);
    tokenizer.run_state::<Inline>(name)
}

// Reads blank codes: on one line; or with a line ending behind the first code; or linked, with a line ending.
fn read_blank(tokenizer: &mut Tokenizer, reading: &str, asked: Asked) -> Result<bool, AllocError>
    requires alone { tokenizer.old.attempts ≡ [] }
    requires rest { tokenizer.old.tokenize_state ≡ at_rest }
    requires fits { codes_left tokenizer.old ≤ most }
{
    let name = match reading {
        "space" => ask_for_space(tokenizer, asked),
        "spacing" => {
            pass_first(tokenizer);
            ask_for_spacing(tokenizer)
        }
        _ => ask_for_linked_spacing(tokenizer),
    };
    construct(name, tokenizer)
}

// Names a destination and what is in it. It has at most 32 open parentheses.
fn name_destination(tokenizer: &mut Tokenizer)
    requires rest { tokenizer.old.tokenize_state ≡ at_rest }
    ensures alone { tokenizer.new.attempts ≡ tokenizer.old.attempts }
    ensures construct { IsConstruct DestinationStart tokenizer.new }
{
    let state = &mut tokenizer.tokenize_state;
    state.token_1 = Name::ResourceDestination;
    state.token_2 = Name::ResourceDestinationLiteral;
    state.token_3 = Name::ResourceDestinationLiteralMarker;
    state.token_4 = Name::ResourceDestinationRaw;
    state.token_5 = Name::ResourceDestinationString;
    state.size_b = 32;
}

// Names a title and what is in it.
fn name_title(tokenizer: &mut Tokenizer)
    requires rest { tokenizer.old.tokenize_state ≡ at_rest }
    requires fits { codes_left tokenizer.old ≤ most }
    ensures alone { tokenizer.new.attempts ≡ tokenizer.old.attempts }
    ensures construct { IsConstruct TitleStart tokenizer.new }
{
    let state = &mut tokenizer.tokenize_state;
    state.token_1 = Name::ResourceTitle;
    state.token_2 = Name::ResourceTitleMarker;
    state.token_3 = Name::ResourceTitleString;
}

// Names a label and what is in it.
fn name_label(tokenizer: &mut Tokenizer)
    requires rest { tokenizer.old.tokenize_state ≡ at_rest }
    requires fits { codes_left tokenizer.old ≤ most }
    ensures alone { tokenizer.new.attempts ≡ tokenizer.old.attempts }
    ensures construct { IsConstruct LabelStart tokenizer.new }
{
    let state = &mut tokenizer.tokenize_state;
    state.token_1 = Name::Reference;
    state.token_2 = Name::ReferenceMarker;
    state.token_3 = Name::ReferenceString;
}

// Reads a part of a resource or a reference.
fn read_part(tokenizer: &mut Tokenizer, reading: &str) -> Result<bool, AllocError>
    requires alone { tokenizer.old.attempts ≡ [] }
    requires rest { tokenizer.old.tokenize_state ≡ at_rest }
    requires fits { codes_left tokenizer.old ≤ most }
{
    match reading {
        "destination" => {
            name_destination(tokenizer);
            construct(StateName::DestinationStart, tokenizer)
        }
        "title" => {
            name_title(tokenizer);
            construct(StateName::TitleStart, tokenizer)
        }
        _ => {
            name_label(tokenizer);
            construct(StateName::LabelStart, tokenizer)
        }
    }
}

// Whether a byte is ordinary.
const YES: bool = true;

// Whether a byte is a control up to 13, or one at which data stops.
const NO: bool = false;

// An asterisk and an `h`. A table that `byte_table!` writes would ask for the crate of that macro.
const STOPS: ByteTable = ByteTable {
    bytes: b"*h",
    plain: [
        NO, NO, NO, NO, NO, NO, NO, NO, NO, NO, NO, NO, NO, NO, YES, YES, YES, YES, YES, YES, YES,
        YES, YES, YES, YES, YES, YES, YES, YES, YES, YES, YES, YES, YES, YES, YES, YES, YES, YES,
        YES, YES, YES, NO, YES, YES, YES, YES, YES, YES, YES, YES, YES, YES, YES, YES, YES, YES,
        YES, YES, YES, YES, YES, YES, YES, YES, YES, YES, YES, YES, YES, YES, YES, YES, YES, YES,
        YES, YES, YES, YES, YES, YES, YES, YES, YES, YES, YES, YES, YES, YES, YES, YES, YES, YES,
        YES, YES, YES, YES, YES, YES, YES, YES, YES, YES, YES, NO, YES, YES, YES, YES, YES, YES,
        YES, YES, YES, YES, YES, YES, YES, YES, YES, YES, YES, YES, YES, YES, YES, YES, YES, YES,
        YES, YES, YES, YES, YES, YES, YES, YES, YES, YES, YES, YES, YES, YES, YES, YES, YES, YES,
        YES, YES, YES, YES, YES, YES, YES, YES, YES, YES, YES, YES, YES, YES, YES, YES, YES, YES,
        YES, YES, YES, YES, YES, YES, YES, YES, YES, YES, YES, YES, YES, YES, YES, YES, YES, YES,
        YES, YES, YES, YES, YES, YES, YES, YES, YES, YES, YES, YES, YES, YES, YES, YES, YES, YES,
        YES, YES, YES, YES, YES, YES, YES, YES, YES, YES, YES, YES, YES, YES, YES, YES, YES, YES,
        YES, YES, YES, YES, YES, YES, YES, YES, YES, YES, YES, YES, YES, YES, YES, YES, YES, YES,
        YES, YES, YES, YES, YES, YES, YES, YES, YES, YES, YES, YES, YES, YES, YES, YES, YES, YES,
        YES,
    ],
    words_are_plain: false,
};

// Reads data, which stops at an asterisk and an `h`.
fn read_data(tokenizer: &mut Tokenizer) -> Result<bool, AllocError>
    requires alone { tokenizer.old.attempts ≡ [] }
{
    tokenizer.tokenize_state.markers = ByteSet::new(&STOPS);
    tokenizer.tokenize_state.sequences = SequenceIndex::over(&tokenizer.cursor);
    construct(StateName::DataStart, tokenizer)
}

// Says that the content is the first paragraph of a list item.
fn mark_first(tokenizer: &mut Tokenizer)
    requires rest { tokenizer.old.tokenize_state ≡ at_rest }
    requires fits { codes_left tokenizer.old ≤ most }
    ensures alone { tokenizer.new.attempts ≡ tokenizer.old.attempts }
    ensures construct { IsConstruct GfmTaskListItemCheckStart tokenizer.new }
{
    tokenizer
        .tokenize_state
        .document_at_first_paragraph_of_list_item = true;
}

// Reads a construct of GitHub's.
fn read_gfm(tokenizer: &mut Tokenizer, reading: &str) -> Result<bool, AllocError>
    requires alone { tokenizer.old.attempts ≡ [] }
    requires rest { tokenizer.old.tokenize_state ≡ at_rest }
    requires fits { codes_left tokenizer.old ≤ most }
    requires text { ReadsText tokenizer.old }
{
    match reading {
        "task" => {
            mark_first(tokenizer);
            construct(StateName::GfmTaskListItemCheckStart, tokenizer)
        }
        "protocol" => construct(StateName::GfmAutolinkLiteralProtocolStart, tokenizer),
        "www" => construct(StateName::GfmAutolinkLiteralWwwStart, tokenizer),
        _ => construct(StateName::GfmLabelStartFootnoteStart, tokenizer),
    }
}

// Reads an element of a text by its reader, which does what the construct's states do.
fn read_whole(tokenizer: &mut Tokenizer, reading: &str) -> Result<bool, AllocError> {
    let Some(code) = tokenizer.current() else {
        return Ok(false);
    };
    match reading {
        "wholeescape" => character_escape::read(tokenizer),
        "wholelink" => label_start_link::read(tokenizer),
        "wholeattention" => attention::read(tokenizer, code),
        _ => {
            let literals = tokenizer
                .parse_state
                .options
                .constructs
                .gfm_autolink_literal;
            partial_data::read(tokenizer, literals)?;
            Ok(true)
        }
    }
}

// Reads one construct.
fn read_one(tokenizer: &mut Tokenizer, reading: &str, asked: Asked) -> Result<bool, AllocError>
    requires alone { tokenizer.old.attempts ≡ [] }
    requires events { tokenizer.old.events ≡ [] }
    requires rest { tokenizer.old.tokenize_state ≡ at_rest }
    requires fits { codes_left tokenizer.old ≤ most }
    requires text { ReadsText tokenizer.old }
{
    match reading {
        "data" => read_data(tokenizer),
        "space" | "spacing" | "linked" => read_blank(tokenizer, reading, asked),
        "state" => run_spacing(tokenizer),
        "destination" | "title" | "label" => read_part(tokenizer, reading),
        "task" | "protocol" | "www" | "footnote" => read_gfm(tokenizer, reading),
        "end" | "wholeend" => read_end(tokenizer, reading == "wholeend"),
        "wholeescape" | "wholelink" | "wholeattention" | "wholedata" => {
            read_whole(tokenizer, reading)
        }
        _ => read_plain(tokenizer, reading),
    }
}

// Whether the fields of whitespace are at rest.
fn is_at_rest(tokenizer: &Tokenizer) -> bool {
    let state = &tokenizer.tokenize_state;
    state.space_or_tab_max == 0
        && state.space_or_tab_eol_content.is_none()
        && !state.space_or_tab_eol_connect
        && !state.space_or_tab_eol_ok
}

// Prints what a construct left: whether it holds, the events, how many starts of labels are open, and where the tokenizer stands.
fn print_left(tokenizer: &Tokenizer, held: bool, out: &mut Answers) {
    out.say(if held { " holds" } else { " no" });
    print_list(&tokenizer.events.as_slice(), out);
    out.count("; starts ", tokenizer.tokenize_state.label_starts.len());
    out.count(" at ", tokenizer.point().index);
    if !is_at_rest(tokenizer) {
        out.say(", not at rest");
    }
}

// Reads one construct, and prints what it leaves.
fn print_one(
    tokenizer: &mut Tokenizer,
    reading: &str,
    asked: Asked,
    out: &mut Answers,
) -> Result<(), AllocError>
    requires alone { tokenizer.old.attempts ≡ [] }
    requires events { tokenizer.old.events ≡ [] }
    requires rest { tokenizer.old.tokenize_state ≡ at_rest }
    requires fits { codes_left tokenizer.old ≤ most }
    requires text { ReadsText tokenizer.old }
{
    let held = match read_one(tokenizer, reading, asked) {
        Ok(held) => held,
        Err(AllocError) => answer_again(tokenizer)?,
    };
    print_left(tokenizer, held, out);
    Ok(())
}

/// Prints what a construct leaves that is read at the start of a content.
pub(crate) fn print_construct(
    alloc: Global,
    reading: &str,
    parse_state: &ParseState,
    pieces: &[Piece],
    asked: Asked,
    out: &mut Answers,
) -> Result<(), AllocError>
    requires { IsContent parse_state.now.bytes.now pieces.now }
{
    let mut tokenizer = at_start(alloc, parse_state, pieces);
    print_one(&mut tokenizer, reading, asked, out)
}
