//! The calls that take no memory: they answer as ever where it is refused.
ghost use Rattle.std.specs.Prelude.{◌≡◌, None};

use crate::answers::Answers;
use crate::edits::event;
use markdown_inline::configuration::ParseOptions;
use markdown_inline::event::{Content, Kind, Name};
use markdown_inline::event_list::EventSlice;
use markdown_inline::options::ALL_CONSTRUCTS;
use markdown_inline::parser::ParseState;
use markdown_inline::run::{Leaves, Piece, is_content, is_text, leaves, text};
use markdown_inline::state::StateName;
use markdown_inline::tokenizer::Tokenizer;
use markdown_inline::util::char::{
    Kind as Class, after_index, before_index, classify_opt, kind_after_index,
};
use markdown_inline::util::character_reference::{
    Names, decode_named, decode_named_in, decode_numeric, value_max, value_test,
};
use markdown_inline::util::constant;
use markdown_inline::util::skip::to_back;
use markdown_inline::util::slice::{Position, Slice};
use markdown_inline::walk::{DOCUMENT_START, walk_to};
use markdown_inline::{laws, partial_space_or_tab, partial_space_or_tab_eol};
use std::alloc::{AllocError, Global};

// A piece between two bytes.
fn piece(start: usize, end: usize) -> Piece {
    Piece {
        start: (start, 0),
        end: (end, 0),
    }
}

// Whether references have their values.
fn are_decoded() -> bool {
    let named = decode_named("ngE", true) == Some("\u{2267}\u{338}")
        && decode_named("lang", false) == Some("\u{2329}")
        && decode_named("nosuch", true).is_none();
    let of_html = decode_named_in("Abreve", Names::Html) == Some("\u{102}")
        && decode_named_in("NotEqualTilde", Names::Html) == Some("\u{2242}\u{338}")
        && decode_named_in("Abreve", Names::Html5).is_none()
        && decode_named_in("lang", Names::Html4) == Some("\u{2329}");
    let numeric = decode_numeric("123", 10) == '{' && decode_numeric("FFFE", 16) == '\u{FFFD}';
    let bounds = value_max(b'&') == 31 && value_max(b'#') == 7 && value_max(b'x') == 6;
    let tests = value_test(b'&', b'z') && value_test(b'x', b'F') && !value_test(b'#', b'a');
    named && of_html && numeric && bounds && tests
}

// Whether the limits of the grammar are these.
fn are_limits() -> bool {
    let references = constant::CHARACTER_REFERENCE_NAMED_SIZE_MAX == 31
        && constant::CHARACTER_REFERENCE_DECIMAL_SIZE_MAX == 7
        && constant::CHARACTER_REFERENCE_HEXADECIMAL_SIZE_MAX == 6
        && constant::CHARACTER_REFERENCES.len() == 294
        && constant::CHARACTER_REFERENCES_HTML_4.len() == 252
        && constant::CHARACTER_REFERENCES_HTML.len() == 2125;
    let autolinks = constant::AUTOLINK_SCHEME_SIZE_MAX == 32
        && constant::AUTOLINK_DOMAIN_SIZE_MAX == 63;
    let links = constant::RESOURCE_DESTINATION_BALANCE_MAX == 32
        && constant::LINK_REFERENCE_SIZE_MAX == 999;
    let others = constant::HARD_BREAK_PREFIX_SIZE_MIN == 2
        && constant::HTML_CDATA_PREFIX == *b"CDATA["
        && constant::TAB_SIZE == 4
        && constant::DOCUMENT_LIMIT == usize::MAX / 8;
    references && autolinks && links && others
}

// Whether all constructs are those of CommonMark with math and GitHub's, and each other setting is as by default.
fn are_options() -> bool {
    let mut options = ParseOptions::default();
    let on = &mut options.constructs;
    on.gfm_autolink_literal = true;
    on.gfm_label_start_footnote = true;
    on.gfm_strikethrough = true;
    on.gfm_task_list_item = true;
    on.math_text = true;
    options == ALL_CONSTRUCTS
}

// Whether characters have their neighbours and classes.
fn are_classified() -> bool {
    let bytes = "é*".as_bytes();
    let neighbours = before_index(bytes, 2) == Some('é') && after_index(bytes, 2) == Some('*');
    let ends = before_index(bytes, 0).is_none() && after_index(bytes, 3).is_none();
    let classes = kind_after_index(bytes, 0) == Class::Other
        && kind_after_index(bytes, 2) == Class::Punctuation
        && classify_opt(Some('\u{A0}')) == Class::Whitespace
        && classify_opt(None) == Class::Whitespace;
    neighbours && ends && classes
}

// Whether contents and texts are told from what is none.
fn are_contents() -> bool {
    let lines = [piece(2, 5), piece(7, 11)];
    let halves = [piece(0, 1)];
    let blank = [piece(0, 4)];
    is_content(b"> [a\n> ](b)", &lines)
        && is_text(b"> [a\n> ](b)", &lines)
        && !is_content("é".as_bytes(), &halves)
        && is_content(b"a\n\nb", &blank)
        && !is_text(b"a\n\nb", &blank)
}

// Whether events are found by their names, and where they begin.
fn are_found() -> bool {
    let events = [
        event(Kind::Enter, Name::Label),
        event(Kind::Enter, Name::Data),
        event(Kind::Exit, Name::Data),
        event(Kind::Exit, Name::Label),
    ];
    let whole = Position::from_exit_event(events.as_slice(), 3);
    let label = to_back(events.as_slice(), 1, [Name::Label].as_slice());
    whole.start == DOCUMENT_START && whole.end == DOCUMENT_START && label == 0
}

// Whether texts are lent.
fn are_lent() -> bool {
    let text = "aéb".as_bytes();
    let slice = Slice::from_indices(text, 0, 4);
    slice.as_str() == "aéb" && Slice::from_indices(text, 1, 3).bytes.len() == 2
}

// Whether part of a tab is lent.
#[tactic(auto, using(markdown_content::proofs::DocumentPlaces::point_start))]
fn is_tab_lent() -> bool {
    let bytes = b"a\tb";
    let pieces = [Piece {
        start: (0, 0),
        end: (1, 2),
    }];
    if !is_content(bytes, &pieces) {
        return false;
    }
    let start = walk_to(bytes, DOCUMENT_START, (0, 0));
    let end = walk_to(bytes, start, (1, 2));
    let slice = Slice::from_position(bytes, &Position { start, end });
    slice.bytes.len() == 2 && slice.before == 0 && slice.after == 1
}

// Whether whitespace is asked for.
fn is_space_asked(tokenizer: &mut Tokenizer) -> bool {
    let one = partial_space_or_tab::space_or_tab(tokenizer) == StateName::SpaceOrTabStart
        && tokenizer.tokenize_state.space_or_tab_min == 1;
    let some = partial_space_or_tab::space_or_tab_min_max(tokenizer, 2, 3);
    let bounds = tokenizer.tokenize_state.space_or_tab_min == 2
        && tokenizer.tokenize_state.space_or_tab_max == 3;
    let options = partial_space_or_tab::Options {
        min: 4,
        max: 5,
        kind: Name::Data,
        connect: false,
        content: None,
    };
    let other = partial_space_or_tab::space_or_tab_with_options(tokenizer, options);
    let name = tokenizer.tokenize_state.space_or_tab_token == Name::Data;
    one && bounds && name && some == other
}

// Whether whitespace with a line ending is asked for.
fn is_spacing_asked(tokenizer: &mut Tokenizer) -> bool {
    let plain = partial_space_or_tab_eol::space_or_tab_eol(tokenizer);
    let unlinked = tokenizer.tokenize_state.space_or_tab_eol_content.is_none();
    let options = partial_space_or_tab_eol::Options {
        connect: false,
        content: Some(Content::String),
    };
    let linked = partial_space_or_tab_eol::space_or_tab_eol_with_options(tokenizer, options);
    let content = tokenizer.tokenize_state.space_or_tab_eol_content == Some(Content::String);
    plain == StateName::SpaceOrTabEolStart && unlinked && linked == plain && content
}

// Whether a tokenizer passes its first code, and keeps in mind that it has failed.
fn is_passed(tokenizer: &mut Tokenizer) -> bool {
    if tokenizer.current() != Some(b'a') || tokenizer.previous().is_some() {
        return false;
    }
    tokenizer.consume();
    let place = tokenizer.point();
    let is_behind = tokenizer.previous() == Some(b'a') && place.index == 1 && place.column == 2;
    let was_well = !tokenizer.failed();
    tokenizer.fail();
    is_behind && was_well && tokenizer.failed()
}

// Whether a tokenizer is asked for whitespace, and passes its first code.
fn is_sound(tokenizer: &mut Tokenizer) -> bool {
    is_space_asked(tokenizer) && is_spacing_asked(tokenizer) && is_passed(tokenizer)
}

// Whether a new tokenizer stands at its first code.
fn is_begun(alloc: Global) -> bool {
    let parse_state = ParseState {
        bytes: b"a b",
        options: &ALL_CONSTRUCTS,
        definitions: Vec::new(alloc),
        gfm_footnote_definitions: Vec::new(alloc),
    };
    let pieces = [piece(0, 3)];
    if !is_content(parse_state.bytes, &pieces) {
        return false;
    }
    let mut tokenizer = Tokenizer::new(alloc, &parse_state, &pieces);
    is_sound(&mut tokenizer)
}

// Calls each law.
fn cite_laws() {
    laws::blanks_are_set_apart();
    laws::chains_are_unbroken();
    laws::counts_suffice();
    laws::data_is_tight();
    laws::destinations_are_found();
    laws::each_marker_is_held();
    laws::each_pair_is_a_group();
    laws::emails_stand_in_data();
    laws::ends_take_the_nearest();
    laws::escapes();
    laws::events_give_content();
    laws::events_nest();
    laws::events_never_go_back();
    laws::identifier();
    laws::labels_are_found();
    laws::labels_match();
    laws::leaves_are_contents();
    laws::leaves_are_stretches();
    laws::leaves_are_texts();
    laws::leaves_cover();
    laws::lines_are_cut();
    laws::links_are_not_mailed();
    laws::links_do_not_nest();
    laws::links_hold_no_email();
    laws::merged_data_is_apart();
    laws::no_run_is_left();
    laws::one_element_list();
    laws::one_end();
    laws::one_pair_list();
    laws::one_tree();
    laws::pairs_are_even();
    laws::pairs_are_local();
    laws::pairs_are_sound();
    laws::pairs_take_their_markers();
    laws::probes_are_few();
    laws::resources_are_found();
    laws::runs_in_order_may_pair();
    laws::schemes_are_taken();
    laws::steps_pass_codes();
    laws::tables();
    laws::titles_are_found();
    laws::trees_are_filled();
    laws::unchanged();
    laws::values_are_decodable();
    laws::what_follows_is_found();
}

// A request for memory, whose refusal is no fault.
fn ask_in_vain(alloc: Global, bytes: &[u8]) -> Vec<u8> {
    let mut held = Vec::new(alloc);
    let _ = held.extend_from_slice(bytes);
    held
}

// Whether what is lent for innermost events is so many bytes.
fn are_leaves(leaves: Leaves, size: usize) -> bool {
    let mut lent = 0usize;
    for leaf in leaves {
        lent = lent.saturating_add(leaf.slice.bytes.len());
    }
    lent == size
}

// Prints the name of what answers as it should.
fn print_if(holds: bool, name: &str, out: &mut Answers) {
    if holds {
        out.say(" ");
        out.say(name);
    }
}

// Prints which calls answer as they should that ask for nothing.
fn print_steady_calls(alloc: Global, out: &mut Answers) {
    cite_laws();
    print_if(are_options(), "options", out);
    print_if(are_limits(), "limits", out);
    print_if(are_decoded(), "references", out);
    print_if(are_classified(), "characters", out);
    print_if(are_contents(), "contents", out);
    print_if(are_found(), "events", out);
    print_if(are_lent() && is_tab_lent(), "slices", out);
    print_if(is_begun(alloc), "tokenizer", out);
}

/// Prints which calls answer as they should, also those that lend what stands in a text, behind a request for memory that may be refused.
pub(crate) fn print_steady(
    alloc: Global,
    parse_state: &ParseState,
    pieces: &[Piece],
    out: &mut Answers,
) -> Result<(), AllocError> {
    let bytes = parse_state.bytes;
    if !is_text(bytes, pieces) {
        out.say(" no text");
        return Ok(());
    }
    let run = text(alloc, parse_state, pieces, false)?;
    let held = ask_in_vain(alloc, bytes);
    let are_lent = are_leaves(
        leaves(bytes, &EventSlice::over(run.events.as_slice())),
        bytes.len(),
    );
    print_if(are_lent, "leaves", out);
    print_steady_calls(alloc, out);
    print_if(held.is_empty() || held.as_slice() == bytes, "held", out);
    Ok(())
}
