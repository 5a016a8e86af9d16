//! The states of whitespace that ask for nothing, by calls that are always the same.
//!
//!     ask           what is asked for of spaces and tabs: the least and the most, the name, the kind of content, and whether it is connected
//!     read          the state that follows for none and for one at least, then the most that is asked for behind them, and whether there is no
//!                   event
//!     ask_ending    the kind of content that is asked for of a line ending, and whether it is connected, with options and without
//!     read_ending   the state that follows the start, the state at a line ending, whether spaces were passed, the state behind it, whether they
//!                   were passed still, and whether there is no event
//!
//! The text is the content that is read: in `read` and `read_ending` the empty one. `connected` is printed where what is asked for is
//! connected, as it must not be there.
use crate::answers::Answers;
use markdown_engine::tokenizer::{TokenizeState, Tokenizer};
use markdown_event::event::{Content, Name};
use markdown_partial::{partial_space_or_tab, partial_space_or_tab_eol};

// Appends what a call answers.
pub(crate) fn answer(tokenizer: &mut Tokenizer, call: &str, out: &mut Answers) {
    match call {
        "ask" => ask(tokenizer, out),
        "read" => read(tokenizer, out),
        "ask_ending" => ask_ending(tokenizer, out),
        "read_ending" => read_ending(tokenizer, out),
        _ => out.say(" no such call"),
    }
}

// Appends what is asked for.
fn push_asked(out: &mut Answers, asked: &TokenizeState) {
    out.show(asked.space_or_tab_min);
    out.show(asked.space_or_tab_max);
    out.show(asked.space_or_tab_token);
    out.show(asked.space_or_tab_content);
    out.show(asked.space_or_tab_connect);
}

fn ask(tokenizer: &mut Tokenizer, out: &mut Answers) {
    let asked = partial_space_or_tab::Options {
        min: 2,
        max: 3,
        kind: Name::LineEnding,
        connect: true,
        content: Some(Content::String),
    };
    let _ = partial_space_or_tab::space_or_tab_with_options(tokenizer, asked);
    push_asked(out, &tokenizer.tokenize_state);
}

// Reads no whitespace, where none that is connected was asked for.
fn read_none(tokenizer: &mut Tokenizer, out: &mut Answers) {
    if tokenizer.tokenize_state.space_or_tab_connect {
        return out.say(" connected");
    }
    out.keep(partial_space_or_tab::start(tokenizer));
    out.show_found(partial_space_or_tab::after(tokenizer));
}

fn read(tokenizer: &mut Tokenizer, out: &mut Answers) {
    let _ = partial_space_or_tab::space_or_tab_min_max(tokenizer, 0, 0);
    read_none(tokenizer, out);
    let _ = partial_space_or_tab::space_or_tab(tokenizer);
    read_none(tokenizer, out);
    out.say(",");
    out.show(tokenizer.tokenize_state.space_or_tab_max);
    out.show(tokenizer.events.is_empty());
}

// Appends what is asked for of a line ending.
fn push_ending(out: &mut Answers, asked: &TokenizeState) {
    out.show(asked.space_or_tab_eol_content);
    out.show(asked.space_or_tab_eol_connect);
}

fn ask_ending(tokenizer: &mut Tokenizer, out: &mut Answers) {
    let asked = partial_space_or_tab_eol::Options {
        connect: true,
        content: Some(Content::String),
    };
    let _ = partial_space_or_tab_eol::space_or_tab_eol_with_options(tokenizer, asked);
    push_ending(out, &tokenizer.tokenize_state);
    out.say(",");
    let _ = partial_space_or_tab_eol::space_or_tab_eol(tokenizer);
    push_ending(out, &tokenizer.tokenize_state);
}

fn read_ending(tokenizer: &mut Tokenizer, out: &mut Answers) {
    let _ = partial_space_or_tab_eol::space_or_tab_eol(tokenizer);
    out.show_found(partial_space_or_tab_eol::start(tokenizer));
    if tokenizer.tokenize_state.space_or_tab_eol_connect {
        return out.say(" connected");
    }
    out.show_found(partial_space_or_tab_eol::at_eol(tokenizer));
    out.say(",");
    out.keep(partial_space_or_tab_eol::after_first(tokenizer));
    out.show(tokenizer.tokenize_state.space_or_tab_eol_ok);
    out.keep(partial_space_or_tab_eol::after_eol(tokenizer));
    out.show_found(partial_space_or_tab_eol::after_more(tokenizer));
    out.show(tokenizer.tokenize_state.space_or_tab_eol_ok);
    out.show(tokenizer.events.is_empty());
}
