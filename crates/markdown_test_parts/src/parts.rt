//! The states of destinations, titles and labels that ask for nothing, by calls that are always the same.
//!
//!     destination | TEXT   twice: the state that follows the start, and how many events there are then
//!     title | TEXT         the state that follows the start, how many events there are then, and the marker that ends the title; the state
//!                          behind a line ending, and whether content is connected then; the state where no title is, the marker and
//!                          whether content is connected then; and the state that follows a second start
//!     label | TEXT         the same without the markers
use crate::answers::Answers;
use markdown_engine::tokenizer::Tokenizer;
use markdown_partial::{partial_destination, partial_label, partial_title};

// Appends what a call answers.
pub(crate) fn answer(tokenizer: &mut Tokenizer, call: &str, out: &mut Answers) {
    match call {
        "destination" => begin_destination(tokenizer, out),
        "title" => begin_title(tokenizer, out),
        "label" => begin_label(tokenizer, out),
        _ => out.say(" no such call"),
    }
}

fn begin_destination(tokenizer: &mut Tokenizer, out: &mut Answers) {
    out.show_found(partial_destination::start(tokenizer));
    out.show(tokenizer.events.len());
    out.say(",");
    out.show_found(partial_destination::start(tokenizer));
    out.show(tokenizer.events.len());
}

fn begin_title(tokenizer: &mut Tokenizer, out: &mut Answers) {
    out.show_found(partial_title::start(tokenizer));
    out.show(tokenizer.events.len());
    out.show(tokenizer.tokenize_state.marker);
    out.say(",");
    out.show_found(partial_title::after_eol(tokenizer));
    out.show(tokenizer.tokenize_state.connect);
    out.say(",");
    out.show_found(partial_title::nok(tokenizer));
    out.show(tokenizer.tokenize_state.marker);
    out.show(tokenizer.tokenize_state.connect);
    out.say(",");
    out.show_found(partial_title::start(tokenizer));
}

fn begin_label(tokenizer: &mut Tokenizer, out: &mut Answers) {
    out.show_found(partial_label::start(tokenizer));
    out.show(tokenizer.events.len());
    out.say(",");
    out.show_found(partial_label::eol_after(tokenizer));
    out.show(tokenizer.tokenize_state.connect);
    out.say(",");
    out.show_found(partial_label::nok(tokenizer));
    out.show(tokenizer.tokenize_state.connect);
    out.say(",");
    out.show_found(partial_label::start(tokenizer));
}
