//! Calls that take a tokenizer at the start of the text: those of `attempts`, `parts`, `spaces`, `emphasis`, and `mail find`. One function owns the
//! tokenizer, and hands it over, since each that owns one takes long to prove.
ghost use Rattle.markdown_content.specs.Content.{IsContent};
ghost use Rattle.std.specs.Prelude.{◌≡◌, []};

use crate::answers::Answers;
use crate::case::{Case, whole};
use crate::{attempts, emphasis, mail, parts, spaces};
use markdown_content::configuration::{Constructs, ParseOptions};
use markdown_content::content::is_content;
use markdown_content::parser::{ParseState, Piece};
use markdown_engine::tokenizer::Tokenizer;
use std::alloc::Global;

// With strikethrough; the rule of three reads whole lengths where it is asked to.
pub(crate) fn options(attention_first_lengths: bool) -> ParseOptions {
    ParseOptions {
        constructs: Constructs {
            gfm_strikethrough: true,
            ..Constructs::default()
        },
        attention_first_lengths,
        ..ParseOptions::default()
    }
}

// A document of these bytes, without definitions.
pub(crate) fn document<'a>(
    alloc: Global,
    bytes: &'a [u8],
    options: &'a ParseOptions,
) -> ParseState<'a>
    ensures { result.bytes ≡ bytes.entry }
{
    ParseState {
        bytes,
        options,
        definitions: Vec::new(alloc),
        gfm_footnote_definitions: Vec::new(alloc),
    }
}

// Appends what a case of this part answers.
pub(crate) fn answer(alloc: Global, part: &str, case: &Case, out: &mut Answers) {
    let pieces = whole(&case.text);
    if !is_content(&case.text, &pieces) {
        return out.say(" no content");
    }
    let options = options(case.word(0) == "first");
    let parse_state = document(alloc, &case.text, &options);
    answer_at(alloc, &parse_state, &pieces, part, case, out)
}

// Makes the tokenizer, and the call.
fn answer_at(
    alloc: Global,
    parse_state: &ParseState,
    pieces: &[Piece],
    part: &str,
    case: &Case,
    out: &mut Answers,
)
    requires { IsContent parse_state.now.bytes.now pieces.now }
{
    let mut tokenizer = Tokenizer::new(alloc, parse_state, pieces);
    answer_by(&mut tokenizer, part, case, out)
}

// Makes the call.
fn answer_by(tokenizer: &mut Tokenizer, part: &str, case: &Case, out: &mut Answers)
    requires map { tokenizer.old.map ≡ [] }
    requires events { tokenizer.old.events ≡ [] }
{
    match part {
        "attempts" => attempts::answer(tokenizer, case.call, out),
        "parts" => parts::answer(tokenizer, case.call, out),
        "spaces" => spaces::answer(tokenizer, case.call, out),
        "mail" | "trim" => mail::find(tokenizer, part, case.word(0), out),
        _ => emphasis::answer_at(tokenizer, part, case, out),
    }
}
