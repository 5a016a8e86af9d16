//! Single calls of states: a run goes on call by call up to one that is sought, and what that call answers and leaves is printed.
ghost use Rattle.std.specs.Prelude.{◌≡◌, ◌++◌, [], OnOk};
ghost use Rattle.markdown_inline.specs.markdown_content.Content.{IsContent, IsTextContent};
ghost use Rattle.markdown_inline.specs.markdown_engine.StateRuns.{settled};
ghost use Rattle.markdown_inline.specs.markdown_run.Layer.{ready_of};

use crate::answers::Answers;
use crate::paths;
use markdown_inline::event::{Content, Kind, Name};
use markdown_inline::event_list::EventSlice;
use markdown_inline::parser::{ParseState, Piece};
use markdown_inline::run::resume;
use markdown_inline::seq::Stack;
use markdown_inline::state::{self, State, StateName};
use markdown_inline::tokenizer::{Attempt, TokenizeState, Tokenizer};
use std::alloc::{AllocError, Global};

/// A call that is sought: the first of this state at this place with these scratch fields.
#[derive(Drop)]
pub(crate) struct Sought {
    pub(crate) state: String,
    /// A byte, and the codes of its tab before the place.
    pub(crate) place: (usize, usize),
    /// The scratch fields that are not at rest, as they are printed.
    pub(crate) fields: String,
}

impl Sought {
    /// No call.
    pub(crate) fn new(alloc: Global) -> Sought {
        Sought {
            state: String::new(alloc),
            place: (0, 0),
            fields: String::new(alloc),
        }
    }

    // Whether this state, where the tokenizer stands, is the call that is sought.
    fn is_met(&self, name: StateName, tokenizer: &Tokenizer) -> Result<bool, AllocError> {
        let point = tokenizer.point();
        if point.index != self.place.0 || point.vs != self.place.1 {
            return Ok(false);
        }
        let mut here = Answers::new(tokenizer.alloc);
        here.show(name);
        print_fields(&tokenizer.tokenize_state, &mut here);
        if !here.is_whole() {
            return Err(AllocError);
        }
        let Some(rest) = here.text().strip_prefix(self.state.as_str()) else {
            return Ok(false);
        };
        Ok(rest.strip_prefix(" ").unwrap_or(rest) == self.fields.as_str())
    }
}

// Prints a number among the scratch fields, if it is not 0.
fn print_number(field: &str, number: usize, out: &mut Answers) {
    if number != 0 {
        out.count(field, number);
    }
}

// Prints the sizes and places among the scratch fields that are not 0.
fn print_sizes(fields: &TokenizeState, out: &mut Answers) {
    print_number(" marker=", fields.marker as usize, out);
    print_number(" marker_b=", fields.marker_b as usize, out);
    print_number(" size=", fields.size, out);
    print_number(" size_b=", fields.size_b, out);
    print_number(" start=", fields.start, out);
    print_number(" end=", fields.end, out);
    print_number(" seen=", fields.seen as usize, out);
    print_number(" connect=", fields.connect as usize, out);
}

// Prints the numbers of whitespace and of labels among the scratch fields that are not 0.
fn print_more_sizes(fields: &TokenizeState, out: &mut Answers) {
    let connect = fields.space_or_tab_connect as usize;
    let eol_connect = fields.space_or_tab_eol_connect as usize;
    print_number(" space_or_tab_connect=", connect, out);
    print_number(" space_or_tab_min=", fields.space_or_tab_min, out);
    print_number(" space_or_tab_max=", fields.space_or_tab_max, out);
    print_number(" space_or_tab_size=", fields.space_or_tab_size, out);
    print_number(" space_or_tab_eol_connect=", eol_connect, out);
    print_number(
        " space_or_tab_eol_ok=",
        fields.space_or_tab_eol_ok as usize,
        out,
    );
    print_number(" label_starts=", fields.label_starts.len(), out);
    print_number(" label_starts_loose=", fields.label_starts_loose.len(), out);
    print_number(" labels=", fields.labels.len(), out);
}

// Prints a name among the scratch fields, if it is not that of a field at rest.
fn print_name(field: &str, name: Name, rest: Name, out: &mut Answers) {
    if name != rest {
        out.say(field);
        out.show(name);
    }
}

// Prints a kind of content among the scratch fields, if there is one.
fn print_content(field: &str, content: Option<Content>, out: &mut Answers) {
    if let Some(content) = content {
        out.say(field);
        out.show(content);
    }
}

// Prints the names and contents among the scratch fields that are not at rest.
fn print_names(fields: &TokenizeState, out: &mut Answers) {
    print_name(" token_1=", fields.token_1, Name::Data, out);
    print_name(" token_2=", fields.token_2, Name::Data, out);
    print_name(" token_3=", fields.token_3, Name::Data, out);
    print_name(" token_4=", fields.token_4, Name::Data, out);
    print_name(" token_5=", fields.token_5, Name::Data, out);
    let blank = fields.space_or_tab_token;
    print_name(" space_or_tab_token=", blank, Name::SpaceOrTab, out);
    print_content(" space_or_tab_content=", fields.space_or_tab_content, out);
    let content = fields.space_or_tab_eol_content;
    print_content(" space_or_tab_eol_content=", content, out);
}

// Prints the scratch fields that are not at rest, but those for indexes, the markers of data, and whether a text is the first of an item.
fn print_fields(fields: &TokenizeState, out: &mut Answers) {
    print_sizes(fields, out);
    print_more_sizes(fields, out);
    print_names(fields, out);
}

// Prints the events from this one on, each by its name.
fn print_entered(events: &EventSlice, from: usize, out: &mut Answers) {
    for event in events.iter().skip(from) {
        out.say(if event.kind == Kind::Enter {
            " +"
        } else {
            " -"
        });
        out.show(event.name);
    }
}

// Prints an attempt: how it goes on, and whether it is a check, which is undone in any case.
fn print_attempt(attempt: &Attempt, out: &mut Answers) {
    out.say(if attempt.restores {
        " check "
    } else {
        " attempt "
    });
    out.show(attempt.ok);
    out.say(" ");
    out.show(attempt.nok);
}

// Prints what a call answers, where it stands behind it, the events that it adds, the scratch fields, and the attempts that it opens, the
// innermost first.
fn print_call(answer: State, tokenizer: &mut Tokenizer, from: usize, out: &mut Answers) {
    let point = tokenizer.point();
    out.say(" ");
    out.show(answer);
    out.count(" at ", point.index);
    out.count(".", point.vs);
    print_entered(&tokenizer.events.as_slice(), from, out);
    out.say(";");
    print_fields(&tokenizer.tokenize_state, out);
    out.say(";");
    for _ in 0..tokenizer.attempts.len() {
        if let Some(attempt) = tokenizer.attempts.pop() {
            print_attempt(&attempt, out);
        }
    }
}

// Puts the attempts that a call opened on top of those that wait.
#[tactic(auto, unfolding(markdown_engine::specs::StateRuns::settled))]
fn hand_over<'a>(
    waiting: &mut Stack<Attempt<'a>>,
    tokenizer: &mut Tokenizer<'a>,
) -> Result<(), AllocError>
    ensures waits { OnOk result (waiting.new ≡ tokenizer.old.attempts ++ waiting.old) }
    ensures left { OnOk result (tokenizer.new ≡ settled tokenizer.old) }
{
    waiting.append(&mut tokenizer.attempts)
}

// Calls state after state from this one, as a run does, up to the call that is sought; calls that by its public path, and prints it.
fn print_from(
    start: StateName,
    tokenizer: &mut Tokenizer,
    sought: &Sought,
    out: &mut Answers,
) -> Result<(), AllocError>
    requires ready { ready_of start tokenizer.old }
    requires alone { tokenizer.old.attempts ≡ [] }
{
    let mut waiting = Stack::new(tokenizer.alloc);
    let mut state = State::Retry(start);
    loop {
        let ok = match state {
            State::Next(name) | State::Retry(name) => {
                let from = tokenizer.events.len();
                if sought.is_met(name, tokenizer)? {
                    let answer = paths::call_public(name, tokenizer)?;
                    print_call(answer, tokenizer, from, out);
                    return Ok(());
                }
                state = state::call(name, tokenizer)?;
                hand_over(&mut waiting, tokenizer)?;
                continue;
            }
            State::Ok => true,
            State::Nok => false,
        };
        let Some(attempt) = waiting.top() else {
            out.say(" not reached");
            return Ok(());
        };
        state = resume(tokenizer, attempt, ok);
        let _ = waiting.pop();
    }
}

/// Prints the call that is sought in the run of a text.
pub(crate) fn print_text_call(
    alloc: Global,
    parse_state: &ParseState,
    pieces: &[Piece],
    first_of_item: bool,
    sought: &Sought,
    out: &mut Answers,
) -> Result<(), AllocError>
    requires { IsTextContent parse_state.now.bytes.now pieces.now }
{
    let mut tokenizer = Tokenizer::new(alloc, parse_state, pieces);
    tokenizer
        .tokenize_state
        .document_at_first_paragraph_of_list_item = first_of_item;
    print_from(StateName::TextStart, &mut tokenizer, sought, out)
}

/// Prints the call that is sought in the run of a string.
pub(crate) fn print_string_call(
    alloc: Global,
    parse_state: &ParseState,
    pieces: &[Piece],
    sought: &Sought,
    out: &mut Answers,
) -> Result<(), AllocError>
    requires { IsContent parse_state.now.bytes.now pieces.now }
{
    let mut tokenizer = Tokenizer::new(alloc, parse_state, pieces);
    print_from(StateName::StringStart, &mut tokenizer, sought, out)
}
