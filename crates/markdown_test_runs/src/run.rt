//! What is found in a case.
use crate::answers::Answers;
use crate::calls::{Sought, print_string_call, print_text_call};
use crate::constructs::print_construct;
use crate::counted::print_counts;
use crate::edits::print_edits;
use crate::lines::{print_events, print_leaf, print_probes};
use crate::listed::{print_string_list, print_text_list};
use crate::met::{print_met, print_named};
use crate::moved::is_found_again;
use crate::pairs::{print_likeness, print_string_likeness};
use crate::program::print_program;
use crate::row::{Asked, Row};
use crate::steady::print_steady;
use markdown_inline::configuration::Rules;
use markdown_inline::event_list::EventSlice;
use markdown_inline::parser::{ParseState, Piece};
use markdown_inline::run::{Leaves, is_content, is_text, leaves, string, text};
use markdown_inline::util::character_reference::parse;
use std::alloc::{AllocError, Global};

/// Prints what is found in a case that is read so.
pub(crate) fn print_found(
    alloc: Global,
    reading: &str,
    row: Row,
    out: &mut Answers,
) -> Result<(), AllocError> {
    match reading {
        "program" | "broken" | "slow" | "narrow" | "mute" | "wordless" => {
            print_program(alloc, reading, &row, out)
        }
        "met" => print_met(alloc, &row, out),
        "named" => print_named(alloc, &row, out),
        _ => print_content(alloc, reading, row, out),
    }
}

// Prints what is found in a content.
fn print_content(
    alloc: Global,
    reading: &str,
    row: Row,
    out: &mut Answers,
) -> Result<(), AllocError> {
    let Row {
        options,
        definitions,
        footnotes,
        document,
        pieces,
        asked,
        sought,
        ..
    } = row;
    let parse_state = ParseState {
        bytes: document.as_bytes(),
        options: &options,
        definitions,
        gfm_footnote_definitions: footnotes,
    };
    let pieces = pieces.as_slice();
    match reading {
        "text-call" | "string-call" => {
            print_call(alloc, reading, &parse_state, pieces, asked, &sought, out)
        }
        _ => print_read(alloc, reading, &parse_state, pieces, asked, out),
    }
}

// Prints a single call of a state, in the run of a text or a string.
fn print_call(
    alloc: Global,
    reading: &str,
    parse_state: &ParseState,
    pieces: &[Piece],
    asked: Asked,
    sought: &Sought,
    out: &mut Answers,
) -> Result<(), AllocError> {
    let bytes = parse_state.bytes;
    if reading == "text-call" && is_text(bytes, pieces) {
        return print_text_call(alloc, parse_state, pieces, asked.first_of_item, sought, out);
    }
    if reading == "string-call" && is_content(bytes, pieces) {
        return print_string_call(alloc, parse_state, pieces, sought, out);
    }
    out.say(" no content");
    Ok(())
}

// Prints what is found in a content that is read as a whole, or by a construct.
fn print_read(
    alloc: Global,
    reading: &str,
    parse_state: &ParseState,
    pieces: &[Piece],
    asked: Asked,
    out: &mut Answers,
) -> Result<(), AllocError> {
    match reading {
        "text" => print_text(alloc, parse_state, pieces, asked, out),
        "string" => print_string(alloc, parse_state, pieces, asked, out),
        "equal" | "count" | "drawn" => print_pairs(alloc, reading, parse_state, pieces, asked, out),
        "counts" | "looks" => print_counted(alloc, reading, parse_state, pieces, asked, out),
        "steady" => print_steady(alloc, parse_state, pieces, out),
        "value" => print_value(alloc, parse_state.bytes, out),
        "edits" => print_edits(alloc, out),
        "rules" => {
            print_rules(parse_state.options.rules(), out);
            Ok(())
        }
        _ if !is_content(parse_state.bytes, pieces) => {
            out.say(" no content");
            Ok(())
        }
        "passes" => print_string_likeness(alloc, parse_state, pieces, out),
        _ => print_construct(alloc, reading, parse_state, pieces, asked, out),
    }
}

// Prints what the references of a text stand for.
fn print_value(alloc: Global, bytes: &[u8], out: &mut Answers) -> Result<(), AllocError> {
    let value = parse(alloc, str::from_utf8(bytes).unwrap_or(""))?;
    out.say(" ");
    out.say(value.as_str());
    Ok(())
}

// Prints the rules by which a content is read.
fn print_rules(rules: Rules, out: &mut Answers) {
    out.say(" ");
    out.show(rules);
}

// Prints what is found in a text.
fn print_text(
    alloc: Global,
    parse_state: &ParseState,
    pieces: &[Piece],
    asked: Asked,
    out: &mut Answers,
) -> Result<(), AllocError> {
    let bytes = parse_state.bytes;
    let first = asked.first_of_item;
    let found = if is_text(bytes, pieces) {
        Some(text(alloc, parse_state, pieces, first)?)
    } else {
        None
    };
    print_again(
        is_found_again(alloc, parse_state, pieces, Some(first), &found)?,
        out,
    );
    let Some(run) = found else {
        out.say(" no text");
        return Ok(());
    };
    if asked.lists {
        return print_text_list(alloc, parse_state, pieces, first, out);
    }
    if asked.leaves {
        print_leaves(leaves(bytes, &EventSlice::over(run.events.as_slice())), out);
    } else {
        print_events(run.events.as_slice(), asked.depth, out);
        print_probes(run.probes, asked, out);
    }
    Ok(())
}

// Prints what is found in a string.
fn print_string(
    alloc: Global,
    parse_state: &ParseState,
    pieces: &[Piece],
    asked: Asked,
    out: &mut Answers,
) -> Result<(), AllocError> {
    let bytes = parse_state.bytes;
    let found = if is_content(bytes, pieces) {
        Some(string(alloc, parse_state, pieces)?)
    } else {
        None
    };
    print_again(
        is_found_again(alloc, parse_state, pieces, None, &found)?,
        out,
    );
    let Some(run) = found else {
        out.say(" no content");
        return Ok(());
    };
    if asked.lists {
        return print_string_list(alloc, parse_state, pieces, out);
    }
    if asked.leaves {
        print_leaves(leaves(bytes, &EventSlice::over(run.events.as_slice())), out);
    } else {
        print_events(run.events.as_slice(), asked.depth, out);
    }
    Ok(())
}

// Says where a content of a prepared document has something else.
fn print_again(is_same: bool, out: &mut Answers) {
    if !is_same {
        out.say(" another in a document:");
    }
}

// Prints leaves, one after another.
fn print_leaves(leaves: Leaves, out: &mut Answers) {
    for leaf in leaves {
        print_leaf(&leaf, out);
    }
}

// Prints how the events of a text are alike by its run and by its passes, and, where that is asked, how many they are.
fn print_pairs(
    alloc: Global,
    reading: &str,
    parse_state: &ParseState,
    pieces: &[Piece],
    asked: Asked,
    out: &mut Answers,
) -> Result<(), AllocError> {
    let mut count = 0;
    if is_text(parse_state.bytes, pieces) {
        count = print_likeness(alloc, parse_state, pieces, asked.first_of_item, out)?;
    } else {
        out.say(" no text");
    }
    if reading == "count" {
        out.count(", ", count);
        out.say(" events");
    }
    Ok(())
}

// Prints how many runs of markers a text has, and how many pairs.
fn print_counted(
    alloc: Global,
    reading: &str,
    parse_state: &ParseState,
    pieces: &[Piece],
    asked: Asked,
    out: &mut Answers,
) -> Result<(), AllocError> {
    if is_text(parse_state.bytes, pieces) {
        return print_counts(alloc, reading, parse_state, pieces, asked, out);
    }
    out.say(" no text");
    Ok(())
}
