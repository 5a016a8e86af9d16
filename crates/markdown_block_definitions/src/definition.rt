//! Link reference definitions (CommonMark 4.7) at the front of a text.

ghost use Rattle.std.specs.Prelude.{◌≡◌, ◌≤◌, length, drop, List, Some, None, IfSome};
ghost use Rattle.markdown_content.specs.Codes.{Code};
ghost use Rattle.markdown_model.specs.CodeTests.{values_of};
ghost use Rattle.markdown_model.specs.Grammar.{optional_tree};
ghost use Rattle.markdown_model.specs.Whitespace.{space_or_tab_eol};
ghost use Rattle.markdown_block_model.specs.LinkDefinitions.{definition, title_of_definition, definitions_of};
ghost use Rattle.markdown_block_line.specs.LineBlocks.{Says};
ghost use Rattle.markdown_block_definitions.specs.TextReadings.{left_by, firsts_of};
ghost use Rattle.markdown_block_definitions.specs.DefinitionParts.{ending, title_of, definition_of, len_of, IsEndingWithin, IsWithin};

use crate::destinations::destination_len;
use crate::spacing::{begins_with, gap_len, line_end_len};
use crate::texts::{label_len, title_len};

// So many codes of a text, behind so many.
#[derive(Clone, Copy)]
pub(crate) struct Stretch {
    // How many codes stand before.
    pub(crate) start: usize,
    // How many codes it has.
    pub(crate) len: usize,
}

// What stands behind the destination of a definition.
#[derive(Clone, Copy)]
pub(crate) struct Ending {
    // The title with its markers.
    pub(crate) title: Option<Stretch>,
    // How many codes stand before the next line.
    pub(crate) len: usize,
}

// A definition that stands first in a text.
#[derive(Clone, Copy)]
pub(crate) struct Found {
    // How many codes its label has, with the brackets.
    pub(crate) label: usize,
    // Its destination, with `<` and `>` if it has them.
    pub(crate) destination: Stretch,
    // What stands behind the destination.
    pub(crate) ending: Ending,
}

// The title that stands first, apart from what is before it and last on its line.
fn title_at(values: &[u8]) -> Option<Ending>
    ensures read { (cs : List Code) → values_of cs ≡ values.now → Says result (λ e. (title_of e cs, drop e.len cs)) (title_of_definition cs) }
    ensures within { IfSome result (IsEndingWithin (length values.now)) }
{
    let Some(start) = gap_len(values) else {
        return None;
    };
    let Some(len) = title_len(&values[start..]) else {
        return None;
    };
    let end = start + len;
    let Some(more) = line_end_len(&values[end..]) else {
        return None;
    };
    Some(Ending {
        title: Some(Stretch { start, len }),
        len: end + more,
    })
}

// What ends a definition behind its destination.
fn ending_at(values: &[u8]) -> Option<Ending>
    ensures read { (cs : List Code) → values_of cs ≡ values.now → Says result (λ e. (title_of e cs, drop e.len cs)) (ending cs) }
    ensures within { IfSome result (IsEndingWithin (length values.now)) }
{
    if let Some(ending) = title_at(values) {
        return Some(ending);
    }
    let Some(len) = line_end_len(values) else {
        return None;
    };
    Some(Ending { title: None, len })
}

// How many codes the whitespace between two parts has that stands first, if there is any.
fn optional_gap_len(values: &[u8]) -> usize
    ensures read { (cs : List Code) → values_of cs ≡ values.now → left_by (optional_tree (space_or_tab_eol None) cs) ≡ Some (drop result cs) }
    ensures within { result ≤ length values.now }
{
    match gap_len(values) {
        Some(len) => len,
        None => 0,
    }
}

// The definition that stands first. `firsts` says which of the codes are no later columns of a tab.
pub(crate) fn definition_at(values: &[u8], firsts: &[bool]) -> Option<Found>
    requires { length firsts.now ≡ length values.now }
    ensures read { (cs : List Code) → values_of cs ≡ values.now → firsts_of cs ≡ firsts.now
        → Says result (λ f. (definition_of f cs, drop (len_of f) cs)) (definition cs) }
    ensures within { IfSome result (IsWithin (length values.now)) }
{
    let Some(label) = label_len(values, firsts) else {
        return None;
    };
    if !begins_with(&values[label..], b':') {
        return None;
    }
    let start = label + 1 + optional_gap_len(&values[label + 1..]);
    let Some(len) = destination_len(&values[start..]) else {
        return None;
    };
    let Some(ending) = ending_at(&values[start + len..]) else {
        return None;
    };
    Some(Found {
        label,
        destination: Stretch { start, len },
        ending,
    })
}

// How many codes the definitions at the front of a text have. `firsts` says which of the codes are no later columns of a tab.
///
// The work is linear. Only a title that does not end its line is read in vain, and at most one is, because a definition never begins where a title does.
pub(crate) fn definitions_len(values: &[u8], firsts: &[bool]) -> usize
    requires { length firsts.now ≡ length values.now }
    ensures same { (cs : List Code) → values_of cs ≡ values.now → firsts_of cs ≡ firsts.now → (definitions_of cs).1 ≡ drop result cs }
    ensures within { result ≤ length values.now }
{
    let mut len = 0;
    while let Some(found) = definition_at(&values[len..], &firsts[len..]) {
        len += found.destination.start + found.destination.len + found.ending.len;
    }
    len
}
