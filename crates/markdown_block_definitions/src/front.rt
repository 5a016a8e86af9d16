//! The link reference definitions at the front of a text (CommonMark 4.7), as copied bytes.

ghost use Rattle.std.specs.Prelude.{◌≡◌, ◌<◌, ◌≤◌, ◌+◌, ◌++◌, ◌∷◌, List, [], length, take, drop, true, option_map, if◌then◌else◌, IfOk};
ghost use Rattle.markdown_content.specs.Codes.{Code};
ghost use Rattle.markdown_content.specs.Content.{content_of};
ghost use Rattle.markdown_model.specs.CodeTests.{values_of};
ghost use Rattle.markdown_block_model.specs.LineRests.{lines_of};
ghost use Rattle.markdown_block_model.specs.LinkDefinitions.{between, destination_text, definitions_of, has_text};
ghost use Rattle.markdown_page_model.specs.PageTexts.{text_of};
ghost use Rattle.markdown_block_definitions.specs.TextReadings.{firsts_of, first_columns};
ghost use Rattle.markdown_block_definitions.specs.DefinitionParts.{stretch_of, definition_of, title_of, IsEndingWithin, IsWithin};
ghost use Rattle.markdown_block_definitions.specs.DefinitionTexts.{items_of, texts_of, texts_in, IsFrontOf};

use crate::copy::{first_value, push_text};
use crate::definition::{Ending, Found, Stretch, definition_at};
use crate::spacing::begins_with;
use markdown_content::parser::Piece;
use std::alloc::{AllocError, Global};

/// A link reference definition.
#[derive(Drop)]
pub struct Definition {
    /// What stands between the brackets of its label.
    pub label: Vec<u8>,
    /// Its destination, without `<` and `>`. Escapes and character references stand in it as they are written.
    pub destination: Vec<u8>,
    /// What stands between the markers of its title, in the same way.
    pub title: Option<Vec<u8>>,
}

/// The definitions at the front of a text.
#[derive(Drop)]
pub struct Front {
    /// The definitions, in their order.
    pub definitions: Vec<Definition>,
    /// How many lines of the text they have.
    pub lines: usize,
}

// A copy of some bytes.
fn copy(alloc: Global, values: &[u8]) -> Result<Vec<u8>, AllocError>
    ensures { IfOk result (λ v. v.items ≡ values.now) }
{
    let mut text = Vec::new(alloc);
    text.extend_from_slice(values)?;
    Ok(text)
}

// What stands between two markers, each of which is one code.
fn inside(stretch: Stretch) -> Stretch
    requires { stretch.start + stretch.len ≤ usize.MAX }
    ensures is { (cs : List Code) → stretch.start + stretch.len ≤ length cs → stretch_of result cs ≡ between (stretch_of stretch cs) }
    ensures within { result.start + result.len ≤ stretch.start + stretch.len }
{
    if stretch.len < 2 {
        return Stretch {
            start: stretch.start,
            len: 0,
        };
    }
    Stretch {
        start: stretch.start + 1,
        len: stretch.len - 2,
    }
}

// What a destination says.
fn destination_inside(values: &[u8], destination: Stretch) -> Stretch
    requires { destination.start + destination.len ≤ length values.now }
    ensures is { (cs : List Code) → values_of cs ≡ values.now → stretch_of result cs ≡ destination_text (stretch_of destination cs) }
    ensures within { result.start + result.len ≤ length values.now }
{
    let end = destination.start + destination.len;
    if begins_with(&values[destination.start..end], b'<') {
        return inside(destination);
    }
    destination
}

// How many later columns of a tab stand first.
fn later_len(firsts: &[bool]) -> usize
    ensures text { (cs : List Code) → firsts_of cs ≡ firsts.now → text_of cs ≡ values_of (take result cs) ++ values_of (first_columns (drop result cs)) }
    ensures within { result ≤ length firsts.now }
{
    let mut len = 0;
    while len < firsts.len() {
        if firsts[len] {
            return len;
        }
        len += 1;
    }
    len
}

// Appends a value, if its code is no later column of a tab.
fn push_first(value: u8, first: bool, text: &mut Vec<u8>) -> Result<(), AllocError>
    ensures { IfOk result (λ _. text.new.items ≡ (if first then text.old.items ++ value ∷ [] else text.old.items)) }
{
    if first {
        text.push(value)?;
    }
    Ok(())
}

// Appends the values of the codes that are no later columns of a tab.
fn push_firsts(values: &[u8], firsts: &[bool], text: &mut Vec<u8>) -> Result<(), AllocError>
    requires { length firsts.now ≡ length values.now }
    ensures { IfOk result (λ _. (cs : List Code) → values_of cs ≡ values.now → firsts_of cs ≡ firsts.now
        → text.new.items ≡ text.old.items ++ values_of (first_columns cs)) }
{
    let mut index = 0;
    while index < values.len() {
        push_first(values[index], firsts[index], text)?;
        index += 1;
    }
    Ok(())
}

// What some codes say. A tab is a tab, and not its columns, but for the columns that stand first.
fn said(alloc: Global, values: &[u8], firsts: &[bool]) -> Result<Vec<u8>, AllocError>
    requires { length firsts.now ≡ length values.now }
    ensures { IfOk result (λ v. (cs : List Code) → values_of cs ≡ values.now → firsts_of cs ≡ firsts.now → v.items ≡ text_of cs) }
{
    let later = later_len(firsts);
    let mut text = copy(alloc, &values[..later])?;
    push_firsts(&values[later..], &firsts[later..], &mut text)?;
    Ok(text)
}

// What the title of a definition says.
fn copy_title(
    alloc: Global,
    values: &[u8],
    firsts: &[bool],
    ending: Ending,
) -> Result<Option<Vec<u8>>, AllocError>
    requires same { length firsts.now ≡ length values.now }
    requires within { IsEndingWithin (length values.now) ending }
    ensures { IfOk result (λ t. (cs : List Code) → values_of cs ≡ values.now → firsts_of cs ≡ firsts.now
        → items_of t ≡ option_map text_of (title_of ending cs)) }
{
    match ending.title {
        None => Ok(None),
        Some(title) => {
            let title = inside(title);
            let end = title.start + title.len;
            let text = said(alloc, &values[title.start..end], &firsts[title.start..end])?;
            Ok(Some(text))
        }
    }
}

// A copy of a definition.
fn copy_definition(
    alloc: Global,
    values: &[u8],
    firsts: &[bool],
    found: Found,
) -> Result<Definition, AllocError>
    requires same { length firsts.now ≡ length values.now }
    requires within { IsWithin (length values.now) found }
    ensures { IfOk result (λ d. (cs : List Code) → values_of cs ≡ values.now → firsts_of cs ≡ firsts.now → texts_of d ≡ texts_in (definition_of found cs)) }
{
    let label = inside(Stretch {
        start: 0,
        len: found.label,
    });
    let target = destination_inside(values, found.destination);
    let target_end = target.start + target.len;
    let end = found.destination.start + found.destination.len;
    Ok(Definition {
        label: copy(alloc, &values[label.start..label.start + label.len])?,
        destination: said(
            alloc,
            &values[target.start..target_end],
            &firsts[target.start..target_end],
        )?,
        title: copy_title(alloc, &values[end..], &firsts[end..], found.ending)?,
    })
}

// How many lines end with the code at an index: one, or none.
fn lines_ended(values: &[u8], index: usize) -> usize
    requires { index < length values.now }
    ensures count { (cs : List Code) → values_of cs ≡ values.now → length (lines_of (drop index cs)) ≡ result + length (lines_of (drop (index + 1) cs)) }
    ensures within { result ≤ 1 }
{
    if index + 1 == values.len() {
        return 1;
    }
    if values[index] == b'\n' {
        return 1;
    }
    0
}

// How many lines some codes have.
fn count_lines(values: &[u8]) -> usize
    ensures { (cs : List Code) → values_of cs ≡ values.now → length (lines_of cs) ≡ result }
{
    let mut lines = 0;
    let mut index = values.len();
    while index > 0 {
        index -= 1;
        lines += lines_ended(values, index);
    }
    lines
}

// Whether a text begins with another code than `[`, so that it has no definitions.
pub(crate) fn begins_otherwise(document: &[u8], text: &[Piece]) -> bool
    ensures none { result ≡ true → definitions_of (content_of document.now text.now) ≡ ([], content_of document.now text.now) }
    ensures text { result ≡ true → has_text (content_of document.now text.now) ≡ true }
{
    if text.len() == 0 {
        return false;
    }
    match first_value(document, text[0]) {
        Some(value) => value != b'[',
        None => false,
    }
}

// The definitions at the front of a text. `firsts` says which of the codes are no later columns of a tab.
fn read_front(alloc: Global, values: &[u8], firsts: &[bool]) -> Result<Front, AllocError>
    requires { length firsts.now ≡ length values.now }
    ensures { IfOk result (λ f. (cs : List Code) → values_of cs ≡ values.now → firsts_of cs ≡ firsts.now → IsFrontOf cs f) }
{
    let mut definitions = Vec::new(alloc);
    let mut len = 0;
    while let Some(found) = definition_at(&values[len..], &firsts[len..]) {
        let definition = copy_definition(alloc, &values[len..], &firsts[len..], found)?;
        definitions.push(definition)?;
        len += found.destination.start + found.destination.len + found.ending.len;
    }
    Ok(Front {
        definitions,
        lines: count_lines(&values[..len]),
    })
}

/// Returns the link reference definitions at the front of the text that has these pieces of a document (CommonMark 4.7), and how many lines they have.
///
/// The only error is that memory was refused. The work is linear in the lines of the text.
pub fn definitions_at_front(
    alloc: Global,
    document: &[u8],
    text: &[Piece],
) -> Result<Front, AllocError>
    ensures { IfOk result (IsFrontOf (content_of document.now text.now)) }
{
    if begins_otherwise(document, text) {
        return Ok(Front {
            definitions: Vec::new(alloc),
            lines: 0,
        });
    }
    let mut values = Vec::new(alloc);
    let mut firsts = Vec::new(alloc);
    push_text(document, text, &mut values, &mut firsts)?;
    let front = read_front(alloc, &values, &firsts)?;
    Ok(front)
}
