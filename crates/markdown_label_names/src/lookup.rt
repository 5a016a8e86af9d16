//! Labels that nothing is defined for, by the fronts of their identifiers.
#![tactic(auto)]

ghost use Rattle.std.specs.Prelude.{◌≡◌, ◌≤◌, ◌==◌, Bool, IfOk, IsTrue, Some, [], false, map, slice_range, string_bytes};
ghost use Rattle.std.specs.List.{list_any, starts_with};
ghost use Rattle.std.specs.Str.{IsCharBoundary};
ghost use Rattle.markdown_plan.specs.Characters.{bytes_of};
ghost use Rattle.markdown_util.specs.Identifier.{identifier_by};
ghost use Rattle.markdown_label_names.specs.IdentifierFronts.{AreCuts, begins_one, begins_defined, lacks_count, IsUnknown};
ghost use Rattle.markdown_label_names.specs.LabelNames.{link_as};
ghost use Rattle.markdown_label_names.specs.LabelSetting.{setting_in, IsListed};
ghost use Rattle.markdown_content.specs.PlaceInDocument.{IsPlaceOf};
ghost use Rattle.markdown_model.specs.LabelEnd.{label_name, name_between};

use crate::identifier::{brackets_are_escaped, is_footnote, link_identifier};
use crate::label_text::{is_whole, name_between};
use markdown_content::util::slice::Slice;
use markdown_engine::tokenizer::{LabelKind, Tokenizer};
use markdown_notes::name_index::Names;
use std::alloc::AllocError;

// The first front of a label that an identifier is made for has two to this power bytes.
const FIRST_BITS: u32 = 6;

// Where a text may be cut that may be cut at `end`: where the next character begins at or after an index, or at `end`.
pub(crate) fn boundary(bytes: &[u8], index: usize, end: usize) -> usize
    requires in_order { index ≤ end }
    requires end { IsCharBoundary bytes.now end }
    ensures after { index ≤ result }
    ensures before { result ≤ end }
    ensures boundary { IsCharBoundary bytes.now result }
{
    for at in index..end {
        if !(128..192).contains(&bytes[at]) {
            return at;
        }
    }
    end
}

// Whether one of these begins so.
fn one_begins(definitions: &[String], front: &str) -> bool
    ensures { result ≡ list_any (λ definition. starts_with (◌==◌) (string_bytes definition) front.now) definitions.now }
{
    definitions.iter().any(|definition| definition.as_bytes().starts_with(front.as_bytes()))
}

// Whether one of these identifiers begins so.
fn begins_one(definitions: &[String], front: &str) -> bool
    ensures { result ≡ begins_one (map string_bytes definitions.now) front.now }
{
    one_begins(definitions, front)
}

// Whether the identifier of a footnote begins so: by a search, where the names are known in order.
fn begins_footnote(tokenizer: &Tokenizer, front: &str) -> bool
    requires { IsListed tokenizer.now }
    ensures { result ≡ begins_one (setting_in tokenizer.now).footnotes front.now }
{
    match &tokenizer.tokenize_state.names {
        Some(names) => names.footnotes.begins(front),
        None => begins_one(
            tokenizer.parse_state.gfm_footnote_definitions.as_slice(),
            front,
        ),
    }
}

// Whether the identifier of a definition begins so: by a search, where the names are known in order.
fn begins_definition(tokenizer: &Tokenizer, front: &str) -> bool
    requires { IsListed tokenizer.now }
    ensures { result ≡ begins_one (setting_in tokenizer.now).definitions front.now }
{
    match &tokenizer.tokenize_state.names {
        Some(names) => names.definitions.begins(front),
        None => begins_one(tokenizer.parse_state.definitions.as_slice(), front),
    }
}

// Whether anything that a label of this kind may stand for begins so.
fn begins_defined(tokenizer: &Tokenizer, kind: LabelKind, front: &str) -> Result<bool, AllocError>
    requires { IsListed tokenizer.now }
    ensures { IfOk result (λ begins. begins ≡ begins_defined (setting_in tokenizer.now) kind front.now) }
{
    if !is_footnote(kind) {
        return Ok(begins_definition(tokenizer, front));
    }
    if begins_footnote(tokenizer, front) {
        return Ok(true);
    }
    let text = link_identifier(tokenizer.alloc, kind, front)?;
    Ok(begins_definition(tokenizer, text.as_str()))
}

// Whether anything that a label of this kind may stand for begins like the identifier of the text from an index to another.
fn front_begins(
    tokenizer: &Tokenizer,
    kind: LabelKind,
    start: usize,
    end: usize,
) -> Result<bool, AllocError>
    requires cuts { AreCuts (bytes_of tokenizer.now) start end }
    requires listed { IsListed tokenizer.now }
    requires own { IsPlaceOf (bytes_of tokenizer.now) tokenizer.now.cursor }
    ensures { IfOk result (λ begins. begins ≡ begins_defined (setting_in tokenizer.now) kind (name_between (setting_in tokenizer.now) start end)) }
{
    let front = name_between(tokenizer, start, end)?;
    begins_defined(tokenizer, kind, front.as_str())
}

// Whether nothing is defined, so that no identifier has to be read.
fn defines_nothing(tokenizer: &Tokenizer) -> bool
    ensures definitions { IsTrue result → (setting_in tokenizer.now).definitions ≡ [] }
    ensures footnotes { IsTrue result → (setting_in tokenizer.now).footnotes ≡ [] }
{
    tokenizer.parse_state.definitions.is_empty()
        && tokenizer.parse_state.gfm_footnote_definitions.is_empty()
}

// Whether it is known that none of these names has as many opening brackets as a label of this kind, from an index of the document to
// another. Folding the case of a text and joining its words change no bracket.
fn lacks_count(names: &Names, kind: LabelKind, start: usize, end: usize) -> bool
    ensures { result ≡ lacks_count names.now kind start end }
{
    match names.brackets.between(start, end) {
        Some(count) => {
            !(is_footnote(kind) && names.footnotes.has_brackets(count)
                || names.definitions.has_brackets(count))
        }
        None => false,
    }
}

// Whether the brackets of a label, from an index of the document to another, show that nothing is defined that it may stand for.
fn brackets_rule_out(tokenizer: &Tokenizer, kind: LabelKind, start: usize, end: usize) -> bool
    requires cuts { AreCuts (bytes_of tokenizer.now) start end }
    requires listed { IsListed tokenizer.now }
    requires own { IsPlaceOf (bytes_of tokenizer.now) tokenizer.now.cursor }
    ensures { IsTrue result → IsUnknown (setting_in tokenizer.now) kind (name_between (setting_in tokenizer.now) start end) }
{
    match &tokenizer.tokenize_state.names {
        Some(names) => lacks_count(names, kind, start, end) && is_whole(tokenizer, start, end),
        None => false,
    }
}

// Where the lowercase ASCII letters end that a part of a text begins with. They are their own identifier.
pub(crate) fn letters_end(bytes: &[u8], start: usize, end: usize) -> usize
    requires { AreCuts bytes.now start end }
    ensures before { result ≤ end }
    ensures cuts { AreCuts bytes.now start result }
    ensures identifier { (replaced : Bool) → identifier_by replaced (slice_range bytes.now start result) ≡ slice_range bytes.now start result }
{
    for at in start..end {
        if !bytes[at].is_ascii_lowercase() {
            return at;
        }
    }
    end
}

// Whether the lowercase letters that a label begins with, from an index of the document to another, show that nothing is defined that it
// may stand for. They are compared where they stand, and take no memory, but of a footnote's label.
fn letters_rule_out(
    tokenizer: &Tokenizer,
    kind: LabelKind,
    start: usize,
    end: usize,
) -> Result<bool, AllocError>
    requires cuts { AreCuts (bytes_of tokenizer.now) start end }
    requires listed { IsListed tokenizer.now }
    requires own { IsPlaceOf (bytes_of tokenizer.now) tokenizer.now.cursor }
    ensures { IfOk result (λ out. IsTrue out → IsUnknown (setting_in tokenizer.now) kind (name_between (setting_in tokenizer.now) start end)) }
{
    let bytes = tokenizer.parse_state.bytes;
    let middle = letters_end(bytes, start, end);
    if !is_whole(tokenizer, start, middle) {
        return Ok(false);
    }
    let front = Slice::from_indices(bytes, start, middle);
    let begins = begins_defined(tokenizer, kind, front.as_str())?;
    Ok(!begins)
}

// Whether the brackets or the first letters of a label, from an index of the document to another, show that nothing is defined that it may stand
// for.
//
// Labels with as many brackets as one another do not nest. Of most labels nothing is defined that begins with the letters of their first
// word.
pub(crate) fn is_ruled_out(
    tokenizer: &Tokenizer,
    kind: LabelKind,
    start: usize,
    end: usize,
) -> Result<bool, AllocError>
    requires cuts { AreCuts (bytes_of tokenizer.now) start end }
    requires listed { IsListed tokenizer.now }
    requires own { IsPlaceOf (bytes_of tokenizer.now) tokenizer.now.cursor }
    ensures { IfOk result (λ out. IsTrue out → IsUnknown (setting_in tokenizer.now) kind (name_between (setting_in tokenizer.now) start end)) }
{
    if defines_nothing(tokenizer) {
        return Ok(true);
    }
    if brackets_rule_out(tokenizer, kind, start, end) {
        return Ok(true);
    }
    letters_rule_out(tokenizer, kind, start, end)
}

// Whether the front of a label, from an index of the document to another, shows that nothing is defined that it may stand for.
//
// Each front is twice as long as the one before, so a long label is read at most about twice as far as it begins like a definition.
pub(crate) fn front_rules_out(
    tokenizer: &Tokenizer,
    kind: LabelKind,
    start: usize,
    end: usize,
) -> Result<bool, AllocError>
    requires cuts { AreCuts (bytes_of tokenizer.now) start end }
    requires listed { IsListed tokenizer.now }
    requires own { IsPlaceOf (bytes_of tokenizer.now) tokenizer.now.cursor }
    ensures { IfOk result (λ out. IsTrue out → IsUnknown (setting_in tokenizer.now) kind (name_between (setting_in tokenizer.now) start end)) }
{
    for bits in FIRST_BITS..usize::BITS {
        let size = 1usize << bits;
        if size >= end - start {
            return Ok(false);
        }
        let middle = boundary(tokenizer.parse_state.bytes, start + size, end);
        if !front_begins(tokenizer, kind, start, middle)? {
            return Ok(true);
        }
    }
    Ok(false)
}

// Whether a front of a link's label, from an index of the document to another, shows that it is no link label by CommonMark's rules: a bracket in it
// has no backslash before it.
//
// So of labels that nest none but the innermost is read further.
pub(crate) fn bare_bracket_rules_out(
    tokenizer: &Tokenizer,
    kind: LabelKind,
    start: usize,
    end: usize,
) -> Result<bool, AllocError>
    requires cuts { AreCuts (bytes_of tokenizer.now) start end }
    requires own { IsPlaceOf (bytes_of tokenizer.now) tokenizer.now.cursor }
    ensures { IfOk result (λ out. IsTrue out → link_as (setting_in tokenizer.now) kind (label_name (setting_in tokenizer.now) kind start end) ≡ Some false) }
{
    let limited = tokenizer
        .parse_state
        .options
        .rules()
        .definitions_have_labels;
    let size = 1usize << FIRST_BITS;
    if !limited || is_footnote(kind) || size >= end - start {
        return Ok(false);
    }
    let middle = boundary(tokenizer.parse_state.bytes, start + size, end);
    let front = name_between(tokenizer, start, middle)?;
    Ok(!brackets_are_escaped(front.as_bytes()))
}
