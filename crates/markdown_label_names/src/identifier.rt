//! Identifiers of labels.
#![tactic(auto)]

ghost use Rattle.std.specs.Prelude.{◌≡◌, map, string_bytes, IfOk, IfSome, OnOk, OnErr, IsTrue, Some, false};
ghost use Rattle.std.specs.List.{list_any};
ghost use Rattle.std.specs.Str.{bytes_eq};
ghost use Rattle.markdown_plan.specs.Characters.{bytes_of};
ghost use Rattle.markdown_content.specs.PlaceInDocument.{IsPlaceOf};
ghost use Rattle.markdown_label_names.specs.LabelNames.{AreAround};
ghost use Rattle.markdown_label_names.specs.IdentifierFronts.{AreCuts};
ghost use Rattle.markdown_label_names.specs.LabelNames.{identifier_between, label_between, link_as, names_itself};
ghost use Rattle.markdown_label_names.specs.LabelSetting.{setting_in, IsListed};
ghost use Rattle.markdown_model.specs.LabelEnd.{is_footnote, label_name, name_between, with_caret};
ghost use Rattle.markdown_model.specs.Setting.{brackets_are_escaped, defines, is_defined, is_of_label};

use crate::label_text::{has_no_name, is_whole, name_between};
use crate::lookup::{bare_bracket_rules_out, front_rules_out, is_ruled_out, letters_end};
use markdown_content::util::slice::Slice;
use markdown_engine::tokenizer::{LabelKind, Tokenizer};
use std::alloc::{AllocError, Global};

// Whether the identifier is one of these.
fn has(definitions: &[String], name: &str) -> bool
    ensures { result ≡ list_any (λ definition. bytes_eq name.now (string_bytes definition)) definitions.now }
{
    definitions
        .iter()
        .any(|definition| name == definition.as_str())
}

// Whether the identifier is defined, where these are.
fn is_defined(definitions: &[String], name: &str) -> bool
    ensures { result ≡ is_defined (map string_bytes definitions.now) name.now }
{
    has(definitions, name)
}

// Whether a label of this kind is a footnote call's.
pub(crate) fn is_footnote(kind: LabelKind) -> bool
    ensures { result ≡ is_footnote kind }
{
    matches!(kind, LabelKind::GfmFootnote)
}

// The identifier of a label of this kind as a link's: with the caret of a footnote's start before it.
pub(crate) fn link_identifier(
    alloc: Global,
    kind: LabelKind,
    name: &str,
) -> Result<String, AllocError>
    ensures { IfOk result (λ text. string_bytes text ≡ with_caret kind name.now) }
{
    let mut text = String::new(alloc);
    if is_footnote(kind) {
        text.push('^')?;
    }
    text.push_str(name)?;
    Ok(text)
}

// Whether the identifier is that of a footnote: by a search, where the names are known in order.
fn names_footnote(tokenizer: &Tokenizer, name: &str) -> bool
    requires { IsListed tokenizer.now }
    ensures { result ≡ is_defined (setting_in tokenizer.now).footnotes name.now }
{
    match &tokenizer.tokenize_state.names {
        Some(names) => names.footnotes.has(name),
        None => is_defined(
            tokenizer.parse_state.gfm_footnote_definitions.as_slice(),
            name,
        ),
    }
}

// Whether the identifier is listed among those of definitions: by a search, where the names are known in order.
fn lists_definition(tokenizer: &Tokenizer, name: &str) -> bool
    requires { IsListed tokenizer.now }
    ensures { result ≡ is_defined (setting_in tokenizer.now).definitions name.now }
{
    match &tokenizer.tokenize_state.names {
        Some(names) => names.definitions.has(name),
        None => is_defined(tokenizer.parse_state.definitions.as_slice(), name),
    }
}

// Whether each bracket has a backslash of its own.
pub(crate) fn brackets_are_escaped(name: &[u8]) -> bool
    ensures { result ≡ brackets_are_escaped false name.now }
{
    let mut taken = false;
    for &byte in name {
        if !taken && matches!(byte, b'[' | b']') {
            return false;
        }
        taken = !taken && byte == b'\\';
    }
    true
}

// Whether a link label may have this identifier.
fn is_of_label(name: &str) -> bool
    ensures { result ≡ is_of_label name.now }
{
    !name.is_empty() && brackets_are_escaped(name.as_bytes())
}

// Whether the identifier is that of a definition.
fn names_definition(tokenizer: &Tokenizer, name: &str) -> bool
    requires { IsListed tokenizer.now }
    ensures { result ≡ defines (setting_in tokenizer.now) name.now }
{
    let rules = tokenizer.parse_state.options.rules();
    lists_definition(tokenizer, name) && (!rules.definitions_have_labels || is_of_label(name))
}

// Whether a label of this kind with this identifier is defined as a link's. `None` where it is a footnote call.
fn link_as(tokenizer: &Tokenizer, kind: LabelKind, name: &str) -> Result<Option<bool>, AllocError>
    requires { IsListed tokenizer.now }
    ensures { IfOk result (λ link. link ≡ link_as (setting_in tokenizer.now) kind (Some name.now)) }
{
    if !is_footnote(kind) {
        return Ok(Some(names_definition(tokenizer, name)));
    }
    if names_footnote(tokenizer, name) {
        return Ok(None);
    }
    let text = link_identifier(tokenizer.alloc, kind, name)?;
    Ok(Some(names_definition(tokenizer, text.as_str())))
}

// As `link_as`, of the label whose text goes from an index to another.
fn link_from(
    tokenizer: &Tokenizer,
    kind: LabelKind,
    start: usize,
    end: usize,
) -> Result<Option<bool>, AllocError>
    requires cuts { AreCuts (bytes_of tokenizer.now) start end }
    requires listed { IsListed tokenizer.now }
    requires own { IsPlaceOf (bytes_of tokenizer.now) tokenizer.now.cursor }
    ensures { IfOk result (λ link. link ≡ link_as (setting_in tokenizer.now) kind (label_name (setting_in tokenizer.now) kind start end)) }
{
    if is_ruled_out(tokenizer, kind, start, end)? {
        return Ok(Some(false));
    }
    if bare_bracket_rules_out(tokenizer, kind, start, end)? {
        return Ok(Some(false));
    }
    if has_no_name(tokenizer, kind, start, end)? {
        return Ok(Some(false));
    }
    if front_rules_out(tokenizer, kind, start, end)? {
        return Ok(Some(false));
    }
    let name = name_between(tokenizer, start, end)?;
    link_as(tokenizer, kind, name.as_str())
}

/// Answers whether a label of this kind, whose text stands between two events that are given by their numbers, is defined as a link's; `None` where it
/// is a footnote call.
///
/// The error comes where memory is refused; then `failed` is true.
pub fn link_between(
    tokenizer: &mut Tokenizer,
    kind: LabelKind,
    from: usize,
    to: usize,
) -> Result<Option<bool>, AllocError>
    requires { AreAround tokenizer.old from to }
    ensures link { IfOk result (λ link. link ≡ link_as (setting_in tokenizer.old) kind (label_between tokenizer.old kind from to)) }
    ensures same { OnOk result (tokenizer.new ≡ tokenizer.old) }
    ensures err { OnErr result (IsTrue tokenizer.new.failed) }
{
    let start = tokenizer.events.at(from).point.index;
    // events are in order, so the second one is not before the first; with `max` no caller has to show it
    let end = tokenizer.events.at(to).point.index.max(start);
    let link = link_from(tokenizer, kind, start, end);
    tokenizer.noted(link)
}

// The lowercase letters that are the whole text from an index to another, which are their own identifier.
fn letters_between<'a>(tokenizer: &Tokenizer<'a>, start: usize, end: usize) -> Option<&'a str>
    requires { AreCuts (bytes_of tokenizer.now) start end }
    ensures { IfSome result (λ letters. letters.now ≡ name_between (setting_in tokenizer.now) start end) }
{
    let bytes = tokenizer.parse_state.bytes;
    if letters_end(bytes, start, end) == end && is_whole(tokenizer, start, end) {
        return Some(Slice::from_indices(bytes, start, end).as_str());
    }
    None
}

// Whether the identifier of the text from an index to another is that of a definition. One of lowercase letters alone is looked up where it stands, and takes
// no memory.
fn is_defined_within(tokenizer: &Tokenizer, start: usize, end: usize) -> Result<bool, AllocError>
    requires cuts { AreCuts (bytes_of tokenizer.now) start end }
    requires listed { IsListed tokenizer.now }
    requires own { IsPlaceOf (bytes_of tokenizer.now) tokenizer.now.cursor }
    ensures { IfOk result (λ defined. defined ≡ defines (setting_in tokenizer.now) (name_between (setting_in tokenizer.now) start end)) }
{
    if let Some(letters) = letters_between(tokenizer, start, end) {
        return Ok(names_definition(tokenizer, letters));
    }
    if is_ruled_out(tokenizer, LabelKind::Link, start, end)?
        || front_rules_out(tokenizer, LabelKind::Link, start, end)?
    {
        return Ok(false);
    }
    let name = name_between(tokenizer, start, end)?;
    Ok(names_definition(tokenizer, name.as_str()))
}

/// Answers whether the identifier of the text from an index to another is that of a definition.
///
/// The bytes are read at most about twice as far as they begin like the identifier of a definition. The error comes where memory is refused; then
/// `failed` is true.
pub fn is_defined_from(
    tokenizer: &mut Tokenizer,
    start: usize,
    end: usize,
) -> Result<bool, AllocError>
    requires cuts { AreCuts (bytes_of tokenizer.old) start end }
    requires listed { IsListed tokenizer.old }
    requires own { IsPlaceOf (bytes_of tokenizer.old) tokenizer.old.cursor }
    ensures defined { IfOk result (λ defined. defined ≡ defines (setting_in tokenizer.old) (name_between (setting_in tokenizer.old) start end)) }
    ensures same { OnOk result (tokenizer.new ≡ tokenizer.old) }
    ensures err { OnErr result (IsTrue tokenizer.new.failed) }
{
    let defined = is_defined_within(tokenizer, start, end);
    tokenizer.noted(defined)
}

// Whether a label that stands for itself, whose text goes from an index to another, names a definition.
fn is_label_within(tokenizer: &Tokenizer, start: usize, end: usize) -> Result<bool, AllocError>
    requires cuts { AreCuts (bytes_of tokenizer.now) start end }
    requires listed { IsListed tokenizer.now }
    requires own { IsPlaceOf (bytes_of tokenizer.now) tokenizer.now.cursor }
    ensures { IfOk result (λ defined. defined ≡ names_itself (setting_in tokenizer.now) start end) }
{
    if !tokenizer
        .parse_state
        .options
        .rules()
        .definitions_have_labels
    {
        return is_defined_within(tokenizer, start, end);
    }
    let link = link_from(tokenizer, LabelKind::Link, start, end)?;
    Ok(link == Some(true))
}

/// Answers whether a label that stands for itself, whose text goes from an index to another, names a definition: as `is_defined_from`, but that by
/// CommonMark a label has at most 999 characters.
///
/// The error comes where memory is refused; then `failed` is true.
pub fn is_label_from(
    tokenizer: &mut Tokenizer,
    start: usize,
    end: usize,
) -> Result<bool, AllocError>
    requires cuts { AreCuts (bytes_of tokenizer.old) start end }
    requires listed { IsListed tokenizer.old }
    requires own { IsPlaceOf (bytes_of tokenizer.old) tokenizer.old.cursor }
    ensures defined { IfOk result (λ defined. defined ≡ names_itself (setting_in tokenizer.old) start end) }
    ensures same { OnOk result (tokenizer.new ≡ tokenizer.old) }
    ensures err { OnErr result (IsTrue tokenizer.new.failed) }
{
    let defined = is_label_within(tokenizer, start, end);
    tokenizer.noted(defined)
}

/// Answers whether the identifier between two events, given by their numbers, is that of a definition.
///
/// The error comes where memory is refused; then `failed` is true.
pub fn is_defined_between(
    tokenizer: &mut Tokenizer,
    from: usize,
    to: usize,
) -> Result<bool, AllocError>
    requires { AreAround tokenizer.old from to }
    ensures defined { IfOk result (λ defined. defined ≡ defines (setting_in tokenizer.old) (identifier_between tokenizer.old from to)) }
    ensures same { OnOk result (tokenizer.new ≡ tokenizer.old) }
    ensures err { OnErr result (IsTrue tokenizer.new.failed) }
{
    let start = tokenizer.events.at(from).point.index;
    // as in `link_between`
    let end = tokenizer.events.at(to).point.index.max(start);
    is_defined_from(tokenizer, start, end)
}
