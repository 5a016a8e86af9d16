//! Runs over an input.

ghost use Rattle.std.specs.Prelude.{◌≡◌, ◌<◌, ◌∷◌, ◌++◌, [], IfErr, IfNone, IfOk, IfSome, OnOk, map, string_bytes};
ghost use Rattle.std.specs.List.{All};
ghost use Rattle.markdown_content.specs.DefaultOptions.{AreKnown, options_of};
ghost use Rattle.markdown_model.specs.InlineTree.{string_events, text_events};
ghost use Rattle.markdown_innermost.specs.InnermostEvents.{innermost, IsSpanInOrder};
ghost use Rattle.markdown_util.specs.Identifier.{identifier_by};
ghost use Rattle.markdown_inline_c.specs.FlatInput.{AreInputOptions, identifiers, IsLabelRange, pieces_of, range_bytes, string_setting, text_setting, IsStringInput, IsTextInput};
ghost use Rattle.markdown_inline_c.specs.Statuses.{IsFaultUnless, IsStringFault, IsTextFault};
ghost use Rattle.markdown_inline_c.specs.declared.fault.Fault.TheVariants.{Definition, UnknownOption};

use crate::check::{Pieces, check_content, check_text};
use crate::fault::Fault;
use crate::flat::{Input, Range};
use markdown_content::configuration::{ParseOptions, UNKNOWN_OPTION, has_option};
use markdown_content::parser::ParseState;
use markdown_run::run::{self, ListRun};
use markdown_util::util::normalize_identifier::identifier_by;
use std::alloc::{AllocError, Global};

// The bit that says that the text is the first of a list item.
pub(crate) const FIRST_OF_ITEM: u32 = 0x10_0000;

// What is asked for, if each bit is one of an option.
pub(crate) fn known_options(options: u32) -> Result<ParseOptions, Fault>
    ensures ok { IfOk result (λ found. AreKnown options × (found ≡ options_of options)) }
    ensures err { IfErr result (λ fault. (fault ≡ UnknownOption) × (AreKnown options → ⊥)) }
{
    if options >= UNKNOWN_OPTION {
        return Err(Fault::UnknownOption);
    }
    Ok(ParseOptions::of_bits(options))
}

// What is asked for of an input, if each bit is one of an option and the reserved word is 0.
pub(crate) fn input_options(input: &Input) -> Result<ParseOptions, Fault>
    ensures ok { IfOk result (λ found. AreInputOptions input.now × (found ≡ options_of input.now.options)) }
    ensures err { IfErr result (λ fault. (fault ≡ UnknownOption) × (AreInputOptions input.now → ⊥)) }
{
    if input.reserved != 0 {
        return Err(Fault::UnknownOption);
    }
    known_options(input.options)
}

// The text of a range, if it is one.
pub(crate) fn text_of(labels: &[u8], range: Range) -> Option<&str>
    ensures some { IfSome result (λ text. (text.now ≡ range_bytes labels.now range) × IsLabelRange labels.now range) }
    ensures none { IfNone result (IsLabelRange labels.now range → ⊥) }
{
    if range.start > range.end || range.end > labels.len() {
        return None;
    }
    str::from_utf8(&labels[range.start..range.end]).ok()
}

// Adds the identifier of one more label, in which NUL may be read as U+FFFD.
fn push_identifier(
    alloc: Global,
    found: &mut Vec<String>,
    text: &str,
    replaced: bool,
) -> Result<(), AllocError>
    ensures { OnOk result (map string_bytes found.new.items ≡ map string_bytes found.old.items ++ identifier_by replaced text.now ∷ []) }
{
    found.push(identifier_by(alloc, text, replaced)?)?;
    Ok(())
}

// The identifiers of the labels at these ranges, of which there are some. It is kept out of line, since most inputs have none.
#[inline(never)]
#[tactic(auto, using(crate::proofs::Labels::all_read))]
fn some_identifiers_of(
    alloc: Global,
    labels: &[u8],
    ranges: &[Range],
    replaced: bool,
) -> Result<Vec<String>, Fault>
    ensures found { IfOk result (λ found. map string_bytes found.items ≡ identifiers replaced labels.now ranges.now) }
    ensures labels { IfOk result (λ _. All (IsLabelRange labels.now) ranges.now) }
    ensures err { IfErr result (IsFaultUnless Definition (All (IsLabelRange labels.now) ranges.now)) }
{
    let mut found = Vec::new(alloc);
    for range in ranges {
        let Some(text) = text_of(labels, *range) else {
            return Err(Fault::Definition);
        };
        push_identifier(alloc, &mut found, text, replaced)?;
    }
    Ok(found)
}

// The identifiers of the labels at these ranges, in which NUL may be read as U+FFFD.
#[inline]
pub(crate) fn identifiers_of(
    alloc: Global,
    labels: &[u8],
    ranges: &[Range],
    replaced: bool,
) -> Result<Vec<String>, Fault>
    ensures found { IfOk result (λ found. map string_bytes found.items ≡ identifiers replaced labels.now ranges.now) }
    ensures labels { IfOk result (λ _. All (IsLabelRange labels.now) ranges.now) }
    ensures err { IfErr result (IsFaultUnless Definition (All (IsLabelRange labels.now) ranges.now)) }
{
    if ranges.is_empty() {
        return Ok(Vec::new(alloc));
    }
    some_identifiers_of(alloc, labels, ranges, replaced)
}

/// What is found in the input as a string, or why it is refused.
pub fn string(alloc: Global, input: &Input) -> Result<ListRun, Fault>
    ensures events { IfOk result (λ run. run.events ≡ string_events (string_setting input.now) (pieces_of input.now.pieces.now)) }
    ensures input { IfOk result (λ _. IsStringInput input.now) }
    ensures err { IfErr result (IsStringFault input.now) }
{
    let options = input_options(input)?;
    let pieces = Pieces::new(alloc, input.pieces)?;
    check_content(input.bytes, pieces.as_slice())?;
    let parse_state = ParseState {
        bytes: input.bytes,
        options: &options,
        definitions: Vec::new(alloc),
        gfm_footnote_definitions: Vec::new(alloc),
    };
    Ok(run::string_list(alloc, &parse_state, pieces.as_slice())?)
}

/// What is found in the input as a text, or why it is refused.
pub fn text(alloc: Global, input: &Input) -> Result<ListRun, Fault>
    ensures events { IfOk result (λ run. run.events ≡ text_events (text_setting input.now) (pieces_of input.now.pieces.now)) }
    ensures input { IfOk result (λ _. IsTextInput input.now) }
    ensures places { IfOk result (λ run. All (IsSpanInOrder input.now.bytes.now) (innermost run.events)) }
    ensures err { IfErr result (IsTextFault input.now) }
{
    let options = input_options(input)?;
    let pieces = Pieces::new(alloc, input.pieces)?;
    check_text(input.bytes, pieces.as_slice())?;
    let replaced = options.rules().nul_is_replaced;
    let parse_state = ParseState {
        bytes: input.bytes,
        options: &options,
        definitions: identifiers_of(alloc, input.labels, input.definitions, replaced)?,
        gfm_footnote_definitions: identifiers_of(alloc, input.labels, input.footnotes, replaced)?,
    };
    let first_of_item = has_option(input.options, FIRST_OF_ITEM);
    Ok(run::text_list(alloc, &parse_state, pieces.as_slice(), first_of_item)?)
}
