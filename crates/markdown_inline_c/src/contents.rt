//! Contents of a document, which is prepared once.

ghost use Rattle.std.specs.Prelude.{◌≡◌, ◌⊎◌, ◌+◌, ◌<◌, ◌^◌, IfErr, IfOk, MatchOption, length, map, string_bytes};
ghost use Rattle.std.specs.List.{All};
ghost use Rattle.markdown_content.specs.DefaultOptions.{options_of};
ghost use Rattle.markdown_content.specs.KnownPlaces.{IsDocument};
ghost use Rattle.markdown_innermost.specs.InnermostEvents.{innermost, IsSpanInOrder};
ghost use Rattle.markdown_run_text.specs.RunSetting.{setting_of};
ghost use Rattle.markdown_inline_c.specs.FlatInput.{AreLabels, IsLabelRange, identifiers};
ghost use Rattle.markdown_inline_c.specs.FlatTexts.{AreTextsOptions, IsAmong, IsTextAt, pieces_at, reserve_nothing, setting_by, text_at};
ghost use Rattle.markdown_inline_c.specs.FlatInput.{pieces_listed};
ghost use Rattle.markdown_inline_c.specs.Refusals.{AreLabelsRefused, IsDocumentRefused, IsFirstBlamed, IsFirstOther};
ghost use Rattle.markdown_inline_c.specs.Statuses.{IsContentAtFault, IsFaultUnless};
ghost use Rattle.markdown_inline_c.specs.declared.fault.Fault.TheVariants.{Definition, Memory, NoContent, UnknownOption};

use crate::check::{Pieces, check_document};
use crate::fault::Fault;
use crate::flat::{FlatContent, FlatPiece, Input, Range};
use crate::input::{identifiers_of, input_options, text_of};
use crate::refusal::Refusal;
use markdown_content::configuration::ParseOptions;
use markdown_content::parser::{ParseState, Piece};
use markdown_document::document::Document;
use markdown_run::run::ListRun;
use std::alloc::{AllocError, Global};

/// A document, and the pieces of it that make up contents.
#[derive(Clone, Copy)]
pub struct Contents<'a> {
    /// The document.
    pub document: &'a Document<'a>,
    /// The pieces.
    pub pieces: &'a [FlatPiece],
}

impl<'a> Contents<'a> {
    /// The pieces of a content among these.
    pub fn pieces_of(&self, alloc: Global, content: FlatContent) -> Result<Pieces, Fault>
        ensures pieces { IfOk result (λ found. pieces_listed found ≡ pieces_at self.now.pieces.now content) }
        ensures among { IfOk result (λ _. IsAmong self.now.pieces.now content) }
        ensures err { IfErr result (IsFaultUnless NoContent (IsAmong self.now.pieces.now content)) }
    {
        let (start, end) = (content.pieces.start, content.pieces.end);
        if start > end || end > self.pieces.len() {
            return Err(Fault::NoContent);
        }
        Ok(Pieces::new(alloc, &self.pieces[start..end])?)
    }

    /// Reads a content as a text, which has these pieces.
    pub fn read(
        &self,
        alloc: Global,
        pieces: &[Piece],
        content: FlatContent,
    ) -> Result<ListRun, Fault>
        requires pieces { pieces.now ≡ pieces_at self.now.pieces.now content }
        requires among { IsAmong self.now.pieces.now content }
        ensures events { IfOk result (λ run. run.events ≡ text_at (setting_of self.now.document.now) self.now.pieces.now content) }
        ensures places { IfOk result (λ run. All (IsSpanInOrder self.now.document.now.bytes.now) (innermost run.events)) }
        ensures text { IfOk result (λ _. IsTextAt self.now.document.now.bytes.now self.now.pieces.now content) }
        ensures err { IfErr result (λ fault. (fault ≡ Memory) ⊎ IsContentAtFault self.now.document.now.bytes.now self.now.pieces.now content fault) }
    {
        let Some(found) = self.document.content(pieces) else {
            return Err(Fault::NoContent);
        };
        if !found.is_text() {
            return Err(Fault::BlankLine);
        }
        Ok(found.text_list(alloc, content.first_of_item != 0)?)
    }
}

// Whether the reserved words of contents are 0.
fn reserve_nothing(contents: &[FlatContent]) -> bool
    ensures { result ≡ reserve_nothing contents.now }
{
    contents.iter().all(|content| content.reserved == 0)
}

/// What is asked for of contents of an input, if each bit is one of an option, and if the reserved words of the input and of the contents are 0.
pub fn texts_options(input: &Input, contents: &[FlatContent]) -> Result<ParseOptions, Fault>
    ensures ok { IfOk result (λ found. AreTextsOptions input.now contents.now × (found ≡ options_of input.now.options)) }
    ensures err { IfErr result (λ fault. (fault ≡ UnknownOption) × (AreTextsOptions input.now contents.now → ⊥)) }
{
    if !reserve_nothing(contents) {
        return Err(Fault::UnknownOption);
    }
    input_options(input)
}

// The number of the first range that is no text of the labels.
fn first_no_label(labels: &[u8], ranges: &[Range]) -> Option<usize>
    ensures { MatchOption result (All (IsLabelRange labels.now) ranges.now) (λ number. IsFirstOther (IsLabelRange labels.now) ranges.now number) }
{
    for at in 0..ranges.len() {
        let Some(_text) = text_of(labels, ranges[at]) else {
            return Some(at);
        };
    }
    None
}

// Whether all ranges are texts of the labels, or else which one is none, where so many others are counted before them.
fn check_ranges(labels: &[u8], ranges: &[Range], before: usize) -> Result<(), Refusal>
    requires { before + length ranges.now < 2 ^ 64 }
    ensures ok { IfOk result (λ _. All (IsLabelRange labels.now) ranges.now) }
    ensures err { IfErr result (IsFirstBlamed (IsLabelRange labels.now) before ranges.now Definition) }
{
    match first_no_label(labels, ranges) {
        Some(number) => Err(Refusal::of(Fault::Definition, before + number)),
        None => Ok(()),
    }
}

// Whether the labels of definitions and of footnotes are texts, or else which one is none.
fn check_labels(input: &Input) -> Result<(), Refusal>
    ensures ok { IfOk result (λ _. AreLabels input.now) }
    ensures err { IfErr result (AreLabelsRefused input.now) }
{
    check_ranges(input.labels, input.definitions, 0)?;
    check_ranges(input.labels, input.footnotes, input.definitions.len())
}

/// Whether contents of an input can be read, or else why not, and what is to blame.
pub fn check_input(input: &Input) -> Result<(), Refusal>
    ensures document { IfOk result (λ _. IsDocument input.now.bytes.now) }
    ensures labels { IfOk result (λ _. AreLabels input.now) }
    ensures err { IfErr result (λ r. IsDocumentRefused input.now.bytes.now r ⊎ (IsDocument input.now.bytes.now × AreLabelsRefused input.now r)) }
{
    check_document(input.bytes)?;
    check_labels(input)
}

// The identifiers of labels, in which NUL may be read as U+FFFD.
fn known_identifiers(
    alloc: Global,
    labels: &[u8],
    ranges: &[Range],
    replaced: bool,
) -> Result<Vec<String>, AllocError>
    requires { All (IsLabelRange labels.now) ranges.now }
    ensures { IfOk result (λ found. map string_bytes found.items ≡ identifiers replaced labels.now ranges.now) }
{
    match identifiers_of(alloc, labels, ranges, replaced) {
        Ok(found) => Ok(found),
        Err(_) => Err(AllocError),
    }
}

/// A document, prepared with the options that are asked for, and with what is defined by labels.
pub fn prepared<'a>(
    alloc: Global,
    bytes: &'a [u8],
    options: &'a ParseOptions,
    labels: &[u8],
    definitions: &[Range],
    footnotes: &[Range],
) -> Result<Document<'a>, AllocError>
    requires document { IsDocument bytes.now }
    requires definitions { All (IsLabelRange labels.now) definitions.now }
    requires footnotes { All (IsLabelRange labels.now) footnotes.now }
    ensures { IfOk result (λ document. setting_of document ≡ setting_by bytes.entry.now options.entry.now labels.now definitions.now footnotes.now) }
{
    let replaced = options.rules().nul_is_replaced;
    let parse_state = ParseState {
        bytes,
        options,
        definitions: known_identifiers(alloc, labels, definitions, replaced)?,
        gfm_footnote_definitions: known_identifiers(alloc, labels, footnotes, replaced)?,
    };
    match Document::new(alloc, parse_state)? {
        Some(document) => Ok(document),
        None => unreachable!(),
    }
}
