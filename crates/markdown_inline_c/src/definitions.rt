//! The link reference definitions of a document, as an input takes them (CommonMark 4.7).

ghost use Rattle.std.specs.Prelude.{◌≡◌, ◌++◌, ◌∷◌, [], List, All, IfErr, IfOk, OnOk, map};
ghost use Rattle.markdown_block_definitions.specs.DefinitionTexts.{Texts, HasUtf8Texts, texts_of};
ghost use Rattle.markdown_content.specs.KnownPlaces.{IsDocument};
ghost use Rattle.markdown_html_model.specs.Resolved.{resolved};
ghost use Rattle.markdown_inline_c.specs.FlatDefinitions.{AreDefinitions, AreDefinitionsHandedOut, AreWritten, IsAppendedText, IsTargetOf};
ghost use Rattle.markdown_inline_c.specs.FlatExtensions.{AreKnownBlocks, IsBlocksFault};
ghost use Rattle.markdown_inline_c.specs.Statuses.{fault_status};

use crate::answer::write_front;
use crate::check::check_document;
use crate::extensions::known_extensions;
use crate::fault::{DONE, Fault, TOO_SMALL};
use crate::flat::{DefinitionsCount, FlatTarget, Range};
use markdown_block_definitions::document::read;
use markdown_block_definitions::front::Definition;
use markdown_content::configuration::ParseOptions;
use markdown_html_model::resolve::{decoding_of, push_resolved};
use markdown_util::decoding::Decoding;
use std::alloc::{AllocError, Global};

/// Definitions, and the bytes among which their labels, destinations and titles stand.
#[derive(Drop)]
pub struct FoundDefinitions {
    /// The labels as they are written, and the destinations and titles with escapes and character references resolved.
    pub labels: Vec<u8>,
    /// Where the label of each definition stands.
    pub definitions: Vec<Range>,
    /// Where each definition leads.
    pub targets: Vec<FlatTarget>,
}

// Appends a text with its escapes and character references resolved, and returns where it stands.
fn push_text(
    alloc: Global,
    labels: &mut Vec<u8>,
    how: Decoding,
    text: &[u8],
) -> Result<Range, AllocError>
    ensures { IfOk result (IsAppendedText (resolved how text.now) labels.old.items labels.new.items) }
{
    let start = labels.len();
    push_resolved(alloc, labels, how, text)?;
    Ok(Range {
        start,
        end: labels.len(),
    })
}

// Appends a label, and returns where it stands.
fn push_label(labels: &mut Vec<u8>, label: &[u8]) -> Result<Range, AllocError>
    ensures { IfOk result (IsAppendedText label.now labels.old.items labels.new.items) }
{
    let start = labels.len();
    labels.extend_from_slice(label)?;
    Ok(Range {
        start,
        end: labels.len(),
    })
}

// Appends the destination of a definition and its title, resolved, and returns where they stand.
fn push_target(
    alloc: Global,
    labels: &mut Vec<u8>,
    how: Decoding,
    definition: &Definition,
) -> Result<FlatTarget, AllocError>
    ensures { IfOk result (IsTargetOf how (texts_of definition.now) labels.old.items labels.new.items) }
{
    let destination = push_text(alloc, labels, how, definition.destination.as_slice())?;
    let (title, has_title) = match &definition.title {
        None => (push_label(labels, b"")?, 0),
        Some(title) => (push_text(alloc, labels, how, title.as_slice())?, 1),
    };
    Ok(FlatTarget {
        destination,
        title,
        has_title,
        reserved: 0,
    })
}

impl FoundDefinitions {
    // Appends a definition.
    fn push(
        &mut self,
        alloc: Global,
        how: Decoding,
        definition: &Definition,
    ) -> Result<(), AllocError>
        ensures { OnOk result ((ts : List Texts) → HasUtf8Texts definition.now → AreWritten how self.old.labels.items ts self.old.definitions.items self.old.targets.items
            → AreWritten how self.new.labels.items (ts ++ texts_of definition.now ∷ []) self.new.definitions.items self.new.targets.items) }
    {
        let label = push_label(&mut self.labels, definition.label.as_slice())?;
        let target = push_target(alloc, &mut self.labels, how, definition)?;
        self.definitions.push(label)?;
        self.targets.push(target)?;
        Ok(())
    }
}

// The definitions with their texts one behind another.
fn flat_definitions(
    alloc: Global,
    how: Decoding,
    definitions: &[Definition],
) -> Result<FoundDefinitions, AllocError>
    requires { All HasUtf8Texts definitions.now }
    ensures { IfOk result (λ found. AreWritten how found.labels.items (map texts_of definitions.now) found.definitions.items found.targets.items) }
{
    let mut found = FoundDefinitions {
        labels: Vec::new(alloc),
        definitions: Vec::new(alloc),
        targets: Vec::new(alloc),
    };
    for definition in definitions {
        found.push(alloc, how, definition)?;
    }
    Ok(found)
}

/// The definitions of a document, read with the blocks that these bits ask for, or why it is refused.
pub fn found_definitions(alloc: Global, bits: u32, bytes: &[u8]) -> Result<FoundDefinitions, Fault>
    ensures definitions { IfOk result (λ found. AreDefinitions bits bytes.now found.labels.items found.definitions.items found.targets.items) }
    ensures known { IfOk result (λ _. AreKnownBlocks bits) }
    ensures document { IfOk result (λ _. IsDocument bytes.now) }
    ensures err { IfErr result (IsBlocksFault bits bytes.now) }
{
    let extensions = known_extensions(bits)?;
    if let Err(refusal) = check_document(bytes) {
        return Err(refusal.fault);
    }
    let rules = ParseOptions {
        commonmark: true,
        ..ParseOptions::default()
    };
    let found = read(alloc, extensions, bytes)?;
    let definitions = flat_definitions(alloc, decoding_of(&rules), found.definitions.as_slice())?;
    Ok(definitions)
}

/// Hands out definitions where there is room for all of them, or else says why not by its status.
pub fn answer_definitions(
    found: Result<FoundDefinitions, Fault>,
    labels: &mut [u8],
    ranges: &mut [Range],
    targets: &mut [FlatTarget],
    count: &mut DefinitionsCount,
) -> u32
    ensures ok { IfOk found (λ found. AreDefinitionsHandedOut found.labels.items labels.old labels.new found.definitions.items ranges.old ranges.new found.targets.items targets.old targets.new count.new result) }
    ensures err { IfErr found (λ fault. (result ≡ fault_status fault) × ((labels.new ≡ labels.old) × ((ranges.new ≡ ranges.old) × ((targets.new ≡ targets.old) × (count.new ≡ count.old))))) }
{
    match found {
        Ok(found) => {
            *count = DefinitionsCount {
                definitions: found.definitions.len(),
                labels: found.labels.len(),
            };
            if found.labels.len() > labels.len()
                || found.definitions.len() > ranges.len()
                || found.targets.len() > targets.len()
            {
                return TOO_SMALL;
            }
            write_front(found.labels.as_slice(), labels);
            write_front(found.definitions.as_slice(), ranges);
            write_front(found.targets.as_slice(), targets);
            DONE
        }
        Err(fault) => fault.status(),
    }
}
