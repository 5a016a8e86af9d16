//! The link reference definitions of a document (CommonMark 4.7), as the HTML of its texts needs them.

ghost use Rattle.std.specs.Prelude.{◌≡◌, List, map, true, option_map, string_bytes, IsUtf8, IfOk, IfSome, All};
ghost use Rattle.markdown_util.specs.Identifier.{identifier_by};
ghost use Rattle.markdown_html_model.specs.Resolved.{resolved};
ghost use Rattle.markdown_html.specs.DefinitionView.{defined_of};
ghost use Rattle.markdown_block_model.specs.LinkDefinitions as link_definitions;
ghost use Rattle.markdown_block_model.specs.LinkDefinitions.{identifier};
ghost use Rattle.markdown_page_model.specs.PageHtml.{defined_by};
ghost use Rattle.markdown_block_definitions.specs.DefinitionTexts.{items_of, texts_of};
ghost use Rattle.markdown_page.specs.DefinitionStrings.{AreTextsOf, HasTextLabel, IsTextual, HasTexts, defined_in};

use markdown_block_definitions::front::Definition;
use markdown_html::targets::Targets;
use markdown_html_model::options;
use markdown_html_model::resolve::push_resolved;
use markdown_util::decoding::Decoding;
use markdown_util::util::normalize_identifier::identifier_by;
use std::alloc::{AllocError, Global};

// The identifier of a definition.
fn name_of(alloc: Global, definition: &Definition) -> Result<String, AllocError>
    ensures { IfOk result (λ name. IsUtf8 definition.now.label.items → string_bytes name ≡ identifier_by true definition.now.label.items) }
{
    let label = String::from_utf8_lossy(alloc, definition.label.as_slice())?;
    let name = identifier_by(alloc, label.as_str(), true)?;
    Ok(name)
}

// A text with its escapes and character references resolved.
fn resolved_text(alloc: Global, how: Decoding, text: &[u8]) -> Result<String, AllocError>
    ensures { IfOk result (λ read. IsUtf8 (resolved how text.now) → string_bytes read ≡ resolved how text.now) }
{
    let mut bytes = Vec::new(alloc);
    push_resolved(alloc, &mut bytes, how, text)?;
    let read = String::from_utf8_lossy(alloc, bytes.as_slice())?;
    Ok(read)
}

// The title of a definition, resolved in the same way.
fn resolved_title(
    alloc: Global,
    how: Decoding,
    definition: &Definition,
) -> Result<Option<String>, AllocError>
    ensures { IfOk result (λ read. IfSome (items_of definition.now.title) (λ title. IsUtf8 (resolved how title)) → option_map string_bytes read ≡ option_map (resolved how) (items_of definition.now.title)) }
{
    match &definition.title {
        None => Ok(None),
        Some(title) => {
            let read = resolved_text(alloc, how, title.as_slice())?;
            Ok(Some(read))
        }
    }
}

// What a definition defines.
fn target_of(
    alloc: Global,
    how: Decoding,
    definition: &Definition,
) -> Result<options::Definition, AllocError>
    ensures { IfOk result (λ target. IsTextual how (texts_of definition.now) → defined_of target ≡ defined_in how (texts_of definition.now)) }
{
    let identifier = name_of(alloc, definition)?;
    let destination = resolved_text(alloc, how, definition.destination.as_slice())?;
    let title = resolved_title(alloc, how, definition)?;
    Ok(options::Definition {
        identifier,
        destination,
        title,
    })
}

/// Returns the identifiers of definitions, in their order. A NUL in a label is read as U+FFFD.
///
/// The labels are those of a document of UTF-8. The only error is that memory was refused.
pub fn identifiers(alloc: Global, definitions: &[Definition]) -> Result<Vec<String>, AllocError>
    ensures { IfOk result (λ names. (ds : List link_definitions.Definition) → AreTextsOf definitions.now ds → All HasTextLabel ds → map string_bytes names.items ≡ map identifier ds) }
{
    let mut names = Vec::new(alloc);
    for definition in definitions {
        let name = name_of(alloc, definition)?;
        names.push(name)?;
    }
    Ok(names)
}

/// Returns what definitions define, in their order, with escapes and character references resolved. `how` says how references are decoded.
///
/// The definitions are those of a document of UTF-8. The only error is that memory was refused.
pub fn targets(
    alloc: Global,
    how: Decoding,
    definitions: &[Definition],
) -> Result<Targets, AllocError>
    ensures { IfOk result (λ found. (ds : List link_definitions.Definition) → AreTextsOf definitions.now ds → All (HasTexts how) ds → found ≡ map (defined_by how) ds) }
{
    let mut found = Targets::new(alloc);
    for definition in definitions {
        let target = target_of(alloc, how, definition)?;
        found.push(target)?;
    }
    Ok(found)
}
