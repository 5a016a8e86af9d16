//! The HTML of a document.

ghost use Rattle.std.specs.Prelude.{◌≡◌, ◌==◌, IfErr, IfOk};
ghost use Rattle.std.specs.List.{list_all};
ghost use Rattle.markdown_inline_c.specs.FlatDocuments.{AreDocumentOptions, IsDocumentAnswer, IsDocumentHtmlRefused, IsDocumentInput, IsReadingKnown, html_of_document, reading_of, reserves_nothing};
ghost use Rattle.markdown_block_line.specs.LineBlocks.{extensions_of};
ghost use Rattle.markdown_inline_c.specs.FlatExtensions.{extensions_in};
ghost use Rattle.markdown_inline_c.specs.FlatHtml.{html_options_of};
ghost use Rattle.markdown_inline_c.specs.declared.fault.Fault.TheVariants.{UnknownOption};

use crate::answer::answer;
use crate::check::check_document;
use crate::extensions::known_extensions;
use crate::fault::{DONE, Fault};
use crate::flat::DocumentOptions;
use crate::html::{self, limit_in};
use crate::input::{self, FIRST_OF_ITEM};
use crate::outcome::Outcome;
use crate::refusal::Refusal;
use markdown_block_line::extensions::Extensions;
use markdown_content::configuration::{ParseOptions, has_option};
use markdown_html_model::options::HtmlOptions;
use markdown_page::document::{Page, to_html_within};
use std::alloc::Global;

// The bit of footnote calls, which documents do not have.
const FOOTNOTE_CALLS: u32 = 0x40;

// Whether each of these words is 0.
fn are_zero(words: &[usize]) -> bool
    ensures { result ≡ list_all (λ word. word == 0) words.now }
{
    words.iter().all(|word| *word == 0)
}

// Whether the reserved words are 0.
fn reserves_nothing(options: &DocumentOptions) -> bool
    ensures { result ≡ reserves_nothing options.now }
{
    options.reserved == 0 && are_zero(&options.reserved_words)
}

// How texts of the document are read, if each bit is one of an option that documents have.
fn known_reading(options: u32) -> Result<ParseOptions, Fault>
    ensures ok { IfOk result (λ reading. IsReadingKnown options × (reading ≡ reading_of options)) }
    ensures err { IfErr result (λ fault. (fault ≡ UnknownOption) × (IsReadingKnown options → ⊥)) }
{
    if options == 0 {
        return Ok(ParseOptions {
            commonmark: true,
            ..ParseOptions::default()
        });
    }
    if has_option(options, FIRST_OF_ITEM) || has_option(options, FOOTNOTE_CALLS) {
        return Err(Fault::UnknownOption);
    }
    input::known_options(options)
}

// How the document is read and written, if each bit is known, and if the reserved words are 0.
fn known_options(
    options: &DocumentOptions,
) -> Result<(ParseOptions, Extensions, HtmlOptions), Fault>
    ensures known { IfOk result (λ _. AreDocumentOptions options.now) }
    ensures ok { IfOk result (λ found. (found.0 ≡ reading_of options.now.options)
        × ((extensions_of found.1 ≡ extensions_in options.now.blocks) × (found.2 ≡ html_options_of options.now.html))) }
    ensures err { IfErr result (λ fault. (fault ≡ UnknownOption) × (AreDocumentOptions options.now → ⊥)) }
{
    if !reserves_nothing(options) {
        return Err(Fault::UnknownOption);
    }
    Ok((
        known_reading(options.options)?,
        known_extensions(options.blocks)?,
        html::known_options(options.html, &[])?,
    ))
}

/// The HTML of a document to which definitions bring no more than the limit, or why it is refused.
#[tactic(auto, using(crate::proofs::DocumentLimits::beyond_limit, crate::proofs::DocumentLimits::within_limit))]
pub fn document_html(
    alloc: Global,
    bytes: &[u8],
    options: &DocumentOptions,
) -> Result<Vec<u8>, Refusal>
    ensures html { IfOk result (λ html. html.items ≡ html_of_document bytes.now options.now) }
    ensures input { IfOk result (λ _. IsDocumentInput bytes.now options.now) }
    ensures err { IfErr result (IsDocumentHtmlRefused bytes.now options.now) }
{
    let (reading, extensions, allowed) = known_options(options)?;
    check_document(bytes)?;
    let limit = limit_in(options.limit, bytes.len());
    match to_html_within(alloc, bytes, extensions, &reading, allowed, limit)? {
        Page::Html(html) => Ok(html),
        Page::NoDocument => Err(Refusal::from(Fault::NotUtf8)),
        Page::BeyondLimit => Err(Refusal::from(Fault::References)),
    }
}

/// Hands out the HTML of a document where there is room for it, or else says why not by its status.
pub fn write_document_html(
    alloc: Global,
    bytes: &[u8],
    options: &DocumentOptions,
    html: &mut [u8],
    outcome: &mut Outcome,
) -> u32
    ensures { IsDocumentAnswer bytes.now options.now html.old html.new outcome.new result }
{
    *outcome = Outcome::nothing();
    match document_html(alloc, bytes, options) {
        Ok(found) => {
            let status = answer(Ok(found), html, &mut outcome.count);
            if status == DONE {
                outcome.done = 1;
            }
            status
        }
        Err(refusal) => {
            outcome.blamed = refusal.blamed();
            refusal.fault.status()
        }
    }
}
