//! The HTML of a document (CommonMark 0.31.2).

ghost use Rattle.std.specs.Prelude.{◌≡◌, ◌≤◌, ◌==◌, if◌then◌else◌, None, false, true, length, IfOk, IfSome, MatchOption};
ghost use Rattle.markdown_content.specs.Content.{document_limit};
ghost use Rattle.markdown_content.specs.KnownPlaces.{IsDocument};
ghost use Rattle.markdown_block_line.specs.LineBlocks.{extensions_of};
ghost use Rattle.markdown_page.specs.DocumentBrought.{IsPage, HoldsOfHtml};
ghost use Rattle.markdown_page_model.specs.PageHtml.{document_html};
ghost use Rattle.markdown_page_model.specs.PageMarkup.{IsOwnPage};

use crate::definitions::{identifiers, targets};
use crate::limit::Stop;
use crate::lists::places;
use crate::page::page_html;
use markdown_block_definitions::document::read;
use markdown_block_definitions::front::Definition;
use markdown_block_line::extensions::Extensions;
use markdown_content::configuration::ParseOptions;
use markdown_content::content::DOCUMENT_LIMIT;
use markdown_content::parser::ParseState;
use markdown_document::document::Document;
use markdown_html_model::options::HtmlOptions;
use markdown_html_model::resolve::decoding_of;
use markdown_page_model::{no_markup_from_document, no_script_from_document};
use std::alloc::{AllocError, Global};

/// The HTML of a document, or why there is none.
#[derive(Drop)]
pub enum Page {
    /// The HTML.
    Html(Vec<u8>),
    /// The bytes are not UTF-8, or are more than `usize::MAX / 8`.
    NoDocument,
    /// Definitions bring more than the limit.
    BeyondLimit,
}

// The limit, where there are definitions; without them nothing is brought.
fn limit_with(definitions: &[Definition], limit: Option<usize>) -> Option<usize>
    ensures { result ≡ (if length definitions.now == 0 then None else limit) }
{
    if definitions.is_empty() { None } else { limit }
}

// The HTML of a document, if definitions bring no more to it than the limit, where there is one.
fn html_of(
    alloc: Global,
    bytes: &[u8],
    extensions: Extensions,
    reading: &ParseOptions,
    options: HtmlOptions,
    limit: Option<usize>,
) -> Result<Page, AllocError>
    requires fits { length bytes.now ≤ document_limit }
    ensures { IfOk result (IsPage reading.now (extensions_of extensions) options bytes.now limit) }
{
    let found = read(alloc, extensions, bytes)?;
    let definitions = found.definitions.as_slice();
    let parse_state = ParseState {
        bytes,
        options: reading,
        definitions: identifiers(alloc, definitions)?,
        gfm_footnote_definitions: Vec::new(alloc),
    };
    let Some(document) = Document::new(alloc, parse_state)? else {
        return Ok(Page::NoDocument);
    };
    let targets = targets(alloc, decoding_of(reading), definitions)?;
    let rows = found.blocks.rows.as_slice();
    let places = places(alloc, bytes, rows)?;
    let places = places.as_slice();
    let limit = limit_with(definitions, limit);
    match page_html(alloc, &document, &targets, options, rows, places, limit) {
        Ok(html) => Ok(Page::Html(html)),
        Err(Stop::BeyondLimit) => Ok(Page::BeyondLimit),
        Err(Stop::Memory) => Err(AllocError),
    }
}

/// Returns the HTML of a Markdown document, if definitions bring no more to it than a limit. None is no limit.
///
/// `extensions`, `reading` and `options` are as in `to_html`.
///
/// A definition brings the bytes of its destination and of its title to each link and image that refers to it, so n references to one definition of n bytes
/// bring n * n bytes. Where all definitions together bring more than the limit, nothing is written of the text that goes beyond it, or of what stands behind.
///
/// Of the HTML holds what `to_html` says. The only error is that memory was refused.
pub fn to_html_within(
    alloc: Global,
    bytes: &[u8],
    extensions: Extensions,
    reading: &ParseOptions,
    options: HtmlOptions,
    limit: Option<usize>,
) -> Result<Page, AllocError>
    ensures exact { IfOk result (IsPage reading.now (extensions_of extensions) options bytes.now limit) }
    ensures own { options.raw_html ≡ false → IfOk result (HoldsOfHtml (IsOwnPage true)) }
    ensures safe { options.raw_html ≡ false → options.any_link ≡ false → IfOk result (HoldsOfHtml (IsOwnPage false)) }
{
    if bytes.len() > DOCUMENT_LIMIT {
        return Ok(Page::NoDocument);
    }
    // so no text becomes markup, and no link leads to a script
    no_markup_from_document();
    no_script_from_document();
    html_of(alloc, bytes, extensions, reading, options, limit)
}

/// Returns the HTML of a Markdown document: of its blocks, and of the text inside them. There is none exactly where the bytes are not UTF-8, or are more than
/// `usize::MAX / 8`.
///
/// `extensions` are the blocks that are read beside CommonMark's. Front matter is left out of the HTML; code fenced with dollars has the classes `language-math` and
/// `math-display`. `reading` are the options of the inline layer, any of them; `ParseOptions { commonmark: true, ..ParseOptions::default() }` is CommonMark. With
/// `gfm_task_list_item` a paragraph that is the first block of a list item may begin with a checkbox. Documents have no footnote definitions, so with
/// `gfm_label_start_footnote` no footnote is called.
///
/// With raw HTML off no text becomes markup: the page is texts without `<`, `>` and `"`, and elements of a list, balanced and nested. Where `any_link` is off
/// too, each `href` and `src` in it is empty, relative, or of a listed scheme, as a browser reads it.
///
/// Nothing limits what definitions bring: n references to a definition of n bytes write n * n bytes. `to_html_within` takes a limit. The only error is that
/// memory was refused.
pub fn to_html(
    alloc: Global,
    bytes: &[u8],
    extensions: Extensions,
    reading: &ParseOptions,
    options: HtmlOptions,
) -> Result<Option<Vec<u8>>, AllocError>
    ensures exact { IfOk result (λ page. MatchOption page (IsDocument bytes.now → ⊥)
        (λ html. IsDocument bytes.now × (html.items ≡ document_html reading.now (extensions_of extensions) options bytes.now))) }
    ensures own { options.raw_html ≡ false → IfOk result (λ page. IfSome page (λ html. IsOwnPage true html.items)) }
    ensures safe { options.raw_html ≡ false → options.any_link ≡ false → IfOk result (λ page. IfSome page (λ html. IsOwnPage false html.items)) }
{
    match to_html_within(alloc, bytes, extensions, reading, options, None)? {
        Page::Html(html) => Ok(Some(html)),
        // nothing goes beyond no limit
        Page::NoDocument | Page::BeyondLimit => Ok(None),
    }
}
