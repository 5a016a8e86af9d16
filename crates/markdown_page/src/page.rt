//! The HTML of a document whose blocks and definitions are read.

ghost use Rattle.std.specs.Prelude.{◌≡◌, [], All, IfErr, IfOk, map, string_bytes};
ghost use Rattle.markdown_block_definitions.specs.ResolvedRows.{IsTextRow};
ghost use Rattle.markdown_block_model.specs.BlockTree as model;
ghost use Rattle.markdown_blocks.specs.BlockRows.{rows_from};
ghost use Rattle.markdown_blocks.specs.NestedRows.{AreNested};
ghost use Rattle.markdown_page_model.specs.PageHtml.{document_html};
ghost use Rattle.markdown_page.specs.DocumentBrought.{IsBeyond, document_brought};
ghost use Rattle.markdown_page.specs.BroughtSoFar.{IsStop};
ghost use Rattle.markdown_page.specs.GivenPage.{IsReadBy};
ghost use Rattle.markdown_page.specs.ListPlaces.{places_in};

use crate::given::Given;
use crate::limit::Stop;
use crate::lists::Place;
use crate::write::write;
use markdown_blocks::block::Row;
use markdown_document::document::Document;
use markdown_html::targets::Targets;
use markdown_html_model::options::HtmlOptions;
use std::alloc::Global;

// The HTML of a document, of its rows with their places, and of what its labels are defined to be, if definitions bring no more to it than the limit, where
// there is one.
pub(crate) fn page_html(
    alloc: Global,
    document: &Document,
    targets: &Targets,
    options: HtmlOptions,
    rows: &[Row],
    places: &[Place],
    limit: Option<usize>,
) -> Result<Vec<u8>, Stop>
    requires footnotes { map string_bytes document.now.gfm_footnote_definitions.items ≡ [] }
    requires nested { AreNested 0 rows.now }
    requires texts { All (IsTextRow document.now.bytes.now) rows.now }
    requires places { places.now ≡ places_in None (rows_from document.now.bytes.now model.nothing rows.now) }
    ensures html { (x : model.Extensions) → IsReadBy x document.now targets.now rows.now
        → IfOk result (λ html. html.items ≡ document_html document.now.options.now x options document.now.bytes.now) }
    ensures within { (x : model.Extensions) → IsReadBy x document.now targets.now rows.now
        → IfOk result (λ _. IsBeyond limit (document_brought document.now.options.now x options document.now.bytes.now) → ⊥) }
    ensures stop { (x : model.Extensions) → IsReadBy x document.now targets.now rows.now
        → IfErr result (IsStop limit (document_brought document.now.options.now x options document.now.bytes.now)) }
{
    let given = Given {
        document,
        targets,
        options,
    };
    write(alloc, &given, rows, places, limit)
}
