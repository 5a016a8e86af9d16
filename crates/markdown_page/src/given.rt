//! What is given beside the blocks of a document.

use markdown_document::document::Document;
use markdown_html::targets::Targets;
use markdown_html_model::options::HtmlOptions;

// What is given beside the blocks of a document: the document, what its labels lead to, and what may be written.
#[derive(Clone, Copy)]
pub(crate) struct Given<'a> {
    pub(crate) document: &'a Document<'a>,
    pub(crate) targets: &'a Targets,
    pub(crate) options: HtmlOptions,
}
