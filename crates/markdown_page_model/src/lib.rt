//! What the HTML of a Markdown document is, by CommonMark 0.31.2: the definition, in `specs/`, and the laws on it.
//!
//! Nothing here is run. A function of this crate has no parameters and an empty body: its contract is a law, and the check proves it.
#![tactic(auto)]

ghost use Rattle.markdown_page_model.specs.PageLaws.{TextsAreBytes, NoMarkupFromDocument, NoScriptFromDocument};

/// The text of a line is its bytes: no byte is lost, and a tab that is not cut stays a tab.
pub fn texts_are_bytes()
    ensures { TextsAreBytes }
{}

/// No text of a document becomes markup. With raw HTML off the HTML of any document, read with any options, is a sequence of texts without `<`, `>` and `"` and of elements of a
/// list, balanced and nested.
///
/// The elements are `p`, `h1` to `h6`, `pre` with `code`, `hr`, `blockquote`, `ul`, `ol` and `li`, and those of inline markup, each with the attributes that
/// the list gives it. The value of an attribute holds no `<`, `>` or `"`.
pub fn no_markup_from_document()
    ensures { NoMarkupFromDocument }
{}

/// No link leads to a script. With raw HTML off and safe schemes alone, each `href` and `src` of the page is empty, relative, or of a scheme of the list.
pub fn no_script_from_document()
    ensures { NoScriptFromDocument }
{}
