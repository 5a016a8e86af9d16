//! Laws: each function stands for the law that its contract states.

ghost use Rattle.std.specs.Prelude.{◌≡◌, List, ℕ, true};
ghost use Rattle.markdown_html_model.specs.Escaped.{addressed, has_no_markup, escaped};
ghost use Rattle.markdown_html_model.specs.HtmlLaws.{NoMarkupFromText, NoScriptFromLinks};

/// No `<`, `>` or `"` stands in an escaped text.
pub fn no_markup_in_text()
    ensures { (text : List ℕ) → has_no_markup (escaped text) ≡ true }
{}

/// No `<`, `>` or `"` stands in an address as it is written.
pub fn no_markup_in_addresses()
    ensures { (address : List ℕ) → has_no_markup (addressed address) ≡ true }
{}

/// No text of a document becomes markup. With raw HTML off the HTML of any tree, over any document and definitions, is a sequence of text without
/// `<`, `>` and `"` and of elements of a list, balanced and nested.
///
/// The elements are `em`, `strong`, `del`, `code`, `sup`, `a`, `br`, `img` and `input`, each with the attributes that the list gives it. The value of an
/// attribute holds no `<`, `>` or `"`. An `a` may stand in an `a`, since an autolink may stand in the text of a link; a browser ends the outer one early.
pub fn no_markup_from_text()
    ensures { NoMarkupFromText }
{}

/// No link leads to a script. With raw HTML off and safe schemes alone, each `href` and `src` is empty, relative, or of a scheme of the list.
///
/// The scheme is the one that a browser reads, before references are read and after. No reference stands in an address but `&amp;`.
pub fn no_script_from_links()
    ensures { NoScriptFromLinks }
{}
