//! Worked examples of pages: documents, and their HTML by the definition of `markdown_page_model`.
//!
//! Nothing here is run. A function of this crate has no parameters and an empty body: its contract says that examples hold, and the check
//! proves it.
#![tactic(auto)]

ghost use Rattle.markdown_page_examples.specs.ChosenPages.{ChosenPages};
ghost use Rattle.markdown_page_examples.specs.StandardPages.{StandardPages};

/// The examples of CommonMark have their HTML.
pub fn standard_pages()
    ensures { StandardPages }
{}

/// What the examples of CommonMark do not show of HTML, or say in two ways.
pub fn chosen_pages()
    ensures { ChosenPages }
{}
