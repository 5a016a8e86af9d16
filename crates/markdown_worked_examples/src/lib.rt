//! Worked examples of the inline layer and of its HTML, from the bytes of a document to events and to those of HTML, by the definitions of
//! `markdown_model` and `markdown_html_model`.
//!
//! Nothing here is run. A function of this crate has no parameters and an empty body: its contract says that examples hold, and the check
//! proves it.
#![tactic(auto)]

ghost use Rattle.markdown_worked_examples.specs.Examples.{Examples};
ghost use Rattle.markdown_worked_examples.specs.RuleRows.{RuleRows};
ghost use Rattle.markdown_worked_examples.specs.SpecificationRows.{SpecificationRows};

/// The worked examples hold that stand in `tools/rules`, one list for each of its files.
pub fn examples()
    ensures { Examples }
{}

/// Examples of CommonMark's specification have its HTML.
pub fn specification_rows()
    ensures { SpecificationRows }
{}

/// What the specification has no example for: strikethrough, math spans, task checks, literals, footnotes, raw HTML as text, addresses that are not
/// safe, and plain text.
pub fn rule_rows()
    ensures { RuleRows }
{}
