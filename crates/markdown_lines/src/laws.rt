//! Laws on pieces of lines. Nothing here is run: a function has no parameters and an empty body, and its contract is a law.

ghost use Rattle.markdown_lines.specs.LineLaws.{LinesAreAText};

/// In UTF-8 that is no longer than a document may be, the pieces of lines are a text of it.
pub fn lines_are_a_text()
    ensures { LinesAreAText }
{}
