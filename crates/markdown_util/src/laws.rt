//! Laws: each function stands for the law that its contract states.

ghost use Rattle.std.specs.Prelude.{IsTrue};
ghost use Rattle.markdown_util.specs.IdentifierLaws.{ConstantsHoldRows, are_lines_of, IdentifierLaw, UnchangedLaw};
ghost use Rattle.markdown_util.specs.Reference.{html_4_rows, html_5_rows, html_rows, is_sorted, IsTable};

/// Two texts that differ only in the kind and length of runs of TAB, LF, CR and space, and in such
/// runs at the ends, have one identifier.
pub fn identifier()
    ensures { IdentifierLaw }
{}

/// The names of each table are distinct, stand in the order of their bytes, and are 1 to 31 ASCII letters and digits.
/// Each line of HTML 5 as it is shipped is one of HTML. And `CHARACTER_REFERENCES` and `CHARACTER_REFERENCES_HTML_4`
/// hold the lines of their tables, as `CHARACTER_REFERENCES_HTML` does by definition.
pub fn tables()
    ensures html_4 { IsTable html_4_rows }
    ensures html_4_sorted { IsTrue (is_sorted html_4_rows) }
    ensures html_5 { IsTable html_5_rows }
    ensures html_5_sorted { IsTrue (is_sorted html_5_rows) }
    ensures html { IsTable html_rows }
    ensures html_sorted { IsTrue (is_sorted html_rows) }
    ensures html_5_kept { IsTrue (are_lines_of html_5_rows html_rows) }
    ensures constants { ConstantsHoldRows }
{}

/// A text without `&` is parsed to itself.
pub fn unchanged()
    ensures { UnchangedLaw }
{}
