//! What is handed in beside a tree, and what may be written.
ghost use Rattle.std.specs.Prelude.{◌≡◌, false};
ghost use Rattle.markdown_html_model.specs.declared.options.LineEnds.{LineEnds};

/// What is written of a line ending of the text. In spans it is a space, in descriptions of images and in titles a line feed.
#[derive(Clone, Copy, Debug, PartialEq, Eq)]
pub enum LineEnds {
    /// The line ending as it stands.
    Kept,
    /// A line feed.
    Lf,
    /// A carriage return and a line feed.
    CrLf,
}

/// What may be written, and how.
#[derive(Clone, Copy, Debug, PartialEq, Eq)]
pub struct HtmlOptions {
    /// Whether raw HTML is written as it stands, and not as text.
    pub raw_html: bool,
    /// Whether links and images lead wherever they say, and not only to addresses that run nothing.
    pub any_link: bool,
    /// What is written of line endings.
    pub line_ends: LineEnds,
}

impl HtmlOptions {
    /// The options with which nothing runs that the text brings: raw HTML is written as text, and links lead to listed schemes alone. Line endings stay.
    pub fn safe() -> HtmlOptions
        ensures { result ≡ record { raw_html = false; any_link = false; line_ends = LineEnds.Kept } }
    {
        HtmlOptions {
            raw_html: false,
            any_link: false,
            line_ends: LineEnds::Kept,
        }
    }
}

/// What a label is defined to be.
#[derive(Debug, Drop)]
pub struct Definition {
    /// The identifier of the label, normalized by `normalize_identifier`.
    pub identifier: String,
    /// Where it leads, with escapes and character references resolved.
    pub destination: String,
    /// The title, if it has one, resolved alike.
    pub title: Option<String>,
}
