//! The kinds of labels.

/// What kind of label a start begins.
#[derive(Clone, Copy)]
pub enum LabelKind {
    /// `![`: an image.
    Image,
    /// `[`: a link.
    Link,
    /// `[^`: a footnote call.
    GfmFootnote,
    /// `[^` where no such footnote is defined: a link whose text begins with the caret.
    GfmUndefinedFootnote,
}
