//! Names of resolvers.

/// A pass over the events of a finished run, named after what it settles.
#[derive(Clone, Copy, Debug, PartialEq, Eq)]
pub enum ResolveName {
    /// Brackets become links, images and footnote calls.
    Label,
    /// Runs of markers become emphasis and strikethrough.
    Attention,
    /// Neighbouring data become one.
    Data,
    /// Whitespace of a string is set apart.
    String,
    /// Whitespace of a text is set apart; a layer that reads email literals finds them here.
    Text,
}
