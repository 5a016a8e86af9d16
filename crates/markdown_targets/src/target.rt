//! Where something leads.

/// An address that stands in the document, as text.
#[derive(Debug, Drop)]
pub struct Address {
    /// The destination, with escapes and character references resolved; with its scheme where the document leaves it out.
    pub destination: Vec<u8>,
    /// The title, if there is one, resolved alike.
    pub title: Option<Vec<u8>>,
}

/// Where something leads.
#[derive(Debug, Drop)]
pub enum Target {
    /// To the address that it has.
    Here(Address),
    /// To where the definition of this number leads.
    Definition(usize),
    /// To the footnote of this number.
    Footnote(usize),
}
