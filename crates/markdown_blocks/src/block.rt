//! The blocks of a document as rows, in its order.

use markdown_block_line::containers::Container;
use markdown_block_line::starts::Fence;
use markdown_content::parser::Piece;

/// What holds no blocks (CommonMark 4). A text is pieces of the document, one for each line of it.
#[derive(Drop)]
pub enum Leaf {
    /// A blank line.
    Blank,
    /// A thematic break.
    ThematicBreak,
    /// A heading of number signs: its level, and its text.
    Heading(usize, Piece),
    /// A paragraph that an underline made a heading: its level, and its text with the whitespace at its end.
    Underlined(usize, Vec<Piece>),
    /// A paragraph, with the link reference definitions at its front and the whitespace at its end.
    Paragraph(Vec<Piece>),
    /// Indented code.
    IndentedCode(Vec<Piece>),
    /// Fenced code: its fence, its info string, its lines, and whether it is ended.
    FencedCode(Fence, Piece, Vec<Piece>, bool),
    /// HTML: its kind, its text, and whether it is ended.
    Html(usize, Vec<Piece>, bool),
    /// Front matter: the lines between its fences.
    FrontMatter(Vec<Piece>),
}

/// A block, and how many containers stand round it.
#[derive(Drop)]
pub enum Row {
    /// A leaf, which stands so deep.
    LeafAt(usize, Leaf),
    /// A container, which stands so deep.
    ContainerAt(usize, Container),
}

/// The blocks of a document, in its order: what a container holds stands behind it, one deeper.
#[derive(Drop)]
pub struct Blocks {
    /// The blocks.
    pub rows: Vec<Row>,
    /// The number of the line on which each of them begins. The first line has the number 1.
    pub lines: Vec<usize>,
}
