//! What is read of a document, between its lines.

ghost use Rattle.std.specs.Prelude.{◌≡◌};
ghost use Rattle.markdown_blocks.specs.BlockRows.{row_count};

use crate::block::{Leaf, Row};
use crate::path::Path;

/// What is read of a document: the blocks that are closed, the containers that the next line may continue, and the leaf that it may continue.
#[derive(Drop)]
pub struct Reader {
    /// The blocks that are closed, in the order of the document.
    pub rows: Vec<Row>,
    /// The open containers.
    pub path: Path,
    /// The open leaf.
    pub open: Option<Leaf>,
}

impl Reader {
    /// Returns how many blocks are read.
    pub fn count(&self) -> usize
        ensures { result ≡ row_count self.now }
    {
        match &self.open {
            None => self.rows.len(),
            Some(_) => self.rows.len() + 1,
        }
    }
}
