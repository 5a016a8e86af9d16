//! Worked examples of blocks: documents, and their trees by the definitions of `markdown_block_model`.
//!
//! Nothing here is run. A function of this crate has no parameters and an empty body: its contract says that examples hold, and the check
//! proves it.
#![tactic(auto)]

ghost use Rattle.markdown_block_examples.specs.BlocksOnLines.{BlocksOnLines};
ghost use Rattle.markdown_block_examples.specs.ChosenBlocks.{ChosenBlocks};
ghost use Rattle.markdown_block_examples.specs.ExtendedBlocks.{ExtendedBlocks};
ghost use Rattle.markdown_block_examples.specs.StandardBlocks.{StandardBlocks};

/// The examples of CommonMark have these blocks.
pub fn standard_blocks()
    ensures { StandardBlocks }
{}

/// What the examples of CommonMark do not show of blocks, or say in two ways.
pub fn chosen_blocks()
    ensures { ChosenBlocks }
{}

/// The blocks of some documents begin on these lines.
pub fn blocks_on_lines()
    ensures { BlocksOnLines }
{}

/// Blocks of GFM, of math and of front matter.
pub fn extended_blocks()
    ensures { ExtendedBlocks }
{}
