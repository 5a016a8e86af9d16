//! What the blocks of a Markdown document are, by CommonMark 0.31.2, and what GitHub adds: definitions, in `specs/`, and the laws on them.
//!
//! Nothing here is run. A function of this crate has no parameters and an empty body: its contract is a law, and
//! the check proves it.
#![tactic(auto)]

ghost use Rattle.markdown_block_model.specs.WholeForests.{LeavesHaveAllCodes};
ghost use Rattle.markdown_block_model.specs.BlockPlaces.{BlocksHavePlaces};
ghost use Rattle.markdown_block_model.specs.SiblingTrees.{SiblingsStand, DefinitionsStand, LinesStandAlone};
ghost use Rattle.markdown_block_model.specs.BlockLaws.{ContainersHold, QuotesHold, ItemsHold, LeavesInOrder, TextsAreContents, StepsSuffice, BlocksBeginOnLines, BlocksNeedExtensions, OneDefinition};

/// A container holds what its lines are inside it (CommonMark 5.1 and 5.2).
pub fn containers_hold()
    ensures { ContainersHold }
{}

/// `>` and a blank before each line make one quote of what the lines are (CommonMark 5.1, the first rule).
pub fn quotes_hold()
    ensures { QuotesHold }
{}

/// A bullet and a blank before the first line, and two blanks before each further one, make an item of what the lines are (CommonMark 5.2, the first rule).
pub fn items_hold()
    ensures { ItemsHold }
{}

/// The leaves hold codes of the document, in order: nothing is moved, doubled or made.
pub fn leaves_in_order()
    ensures { LeavesInOrder }
{}

/// The text of each paragraph and of each heading is a text content: no line of it is blank, and it neither begins nor ends with whitespace. Each row of a
/// table has as many cells as there are columns.
pub fn texts_are_contents()
    ensures { TextsAreContents }
{}

/// The number of steps that the definition counts down is enough: a line begins no more containers than it has codes.
pub fn steps_suffice()
    ensures { StepsSuffice }
{}

/// Each block of a document begins on a line: no line takes a block away.
pub fn blocks_begin_on_lines()
    ensures { BlocksBeginOnLines }
{}

/// Of several definitions with one identifier the first counts (CommonMark 4.7).
pub fn one_definition()
    ensures { OneDefinition }
{}

/// Lines on siblings make of them what they would alone, whatever stands before.
pub fn siblings_stand()
    ensures { SiblingsStand }
{}

/// Lines of which the first begins a block behind all siblings make behind other lines what they make as a document.
pub fn lines_stand_alone()
    ensures { LinesStandAlone }
{}

/// The definitions of siblings behind siblings are those of the first, and then those of the second.
pub fn definitions_stand()
    ensures { DefinitionsStand }
{}

/// Each block that a line brings has the place at which it begins.
pub fn blocks_have_places()
    ensures { BlocksHavePlaces }
{}

/// The leaves of a filled tree have all codes of the document, each once and in order.
pub fn leaves_have_all_codes()
    ensures { LeavesHaveAllCodes }
{}

/// Without extensions no table, footnote definition, math or front matter is in the tree of a document: each needs its extension.
pub fn blocks_need_extensions()
    ensures { BlocksNeedExtensions }
{}
