//! The walk over the rows of a document, and the HTML that it writes.

ghost use Rattle.std.specs.Prelude.{◌≡◌, ◌≤◌, ◌+◌, ℕ, suc, false, Option, None, All, IfErr, OnOk, IfOk, map, length};
ghost use Rattle.markdown_block_definitions.specs.ResolvedRows.{IsTextLeaf, IsTextRow};
ghost use Rattle.markdown_block_line.specs.LineBlocks.{container_of};
ghost use Rattle.markdown_block_model.specs.BlockTree as model;
ghost use Rattle.markdown_blocks.specs.BlockRows.{leaf_of, rows_from};
ghost use Rattle.markdown_blocks.specs.NestedRows.{AreNested};
ghost use Rattle.markdown_page_model.specs.PageHtml.{no_item, tree_html};
ghost use Rattle.markdown_page.specs.DocumentBrought.{IsBeyond, tree_brought};
ghost use Rattle.markdown_page.specs.BroughtSoFar.{IsStop};
ghost use Rattle.markdown_page.specs.GivenPage.{bytes_of, setting_of, page_of};
ghost use Rattle.markdown_page.specs.ListPlaces.{places_in};
ghost use Rattle.markdown_page.specs.PlacedTree.{PlacedTree, without_places, nothing, and_leaf, and_container, at_depth, holder_in, holder_of, is_item, is_tight, with_placed_row};
ghost use Rattle.markdown_page.specs.WriterStates.{IsWrittenSoFar, depth, placed_of, row_depth, depth_behind};

use crate::given::Given;
use crate::leaves::{LeafPosition, is_first_after, is_in_line_behind, push_leaf};
use crate::limit::Stop;
use crate::lists::Place;
use crate::tags::{push_closing, push_opening};
use markdown_block_line::containers::Container;
use markdown_blocks::block::{Leaf, Row};
use std::alloc::{AllocError, Global};

// A container that is open, and its place.
#[derive(Clone, Copy)]
struct OpenContainer {
    container: Container,
    place: Place,
}

// What is written so far.
#[derive(Drop)]
struct Writer {
    out: Vec<u8>,
    // The containers that are open, the outermost first.
    opened: Vec<OpenContainer>,
    // Whether no line begins behind what is written.
    in_line: bool,
    // Whether the next block is the first one of an item (GFM 5.3).
    is_first: bool,
    // How many bytes definitions may still bring; none where there is no limit.
    left: Option<usize>,
}

fn is_item(container: Container) -> bool
    ensures { result ≡ is_item (container_of container) }
{
    match container {
        Container::Quote => false,
        Container::Item(_, _) => true,
    }
}

// Whether what stands right in a container stands in an item of a tight list.
fn is_tight_in(last: OpenContainer) -> bool
    ensures { let c = placed_of last in result ≡ is_tight (holder_in c.container c.place) }
{
    is_item(last.container) && !last.place.is_loose
}

impl Writer {
    // Whether what comes next stands right in an item of a tight list.
    fn is_tight(&self) -> bool
        ensures { result ≡ is_tight (holder_of no_item (map placed_of self.now.opened.items)) }
    {
        match self.opened.last() {
            None => false,
            Some(last) => is_tight_in(*last),
        }
    }

    // Closes containers until so many are open.
    fn close_to(&mut self, given: &Given, count: usize) -> Result<(), AllocError>
        requires { count ≤ depth self.old }
        ensures written { let g = given.now in OnOk result ((limit : Option ℕ) (t : PlacedTree) → IsWrittenSoFar (setting_of g) (page_of g) limit t self.old → IsWrittenSoFar (setting_of g) (page_of g) limit t self.new) }
        ensures depth { OnOk result (depth self.new ≡ count) }
    {
        while self.opened.len() > count {
            if let Some(closed) = self.opened.pop() {
                push_closing(given, &mut self.out, closed.container, closed.place)?;
                self.in_line = false;
                self.is_first = false;
            }
        }
        Ok(())
    }

    // Opens a container.
    fn begin(&mut self, given: &Given, container: Container, place: Place) -> Result<(), AllocError>
        ensures written { let g = given.now in OnOk result ((limit : Option ℕ) (t : PlacedTree) → IsWrittenSoFar (setting_of g) (page_of g) limit t self.old → IsWrittenSoFar (setting_of g) (page_of g) limit (at_depth (depth self.old) (λ x. and_container x (container_of container) place nothing) t) self.new) }
        ensures depth { OnOk result (depth self.new ≡ suc (depth self.old)) }
    {
        push_opening(given, &mut self.out, self.in_line, container, place)?;
        self.opened.push(OpenContainer { container, place })?;
        self.in_line = is_item(container);
        self.is_first = self.in_line;
        Ok(())
    }

    // Writes a leaf.
    fn leaf(&mut self, alloc: Global, given: &Given, leaf: &Leaf) -> Result<(), Stop>
        requires { IsTextLeaf (bytes_of given.now) leaf.now }
        ensures written { let g = given.now in OnOk result ((limit : Option ℕ) (t : PlacedTree) (place : Place) → IsWrittenSoFar (setting_of g) (page_of g) limit t self.old → IsWrittenSoFar (setting_of g) (page_of g) limit (at_depth (depth self.old) (λ x. and_leaf x (leaf_of (bytes_of g) leaf.now) place) t) self.new) }
        ensures depth { OnOk result (depth self.new ≡ depth self.old) }
        ensures stop { let g = given.now in IfErr result (λ stop. (limit : Option ℕ) (t : PlacedTree) (place : Place) → IsWrittenSoFar (setting_of g) (page_of g) limit t self.old → IsStop limit (tree_brought (setting_of g) (page_of g) false (without_places (at_depth (depth self.old) (λ x. and_leaf x (leaf_of (bytes_of g) leaf.now) place) t))) stop) }
    {
        let at = LeafPosition {
            is_tight: self.is_tight(),
            in_line: self.in_line,
            is_first: self.is_first,
        };
        push_leaf(alloc, given, &mut self.out, &mut self.left, at, leaf)?;
        self.in_line = is_in_line_behind(given, at.is_tight, at.in_line, leaf);
        self.is_first = is_first_after(given, at.is_first, leaf);
        Ok(())
    }

    // Writes a row, where it stands at most as deep as containers are open.
    fn row(&mut self, alloc: Global, given: &Given, row: &Row, place: Place) -> Result<(), Stop>
        requires within { row_depth row.now ≤ depth self.old }
        requires texts { IsTextRow (bytes_of given.now) row.now }
        ensures written { let g = given.now in OnOk result ((limit : Option ℕ) (t : PlacedTree) → IsWrittenSoFar (setting_of g) (page_of g) limit t self.old → IsWrittenSoFar (setting_of g) (page_of g) limit (with_placed_row (bytes_of g) row.now place t) self.new) }
        ensures depth { OnOk result (depth self.new ≡ depth_behind row.now) }
        ensures stop { let g = given.now in IfErr result (λ stop. (limit : Option ℕ) (t : PlacedTree) → IsWrittenSoFar (setting_of g) (page_of g) limit t self.old → IsStop limit (tree_brought (setting_of g) (page_of g) false (without_places (with_placed_row (bytes_of g) row.now place t))) stop) }
    {
        match row {
            Row::LeafAt(depth, leaf) => {
                self.close_to(given, *depth)?;
                self.leaf(alloc, given, leaf)
            }
            Row::ContainerAt(depth, container) => {
                self.close_to(given, *depth)?;
                Ok(self.begin(given, *container, place)?)
            }
        }
    }
}

// The HTML of rows, each of which has its place, if definitions bring no more to it than the limit; none is no limit.
pub(crate) fn write(
    alloc: Global,
    given: &Given,
    rows: &[Row],
    places: &[Place],
    limit: Option<usize>,
) -> Result<Vec<u8>, Stop>
    requires nested { AreNested 0 rows.now }
    requires texts { All (IsTextRow (bytes_of given.now)) rows.now }
    requires places { places.now ≡ places_in None (rows_from (bytes_of given.now) model.nothing rows.now) }
    ensures html { let g = given.now in IfOk result (λ html. html.items ≡ tree_html (setting_of g) (page_of g) no_item None (rows_from (bytes_of g) model.nothing rows.now)) }
    ensures within { let g = given.now in IfOk result (λ _. IsBeyond limit (tree_brought (setting_of g) (page_of g) false (rows_from (bytes_of g) model.nothing rows.now)) → ⊥) }
    ensures stop { let g = given.now in IfErr result (IsStop limit (tree_brought (setting_of g) (page_of g) false (rows_from (bytes_of g) model.nothing rows.now))) }
{
    let mut writer = Writer {
        out: Vec::new(alloc),
        opened: Vec::new(alloc),
        in_line: false,
        is_first: false,
        left: limit,
    };
    for (index, row) in rows.iter().enumerate() {
        writer.row(alloc, given, row, places[index])?;
    }
    writer.close_to(given, 0)?;
    Ok(writer.out)
}
