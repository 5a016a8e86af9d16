//! Where each item of a document stands in its list (CommonMark 5.3).

ghost use Rattle.std.specs.Prelude.{◌≡◌, ◌≤◌, ◌<◌, ◌∷◌, ◌&&◌, ◌||◌, [], ℕ, false, not, suc, min, length, List, Some, None, option_map, is_some, IfOk};
ghost use Rattle.markdown_content.specs.Codes.{codes_of};
ghost use Rattle.markdown_content.specs.Content.{piece_codes};
ghost use Rattle.markdown_block_model.specs.LineRests.{is_blank_line};
ghost use Rattle.markdown_block_model.specs.BlockTree as model;
ghost use Rattle.markdown_block_model.specs.BlockTree.{Tree, nothing, and_leaf, and_container};
ghost use Rattle.markdown_block_model.specs.LooseLists.{are_alike, ends_with_blank};
ghost use Rattle.markdown_block_line.specs.LineBlocks.{marker_of, container_of};
ghost use Rattle.markdown_blocks.specs.TreeDepth.{inside_at, at_depth};
ghost use Rattle.markdown_blocks.specs.BlockRows.{leaf_of, with_row, rows_from};
ghost use Rattle.markdown_blocks.specs.NestedRows.{AreNested};
ghost use Rattle.markdown_blocks.specs.TextTrims.{is_space_byte};
ghost use Rattle.markdown_blocks.specs.declared.block.Row.{Row};
ghost use Rattle.markdown_page_model.specs.PageHtml.{goes_on};
ghost use Rattle.markdown_page.specs.ListPlaces.{places_in};
ghost use Rattle.markdown_page.specs.BlankPieces.{first_from};
ghost use Rattle.markdown_page.specs.ListWalks.{is_footnote, places_so_far, marker_in, opened, item_of, is_blank_leaf, is_loose_item, passed_item, IsAppended, IsWalked, next_at, with_next, is_item, row_depth, row_kind, place_before, nexts_before};

use markdown_block_line::containers::{Container, Marker};
use markdown_blocks::block::{Leaf, Row};
use markdown_content::parser::Piece;
use std::alloc::{AllocError, Global};

/// Where an item stands in its list. What is no item has `false` for each.
#[derive(Clone, Copy)]
pub struct Place {
    /// Whether the list is loose.
    pub is_loose: bool,
    /// Whether the item begins the list.
    pub begins: bool,
    /// Whether the item ends the list.
    pub ends: bool,
}

// What is no item.
const NO_PLACE: Place = Place {
    is_loose: false,
    begins: false,
    ends: false,
};

// An item, and whether its list is loose.
#[derive(Clone, Copy)]
struct ListItem {
    marker: Marker,
    is_loose: bool,
}

// A container that holds the newest row: the number of its own row, and its marker if it is an item.
#[derive(Clone, Copy)]
struct OpenContainer {
    row: usize,
    marker: Option<Marker>,
}

// Whether two markers are of one kind.
fn are_alike(one: Marker, other: Marker) -> bool
    ensures { result ≡ are_alike (marker_of one) (marker_of other) }
{
    match (one, other) {
        (Marker::Bullet(bullet), Marker::Bullet(other)) => bullet == other,
        (Marker::Ordered(delimiter, _), Marker::Ordered(other, _)) => delimiter == other,
        _ => false,
    }
}

// Whether a marker is of the list of an item.
fn goes_on(item: Option<ListItem>, marker: Marker) -> bool
    ensures { result ≡ goes_on (option_map item_of item) (marker_of marker) }
{
    match item {
        None => false,
        Some(item) => are_alike(item.marker, marker),
    }
}

// Whether the list of an item is loose.
fn is_loose(item: Option<ListItem>) -> bool
    ensures { result ≡ is_loose_item (option_map item_of item) }
{
    match item {
        None => false,
        Some(item) => item.is_loose,
    }
}

// The place of an item with this marker, in a list that ends with it. It stands behind the last item, if any, of siblings that end with a blank line or not.
fn item_place(last: Option<ListItem>, ends_with_blank: bool, marker: Marker) -> Place
    ensures { let goes = goes_on (option_map item_of last) (marker_of marker) in result
        ≡ record { is_loose = goes && (ends_with_blank || is_loose_item (option_map item_of last)); begins = not goes; ends = false } }
{
    let goes_on = goes_on(last, marker);
    Place {
        is_loose: goes_on && (ends_with_blank || is_loose(last)),
        begins: !goes_on,
        ends: false,
    }
}

// Whether a leaf is a blank line.
fn is_blank(leaf: &Leaf) -> bool
    ensures { (document : List ℕ) → result ≡ is_blank_leaf (leaf_of document leaf.now) }
{
    match leaf {
        Leaf::Blank => true,
        _ => false,
    }
}

// Whether a byte is a space, a tab, or one of a line ending.
fn is_space(byte: u8) -> bool
    ensures { result ≡ is_space_byte byte }
{
    byte == b' ' || byte == b'\t' || byte == b'\n' || byte == b'\r'
}

// The first byte that stands at a place or behind it, or how many bytes there are.
fn first_byte(place: (usize, usize), len: usize) -> usize
    ensures from { result ≡ min (first_from place) len }
    ensures within { result ≤ len }
{
    if place.0 >= len {
        return len;
    }
    if place.1 == 0 { place.0 } else { place.0 + 1 }
}

// Whether a piece of a document has nothing but whitespace.
pub(crate) fn is_blank_piece(document: &[u8], piece: Piece) -> bool
    ensures { result ≡ is_blank_line (piece_codes (codes_of document.now) piece) }
{
    let start = first_byte(piece.start, document.len());
    let end = first_byte(piece.end, document.len());
    for index in start..end {
        if !is_space(document[index]) {
            return false;
        }
    }
    true
}

// Whether a leaf ends with a blank line.
fn ends_with_blank(document: &[u8], leaf: &Leaf) -> bool
    ensures { result ≡ ends_with_blank (and_leaf nothing (leaf_of document.now leaf.now)) }
{
    match leaf {
        Leaf::Blank => true,
        Leaf::IndentedCode(lines) => match lines.last() {
            None => false,
            Some(line) => is_blank_piece(document, *line),
        },
        _ => false,
    }
}

// What is known behind a row: the places of the rows so far, the containers that hold the row, the last item right in the innermost of them, if nothing but
// blank lines stands behind it, and whether the blocks there end with a blank line.
#[derive(Drop)]
struct Walk {
    places: Vec<Place>,
    path: Vec<OpenContainer>,
    last: Option<ListItem>,
    ends_with_blank: bool,
}

impl Walk {
    // Passes the end of the innermost container, which was taken from the path.
    fn pass(&mut self, container: OpenContainer)
        requires { container.row < length self.old.places.items }
        ensures places { self.new.places ≡ self.old.places }
        ensures path { self.new.path ≡ self.old.path }
        ensures last { option_map item_of self.new.last ≡ passed_item self.old.places.items (opened container) }
        ensures blank { self.new.ends_with_blank ≡ (is_some container.marker && self.old.ends_with_blank) }
    {
        match container.marker {
            None => {
                self.last = None;
                self.ends_with_blank = false;
            }
            Some(marker) => {
                let is_loose = self.places[container.row].is_loose;
                self.last = Some(ListItem { marker, is_loose });
            }
        }
    }

    // Leaves the containers that stand so deep or deeper.
    fn leave(&mut self, depth: usize)
        requires walked { (t : Tree) × IsWalked t self.old }
        requires within { depth ≤ length self.old.path.items }
        ensures walked { (t : Tree) → IsWalked t self.old → IsWalked t self.new }
        ensures depth { length self.new.path.items ≡ depth }
    {
        while self.path.len() > depth {
            if let Some(container) = self.path.pop() {
                self.pass(container);
            }
        }
    }

    // Appends the place of a row. `is_apart` says that a blank line stands between it and a block before it.
    fn put(&mut self, place: Place, is_apart: bool) -> Result<(), AllocError>
        requires { (t : Tree) × IsWalked t self.old }
        ensures places { IfOk result (λ _. (t : Tree) (f : Tree → Tree) → IsWalked t self.old
            → IsAppended f place is_apart (inside_at (length self.old.path.items) t)
            → self.new.places.items ≡ places_so_far (at_depth (length self.old.path.items) f t)) }
        ensures path { self.new.path ≡ self.old.path }
        ensures last { self.new.last ≡ self.old.last }
        ensures blank { self.new.ends_with_blank ≡ self.old.ends_with_blank }
    {
        if let Some(container) = self.path.last() {
            if is_apart && container.marker.is_some() {
                self.places[container.row].is_loose = true;
            }
        }
        self.places.push(place)?;
        Ok(())
    }

    // Appends a leaf that stands so deep.
    fn put_leaf(&mut self, document: &[u8], depth: usize, leaf: &Leaf) -> Result<(), AllocError>
        requires walked { (t : Tree) × IsWalked t self.old }
        requires within { depth ≤ length self.old.path.items }
        ensures walked { IfOk result (λ _. (t : Tree) → IsWalked t self.old
            → IsWalked (at_depth depth (λ s. and_leaf s (leaf_of document.now leaf.now)) t) self.new) }
        ensures depth { IfOk result (λ _. length self.new.path.items ≡ depth) }
    {
        self.leave(depth);
        let is_blank = is_blank(leaf);
        self.put(NO_PLACE, self.ends_with_blank && !is_blank)?;
        if !is_blank {
            self.last = None;
        }
        self.ends_with_blank = ends_with_blank(document, leaf);
        Ok(())
    }

    // Opens a container that holds nothing yet.
    fn enter(
        &mut self,
        place: Place,
        is_apart: bool,
        marker: Option<Marker>,
    ) -> Result<(), AllocError>
        requires { (t : Tree) × IsWalked t self.old }
        ensures walked { IfOk result (λ _. (t : Tree) (c : model.Container) → IsWalked t self.old → option_map marker_of marker ≡ marker_in c → is_footnote c ≡ false
            → IsAppended (λ s. and_container s c nothing) place is_apart (inside_at (length self.old.path.items) t)
            → IsWalked (at_depth (length self.old.path.items) (λ s. and_container s c nothing) t) self.new) }
        ensures depth { IfOk result (λ _. length self.new.path.items ≡ suc (length self.old.path.items)) }
    {
        let row = self.places.len();
        self.put(place, is_apart)?;
        self.path.push(OpenContainer { row, marker })?;
        self.last = None;
        self.ends_with_blank = false;
        Ok(())
    }

    // Appends a container that stands so deep.
    fn put_container(&mut self, depth: usize, container: Container) -> Result<(), AllocError>
        requires walked { (t : Tree) × IsWalked t self.old }
        requires within { depth ≤ length self.old.path.items }
        ensures walked { IfOk result (λ _. (t : Tree) → IsWalked t self.old
            → IsWalked (at_depth depth (λ s. and_container s (container_of container) nothing) t) self.new) }
        ensures depth { IfOk result (λ _. length self.new.path.items ≡ suc depth) }
    {
        self.leave(depth);
        match container {
            Container::Quote => {
                self.enter(NO_PLACE, self.ends_with_blank, None)?;
                Ok(())
            }
            Container::Item(marker, _) => {
                let place = item_place(self.last, self.ends_with_blank, marker);
                self.enter(place, self.ends_with_blank && place.begins, Some(marker))?;
                Ok(())
            }
        }
    }

    // Appends a row.
    fn put_row(&mut self, document: &[u8], row: &Row) -> Result<(), AllocError>
        requires walked { (t : Tree) × IsWalked t self.old }
        requires nested { AreNested (length self.old.path.items) (row.now ∷ []) }
        ensures walked { IfOk result (λ _. (t : Tree) → IsWalked t self.old → IsWalked (with_row document.now row.now t) self.new) }
        ensures nested { IfOk result (λ _. (rs : List Row) → AreNested (length self.old.path.items) (row.now ∷ rs)
            → AreNested (length self.new.path.items) rs) }
    {
        match row {
            Row::LeafAt(depth, leaf) => self.put_leaf(document, *depth, leaf),
            Row::ContainerAt(depth, container) => self.put_container(*depth, *container),
        }
    }
}

// The places of rows in the lists that end with them.
fn places_so_far(alloc: Global, document: &[u8], rows: &[Row]) -> Result<Vec<Place>, AllocError>
    requires { AreNested 0 rows.now }
    ensures { IfOk result (λ places. places.items ≡ places_so_far (rows_from document.now nothing rows.now)) }
{
    let mut walk = Walk {
        places: Vec::new(alloc),
        path: Vec::new(alloc),
        last: None,
        ends_with_blank: false,
    };
    for row in rows {
        walk.put_row(document, row)?;
    }
    Ok(walk.places)
}

// The item that stands next at a depth.
fn next_at(nexts: &[Option<ListItem>], depth: usize) -> Option<ListItem>
    ensures { option_map item_of result ≡ next_at nexts.now depth }
{
    if depth < nexts.len() {
        nexts[depth]
    } else {
        None
    }
}

// Makes an item the next one at a depth, or none, and drops those that stand deeper.
fn put_next(
    nexts: &mut Vec<Option<ListItem>>,
    depth: usize,
    next: Option<ListItem>,
) -> Result<(), AllocError>
    ensures { IfOk result (λ _. (k : ℕ) → next_at nexts.new.items k ≡ with_next (next_at nexts.old.items) depth (option_map item_of next) k) }
{
    nexts.truncate(depth);
    while nexts.len() < depth {
        nexts.push(None)?;
    }
    nexts.push(next)?;
    Ok(())
}

// The place of an item, by the item that stands next behind it.
fn place_before(next: Option<ListItem>, marker: Marker, place: Place) -> Place
    ensures { result ≡ place_before (option_map item_of next) (is_item (marker_of marker)) place }
{
    let goes_on = goes_on(next, marker);
    Place {
        is_loose: if goes_on {
            is_loose(next)
        } else {
            place.is_loose
        },
        begins: place.begins,
        ends: !goes_on,
    }
}

// The place of a row, by the items that stand next behind it. Then these are those that stand next before it.
fn pass_row(row: &Row, place: Place, nexts: &mut Vec<Option<ListItem>>) -> Result<Place, AllocError>
    ensures place { IfOk result (λ p. p ≡ place_before (next_at nexts.old.items (row_depth row.now)) (row_kind row.now) place) }
    ensures nexts { IfOk result (λ _. (k : ℕ) → next_at nexts.new.items k
        ≡ nexts_before (next_at nexts.old.items) (row_depth row.now) (row_kind row.now) place k) }
{
    match row {
        Row::LeafAt(_, Leaf::Blank) => Ok(place),
        Row::LeafAt(depth, _) | Row::ContainerAt(depth, Container::Quote) => {
            put_next(nexts, *depth, None)?;
            Ok(place)
        }
        Row::ContainerAt(depth, Container::Item(marker, _)) => {
            let place = place_before(next_at(nexts, *depth), *marker, place);
            let item = ListItem {
                marker: *marker,
                is_loose: place.is_loose,
            };
            put_next(nexts, *depth, Some(item))?;
            Ok(place)
        }
    }
}

// Makes the places of rows those in the whole lists.
fn end_lists(alloc: Global, rows: &[Row], places: &mut Vec<Place>) -> Result<(), AllocError>
    requires { length places.old.items ≡ length rows.now }
    ensures { IfOk result (λ _. (document : List ℕ) → AreNested 0 rows.now → places.old.items ≡ places_so_far (rows_from document nothing rows.now)
        → places.new.items ≡ places_in None (rows_from document nothing rows.now)) }
{
    let mut nexts = Vec::new(alloc);
    let mut index = rows.len();
    while index > 0 {
        index -= 1;
        places[index] = pass_row(&rows[index], places[index], &mut nexts)?;
    }
    Ok(())
}

/// Returns where each row of a document stands in its list.
///
/// The only error is that memory was refused.
pub fn places(alloc: Global, document: &[u8], rows: &[Row]) -> Result<Vec<Place>, AllocError>
    requires { AreNested 0 rows.now }
    ensures { IfOk result (λ places. places.items ≡ places_in None (rows_from document.now nothing rows.now)) }
{
    let mut places = places_so_far(alloc, document, rows)?;
    end_lists(alloc, rows, &mut places)?;
    Ok(places)
}
