//! Containers that a line begins or continues (CommonMark 5.1 and 5.2). Each takes time linear in the rest at most, and allocates nothing.

ghost use Rattle.std.specs.Prelude.{◌≡◌, ◌<◌, ◌≤◌, ◌+◌, nat_le, length, drop, List, IfSome};
ghost use Rattle.markdown_content.specs.Codes.{Code};
ghost use Rattle.markdown_model.specs.CodeTests.{values_of};
ghost use Rattle.markdown_block_model.specs.LineRests.{indent};
ghost use Rattle.markdown_block_model.specs.BlockTree.{item, Tree};
ghost use Rattle.markdown_block_model.specs.ContainerStarts.{marker_at, item_at, may_begin, may_interrupt, padding};
ghost use Rattle.markdown_block_model.specs.DocumentBlocks.{is_nothing, is_further_blank, rest_in_item, rest_inside};
ghost use Rattle.markdown_block_line.specs.LineBlocks.{marker_of, container_of, Says};

use crate::line::{indent_to, is_blank_line, is_gap};
use crate::starts::{behind_quote, bullet_at, ordered_at};

/// The marker of an item.
#[derive(Clone, Copy)]
pub enum Marker {
    /// A bullet: the minus, the plus or the star.
    Bullet(u8),
    /// A full stop or a closing parenthesis, and the number before it.
    Ordered(u8, u32),
}

/// What holds blocks.
#[derive(Clone, Copy)]
pub enum Container {
    /// A block quote.
    Quote,
    /// A list item: its marker, and by how many columns its further lines are indented.
    Item(Marker, usize),
}

/// A marker that stands first.
#[derive(Clone, Copy)]
pub struct MarkerStart {
    /// The marker.
    pub marker: Marker,
    /// How many codes it has.
    pub len: usize,
}

/// An item that begins with the rest of a line.
#[derive(Clone, Copy)]
pub struct ItemStart {
    /// Its marker.
    pub marker: Marker,
    /// By how many columns its further lines are indented.
    pub columns: usize,
    /// How many codes of the rest stand before its content.
    pub outside: usize,
}

/// Returns the marker of an item that stands first, or `None` (CommonMark 5.2). The rest begins behind the indent.
pub fn marker_at(line: &[u8]) -> Option<MarkerStart>
    ensures found { (cs : List Code) → values_of cs ≡ line.now → Says result (λ m. (marker_of m.marker, m.len)) (marker_at cs) }
    ensures within { IfSome result (λ m. (0 < m.len) × (m.len ≤ length line.now)) }
{
    if let Some(bullet) = bullet_at(line) {
        return Some(MarkerStart {
            marker: Marker::Bullet(bullet),
            len: 1,
        });
    }
    let Some(ordered) = ordered_at(line) else {
        return None;
    };
    Some(MarkerStart {
        marker: Marker::Ordered(ordered.delimiter, ordered.number),
        len: ordered.len,
    })
}

// Whether an item with this marker may interrupt a paragraph.
fn may_interrupt(marker: Marker) -> bool
    ensures { result ≡ may_interrupt (marker_of marker) }
{
    match marker {
        Marker::Bullet(_) => true,
        Marker::Ordered(_, number) => number == 1,
    }
}

// Whether an item may begin with what stands behind its marker.
fn may_begin(in_paragraph: bool, marker: Marker, after: &[u8]) -> bool
    ensures { (cs : List Code) → values_of cs ≡ after.now → result ≡ may_begin in_paragraph (marker_of marker) cs }
{
    if !is_gap(after) {
        return false;
    }
    if !in_paragraph {
        return true;
    }
    !is_blank_line(after) && may_interrupt(marker)
}

// How many columns behind a marker belong to it.
fn padding(after: &[u8]) -> usize
    ensures count { (cs : List Code) → values_of cs ≡ after.now → result ≡ padding cs }
    ensures within { result ≤ length after.now + 1 }
{
    let columns = indent_to(after, 5);
    if columns == 5 || is_blank_line(after) {
        return 1;
    }
    columns
}

/// Returns the item that begins behind an indent of so many columns, or `None` (CommonMark 5.2). The rest begins behind the indent. `in_paragraph`
/// says that the item would interrupt a paragraph.
pub fn item_at(in_paragraph: bool, columns: usize, line: &[u8]) -> Option<ItemStart>
    requires { columns < 4 }
    ensures found { (cs : List Code) → values_of cs ≡ line.now
        → Says result (λ i. (item (marker_of i.marker) i.columns, drop i.outside cs)) (item_at in_paragraph columns cs) }
    ensures within { IfSome result (λ i. (0 < i.outside) × (i.outside ≤ length line.now)) }
{
    let Some(found) = marker_at(line) else {
        return None;
    };
    let after = &line[found.len..];
    if !may_begin(in_paragraph, found.marker, after) {
        return None;
    }
    let padding = padding(after);
    Some(ItemStart {
        marker: found.marker,
        columns: columns + found.len + padding,
        outside: found.len + indent_to(after, padding),
    })
}

/// Returns how many codes of a line stand outside a container that the line continues, or `None` where it does not (CommonMark 5.1 and 5.2).
/// `is_empty` says that the container holds nothing.
pub fn rest_inside(container: Container, is_empty: bool, line: &[u8]) -> Option<usize>
    ensures found { (cs : List Code) (inside : Tree) → values_of cs ≡ line.now → is_nothing inside ≡ is_empty
        → Says result (λ k. drop k cs) (rest_inside (container_of container) inside cs) }
    ensures within { IfSome result (λ k. k ≤ length line.now) }
{
    match container {
        Container::Quote => behind_quote(line),
        Container::Item(_, columns) => {
            if is_further_blank(is_empty, line) {
                return None;
            }
            rest_in_item(columns, line)
        }
    }
}

// Whether a line is a further blank one of an item that began with a blank line; `is_empty` says that the item holds nothing.
fn is_further_blank(is_empty: bool, line: &[u8]) -> bool
    ensures { (cs : List Code) (inside : Tree) → values_of cs ≡ line.now → is_nothing inside ≡ is_empty → result ≡ is_further_blank inside cs }
{
    is_empty && is_blank_line(line)
}

// How many codes of a line stand outside an item that the line continues.
fn rest_in_item(columns: usize, line: &[u8]) -> Option<usize>
    ensures found { (cs : List Code) → values_of cs ≡ line.now
        → Says result (λ k. drop k cs) (rest_in_item (nat_le columns (indent cs)) columns cs) }
    ensures within { IfSome result (λ k. k ≤ length line.now) }
{
    let count = indent_to(line, columns);
    if count < columns && !is_blank_line(line) {
        return None;
    }
    Some(count)
}
