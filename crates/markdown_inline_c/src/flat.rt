//! What crosses to C: structs of numbers and of arrays.

ghost use Rattle.std.specs.Prelude.{◌≡◌, min};
ghost use Rattle.markdown_event.specs.EventNames.{name_number};
ghost use Rattle.markdown_inline_c.specs.FlatEvents.{flat_event, kind_number, link_number, linked_as, number_or_max, short_event, telling, told_number};
ghost use Rattle.markdown_inline_c.specs.FlatInput.{piece_of};

use markdown_content::parser::Piece;
use markdown_event::event::{Content, Event, Kind, Link, Name};

/// A piece of a document, from a place to a place.
#[repr(C)]
#[derive(Clone, Copy, Debug, PartialEq, Eq)]
pub struct FlatPiece {
    /// The byte at which it starts.
    pub start: usize,
    /// How many columns of the tab at `start` come before the piece; 0 outside of tabs.
    pub start_vs: usize,
    /// The byte before which it ends.
    pub end: usize,
    /// How many columns of the tab at `end` the piece still has; 0 outside of tabs.
    pub end_vs: usize,
}

/// The bytes from one index to another.
#[repr(C)]
#[derive(Clone, Copy, Debug, PartialEq, Eq)]
pub struct Range {
    /// The first byte.
    pub start: usize,
    /// The byte after the last one.
    pub end: usize,
}

/// What a call reads.
#[repr(C)]
#[derive(Clone, Copy, Debug)]
pub struct Input<'a> {
    /// The document.
    pub bytes: &'a [u8],
    /// The pieces of the document that are read.
    pub pieces: &'a [FlatPiece],
    /// Bytes in which the labels of definitions stand; they may be those of the document.
    pub labels: &'a [u8],
    /// Where among `labels` the label of each definition stands, as it is written.
    pub definitions: &'a [Range],
    /// Where among `labels` the label of each footnote definition stands.
    pub footnotes: &'a [Range],
    /// What is looked for, each option by a bit: from the lowest the constructs in the order of `Constructs`, the four settings in that of
    /// `ParseOptions`, and whether the text is the first of a list item.
    pub options: u32,
    /// Nothing: it has to be 0.
    pub reserved: u32,
}

/// How a document is read and written. All zero is CommonMark, safe HTML, and the default limit.
#[repr(C)]
#[derive(Clone, Copy, Debug, PartialEq, Eq)]
pub struct DocumentOptions {
    /// What is looked for, by the bits of an input; 0 is CommonMark. That a text is the first of an item is not among them, nor are footnotes.
    pub options: u32,
    /// What HTML may hold, and how it is written, each by a bit.
    pub html: u32,
    /// Which blocks are read beside CommonMark's, each by a bit: code fenced with dollars, which is math, 0x1, and front matter 0x2.
    pub blocks: u32,
    /// Nothing: it has to be 0.
    pub reserved: u32,
    /// How many bytes references may expand to: 0 is the default, and `usize::MAX` is no limit.
    pub limit: usize,
    /// Nothing: each has to be 0.
    pub reserved_words: [usize; 13],
}

/// The beginning or the end of something in a document.
#[repr(C)]
#[derive(Clone, Copy, Debug, PartialEq, Eq)]
pub struct FlatEvent {
    /// 0 where it begins, 1 where it ends.
    pub kind: u8,
    /// The number of its name, in the order of `Name`.
    pub name: u8,
    /// How what stands there is to be read again: 0 not at all, 1 as a string, 2 as a text.
    pub link: u8,
    /// The line, from 1.
    pub line: usize,
    /// The column, from 1.
    pub column: usize,
    /// The byte, from 0.
    pub index: usize,
    /// How many columns of the tab at `index` come before the place; 0 outside of tabs.
    pub vs: usize,
    /// The number of the event before on the chain of what is read again, or `usize::MAX`.
    pub previous: usize,
    /// The number of the event after on that chain, or `usize::MAX`.
    pub next: usize,
}

/// An event in 16 bytes, without its line, its column and the numbers of its chain.
#[repr(C)]
#[derive(Clone, Copy, Debug, PartialEq, Eq)]
pub struct ShortEvent {
    /// 0 where it begins, 1 where it ends.
    pub kind: u8,
    /// The number of its name, in the order of `Name`.
    pub name: u8,
    /// How what stands there is to be read again: 0 not at all, 1 as a string, 2 as a text.
    pub link: u8,
    /// How many columns of the tab at `index` come before the place, and 255 where it would be more; 0 outside of tabs.
    pub vs: u8,
    /// Where a link or an image begins, the number of the definition that it refers to; where a footnote call begins, that of the footnote; where a
    /// character reference begins that stands for one character, the code point of that. `u32::MAX` elsewhere, and for numbers that are higher.
    pub definition: u32,
    /// The byte, from 0.
    pub index: usize,
}

/// A leaf: an event with no other inside it, from where it begins to where it ends, and what stands there.
///
/// Its bytes begin at `start`, or at the byte behind where `start_vs` is above 0.
#[repr(C)]
#[derive(Clone, Copy, Debug, PartialEq, Eq)]
pub struct FlatLeaf {
    /// The number of its name, in the order of `Name`.
    pub name: u8,
    /// The line on which it begins, from 1.
    pub start_line: usize,
    /// The column at which it begins, from 1.
    pub start_column: usize,
    /// The byte at which it begins, from 0.
    pub start: usize,
    /// How many columns of the tab at `start` come before it; 0 outside of tabs.
    pub start_vs: usize,
    /// The line on which it ends.
    pub end_line: usize,
    /// The column before which it ends.
    pub end_column: usize,
    /// The byte before which it ends, or at which, where `end_vs` is above 0.
    pub end: usize,
    /// How many columns of the tab at `end` it still has.
    pub end_vs: usize,
    /// How many virtual spaces stand before its bytes, of a tab that is not among them.
    pub before: usize,
    /// How many bytes it has.
    pub bytes_len: usize,
    /// How many virtual spaces of the tab that ends its bytes it has.
    pub after: usize,
}

/// Where a definition leads: places among the labels, in UTF-8, with escapes and character references resolved.
#[repr(C)]
#[derive(Clone, Copy, Debug, PartialEq, Eq)]
pub struct FlatTarget {
    /// Where its destination stands.
    pub destination: Range,
    /// Where its title stands, if it has one.
    pub title: Range,
    /// 0 where it has no title.
    pub has_title: u32,
    /// Nothing: it has to be 0.
    pub reserved: u32,
}

/// One of many contents of a document.
#[repr(C)]
#[derive(Clone, Copy, Debug, PartialEq, Eq)]
pub struct FlatContent {
    /// The numbers of its pieces among those of the input.
    pub pieces: Range,
    /// 0 where it is not the first of a list item.
    pub first_of_item: u32,
    /// Nothing: it has to be 0.
    pub reserved: u32,
}

/// A block of a document.
#[repr(C)]
#[derive(Clone, Copy, Debug, PartialEq, Eq)]
pub struct FlatBlock {
    /// The numbers of its pieces among those of all blocks.
    pub pieces: Range,
    /// How many containers stand round it.
    pub depth: usize,
    /// The level of a heading, the number of an item of an ordered list, or the kind of HTML, from 1; else 0.
    pub number: usize,
    /// The number of the line on which it begins, from 1.
    pub line: usize,
    /// The number of its kind, in the order of `BlockKind`.
    pub kind: u8,
    /// The byte of the marker of an item, or of a fence; else 0.
    pub marker: u8,
    /// Of an item, whether it begins its list, ends it, and whether the list is loose, each by a bit from the lowest.
    pub list: u8,
    /// Nothing: it is 0.
    pub reserved: u8,
    /// Nothing: it is 0.
    pub reserved_too: u32,
}

/// How many blocks a document has, and how many pieces these have.
#[repr(C)]
#[derive(Clone, Copy, Debug, PartialEq, Eq)]
pub struct BlocksCount {
    /// How many blocks there are.
    pub blocks: usize,
    /// How many pieces they have.
    pub pieces: usize,
}

/// How many definitions a document has, and how many bytes their labels, destinations and titles have.
#[repr(C)]
#[derive(Clone, Copy, Debug, PartialEq, Eq)]
pub struct DefinitionsCount {
    /// How many definitions there are.
    pub definitions: usize,
    /// How many bytes their labels, destinations and titles have.
    pub labels: usize,
}

pub(crate) fn piece_of(piece: FlatPiece) -> Piece
    ensures { result ≡ piece_of piece }
{
    Piece {
        start: (piece.start, piece.start_vs),
        end: (piece.end, piece.end_vs),
    }
}

fn kind_number(kind: Kind) -> u8
    ensures { result ≡ kind_number kind }
{
    kind as u8
}

pub(crate) fn name_number(name: Name) -> u8
    ensures { result ≡ name_number name }
{
    name as u8
}

fn link_number(content: Content) -> u8
    ensures { result ≡ link_number content }
{
    match content {
        Content::String => 1,
        Content::Text => 2,
    }
}

pub(crate) fn number_or_max(number: Option<usize>) -> usize
    ensures { result ≡ number_or_max number }
{
    number.unwrap_or(usize::MAX)
}

pub(crate) fn flat_event(event: &Event) -> FlatEvent
    ensures { result ≡ flat_event event.now }
{
    let unlinked = FlatEvent {
        kind: kind_number(event.kind),
        name: name_number(event.name),
        link: 0,
        line: event.point.line,
        column: event.point.column,
        index: event.point.index,
        vs: event.point.vs,
        previous: usize::MAX,
        next: usize::MAX,
    };
    match event.link {
        None => unlinked,
        Some(link) => FlatEvent {
            link: link_number(link.content),
            previous: number_or_max(link.previous),
            next: number_or_max(link.next),
            ..unlinked
        },
    }
}

fn linked_as(link: Option<Link>) -> u8
    ensures { result ≡ linked_as link }
{
    match link {
        None => 0,
        Some(link) => link_number(link.content),
    }
}

// A number in eight bits, of which the highest stands for all that are higher.
fn byte_or_max(number: usize) -> u8
    ensures { result ≡ min number 255 }
{
    number.min(255) as u8
}

fn told_number(number: Option<usize>) -> u32
    ensures { result ≡ told_number number }
{
    match number {
        None => u32::MAX,
        Some(number) => number.min(0xffff_ffff) as u32,
    }
}

pub(crate) fn short_event(event: &Event, told: Option<usize>) -> ShortEvent
    ensures { result ≡ short_event told event.now }
{
    ShortEvent {
        kind: kind_number(event.kind),
        name: name_number(event.name),
        link: linked_as(event.link),
        vs: byte_or_max(event.point.vs),
        definition: told_number(told),
        index: event.point.index,
    }
}

impl ShortEvent {
    /// The same event, which tells a number.
    pub(crate) fn telling(self, number: usize) -> ShortEvent
        ensures { result ≡ telling number self }
    {
        ShortEvent {
            definition: told_number(Some(number)),
            ..self
        }
    }
}
