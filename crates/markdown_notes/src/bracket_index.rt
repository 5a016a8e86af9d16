//! Where opening brackets stand in a part of a document.
ghost use Rattle.std.specs.Prelude.{◌≡◌, ◌≤◌, IfOk, length, nat_lt, true, false};
ghost use Rattle.std.specs.List.Sorted.{IsNonDecreasingBy, IsPartitionPoint};
ghost use Rattle.markdown_notes.specs.BracketIndex.{brackets_between, brackets_of, counted, no_brackets};

use markdown_content::byte_table;
use markdown_content::bytes::{ByteSet, ByteTable};
use markdown_content::cursor::plain_end;
use std::alloc::{AllocError, Global};
use std::marker::Model;

const BRACKETS: ByteTable = byte_table!(b'[');

/// Where opening brackets stand in a part of a document.
///
/// It holds one entry for each, and answers in logarithmic time.
#[derive(Drop)]
pub struct BracketIndex {
    // The part: from this byte up to that one.
    start: usize,
    end: usize,
    // In order.
    places: Vec<usize>,
}

impl Model for BracketIndex {
    ghost use Rattle.std.specs.List.Sorted.{IsNonDecreasingBy};
    ghost use Rattle.markdown_notes.specs.BracketIndex.{BracketPlaces};

    ghost Value = { BracketPlaces };

    ghost view = { λ r. record { start = r.start; end = r.end; places = r.places.items } };

    ghost invariant = { λ r. IsNonDecreasingBy (λ p. p) r.places.items };
}

impl BracketIndex {
    /// Knows of no part. Takes no memory.
    pub fn new(alloc: Global) -> BracketIndex
        ensures { result ≡ no_brackets }
    {
        BracketIndex {
            start: 0,
            end: 0,
            places: Vec::new(alloc),
        }
    }

    /// The opening brackets of a document from an index up to another, by one walk, which goes from one control or bracket to the next.
    ///
    /// The only error is that memory was refused.
    pub fn over(
        alloc: Global,
        bytes: &[u8],
        start: usize,
        end: usize,
    ) -> Result<BracketIndex, AllocError>
        ensures { IfOk result (λ index. index ≡ brackets_between bytes.now start end) }
    {
        let brackets = ByteSet::new(&BRACKETS);
        let mut places = Vec::new(alloc);
        let stop = end.min(bytes.len());
        let mut at = plain_end(bytes, start.min(stop), stop, &brackets);
        while at < stop {
            if bytes[at] == b'[' {
                places.push(at)?;
            }
            at = plain_end(bytes, at + 1, stop, &brackets);
        }
        Ok(BracketIndex { start, end, places })
    }

    /// How many stand from an index up to another, where all that stands between is known.
    pub fn between(&self, from: usize, to: usize) -> Option<usize>
        ensures { result ≡ counted self.now from to }
    {
        if self.start <= from && from <= to && to <= self.end {
            let places = self.places.as_slice();
            Some(first_from(places, to) - first_from(places, from))
        } else {
            None
        }
    }
}

// How many of these places, which are in order, stand before an index.
fn first_from(places: &[usize], index: usize) -> usize
    requires { IsNonDecreasingBy (λ p. p) places.now }
    ensures within { result ≤ length places.now }
    ensures point { IsPartitionPoint (λ p. nat_lt p index ≡ true) (λ p. nat_lt p index ≡ false) places.now result }
{
    places.partition_point(|place| *place < index)
}

// How many opening brackets a text has.
pub(crate) fn brackets_of(text: &str) -> usize
    ensures { result ≡ brackets_of text.now }
{
    let mut count = 0;
    for byte in text.as_bytes() {
        if *byte == b'[' {
            count += 1;
        }
    }
    count
}
