//! Where titles in parentheses may end, and resources behind them.
ghost use Rattle.std.specs.Prelude.{◌≡◌, IfOk, IsSome, None, not, nat_lt, true, false};
ghost use Rattle.std.specs.List.Sorted.{IsNonDecreasingBy, IsPartitionPoint};
ghost use Rattle.markdown_content.specs.Place.{code_at, moved};
ghost use Rattle.markdown_notes.specs.TitleIndex.{closers_of, first_twice, title_bytes};
ghost use Rattle.markdown_notes.specs.declared.title_index.Closer.{Closer as Found};

use crate::sequence_index::closes_past_spacing;
use markdown_content::byte_table;
use markdown_content::bytes::{ByteSet, ByteTable};
use markdown_content::cursor::Cursor;
use std::alloc::{AllocError, Global};
use std::marker::Model;

/// A closing parenthesis that no backslash escapes.
#[derive(Clone, Copy)]
pub struct Closer {
    /// How many codes stand before it.
    pub at: usize,
    /// Whether another one comes behind it, past spaces, tabs and line endings.
    pub twice: bool,
}

/// The closing parentheses of a content that no backslash escapes: a title in parentheses ends at the first of them behind its start, and
/// a resource behind that title ends at the next, if nothing but whitespace stands between.
///
/// It holds one entry for each, and answers in logarithmic time.
#[derive(Drop)]
pub struct TitleIndex {
    // In the order of their places.
    closers: Vec<Closer>,
}

impl Model for TitleIndex {
    ghost use Rattle.std.specs.Prelude.{List};
    ghost use Rattle.std.specs.List.Sorted.{IsNonDecreasingBy};
    ghost use Rattle.markdown_notes.specs.declared.title_index.Closer.{Closer as Found};

    ghost Value = { List Found };

    ghost view = { λ r. r.closers.items };

    ghost invariant = { λ r. IsNonDecreasingBy (λ (c : Found). c.at) r.closers.items };
}

impl TitleIndex {
    /// The closing parentheses of the whole content of a cursor, by one walk.
    ///
    /// `Err` only if memory is refused.
    pub fn over(alloc: Global, cursor: &Cursor) -> Result<TitleIndex, AllocError>
        ensures { IfOk result (λ index. index ≡ closers_of cursor.now.codes) }
    {
        let mut closers = Vec::new(alloc);
        let mut place = cursor.restart();
        let stops = title_bytes();
        while let Some(code) = place.seek(&stops) {
            let at = place.passed();
            place.consume();
            if code == b')' {
                let twice = closes_past_spacing(&place);
                closers.push(Closer { at, twice })?;
            } else if code == b'\\' {
                pass_escaped(&mut place);
            }
        }
        Ok(TitleIndex { closers })
    }

    /// Whether no resource ends behind a title that begins at this many codes, where an opening parenthesis stands.
    pub fn rules_out(&self, at: usize) -> bool
        ensures { result ≡ not (first_twice at self.now) }
    {
        let first = first_from(self.closers.as_slice(), at);
        first >= self.closers.len() || !self.closers[first].twice
    }
}

// How many of these, which are in the order of their places, stand before a place.
fn first_from(closers: &[Closer], at: usize) -> usize
    requires { IsNonDecreasingBy (λ (c : Found). c.at) closers.now }
    ensures { IsPartitionPoint (λ (c : Found). nat_lt c.at at ≡ true) (λ (c : Found). nat_lt c.at at ≡ false) closers.now result }
{
    closers.partition_point(|closer| closer.at < at)
}

const TITLE_BYTES: ByteTable = byte_table!(b')', b'\\');

// The closing parenthesis and the backslash.
fn title_bytes() -> ByteSet
    ensures { result ≡ title_bytes }
{
    ByteSet::new(&TITLE_BYTES)
}

// Moves past the code behind a backslash, if there is one: it neither ends a title nor escapes another.
fn pass_escaped(place: &mut Cursor)
    ensures passed { IsSome (code_at place.old) → place.new ≡ moved place.old }
    ensures stays { code_at place.old ≡ None → place.new ≡ place.old }
{
    if place.current().is_some() {
        place.consume();
    }
}
