//! Names in the order of their bytes, each found by a search.
ghost use Rattle.std.specs.Prelude.{◌≡◌, ◌≤◌, ◌==◌, IfOk, map, length, string_bytes, true, false, IsTrue};
ghost use Rattle.std.specs.List.{list_any, starts_with, AllWithin};
ghost use Rattle.std.specs.Str.{bytes_eq};
ghost use Rattle.std.specs.List.Sorted.{IsNonDecreasing, IsPermutation, IsSorted};
ghost use Rattle.std.specs.String.{string_cmp};
ghost use Rattle.markdown_notes.specs.BracketIndex.{brackets_of, has_brackets, no_brackets};
ghost use Rattle.markdown_notes.specs.NameIndex.{in_order, comes_before, names_in_order};

use crate::bracket_index::{BracketIndex, brackets_of};
use std::alloc::{AllocError, Global};
use std::marker::Model;

/// Some names. Contracts see their bytes, in order.
#[derive(Drop)]
pub struct NameIndex {
    // In the order of their bytes.
    names: Vec<String>,
    // How many opening brackets they have, in order.
    counts: Vec<usize>,
}

impl Model for NameIndex {
    ghost use Rattle.std.specs.Prelude.{List, ℕ, map, string_bytes};
    ghost use Rattle.std.specs.List.Sorted.{IsNonDecreasing, IsPermutation, IsSorted};
    ghost use Rattle.std.specs.String.{string_cmp};
    ghost use Rattle.markdown_notes.specs.BracketIndex.{brackets_of};

    ghost Value = { List (List ℕ) };

    ghost view = { λ r. map string_bytes r.names.items };

    ghost invariant = { λ r. IsSorted string_cmp r.names.items
        × (IsNonDecreasing r.counts.items × IsPermutation (map (λ name. brackets_of (string_bytes name)) r.names.items) r.counts.items) };
}

impl NameIndex {
    /// An index of these names.
    ///
    /// The only error is that memory was refused.
    pub fn over(alloc: Global, names: &[String]) -> Result<NameIndex, AllocError>
        ensures { IfOk result (λ index. index ≡ in_order (map string_bytes names.now)) }
    {
        let mut sorted = Vec::new(alloc);
        for name in names {
            sorted.push(name.clone()?)?;
        }
        sorted.sort_unstable();
        let counts = counts_of(alloc, sorted.as_slice())?;
        Ok(NameIndex {
            names: sorted,
            counts,
        })
    }

    /// Whether it is one of the names.
    pub fn has(&self, name: &str) -> bool
        ensures { result ≡ list_any (bytes_eq name.now) self.now }
    {
        let at = first_from(self.names.as_slice(), name);
        at < self.names.len() && name == self.names[at].as_str()
    }

    /// Whether one of the names begins so.
    pub fn begins(&self, front: &str) -> bool
        ensures { result ≡ list_any (λ name. starts_with (◌==◌) name front.now) self.now }
    {
        let names = self.names.as_slice();
        first_begins(names, front) || one_begins(names, front)
    }

    /// Whether one of the names has so many opening brackets.
    pub fn has_brackets(&self, count: usize) -> bool
        ensures { result ≡ has_brackets count self.now }
    {
        self.counts.binary_search(&count).is_ok()
    }
}

// How many opening brackets these names have, in order.
fn counts_of(alloc: Global, names: &[String]) -> Result<Vec<usize>, AllocError>
    ensures sorted { IfOk result (λ counts. IsNonDecreasing counts.items) }
    ensures permutation { IfOk result (λ counts. IsPermutation (map (λ name. brackets_of (string_bytes name)) names.now) counts.items) }
{
    let mut counts = Vec::new(alloc);
    for name in names {
        counts.push(brackets_of(name.as_str()))?;
    }
    counts.sort_unstable();
    Ok(counts)
}

// How many of these names, which are in order, come before a text.
fn first_from(names: &[String], text: &str) -> usize
    requires { IsSorted string_cmp names.now }
    ensures within { result ≤ length names.now }
    ensures before { AllWithin (λ name. comes_before text.now (string_bytes name) ≡ true) names.now 0 result }
    ensures after { AllWithin (λ name. comes_before text.now (string_bytes name) ≡ false) names.now result (length names.now) }
{
    names.partition_point(|name| name.as_str() < text)
}

// Whether the first of these names begins so: so do many names that are like each other, and each begins with an empty front.
fn first_begins(names: &[String], front: &str) -> bool
    ensures { IsTrue result → IsTrue (list_any (λ name. starts_with (◌==◌) (string_bytes name) front.now) names.now) }
{
    match names {
        [first, ..] => first.as_bytes().starts_with(front.as_bytes()),
        [] => false,
    }
}

// Whether one of these names, which are in order, begins so.
fn one_begins(names: &[String], front: &str) -> bool
    requires { IsSorted string_cmp names.now }
    ensures { result ≡ list_any (λ name. starts_with (◌==◌) (string_bytes name) front.now) names.now }
{
    let at = first_from(names, front);
    at < names.len() && names[at].as_bytes().starts_with(front.as_bytes())
}

// Names in order.
#[derive(Drop)]
enum Kept<'a> {
    // Made for a run.
    Own(NameIndex),
    // Made once for all runs over a document.
    Lent(&'a NameIndex),
}

/// Names in order, of a run's own or lent to it. Contracts see the names.
#[derive(Drop)]
pub struct Listed<'a> {
    kept: Kept<'a>,
}

impl<'a> Model for Listed<'a> {
    ghost use Rattle.std.specs.Prelude.{List, ℕ};
    ghost use Rattle.markdown_notes.specs.KeptNames.{kept_names};

    ghost Value = { List (List ℕ) };

    ghost view = { λ l. kept_names l.kept };
}

impl<'a> Listed<'a> {
    // Names of a run's own.
    fn own(index: NameIndex) -> Listed<'a>
        ensures { result ≡ index }
    {
        Listed {
            kept: Kept::Own(index),
        }
    }

    // Names that are lent.
    fn lent(index: &'a NameIndex) -> Listed<'a>
        ensures { result ≡ index.now }
    {
        Listed {
            kept: Kept::Lent(index),
        }
    }

    // The index of the names.
    fn index(&self) -> &NameIndex
        ensures { result.now ≡ self.now }
    {
        match &self.kept {
            Kept::Own(index) => index,
            Kept::Lent(index) => index,
        }
    }

    /// Whether it is one of the names.
    pub fn has(&self, name: &str) -> bool
        ensures { result ≡ list_any (bytes_eq name.now) self.now }
    {
        self.index().has(name)
    }

    /// Whether one of the names begins so.
    pub fn begins(&self, front: &str) -> bool
        ensures { result ≡ list_any (λ name. starts_with (◌==◌) name front.now) self.now }
    {
        self.index().begins(front)
    }

    /// Whether one of the names has so many opening brackets.
    pub fn has_brackets(&self, count: usize) -> bool
        ensures { result ≡ has_brackets count self.now }
    {
        self.index().has_brackets(count)
    }
}

/// The names of what is defined, and where opening brackets stand in the document.
#[derive(Drop)]
pub struct Names<'a> {
    /// Of the definitions.
    pub definitions: Listed<'a>,
    /// Of the footnotes.
    pub footnotes: Listed<'a>,
    /// Where opening brackets stand: a label with another number of them than each name has is none of them.
    pub brackets: BracketIndex,
}

impl<'a> Names<'a> {
    /// These names, with these brackets.
    ///
    /// The only error is that memory was refused.
    pub fn over(
        alloc: Global,
        definitions: &[String],
        footnotes: &[String],
        brackets: BracketIndex,
    ) -> Result<Names<'a>, AllocError>
        ensures { IfOk result (λ names. names ≡ names_in_order (map string_bytes definitions.now) (map string_bytes footnotes.now) brackets) }
    {
        Ok(Names {
            definitions: Listed::own(NameIndex::over(alloc, definitions)?),
            footnotes: Listed::own(NameIndex::over(alloc, footnotes)?),
            brackets,
        })
    }

    /// Names that are lent, with no bracket known. Takes no memory.
    pub fn lent(alloc: Global, definitions: &'a NameIndex, footnotes: &'a NameIndex) -> Names<'a>
        ensures { result ≡ record { definitions = definitions.entry.now; footnotes = footnotes.entry.now; brackets = no_brackets } }
    {
        Names {
            definitions: Listed::lent(definitions),
            footnotes: Listed::lent(footnotes),
            brackets: BracketIndex::new(alloc),
        }
    }
}
