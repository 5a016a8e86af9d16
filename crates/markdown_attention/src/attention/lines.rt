//! Which lines of the tables of the pairing the runs of a row have: those of the whole content, or of the text of a label.
#![tactic(auto)]

ghost use Rattle.std.specs.Prelude.{◌≡◌, ℕ, ◌+◌, ◌<◌, ◌≤◌, ◌^◌, IfOk, length, replicate, slice_index, slice_set};
ghost use Rattle.markdown_attention.specs.NumberedPairs.{row_of};
ghost use Rattle.markdown_attention.specs.OpenRuns.{AreLines};

use std::alloc::{AllocError, Global};
use std::marker::Model;

// Which line each row has: one more than its number, or 0 where the row has none. There are lines only for the rows that hold a run.
//
// The whole content has a row beside those of the texts, so that a content without texts of labels needs no memory here.
#[derive(Drop)]
pub(crate) struct Lines {
    whole: usize,
    of_texts: Vec<usize>,
    count: usize,
}

impl Model for Lines {
    ghost use Rattle.std.specs.Prelude.{◌∷◌};
    ghost use Rattle.markdown_attention.specs.RowLines.{RowLines};

    ghost Value = { RowLines };

    ghost view = { λ l. record { of_rows = l.whole ∷ l.of_texts.items; count = l.count } };
}

impl Lines {
    /// No line for the whole content, nor for any of so many texts of labels.
    pub(crate) fn new(alloc: Global, texts: usize) -> Result<Lines, AllocError>
        ensures { IfOk result (λ lines. lines ≡ record { of_rows = replicate (texts + 1) 0; count = 0 }) }
    {
        Ok(Lines {
            whole: 0,
            of_texts: vec![in alloc; 0usize; texts]?,
            count: 0,
        })
    }

    /// How many lines there are.
    pub(crate) fn count(&self) -> usize
        ensures { result ≡ self.now.count }
    {
        self.count
    }

    // One more than the line of the text of a label, or of the whole content; 0 where it has none.
    #[inline(always)]
    fn above(&self, text: Option<usize>) -> usize
        requires { row_of text < length self.now.of_rows }
        ensures { result ≡ slice_index self.now.of_rows (row_of text) }
    {
        match text {
            None => self.whole,
            Some(text) => self.of_texts[text],
        }
    }

    // Gives the text of a label, or the whole content, the next line.
    #[inline(always)]
    fn add(&mut self, text: Option<usize>)
        requires within { row_of text < length self.old.of_rows }
        requires room { self.old.count + 1 < 2 ^ 64 }
        ensures { self.new ≡ record { of_rows = slice_set self.old.of_rows (row_of text) (self.old.count + 1); count = self.old.count + 1 } }
    {
        self.count += 1;
        match text {
            None => self.whole = self.count,
            Some(text) => self.of_texts[text] = self.count,
        }
    }

    /// Gives the text of a label, or the whole content, the next line, if it has none.
    #[inline(always)]
    pub(crate) fn give(&mut self, text: Option<usize>)
        requires within { row_of text < length self.old.of_rows }
        requires room { self.old.count + 1 < 2 ^ 64 }
        requires are { AreLines self.old.of_rows self.old.count }
        ensures are { AreLines self.new.of_rows self.new.count }
        ensures some { 0 < slice_index self.new.of_rows (row_of text) }
        ensures kept { (a : ℕ) → 0 < slice_index self.old.of_rows a → 0 < slice_index self.new.of_rows a }
        ensures same { length self.new.of_rows ≡ length self.old.of_rows }
        ensures count { self.new.count ≤ self.old.count + 1 }
    {
        if self.above(text) == 0 {
            self.add(text);
        }
    }

    /// The line of the text of a label, or of the whole content.
    pub(crate) fn line_of(&self, text: Option<usize>) -> usize
        requires row { row_of text < length self.now.of_rows }
        requires some { 0 < slice_index self.now.of_rows (row_of text) }
        ensures { result + 1 ≡ slice_index self.now.of_rows (row_of text) }
    {
        self.above(text) - 1
    }
}
