//! The sizes of the pairs of each run, as their opener.
#![tactic(auto)]

ghost use Rattle.std.specs.Prelude.{◌≡◌, ◌<◌, ◌∷◌, [], IfOk, IfSome, IsTrue, OnOk, length, replicate, slice_index_or, slice_set};
ghost use Rattle.std.specs.List.{All};
ghost use Rattle.markdown_attention.specs.PairSizes.{AreSizes};

use crate::attention::pairing::Pair;
use markdown_event::seq::Stack;
use std::alloc::{AllocError, Global};
use std::marker::Model;

// A size, and where the next one of the same run is.
#[derive(Clone, Copy)]
struct SizeNode {
    size: usize,
    // How many nodes there were when that one was put in, itself among them; 0 where there is none.
    next: usize,
}

// The sizes of the pairs of each run, as their opener: contracts see a list for each run.
//
// The sizes of all runs stand in one list, so that a run takes no memory of its own but one number.
#[derive(Drop)]
pub(crate) struct Sizes {
    // For each run where its first size is, as nodes tell where the next is.
    firsts: Vec<usize>,
    nodes: Stack<SizeNode>,
}

impl Model for Sizes {
    ghost use Rattle.std.specs.Prelude.{List, ℕ, ◌≤◌, map, length};
    ghost use Rattle.std.specs.List.{All};
    ghost use Rattle.markdown_attention.specs.SizeNodes.{sizes_from, AreLinked};

    ghost Value = { List (List ℕ) };

    ghost view = { λ s. map (sizes_from s.nodes) s.firsts.items };

    ghost invariant = { λ s. All (λ n. n ≤ length s.nodes) s.firsts.items × AreLinked s.nodes };
}

impl Sizes {
    // No sizes for each of so many runs.
    fn new(alloc: Global, count: usize) -> Result<Sizes, AllocError>
        ensures { IfOk result (λ v. v ≡ replicate count []) }
    {
        Ok(Sizes {
            firsts: vec![in alloc; 0; count]?,
            nodes: Stack::new(alloc),
        })
    }

    // Puts a size before those of a run.
    fn push_first(&mut self, run: usize, size: usize) -> Result<(), AllocError>
        requires { run < length self.old }
        ensures { OnOk result (self.new ≡ slice_set self.old run (size ∷ slice_index_or self.old run [])) }
    {
        let next = self.firsts[run];
        self.nodes.push(SizeNode { size, next })?;
        self.firsts[run] = self.nodes.len();
        Ok(())
    }

    /// For each run the sizes of the pairs whose opener it is, in order.
    pub(crate) fn over(alloc: Global, count: usize, pairs: &[Pair]) -> Result<Sizes, AllocError>
        requires { All (λ p. p.opener < count) pairs.now }
        ensures sizes { IfOk result (λ v. AreSizes pairs.now v) }
        ensures len { IfOk result (λ v. length v ≡ count) }
    {
        let mut sizes = Sizes::new(alloc, count)?;
        for index in (0..pairs.len()).rev() {
            let pair = pairs[index];
            sizes.push_first(pair.opener, pair.size)?;
        }
        Ok(sizes)
    }

    /// Whether a run has no sizes.
    pub(crate) fn is_none(&self, run: usize) -> bool
        requires { run < length self.now }
        ensures { IsTrue result → slice_index_or self.now run [] ≡ [] }
    {
        self.firsts[run] == 0
    }

    /// The size of a run that has one, and no other.
    pub(crate) fn sole(&self, run: usize) -> Option<usize>
        requires { run < length self.now }
        ensures { IfSome result (λ k. slice_index_or self.now run [] ≡ k ∷ []) }
    {
        let at = self.firsts[run];
        if at == 0 {
            return None;
        }
        let node = *self.nodes.at(self.nodes.len() - at);
        if node.next == 0 {
            Some(node.size)
        } else {
            None
        }
    }

    /// Puts the sizes of a run in place of those that a list had.
    pub(crate) fn read(&self, run: usize, into: &mut Vec<usize>) -> Result<(), AllocError>
        requires { run < length self.now }
        ensures { OnOk result (into.new.items ≡ slice_index_or self.now run []) }
    {
        into.clear();
        let mut at = self.firsts[run];
        while at > 0 {
            let node = *self.nodes.at(self.nodes.len() - at);
            into.push(node.size)?;
            at = node.next;
        }
        Ok(())
    }
}
