//! Growable lists that contracts see as the list alone.
ghost use lib.Seq.{paste};
ghost use Rattle.std.specs.Prelude.{◌≤◌, ◌+◌, ◌≡◌, ◌++◌, ◌∷◌, [], length, ◌-◌, ◌==◌, take, drop, reverse, OnOk, OnErr, MatchOption, ◌<◌, slice_index_or, slice_set};

use std::alloc::{AllocError, Global};
use std::marker::Model;

// How many items are moved at once, at the most: what is copied is then in the nearest cache. So many events take just less than 4,096 bytes, from which
// on the C library copies in another way.
const AT_ONCE: usize = 46;

// How many items are moved one by one, at the most: to copy so few by the C library takes longer.
const FEW: usize = 3;

// Writes so many items from `from` on once more, at a place behind them.
#[inline]
fn copy_up<T: Copy>(items: &mut [T], from: usize, count: usize, place: usize)
    requires order { from + count ≤ place }
    requires room { place + count ≤ length items.old }
    ensures { items.new ≡ paste items.old place (drop from items.old) count }
{
    let (low, high) = items.split_at_mut(place);
    high[..count].copy_from_slice(&low[from..from + count]);
}

// Writes so many items from `from` on once more, at a place before them.
#[inline]
fn copy_down<T: Copy>(items: &mut [T], from: usize, count: usize, place: usize)
    requires order { place + count ≤ from }
    requires within { from + count ≤ length items.old }
    ensures { items.new ≡ paste items.old place (drop from items.old) count }
{
    let (low, high) = items.split_at_mut(from);
    low[place..place + count].copy_from_slice(&high[..count]);
}

// Writes the items from `from` to `to` once more, so many places behind, those at the end first.
fn move_up<T: Copy>(items: &mut [T], from: usize, to: usize, gap: usize)
    requires order { from ≤ to }
    requires some { 0 < gap }
    requires room { to + gap ≤ length items.old }
    ensures { items.new ≡ paste items.old (from + gap) (drop from items.old) (to - from) }
{
    let mut left = to;
    while left > from {
        let count = (left - from).min(gap).min(AT_ONCE);
        left -= count;
        copy_up(items, left, count, left + gap);
    }
}

// Writes the items from `from` to `to` once more, so many places before, those at the front first.
fn move_down<T: Copy>(items: &mut [T], from: usize, to: usize, gap: usize)
    requires order { from ≤ to }
    requires some { 0 < gap }
    requires within { to ≤ length items.old }
    requires room { gap ≤ from }
    ensures { items.new ≡ paste items.old (from - gap) (drop from items.old) (to - from) }
{
    let mut done = from;
    while done < to {
        let count = (to - done).min(gap).min(AT_ONCE);
        copy_down(items, done, count, done - gap);
        done += count;
    }
}

// Writes the items from `from` to `to` once more, at another place.
#[inline(always)]
fn move_items<T: Copy>(items: &mut [T], from: usize, to: usize, place: usize)
    requires order { from ≤ to }
    requires within { to ≤ length items.old }
    requires room { place + (to - from) ≤ length items.old }
    ensures { items.new ≡ paste items.old place (drop from items.old) (to - from) }
{
    if to - from <= FEW {
        items.copy_within(from..to, place);
        return;
    }
    if place > from {
        return move_up(items, from, to, place - from);
    }
    if place < from {
        move_down(items, from, to, from - place);
    }
}

/// A list that grows at its end.
///
/// Contracts see it as the list of its items, without its capacity.
#[derive(Drop)]
pub struct Seq<T> {
    items: Vec<T>,
}

impl<T> Model for Seq<T> {
    ghost use Rattle.std.specs.Prelude.{List};

    ghost Value = { List T };

    ghost view = { λ s. s.items.items };
}

impl<T: Drop> Seq<T> {
    /// An empty list, which takes no memory.
    pub fn new(alloc: Global) -> Seq<T>
        ensures { result ≡ [] }
    {
        Seq {
            items: Vec::new(alloc),
        }
    }

    /// The list of these items.
    pub fn from_vec(items: Vec<T>) -> Seq<T>
        ensures { result ≡ items.items }
    {
        Self { items }
    }

    /// Its items.
    pub fn into_vec(self) -> Vec<T>
        ensures { result.items ≡ self }
    {
        let Seq { items } = self;
        items
    }

    /// How many items there are.
    pub fn len(&self) -> usize
        ensures { result ≡ length self.now }
    {
        self.items.len()
    }

    /// Whether there is no item.
    pub fn is_empty(&self) -> bool
        ensures { result ≡ (length self.now == 0) }
    {
        self.items.is_empty()
    }

    /// The items, lent.
    pub fn as_slice(&self) -> &[T]
        ensures { result.now ≡ self.now }
    {
        self.items.as_slice()
    }

    /// Makes room for so many more items, so that adding them does not move the list.
    ///
    /// `Err` only if memory is refused; the list is as it was in either case.
    pub fn reserve(&mut self, more: usize) -> Result<(), AllocError>
        ensures { self.new ≡ self.old }
    {
        self.items.reserve(more)
    }

    /// Adds an item at the end.
    ///
    /// `Err` only if memory is refused; the list is then as it was.
    #[inline(always)]
    pub fn push(&mut self, item: T) -> Result<(), AllocError>
        ensures ok { OnOk result (self.new ≡ self.old ++ item ∷ []) }
        ensures err { OnErr result (self.new ≡ self.old) }
    {
        self.items.reserve(1)?;
        self.items.push_reserved(item);
        Ok(())
    }

    /// Adds an item in front.
    ///
    /// `Err` only if memory is refused; the list is then as it was.
    pub fn push_first(&mut self, item: T) -> Result<(), AllocError>
        ensures ok { OnOk result (self.new ≡ item ∷ self.old) }
        ensures err { OnErr result (self.new ≡ self.old) }
    {
        match self.items.insert(0, item) {
            Ok(()) => Ok(()),
            Err(_) => Err(AllocError),
        }
    }

    /// Takes the last item off, if there is one.
    pub fn pop(&mut self) -> Option<T>
        ensures cases { MatchOption result ((self.old ≡ []) × (self.new ≡ []))
            (λ x. self.old ≡ self.new ++ x ∷ []) }
        ensures rest { self.new ≡ take (length self.old - 1) self.old }
    {
        self.items.pop()
    }

    /// Keeps the first `n` items, or all if there are fewer.
    pub fn truncate(&mut self, n: usize)
        ensures { self.new ≡ take n self.old }
    {
        self.items.truncate(n);
    }

    /// The item at an index below `len`.
    pub fn at(&self, index: usize) -> &T
        requires { index < length self.now }
        ensures { result.now ≡ slice_index_or self.now index result.now }
    {
        &self.items[index]
    }

    /// Writes another item at an index below `len`.
    pub fn put(&mut self, index: usize, item: T)
        requires { index < length self.old }
        ensures { self.new ≡ slice_set self.old index item }
    {
        self.items[index] = item;
    }
}

impl<T: Copy> Seq<T> {
    /// Adds these items at the end.
    ///
    /// `Err` only if memory is refused; the list is then as it was.
    pub fn extend_from_slice(&mut self, items: &[T]) -> Result<(), AllocError>
        ensures ok { OnOk result (self.new ≡ self.old ++ items.now) }
        ensures err { OnErr result (self.new ≡ self.old) }
    {
        self.items.extend_from_slice(items)
    }

    /// Writes the items from `from` to `to` once more, at another place, over what stands there.
    #[inline(always)]
    pub fn move_within(&mut self, from: usize, to: usize, place: usize)
        requires order { from ≤ to }
        requires within { to ≤ length self.old }
        requires room { place + (to - from) ≤ length self.old }
        ensures { self.new ≡ paste self.old place (drop from self.old) (to - from) }
    {
        move_items(&mut self.items, from, to, place);
    }

    /// Writes these items at a place, over what stands there.
    pub fn write(&mut self, place: usize, items: &[T])
        requires { place + length items.now ≤ length self.old }
        ensures { self.new ≡ paste self.old place items.now (length items.now) }
    {
        self.items[place..place + items.len()].copy_from_slice(items);
    }
}

/// A stack.
///
/// Contracts see it as the list of its items, the top first, without its capacity.
#[derive(Drop)]
pub struct Stack<T> {
    // the top last
    bottom_up: Vec<T>,
}

impl<T> Model for Stack<T> {
    ghost use Rattle.std.specs.Prelude.{List, reverse};

    ghost Value = { List T };

    ghost view = { λ s. reverse s.bottom_up.items };
}

impl<T: Drop> Stack<T> {
    /// An empty stack, which takes no memory.
    pub fn new(alloc: Global) -> Stack<T>
        ensures { result ≡ [] }
    {
        Stack {
            bottom_up: Vec::new(alloc),
        }
    }

    /// How many items there are.
    pub fn len(&self) -> usize
        ensures { result ≡ length self.now }
    {
        self.bottom_up.len()
    }

    /// Whether there is no item.
    pub fn is_empty(&self) -> bool
        ensures { result ≡ (length self.now == 0) }
    {
        self.bottom_up.is_empty()
    }

    /// Puts an item on top.
    ///
    /// `Err` only if memory is refused; the stack is then as it was.
    #[inline(always)]
    pub fn push(&mut self, item: T) -> Result<(), AllocError>
        ensures ok { OnOk result (self.new ≡ item ∷ self.old) }
        ensures err { OnErr result (self.new ≡ self.old) }
    {
        self.bottom_up.reserve(1)?;
        self.bottom_up.push_reserved(item);
        Ok(())
    }

    /// Takes the top off, if there is one.
    pub fn pop(&mut self) -> Option<T>
        ensures cases { MatchOption result ((self.old ≡ []) × (self.new ≡ []))
            (λ x. self.old ≡ x ∷ self.new) }
        ensures rest { self.new ≡ drop 1 self.old }
    {
        self.bottom_up.pop()
    }

    /// The top, if there is one.
    pub fn top(&self) -> Option<&T>
        ensures { MatchOption result (self.now ≡ []) (λ x. self.now ≡ x.now ∷ drop 1 self.now) }
    {
        self.bottom_up.last()
    }

    /// The item at a depth below `len`, the top at 0.
    pub fn at(&self, depth: usize) -> &T
        requires { depth < length self.now }
        ensures { result.now ≡ slice_index_or self.now depth result.now }
    {
        &self.bottom_up[self.bottom_up.len() - 1 - depth]
    }

    /// Writes another item at a depth below `len`, the top at 0.
    pub fn put(&mut self, depth: usize, item: T)
        requires { depth < length self.old }
        ensures { self.new ≡ slice_set self.old depth item }
    {
        let index = self.bottom_up.len() - 1 - depth;
        self.bottom_up[index] = item;
    }

    /// Keeps the lowest `n` items, or all if there are fewer.
    pub fn truncate(&mut self, n: usize)
        ensures { self.new ≡ drop (length self.old - n) self.old }
    {
        self.bottom_up.truncate(n);
    }

    /// Moves all that `other` holds to the top, in its order.
    ///
    /// `Err` only if memory is refused; both are then as they were.
    pub fn append(&mut self, other: &mut Stack<T>) -> Result<(), AllocError>
        ensures ok { OnOk result (self.new ≡ other.old ++ self.old) }
        ensures none { OnOk result (other.new ≡ []) }
        ensures err { OnErr result (self.new ≡ self.old) }
        ensures stays { OnErr result (other.new ≡ other.old) }
    {
        match self.bottom_up.append(&mut other.bottom_up) {
            Ok(()) => Ok(()),
            Err(_) => Err(AllocError),
        }
    }
}
