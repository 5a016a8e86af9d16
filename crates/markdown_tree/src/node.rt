//! What a node is, and where it stands.
use markdown_event::event::{Name, Point};

/// A node: what it is, where it begins and ends, and the numbers of its two events, from 0.
#[derive(Clone, Copy, Debug, PartialEq, Eq)]
pub struct Node {
    /// The number of its Enter.
    pub enter: usize,
    /// The number of its Exit.
    pub exit: usize,
    /// What it is.
    pub name: Name,
    /// Where it begins.
    pub start: Point,
    /// Where it ends.
    pub end: Point,
}
