//! The tree that a list of events is.
ghost use Rattle.std.specs.Prelude.{◌≡◌, ◌+◌, ◌<◌, IfOk, IfSome, length, slice_get};
ghost use Rattle.markdown_tree.specs.Nodes.{enter_at, exit_at, node_at, first_child_at, next_sibling_at, parent_at, events_at};

use crate::index::{enter_around, exit_behind, exits, parents};
use crate::node::Node;
use markdown_engine_events::event_list::EventSlice;
use markdown_event::event::{Event, Kind};
use std::alloc::{AllocError, Global};
use std::marker::Model;

// What is kept for each event.
#[derive(Drop)]
struct Lists {
    // The number of the innermost Enter that is open before it.
    parents: Vec<Option<usize>>,
    // The number of the first Exit behind it that ends no Enter behind it.
    exits: Vec<Option<usize>>,
}

/// The tree that a list of events is, over the events themselves.
///
/// A node is the number of an Enter in the list, from 0. Contracts see the tree as the list of its events.
#[derive(Drop)]
pub struct Tree<'a> {
    events: EventSlice<'a>,
    // None where each call walks to what it looks for.
    lists: Option<Lists>,
}

impl<'a> Model for Tree<'a> {
    ghost use Rattle.std.specs.Prelude.{◌≡◌, IfSome, List};
    ghost use Rattle.markdown_event.specs.declared.event.Event.{Event};
    ghost use Rattle.markdown_tree.specs.TreeIndex.{parents_of, exits_of};

    ghost Value = { List Event };

    ghost view = { λ t. t.events };

    ghost invariant = { λ t. IfSome t.lists (λ lists. (lists.parents.items ≡ parents_of t.events) × (lists.exits.items ≡ exits_of t.events)) };
}

impl<'a> Tree<'a> {
    /// The tree of these events. Takes no memory, and each call passes the events of the node that it is asked for, and `parent` all those before it,
    /// until `index` is called.
    pub fn over(events: &EventSlice<'a>) -> Tree<'a>
        ensures { result ≡ events.now }
    {
        Tree {
            events: events.slice(0, events.len()),
            lists: None,
        }
    }

    /// The tree of these events, whose calls take constant time: as `over` and `index`.
    ///
    /// The error comes only where memory is refused.
    pub fn new(alloc: Global, events: &EventSlice<'a>) -> Result<Tree<'a>, AllocError>
        ensures { IfOk result (λ tree. tree ≡ events.now) }
    {
        let mut tree = Tree::over(events);
        tree.index(alloc)?;
        Ok(tree)
    }

    /// Has its calls take constant time from now on. Takes memory for four words an event, and at first for one more where nodes stand in one another.
    ///
    /// The error comes only where memory is refused.
    pub fn index(&mut self, alloc: Global) -> Result<(), AllocError>
        ensures { self.new ≡ self.old }
    {
        if self.lists.is_none() {
            let parents = parents(alloc, &self.events)?;
            let exits = exits(alloc, &self.events)?;
            self.lists = Some(Lists { parents, exits });
        }
        Ok(())
    }

    // The event of this number.
    #[inline(always)]
    fn event(&self, number: usize) -> Option<Event>
        ensures { result ≡ slice_get self.now number }
    {
        if number < self.events.len() {
            Some(self.events.at(number))
        } else {
            None
        }
    }

    // The number itself, where it is that of an Enter.
    fn enter(&self, number: usize) -> Option<usize>
        ensures { result ≡ enter_at self.now number }
    {
        match self.event(number)?.kind {
            Kind::Enter => Some(number),
            Kind::Exit => None,
        }
    }

    // The number behind this one, where it is that of an Enter.
    fn enter_behind(&self, number: usize) -> Option<usize>
        ensures { result ≡ enter_at self.now (number + 1) }
    {
        if number < self.events.len() {
            self.enter(number + 1)
        } else {
            None
        }
    }

    // The number of a node's Exit.
    fn exit(&self, node: usize) -> Option<usize>
        ensures exit { result ≡ exit_at self.now node }
        ensures within { IfSome result (λ exit. (node < exit) × (exit < length self.now)) }
    {
        let enter = self.enter(node)?;
        match &self.lists {
            Some(lists) => lists.exits[enter],
            None => exit_behind(&self.events, enter),
        }
    }

    /// The first node of all.
    pub fn first(&self) -> Option<usize>
        ensures { result ≡ enter_at self.now 0 }
    {
        self.enter(0)
    }

    /// What a node is, and where; `None` where the number is not that of an Enter with an Exit.
    pub fn node(&self, node: usize) -> Option<Node>
        ensures { result ≡ node_at self.now node }
    {
        let exit = self.exit(node)?;
        let first = self.event(node)?;
        let last = self.event(exit)?;
        Some(Node {
            enter: node,
            exit,
            name: first.name,
            start: first.point,
            end: last.point,
        })
    }

    /// The events of a node, from its Enter to its Exit; none where the number is not that of an Enter with an Exit.
    pub fn events(&self, node: usize) -> EventSlice<'a>
        ensures { result ≡ events_at self.now node }
    {
        match self.exit(node) {
            Some(exit) if exit < self.events.len() => self.events.slice(node, exit + 1),
            _ => self.events.slice(0, 0),
        }
    }

    /// The node that a node stands in.
    pub fn parent(&self, node: usize) -> Option<usize>
        ensures { result ≡ parent_at self.now node }
    {
        let enter = self.enter(node)?;
        match &self.lists {
            Some(lists) => lists.parents[enter],
            None => enter_around(&self.events, enter),
        }
    }

    /// The first node inside a node.
    pub fn first_child(&self, node: usize) -> Option<usize>
        ensures { result ≡ first_child_at self.now node }
    {
        let enter = self.enter(node)?;
        self.enter_behind(enter)
    }

    /// The node behind a node, with the same parent.
    pub fn next_sibling(&self, node: usize) -> Option<usize>
        ensures { result ≡ next_sibling_at self.now node }
    {
        let exit = self.exit(node)?;
        self.enter_behind(exit)
    }
}
