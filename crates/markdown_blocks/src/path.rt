//! The open containers, outermost first.

ghost use Rattle.std.specs.Prelude.{◌≡◌, ◌<◌, ◌∷◌, ◌++◌, [], length, take, IfOk};
ghost use Rattle.std.proofs.Common.{get_or};
ghost use Rattle.markdown_blocks.specs.PathItems.{EndsWithItems, is_item};

use markdown_block_line::containers::Container;
use std::alloc::{AllocError, Global};
use std::marker::Model;

/// The open containers, outermost first, and how many of the last are items.
#[derive(Drop)]
pub struct Path {
    containers: Vec<Container>,
    row: usize,
}

impl Model for Path {
    ghost use Rattle.std.specs.Prelude.{List};
    ghost use Rattle.markdown_block_line.specs.declared.containers.Container.{Container};
    ghost use Rattle.markdown_blocks.specs.PathItems.{EndsWithItems};

    ghost Value = { List Container };

    ghost view = { λ p. p.containers.items };

    ghost invariant = { λ p. EndsWithItems p.row p.containers.items };
}

// Whether a container is an item.
fn is_item(container: &Container) -> bool
    ensures { result ≡ is_item container.now }
{
    match container {
        Container::Quote => false,
        Container::Item(_, _) => true,
    }
}

// How many of the last containers are items.
fn items_at_end(containers: &[Container]) -> usize
    ensures { EndsWithItems result containers.now }
{
    let mut row = 0;
    while row < containers.len() {
        if !is_item(&containers[containers.len() - 1 - row]) {
            return row;
        }
        row += 1;
    }
    row
}

impl Path {
    /// Makes a path of no containers.
    pub fn new(alloc: Global) -> Path
        ensures { result ≡ [] }
    {
        Path {
            containers: Vec::new(alloc),
            row: 0,
        }
    }

    /// Returns how many containers are open.
    pub fn len(&self) -> usize
        ensures { result ≡ length self.now }
    {
        self.containers.len()
    }

    /// Returns how many of the last containers are items.
    pub fn row(&self) -> usize
        ensures { EndsWithItems result self.now }
    {
        self.row
    }

    /// Returns the container that stands so deep.
    pub fn get(&self, index: usize) -> Container
        requires { index < length self.now }
        ensures { result ≡ get_or self.now index result }
    {
        self.containers[index]
    }

    /// Appends a container inside all others.
    pub fn push(&mut self, container: Container) -> Result<(), AllocError>
        ensures { IfOk result (λ _. self.new ≡ self.old ++ container ∷ []) }
    {
        self.containers.push(container)?;
        if is_item(&container) {
            self.row += 1;
        } else {
            self.row = 0;
        }
        Ok(())
    }

    /// Drops the containers that stand so deep or deeper.
    pub fn truncate(&mut self, len: usize)
        ensures { self.new ≡ take len self.old }
    {
        self.containers.truncate(len);
        self.row = items_at_end(&self.containers);
    }
}
