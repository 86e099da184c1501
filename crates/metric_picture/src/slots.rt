//! Boxes that may stand for several things.
use crate::diagram::Node;
use std::alloc::{AllocError, Global};

/// The boxes of a column, and of each of the things that they stand for, in order, the number of its box.
pub(crate) struct Slots {
    pub nodes: Vec<Node>,
    pub of: Vec<usize>,
}

impl Drop for Slots {
    // As that of a box.
    fn drop(self) {
        let Slots {
            nodes: _nodes,
            of: _of,
        } = self;
    }
}

impl Slots {
    pub(crate) fn new(alloc: Global) -> Slots {
        Slots {
            nodes: Vec::new(alloc),
            of: Vec::new(alloc),
        }
    }

    /// Adds a box of its own for the next thing.
    pub(crate) fn add(&mut self, node: Node) -> Result<(), AllocError> {
        self.of.push(self.nodes.len())?;
        self.nodes.push(node)?;
        Ok(())
    }

    /// The boxes.
    pub(crate) fn into_nodes(self) -> Vec<Node> {
        let Slots { nodes, of: _of } = self;
        nodes
    }

    /// The number of the box of a thing.
    pub(crate) fn at(&self, thing: usize) -> usize {
        self.of.get(thing).copied().unwrap_or(usize::MAX)
    }
}
