//! What a picture shows.
use std::alloc::{AllocError, Global};

/// How a box or a link looks.
#[derive(Clone, Copy, PartialEq)]
pub(crate) enum Tone {
    /// As it comes.
    Plain,
    /// Something is renamed or left out.
    Changed,
    /// It ends here.
    Dropped,
    /// It collides with another.
    Red,
    /// A change brings it.
    New,
    /// A change makes it another.
    Differs,
    /// A change takes it away.
    Gone,
    /// A title without a box.
    Title,
    /// No box, but room for a link that passes.
    Lane,
}

/// A box: a title, and lines below it.
pub(crate) struct Node {
    /// The title.
    pub title: String,
    /// The lines below it.
    pub lines: Vec<String>,
    /// How it looks.
    pub tone: Tone,
}

impl Drop for Node {
    // A call of its own: what owns a box would else have the steps of dropping each part on each of its ways out.
    fn drop(self) {
        let Node {
            title: _title,
            lines: _lines,
            tone: _,
        } = self;
    }
}

impl Node {
    /// A box with a title and no line.
    pub(crate) fn new(alloc: Global, title: String, tone: Tone) -> Node {
        Node {
            title,
            lines: Vec::new(alloc),
            tone,
        }
    }

    /// Adds a line, where it could be made. Fails only when out of memory.
    pub(crate) fn add_line(&mut self, line: Result<String, AllocError>) -> Result<(), AllocError> {
        self.lines.push(line?)?;
        Ok(())
    }
}

/// A link from a box of a column to one of the next column, by their numbers.
#[derive(Clone, Copy)]
pub(crate) struct Link {
    /// The number of the column.
    pub column: usize,
    /// The number of the box there.
    pub from: usize,
    /// The number of the box in the next column.
    pub to: usize,
    /// How it looks.
    pub tone: Tone,
}

/// Columns of boxes, and links between them. A link to a box that is not there is not drawn.
pub(crate) struct Diagram {
    /// The columns, from the left.
    pub columns: Vec<Vec<Node>>,
    /// The links.
    pub links: Vec<Link>,
}

impl Drop for Diagram {
    // As that of a box.
    fn drop(self) {
        let Diagram {
            columns: _columns,
            links: _links,
        } = self;
    }
}
