//! What a change does to the streams of a picture.
use crate::clashes::Clash;
use crate::diagram::{Node, Tone};
use crate::letters::isolated;
use crate::slots::Slots;
use std::alloc::{AllocError, Global};

// So many streams that go have a box each.
const MOST_GONE: usize = 40;

/// What a change does to a stream of the new catalogue and config.
#[derive(Clone, Copy, Debug, PartialEq, Eq, Drop)]
pub enum Mark {
    /// It stays as it is.
    Same,
    /// It is new.
    New,
    /// Something of it differs.
    Differs,
}

impl Mark {
    // What stands before the name of such a stream.
    pub(crate) fn sign(self) -> &'static str {
        match self {
            Mark::Same => "",
            Mark::New => "+ ",
            Mark::Differs => "~ ",
        }
    }
}

/// A stream of the old catalogue and config that is none of the new ones.
#[derive(Clone, Copy, Debug)]
pub struct Gone<'a> {
    /// The name of its reader.
    pub reader: &'a str,
    /// Its name.
    pub name: &'a str,
}

/// What a change does to streams.
#[derive(Clone, Copy, Debug)]
pub struct StreamChanges<'a> {
    /// The mark of each new stream, by its number. One without a mark stays as it is.
    pub marks: &'a [Mark],
    /// The old streams that go.
    pub gone: &'a [Gone<'a>],
}

/// How a stream looks.
#[derive(Clone, Copy)]
pub(crate) struct Look {
    /// In what it collides.
    pub clash: Option<Clash>,
    /// What a change does to it.
    pub mark: Mark,
}

/// How each stream looks.
pub(crate) fn looks_of(
    alloc: Global,
    clashes: &[Option<Clash>],
    changes: Option<StreamChanges<'_>>,
) -> Result<Vec<Look>, AllocError> {
    let marks = match changes {
        Some(changes) => changes.marks,
        None => &[],
    };
    let mut looks = Vec::new(alloc);
    for (number, clash) in clashes.iter().enumerate() {
        let mark = marks.get(number).copied().unwrap_or(Mark::Same);
        looks.push(Look {
            clash: *clash,
            mark,
        })?;
    }
    Ok(looks)
}

/// Adds the streams that go, and what the marks mean.
pub(crate) fn add_changes(
    alloc: Global,
    slots: &mut Slots,
    changes: StreamChanges<'_>,
) -> Result<(), AllocError> {
    add_gone(alloc, slots, changes.gone)?;
    slots
        .nodes
        .push(plain_node(alloc, "what changes", Tone::Title)?)?;
    slots
        .nodes
        .push(plain_node(alloc, "+ a stream that is new", Tone::New)?)?;
    slots.nodes.push(plain_node(alloc, "~ a stream that differs", Tone::Differs)?)?;
    slots
        .nodes
        .push(plain_node(alloc, "- a stream that goes", Tone::Gone)?)?;
    Ok(())
}

fn plain_node(alloc: Global, title: &str, tone: Tone) -> Result<Node, AllocError> {
    Ok(Node::new(alloc, String::from_str(alloc, title)?, tone))
}

// Adds a box for each of the first streams that go, and one that counts the others.
fn add_gone(alloc: Global, slots: &mut Slots, gone: &[Gone<'_>]) -> Result<(), AllocError> {
    if !gone.is_empty() {
        slots.nodes.push(plain_node(alloc, "gone", Tone::Title)?)?;
    }
    for stream in gone.iter().take(MOST_GONE) {
        slots.nodes.push(gone_node(alloc, *stream)?)?;
    }
    if gone.len() > MOST_GONE {
        let more = gone.len() - MOST_GONE;
        let title = format!(in alloc; "- {more} more streams")?;
        slots.nodes.push(Node::new(alloc, title, Tone::Gone))?;
    }
    Ok(())
}

fn gone_node(alloc: Global, stream: Gone<'_>) -> Result<Node, AllocError> {
    let Gone { reader, name } = stream;
    let title = format!(in alloc; "- {name}")?;
    let mut node = Node::new(alloc, title, Tone::Gone);
    let reader = isolated(alloc, reader)?;
    node.add_line(format!(in alloc; "of reader {reader}"))?;
    Ok(node)
}
