//! Links from a column to the next, each drawn once.
use crate::diagram::{Link, Tone};
use std::alloc::{AllocError, Global};

/// The links from a column to the next, with what was linked already, and which of it is red.
pub(crate) struct Links {
    column: usize,
    width: usize,
    linked: Vec<bool>,
    red: Vec<bool>,
    links: Vec<Link>,
}

impl Drop for Links {
    // As that of a box.
    fn drop(self) {
        let Links {
            column: _,
            width: _,
            linked: _linked,
            red: _red,
            links: _links,
        } = self;
    }
}

impl Links {
    /// No links from a column of so many boxes to one of so many.
    pub(crate) fn new(
        alloc: Global,
        column: usize,
        height: usize,
        width: usize,
    ) -> Result<Links, AllocError> {
        let pairs = height.saturating_mul(width);
        Ok(Links {
            column,
            width,
            linked: vec![in alloc; false; pairs]?,
            red: vec![in alloc; false; pairs]?,
            links: Vec::new(alloc),
        })
    }

    /// Adds a link, unless both boxes are linked already. One that is red makes the link of these boxes red.
    pub(crate) fn add(&mut self, from: usize, to: usize, tone: Tone) -> Result<(), AllocError> {
        let place = self.place_of(from, to);
        if tone == Tone::Red {
            raise(self.red.as_mut_slice(), place);
        }
        if raise(self.linked.as_mut_slice(), place) {
            self.links.push(Link {
                column: self.column,
                from,
                to,
                tone,
            })?;
        }
        Ok(())
    }

    /// Puts the links last.
    pub(crate) fn push_to(&self, all: &mut Vec<Link>) -> Result<(), AllocError> {
        for link in self.links.iter() {
            all.push(self.toned(*link))?;
        }
        Ok(())
    }

    // A link, red where one of those that it stands for is.
    fn toned(&self, link: Link) -> Link {
        let place = self.place_of(link.from, link.to);
        match self.red.get(place) {
            Some(true) => Link {
                tone: Tone::Red,
                ..link
            },
            _ => link,
        }
    }

    // The place of two boxes among all pairs.
    fn place_of(&self, from: usize, to: usize) -> usize {
        from.saturating_mul(self.width).saturating_add(to)
    }
}

/// Raises the flag at a place, and says whether it was there and not raised.
pub(crate) fn raise(flags: &mut [bool], place: usize) -> bool {
    match flags.get_mut(place) {
        Some(flag) => {
            let is_new = !*flag;
            *flag = true;
            is_new
        }
        None => false,
    }
}
