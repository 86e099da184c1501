//! Laying out the nodes of a trie.
//!
//! A node with many steps leaves gaps between them, into which the steps of other nodes go. Where a node has no room is
//! told for 64 numbers at once.
ghost use Rattle.std.specs.Prelude.{◌≤◌, ◌<◌, length};

use crate::trie::Trie;
use std::alloc::{AllocError, Global};

// Slots are taken and given up in blocks of as many as a word has bits.
const BLOCK: usize = 64;

// In how many blocks room is looked for before a node is laid out behind all others.
const TRIES: usize = 32;

/// Rows that are alike up to some key, by one of them, and to which number the steps of the keys before are to lead.
#[derive(Clone, Copy, PartialEq, Eq, PartialOrd, Ord)]
pub(crate) struct Branch {
    pub(crate) row: [u16; 8],
    pub(crate) to: u32,
}

/// The trie of these rows. That it leads to each of them is seen by trying.
pub(crate) fn trie_of(alloc: Global, rows: &[[u16; 8]]) -> Result<Trie, AllocError>
    requires { length rows.now ≤ 4096 }
{
    let mut branches = branches_of(alloc, rows)?;
    branches.sort_unstable();
    let depth = depth_of(rows);
    let mut layout = Layout::new(alloc);
    for key in (0..depth).rev() {
        branches = layout.join(alloc, branches.as_slice(), key)?;
    }
    let root = root_of(branches.as_slice());
    Ok(Trie {
        steps: layout.steps,
        root,
        depth,
    })
}

// The number of the first node.
fn root_of(branches: &[Branch]) -> u32 {
    match branches.first() {
        Some(branch) => branch.to,
        None => 0,
    }
}

// Each row with its place.
fn branches_of(alloc: Global, rows: &[[u16; 8]]) -> Result<Vec<Branch>, AllocError>
    requires { length rows.now ≤ 4096 }
{
    let mut branches = Vec::with_capacity(alloc, rows.len())?;
    for (place, row) in rows.iter().enumerate() {
        branches.push(Branch {
            row: *row,
            to: place as u32,
        })?;
    }
    Ok(branches)
}

// How many keys the rows have, without those at the end that none of them gives.
fn depth_of(rows: &[[u16; 8]]) -> usize
    ensures { result ≤ 8 }
{
    let mut depth = 0;
    for row in rows {
        depth = depth.max(keys_of(row));
    }
    depth
}

fn keys_of(row: &[u16; 8]) -> usize
    ensures { result ≤ 8 }
{
    let mut keys = 0;
    for (key, entry) in row.iter().enumerate() {
        if *entry != 0 {
            keys = key + 1;
        }
    }
    keys
}

// The steps that are laid out so far.
#[derive(Drop)]
struct Layout {
    steps: Vec<u32>,
    // A bit for each slot of the table.
    taken: Vec<u64>,
    // The blocks before this one are given up.
    first: usize,
}

impl Layout {
    fn new(alloc: Global) -> Layout {
        Layout {
            steps: Vec::new(alloc),
            taken: Vec::new(alloc),
            first: 0,
        }
    }

    // Lays out a node for branches that are alike up to this key, and so on, and gives the branches of the key before.
    fn join(
        &mut self,
        alloc: Global,
        branches: &[Branch],
        key: usize,
    ) -> Result<Vec<Branch>, AllocError>
        requires { key < 8 }
    {
        self.first = 0;
        let mut joined = Vec::new(alloc);
        for alike in branches.chunk_by(|branch, next| branch.row[..key] == next.row[..key]) {
            if let Some(first) = alike.first() {
                let to = self.put(alike, key)?;
                joined.push(Branch { row: first.row, to })?;
            }
        }
        Ok(joined)
    }

    // Lays out the node of which these are the steps, and gives its number.
    fn put(&mut self, branches: &[Branch], key: usize) -> Result<u32, AllocError>
        requires { key < 8 }
    {
        let node = self.room(branches, key);
        for branch in branches {
            self.set(node.saturating_add(branch.entry(key)), branch.to)?;
        }
        Ok(u32::try_from(node).unwrap_or(0))
    }

    // The number of a node whose steps take free slots.
    fn room(&mut self, branches: &[Branch], key: usize) -> usize
        requires { key < 8 }
    {
        let lowest = lowest_entry(branches, key);
        let first = self.first.max(lowest / BLOCK + 1);
        for block in first..first.saturating_add(TRIES) {
            let slot = block.saturating_mul(BLOCK);
            let node = slot.saturating_sub(lowest);
            let free = self.free_from(node, branches, key);
            if free != 0 {
                return node.saturating_add(free.trailing_zeros() as usize);
            }
        }
        self.first = first.saturating_add(TRIES);
        let end = self.taken.len().saturating_mul(BLOCK);
        end.max(lowest) - lowest
    }

    // A bit for each of the 64 numbers from this one on: whether a node of that number finds free slots.
    fn free_from(&self, node: usize, branches: &[Branch], key: usize) -> u64
        requires { key < 8 }
    {
        let mut free = u64::MAX;
        for branch in branches {
            free &= !self.taken_from(node.saturating_add(branch.entry(key)));
            if free == 0 {
                break;
            }
        }
        free
    }

    // A bit for each of the 64 slots from this one on: whether it is taken.
    fn taken_from(&self, slot: usize) -> u64 {
        let block = slot / BLOCK;
        let shift = slot % BLOCK;
        if shift == 0 {
            return self.taken_in(block);
        }
        (self.taken_in(block) >> shift) | (self.taken_in(block + 1) << (BLOCK - shift))
    }

    fn taken_in(&self, block: usize) -> u64 {
        match self.taken.get(block) {
            Some(taken) => *taken,
            None => 0,
        }
    }

    // Puts a step into a free slot.
    fn set(&mut self, slot: usize, to: u32) -> Result<(), AllocError> {
        let len = slot.saturating_add(1);
        if self.steps.len() < len {
            self.steps.resize(len, 0)?;
            self.taken.resize(slot / BLOCK + 1, 0)?;
        }
        if let Some(step) = self.steps.get_mut(slot) {
            *step = to;
        }
        if let Some(taken) = self.taken.get_mut(slot / BLOCK) {
            *taken |= 1 << (slot % BLOCK);
        }
        Ok(())
    }
}

impl Branch {
    // The entry of a key.
    fn entry(&self, key: usize) -> usize
        requires { key < 8 }
    {
        usize::from(self.row[key])
    }
}

// The lowest entry of a key, of rows in rising order.
fn lowest_entry(branches: &[Branch], key: usize) -> usize
    requires { key < 8 }
{
    match branches.first() {
        Some(branch) => branch.entry(key),
        None => 0,
    }
}
