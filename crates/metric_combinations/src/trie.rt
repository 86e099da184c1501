//! A trie whose nodes share one table of steps.
ghost use Rattle.std.specs.Prelude.{◌≤◌};

/// Leads from a set key to the place of the only row that can be equal to it.
#[derive(Drop)]
pub(crate) struct Trie {
    /// A step from a node leads to the next node, and the last step to the place of a row. The node's number and the
    /// entry of its key make the place of the step in this table. Where no row has the entry, a step may lead
    /// anywhere.
    pub(crate) steps: Vec<u32>,
    /// The number of the first node.
    pub(crate) root: u32,
    /// How many keys have a step.
    pub(crate) depth: usize,
    ghost shallow: { depth ≤ 8 },
}

impl Trie {
    ghost use Rattle.std.specs.Prelude.{◌≡◌, ◌+◌, slice_get, take};
    ghost use Rattle.std.specs.Option.{option_copied};
    ghost use Rattle.metric_combinations.specs.Tries.{end_of, finds, is_set};

    // Where the step from a node with an entry leads.
    #[inline(always)]
    fn step(&self, node: u32, entry: u16) -> Option<u32>
        ensures { result ≡ slice_get self.now.steps.items (node + entry) }
    {
        self.steps.get(node as usize + usize::from(entry)).copied()
    }

    // The place to which the steps of a set key lead.
    #[inline(always)]
    fn end(&self, set: &[u16; 8]) -> Option<usize>
        ensures { result ≡ end_of self.now.steps.items self.now.root (take self.now.depth set.now) }
    {
        let mut at = self.root;
        let entries = &set[..self.depth];
        for entry in entries {
            at = self.step(at, *entry)?;
        }
        Some(at as usize)
    }

    /// Whether the trie leads from a set key to a row that is equal to it.
    #[inline(always)]
    pub(crate) fn finds(&self, rows: &[[u16; 8]], set: &[u16; 8]) -> bool
        ensures { result ≡ finds self.now rows.now set.now }
    {
        match self.end(set) {
            Some(place) => Trie::is_set(rows.get(place), set),
            None => false,
        }
    }

    // Whether a row is there and is the set key.
    #[inline(always)]
    fn is_set(row: Option<&[u16; 8]>, set: &[u16; 8]) -> bool
        ensures { result ≡ is_set set.now (option_copied row.entry) }
    {
        match row {
            Some(row) => *row == *set,
            None => false,
        }
    }
}
