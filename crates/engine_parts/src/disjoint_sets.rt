use std::alloc::{AllocError, Global};

// How many steps lead to a root at most. Sets that are joined by size have fewer.
const DEPTH: usize = 32;

/// Sets of numbers that are disjoint: union by size, with paths halved (Tarjan).
#[derive(Drop)]
pub(crate) struct DisjointSets {
    parent: Vec<u32>,
    size: Vec<u32>,
}

impl DisjointSets {
    /// Each of so many numbers is a set of its own. It fails only where memory runs out.
    pub(crate) fn new(alloc: Global, count: u32) -> Result<DisjointSets, AllocError> {
        Ok(DisjointSets {
            parent: (0..count).collect(alloc)?,
            size: vec![in alloc; 1; count as usize]?,
        })
    }

    /// The number that stands for a number's set.
    pub(crate) fn root(&mut self, number: u32) -> u32 {
        let mut at = number;
        for _ in 0..DEPTH {
            let up = self.above(at);
            if up == at {
                break;
            }
            let over = self.above(up);
            self.hang(at, over);
            at = over;
        }
        at
    }

    /// Joins the sets of two numbers, the smaller below the larger.
    pub(crate) fn join(&mut self, one: u32, other: u32) {
        let one = self.root(one);
        let other = self.root(other);
        if one == other {
            return;
        }
        if self.size_of(one) < self.size_of(other) {
            self.put_below(one, other);
        } else {
            self.put_below(other, one);
        }
    }

    // Puts the set of one root below another root.
    fn put_below(&mut self, small: u32, large: u32) {
        let size = self.size_of(small).saturating_add(self.size_of(large));
        self.hang(small, large);
        if let Some(there) = self.size.get_mut(large as usize) {
            *there = size;
        }
    }

    fn above(&self, number: u32) -> u32 {
        self.parent.get(number as usize).copied().unwrap_or(number)
    }

    fn hang(&mut self, number: u32, above: u32) {
        if let Some(there) = self.parent.get_mut(number as usize) {
            *there = above;
        }
    }

    fn size_of(&self, root: u32) -> u32 {
        self.size.get(root as usize).copied().unwrap_or(0)
    }
}
