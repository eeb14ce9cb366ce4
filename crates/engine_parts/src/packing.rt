use crate::component::Component;
use crate::disjoint_sets::DisjointSets;
use crate::link::Link;
use crate::part_table::PartTable;
use std::alloc::{AllocError, Global};

// The part of a set that is of none yet.
const NOWHERE: u32 = u32::MAX;

// A set is packed ahead of the others where it has more than this part of a fair share.
const LARGE: u32 = 8;

/// Packs messages onto at most so many parts, those whose keys are linked onto one. It fails only where memory runs out.
pub(crate) fn pack(
    alloc: Global,
    numbers: u32,
    links: &[Link],
    heads: &[u32],
    most: u32,
) -> Result<PartTable, AllocError> {
    let mut sets = DisjointSets::new(alloc, numbers)?;
    for link in links {
        sets.join(link.head, link.other);
    }
    let messages = count_messages(alloc, &mut sets, numbers, heads)?;
    let mut packing = Packing::new(alloc, numbers, heads.len(), most)?;
    packing.pack_large(alloc, &messages)?;
    packing.pack_others(&messages);
    packing.into_table(alloc, sets)
}

// How many messages each set has, at its root.
fn count_messages(
    alloc: Global,
    sets: &mut DisjointSets,
    numbers: u32,
    heads: &[u32],
) -> Result<Vec<u32>, AllocError> {
    let mut messages = vec![in alloc; 0u32; numbers as usize]?;
    for head in heads {
        if let Some(count) = messages.get_mut(sets.root(*head) as usize) {
            *count = count.saturating_add(1);
        }
    }
    Ok(messages)
}

// The parts as they are filled.
#[derive(Drop)]
struct Packing {
    // The part of each set, at its root.
    part_of: Vec<u32>,
    // How many messages each part has.
    loads: Vec<u32>,
    // How many messages each part would have if all had as many.
    share: u32,
}

impl Packing {
    fn new(alloc: Global, numbers: u32, messages: usize, most: u32) -> Result<Packing, AllocError> {
        let messages = u32::try_from(messages).unwrap_or(u32::MAX);
        Ok(Packing {
            part_of: vec![in alloc; NOWHERE; numbers as usize]?,
            loads: vec![in alloc; 0; most as usize]?,
            share: messages.div_ceil(most.max(1)),
        })
    }

    // Packs the large sets, the largest first, each onto the part that has the fewest messages.
    fn pack_large(&mut self, alloc: Global, messages: &[u32]) -> Result<(), AllocError> {
        let mut large = Vec::new(alloc);
        for (root, count) in (0u32..).zip(messages) {
            if *count > self.share / LARGE {
                large.push(Component {
                    messages: *count,
                    root,
                })?;
            }
        }
        large.sort()?;
        for component in large.iter().rev() {
            let part = self.least();
            self.place(component.root, part, component.messages);
        }
        Ok(())
    }

    // Packs the other sets, part by part, each part up to its share.
    fn pack_others(&mut self, messages: &[u32]) {
        let mut part = 0;
        for (root, count) in (0u32..).zip(messages) {
            if *count > 0 && self.part_of(root) == NOWHERE {
                part = self.with_room(part);
                self.place(root, part, *count);
            }
        }
    }

    // The part that has the fewest messages, the first of them.
    fn least(&self) -> u32 {
        let mut least = 0;
        for (part, load) in (0u32..).zip(&self.loads) {
            if *load < self.load(least) {
                least = part;
            }
        }
        least
    }

    // The first part from this one on that has less than its share, or the last.
    fn with_room(&self, from: u32) -> u32 {
        let mut part = from;
        for _ in 1..self.loads.len() {
            if self.load(part) < self.share || part as usize + 1 >= self.loads.len() {
                break;
            }
            part = part.saturating_add(1);
        }
        part
    }

    fn place(&mut self, root: u32, part: u32, messages: u32) {
        if let Some(there) = self.part_of.get_mut(root as usize) {
            *there = part;
        }
        if let Some(load) = self.loads.get_mut(part as usize) {
            *load = load.saturating_add(messages);
        }
    }

    fn load(&self, part: u32) -> u32 {
        self.loads.get(part as usize).copied().unwrap_or(0)
    }

    fn part_of(&self, root: u32) -> u32 {
        self.part_of.get(root as usize).copied().unwrap_or(NOWHERE)
    }

    // The part of each number, and how many parts have messages.
    fn into_table(self, alloc: Global, mut sets: DisjointSets) -> Result<PartTable, AllocError> {
        let mut of_number = Vec::with_capacity(alloc, self.part_of.len())?;
        for (number, _) in (0u32..).zip(&self.part_of) {
            of_number.push(self.part_of(sets.root(number)))?;
        }
        let mut count = 1;
        for (part, load) in (0u32..).zip(&self.loads) {
            if *load > 0 {
                count = part.saturating_add(1);
            }
        }
        Ok(PartTable { of_number, count })
    }
}
