ghost use Rattle.std.specs.Prelude.{◌≡◌, ◌<◌, ◌≤◌, IsTrue};
ghost use Rattle.std.specs.List.{AllByRecursion};
ghost use Rattle.engine_parts.specs.Ties.{IsOfOnePart, part_at};

use crate::link::Link;
use std::alloc::Global;

/// The part of each number, and how many parts there are.
#[derive(Drop)]
pub(crate) struct PartTable {
    pub(crate) of_number: Vec<u32>,
    pub(crate) count: u32,
}

impl PartTable {
    /// This table, where no link leads from one part to another, and there are no more parts than may be; else one with a single part.
    pub(crate) fn checked(self, alloc: Global, links: &[Link], most: u32) -> PartTable
        requires { 0 < most }
        ensures some { 0 < result.count }
        ensures most { result.count ≤ most }
        ensures below { AllByRecursion (λ part. part < result.count) result.of_number.items }
        ensures links { AllByRecursion (IsOfOnePart result.of_number.items) links.now }
    {
        if self.is_sound(most) && self.joins_all(links) {
            return self;
        }
        PartTable {
            of_number: Vec::new(alloc),
            count: 1,
        }
    }

    // Whether there are as many parts as it says, and no more than may be.
    fn is_sound(&self, most: u32) -> bool
        ensures some { IsTrue result → 0 < self.now.count }
        ensures most { IsTrue result → self.now.count ≤ most }
        ensures below { IsTrue result → AllByRecursion (λ part. part < self.now.count) self.now.of_number.items }
    {
        self.count > 0 && self.count <= most && are_below(&self.of_number, self.count)
    }

    // Whether no link leads from one part to another.
    fn joins_all(&self, links: &[Link]) -> bool
        ensures { IsTrue result → AllByRecursion (IsOfOnePart self.now.of_number.items) links.now }
    {
        for link in links {
            if self.part_of(link.head) != self.part_of(link.other) {
                return false;
            }
        }
        true
    }

    /// The part of a number: the first where it has none here.
    pub(crate) fn part_of(&self, number: u32) -> u32
        ensures { result ≡ part_at self.now.of_number.items number }
    {
        self.of_number.get(number as usize).copied().unwrap_or(0)
    }
}

// Whether all parts are below this number.
fn are_below(parts: &[u32], count: u32) -> bool
    ensures { IsTrue result → AllByRecursion (λ part. part < count) parts.now }
{
    for part in parts {
        if *part >= count {
            return false;
        }
    }
    true
}
