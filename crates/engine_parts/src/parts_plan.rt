ghost use Rattle.std.specs.Prelude.{◌≡◌, ◌<◌};
ghost use Rattle.std.specs.List.{AllByRecursion};

use std::marker::Model;

/// To which part each message of a batch belongs: how many parts there are, one at least, and a number below that for each message.
#[derive(Drop)]
pub struct PartsPlan {
    parts: Vec<u32>,
    count: u32,
}

impl Model for PartsPlan {
    ghost use Rattle.engine_parts.specs.Plan.{Planned, IsNumbered};

    ghost Value = { Planned };

    ghost view = { λ plan. record { count = plan.count; parts = plan.parts.items } };

    ghost invariant = { λ plan. IsNumbered (record { count = plan.count; parts = plan.parts.items }) };
}

impl PartsPlan {
    // These parts, of which there are so many.
    pub(crate) fn new(parts: Vec<u32>, count: u32) -> PartsPlan
        requires some { 0 < count }
        requires below { AllByRecursion (λ part. part < count) parts.items }
        ensures { result ≡ record { count = count; parts = parts.items } }
    {
        PartsPlan { parts, count }
    }

    /// How many parts there are.
    pub fn count(&self) -> u32
        ensures count { result ≡ self.now.count }
        ensures some { 0 < result }
    {
        self.count
    }

    /// The part of each message, in the order of arrival.
    pub fn parts(&self) -> &[u32]
        ensures parts { result.now ≡ self.now.parts }
        ensures below { AllByRecursion (λ part. part < self.now.count) result.now }
    {
        &self.parts
    }
}
