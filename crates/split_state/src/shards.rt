ghost use Rattle.std.specs.Prelude.{◌≡◌, length, IfOk};
ghost use Rattle.issuer_rows.specs.RowVal.{IsOfKind};
ghost use Rattle.split_state.specs.Sighted.{IsSeenSo};

use crate::look::Look;
use crate::shard_of::shard_of;
use crate::shared_originals::SharedOriginals;
use crate::sight::{Sight, copy_value, sight_of};
use crossbeam_utils::CachePadded;
use engine_workers::lock;
use issuer_rows::{Frame, RowKey, RowVal};
use issuer_view::{ReadSet, WriteSet};
use std::alloc::{AllocError, Global};
use std::sync::{Mutex, Wait};
use stm_memory::{Chains, Version};

// How many shards there are.
const SHARDS: usize = 64;

// Among so many rows that were read, one that is written is looked for.
const FEW: usize = 8;

/// The rows that executions wrote, in 64 shards: a chain of entries for each row, each shard under a lock of its own. A lock is held
/// while one row is looked for, or while one entry is written. An original that one body alone names has no entries, since no other
/// message looks for it.
#[derive(Drop)]
pub struct Shards {
    shards: Vec<CachePadded<Mutex<Chains>>>,
    shared: SharedOriginals,
    ghost all: { length shards.items ≡ 64 },
}

impl Shards {
    /// Shards in which no row is written, for the messages of these bodies. It fails only where memory runs out.
    pub fn new(alloc: Global, frames: &[Frame]) -> Result<Shards, AllocError> {
        Ok(Shards {
            shards: empty_shards(alloc)?,
            shared: SharedOriginals::of(alloc, frames)?,
        })
    }

    // Whether the row has entries, once it is written.
    fn keeps(&self, key: &RowKey) -> bool {
        match key {
            RowKey::Original(identity) => self.shared.has(identity),
            _ => true,
        }
    }

    /// Whose row the message at this index sees. What was written is copied to a place of the caller's, which stays as it was where
    /// nothing was.
    #[tactic(auto, using(crate::proofs::Sights::seen_so))]
    pub fn look<R: Wait>(&self, rt: &R, key: &RowKey, index: u32, row: &mut Option<RowVal>) -> Look
        ensures { IsSeenSo key.now result.sight row.old row.new }
    {
        if !self.keeps(key) {
            return Look {
                sight: Sight::Base,
                number: None,
            };
        }
        let chains = lock(rt, &self.shards[shard_of(key)]);
        let (link, number) = chains.look(key, index);
        copy_value(link, row);
        Look {
            sight: sight_of(link),
            number,
        }
    }

    /// Whether the message at this index sees each row that it read as it was logged, in the order of reading.
    pub fn is_as_logged<R: Wait>(&self, rt: &R, index: u32, reads: &ReadSet, log: &[Look]) -> bool {
        for place in 0..reads.len() {
            let (key, _) = reads.row(place);
            match log.get(place) {
                Some(look) if look.sight == self.sight(rt, key, look.number, index) => {}
                _ => return false,
            }
        }
        true
    }

    // Whose row the message at this index sees. Its chain is looked for by this number first.
    fn sight<R: Wait>(&self, rt: &R, key: &RowKey, number: Option<usize>, index: u32) -> Sight {
        if !self.keeps(key) {
            return Sight::Base;
        }
        let chains = lock(rt, &self.shards[shard_of(key)]);
        sight_of(chains.nearest_below(key, number.as_slice(), index))
    }

    /// Records the write set of this version, in place of what its message wrote before. A row that it read is found by its log, as far
    /// as there is one. Returns whether a later message has written one of these rows already, and may have missed what this one writes.
    /// The first `done` messages are committed: entries that no message behind these sees are taken out.
    pub fn record<R: Wait>(
        &self,
        rt: &R,
        alloc: Global,
        version: Version,
        reads: &ReadSet,
        writes: &WriteSet,
        log: &[Look],
        former: Option<&WriteSet>,
        done: u32,
    ) -> Result<bool, AllocError> {
        let mut is_overtaken = false;
        for place in 0..writes.len() {
            let (key, value) = writes.row(place);
            if !self.keeps(key) {
                continue;
            }
            let number = number_in(reads, log, key);
            is_overtaken = self.put(rt, alloc, version, key, value, number, done)? || is_overtaken;
        }
        if let Some(former) = former {
            self.take_out_others(rt, version.index, former, writes);
        }
        Ok(is_overtaken)
    }

    // Writes this value as the version's entry of the row, under the lock of the row's shard.
    fn put<R: Wait>(
        &self,
        rt: &R,
        alloc: Global,
        version: Version,
        key: &RowKey,
        value: &RowVal,
        number: Option<usize>,
        done: u32,
    ) -> Result<bool, AllocError>
        requires { IsOfKind key.now value.now }
    {
        let mut chains = lock(rt, &self.shards[shard_of(key)]);
        put_in(&mut chains, alloc, version, key, value, number, done)
    }

    // Takes out the message's entries of the rows that it wrote before and that are not among these.
    fn take_out_others<R: Wait>(&self, rt: &R, index: u32, former: &WriteSet, writes: &WriteSet) {
        for place in 0..former.len() {
            let (key, _) = former.row(place);
            if writes.get(key).is_none() {
                self.take_out(rt, key, index);
            }
        }
    }

    // Takes out the message's entry of the row, under the lock of the row's shard.
    fn take_out<R: Wait>(&self, rt: &R, key: &RowKey, index: u32) {
        let mut chains = lock(rt, &self.shards[shard_of(key)]);
        take_out_in(&mut chains, key, index);
    }

    /// The message's entries of these rows are ESTIMATEs from now on.
    pub fn to_estimates<R: Wait>(&self, rt: &R, index: u32, writes: &WriteSet) {
        for place in 0..writes.len() {
            let (key, _) = writes.row(place);
            let mut chains = lock(rt, &self.shards[shard_of(key)]);
            estimate_in(&mut chains, key, index);
        }
    }
}

// The number of the row's chain, where it is among the first rows that were read, and had one then.
fn number_in(reads: &ReadSet, log: &[Look], key: &RowKey) -> Option<usize> {
    for place in 0..reads.len().min(log.len()).min(FEW) {
        let (read, _) = reads.row(place);
        if *read == *key {
            return log.get(place)?.number;
        }
    }
    None
}

// Writes this value as the version's entry of the row. Returns whether a later message has one. The row's chain is looked for by this
// number first. Where no message from `done` on sees the row's first entry, that one is taken out before, so that a chain has few entries
// and its memory is used again.
fn put_in(
    chains: &mut Chains,
    alloc: Global,
    version: Version,
    key: &RowKey,
    value: &RowVal,
    number: Option<usize>,
    done: u32,
) -> Result<bool, AllocError>
    requires { IsOfKind key.now value.now }
{
    let number = chains.reserve(alloc, key, number.as_slice())?;
    if let Some(first) = chains.superseded(number, done) {
        chains.take_out(number, first);
    }
    chains.put_at(number, version, value);
    match chains.nearest_at(number, u32::MAX) {
        Some(last) => Ok(last.index > version.index),
        None => Ok(false),
    }
}

// Takes out the message's entry of the row.
fn take_out_in(chains: &mut Chains, key: &RowKey, index: u32) {
    if let Some(number) = chains.number_of(key, &[]) {
        chains.take_out(number, index);
    }
}

// The message's entry of the row is an ESTIMATE from now on.
fn estimate_in(chains: &mut Chains, key: &RowKey, index: u32) {
    if let Some(number) = chains.number_of(key, &[]) {
        chains.to_estimate(number, index);
    }
}

// Shards in which no row is written.
fn empty_shards(alloc: Global) -> Result<Vec<CachePadded<Mutex<Chains>>>, AllocError>
    ensures { IfOk result (λ shards. length shards.items ≡ 64) }
{
    let mut shards = Vec::new(alloc);
    for _ in 0..SHARDS {
        shards.push(CachePadded::new(Mutex::new(Chains::new(alloc))))?;
    }
    Ok(shards)
}
