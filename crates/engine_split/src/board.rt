ghost use Rattle.std.specs.Prelude.{◌≡◌, length, IfOk};

use crate::run_brand::RunBrand;
use crossbeam_utils::CachePadded;
use engine_workers::lock;
use issuer_rows::Frame;
use split_state::{Attempt, Cursors, MessageSlot, Shards};
use std::alloc::{AllocError, Global};
use std::marker::PhantomData;
use std::sync::atomic::{AtomicBool, Ordering};
use std::sync::{Condvar, Mutex, MutexGuard, Wait};

/// What the workers of a batch share. The cursors and the stop mark have no lock; each message's slot and each shard of the rows has a
/// lock of its own; and executions that are done with are kept for their memory. A thread that holds a shard or these takes no other
/// lock, and one that holds a slot takes no other slot. The ledger is the first worker's alone.
#[derive(Drop)]
pub(crate) struct Board<B: RunBrand> {
    cursors: Cursors,
    slots: Vec<Mutex<MessageSlot>>,
    shards: Shards,
    spares: CachePadded<Mutex<Vec<Box<Attempt>>>>,
    // Where parked workers sleep. They are notified when one leaves.
    parked: Condvar,
    // The stop mark: whether the workers are to leave.
    stopped: AtomicBool,
    of: PhantomData<B>,
    ghost at: { cursors ≡ B.table },
}

/// Where messages and rows stand before a run: a slot for each message, which was never executed, and shards with no row.
#[derive(Drop)]
pub(crate) struct Storage {
    slots: Vec<Mutex<MessageSlot>>,
    shards: Shards,
}

impl Storage {
    // For the messages of a batch, of which those from the first on are to be decided.
    pub(crate) fn new(alloc: Global, frames: &[Frame], first: usize) -> Result<Storage, AllocError>
        ensures { IfOk result (λ storage. length storage.slots.items ≡ length frames.now) }
    {
        let slots = ready_slots(alloc, frames.len())?;
        let shards = Shards::new(alloc, frames.get(first..).unwrap_or(&[]))?;
        Ok(Storage { slots, shards })
    }
}

impl<B: RunBrand> Board<B> {
    // A board for the run's batch.
    pub(crate) fn new(alloc: Global, cursors: Cursors, storage: Storage) -> Board<B>
        requires table { cursors ≡ B.table }
        requires slots { length storage.slots.items ≡ length B.frames }
        ensures slots { length result.slots.items ≡ length B.frames }
    {
        let Storage { slots, shards } = storage;
        Board {
            cursors,
            slots,
            shards,
            spares: CachePadded::new(Mutex::new(Vec::new(alloc))),
            parked: Condvar::new(),
            stopped: AtomicBool::new(false),
            of: PhantomData,
        }
    }

    // The cursors.
    pub(crate) fn cursors(&self) -> &Cursors
        ensures { result.now ≡ B.table }
    {
        &self.cursors
    }

    // The shards of the rows.
    pub(crate) fn shards(&self) -> &Shards {
        &self.shards
    }

    // Executions that are done with, whose memory is used again.
    pub(crate) fn spares<R: Wait>(&self, rt: &R) -> MutexGuard<'_, Vec<Box<Attempt>>> {
        lock(rt, &self.spares)
    }

    // Where parked workers sleep.
    pub(crate) fn parked(&self) -> &Condvar {
        &self.parked
    }

    // The slot of the message at this index, where there is one.
    pub(crate) fn slot<R: Wait>(&self, rt: &R, index: u32) -> Option<MutexGuard<'_, MessageSlot>> {
        Some(lock(rt, self.slots.get(index as usize)?))
    }

    // The same, where no other worker holds it.
    pub(crate) fn free_slot(&self, index: u32) -> Option<MutexGuard<'_, MessageSlot>> {
        self.slots.get(index as usize)?.try_lock()
    }

    // Sets the stop mark.
    pub(crate) fn stop(&self) {
        self.stopped.store(true, Ordering::SeqCst);
    }

    // Whether the stop mark is set.
    pub(crate) fn is_stopped(&self) -> bool {
        self.stopped.load(Ordering::SeqCst)
    }
}

// The slots of messages that were never executed.
fn ready_slots(alloc: Global, messages: usize) -> Result<Vec<Mutex<MessageSlot>>, AllocError>
    ensures { IfOk result (λ slots. length slots.items ≡ messages) }
{
    let mut slots = Vec::with_capacity(alloc, messages)?;
    for _ in 0..messages {
        slots.push(Mutex::new(MessageSlot::new()))?;
    }
    Ok(slots)
}
