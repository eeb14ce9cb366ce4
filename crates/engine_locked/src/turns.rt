ghost use Rattle.std.specs.Prelude.{◌≡◌, IsTrue, Ok};

use crate::core_rows::CoreRows;
use crate::exit::Exit;
use crate::validating::validation;
use engine_workers::{Backoff, Hook, lock};
use issuer_rows::Frame;
use issuer_view::{Decide, Execution, ReadSet, Recorder, RowSource, Stop, WriteSet};
use std::alloc::Global;
use std::mem;
use std::sync::{Condvar, Mutex, Wait};
use stm_core_laws::{CoreFault, Seat};
use stm_journal::{CoreAnswer, SharedCore};
use stm_memory::Version;
use stm_scheduler::Task;

/// What a worker works with: the lock round the core, the bodies, the decision and the hook. Whatever it does or leaves undone,
/// the core's type keeps what is committed right.
#[derive(Drop)]
pub(crate) struct LockedWorker<'a, R: Wait, C: SharedCore, F: Decide, G: Hook> {
    pub(crate) rt: &'a R,
    pub(crate) alloc: Global,
    pub(crate) core: &'a Mutex<C>,
    pub(crate) frames: &'a [Frame],
    pub(crate) decision: &'a F,
    pub(crate) hook: &'a G,
    // Where parked workers sleep. They are notified when one leaves.
    pub(crate) parked: &'a Condvar,
}

impl<'a, R: Wait, C: SharedCore, F: Decide, G: Hook> LockedWorker<'a, R, C, F, G> {
    /// Turns at this seat, until all is committed or the stop mark is set. A turn that has to leave sets it. The parked workers are then
    /// notified.
    pub(crate) fn work(&self, seat: Seat) {
        let mut sets = (ReadSet::new(self.alloc), WriteSet::new(self.alloc));
        let mut backoff = Backoff::of(seat == Seat::first());
        if self.take_turns(seat, &mut sets, &mut backoff).is_err() {
            lock(self.rt, self.core).stop();
        }
        self.parked.notify_all();
    }

    // Turns at this seat, until nothing is to be done any more.
    fn take_turns(
        &self,
        seat: Seat,
        sets: &mut (ReadSet, WriteSet),
        backoff: &mut Backoff,
    ) -> Result<(), Exit> {
        let mut turn = self.claim(seat);
        for _ in self.rt.forever() {
            match turn {
                Ok(Task::Done) => return Ok(()),
                Ok(task) => turn = self.turn(seat, task, sets, backoff),
                Err(exit) => return Err(exit),
            }
        }
        unreachable!()
    }

    // Does what was claimed. Then the next task.
    fn turn(
        &self,
        seat: Seat,
        task: Task,
        sets: &mut (ReadSet, WriteSet),
        backoff: &mut Backoff,
    ) -> Result<Task, Exit> {
        match task {
            Task::Done => Ok(Task::Done),
            Task::Idle => {
                backoff.rest(self.rt, self.parked);
                self.claim(seat)
            }
            Task::Execute(version) => self.execute(seat, version, sets, backoff),
            Task::Validate(version) => self.validation(seat, version),
        }
    }

    // What is to be done next; nothing any more where the stop mark is set.
    fn claim(&self, seat: Seat) -> Result<Task, Exit> {
        next_task(&mut *lock(self.rt, self.core), seat)
    }

    // Decides a version outside the lock, over the memory of these sets, and hands its execution in. A version that met an ESTIMATE is
    // aborted.
    fn execute(
        &self,
        seat: Seat,
        version: Version,
        sets: &mut (ReadSet, WriteSet),
        backoff: &mut Backoff,
    ) -> Result<Task, Exit> {
        let Some(frame) = self.frames.get(version.index as usize) else {
            return Err(Exit::Lost);
        };
        self.hook.before_decide(version.index, version.incarnation);
        match self.decide(seat, version, frame, sets) {
            Ok(execution) => self.hand_in(seat, version, execution, sets, backoff),
            Err(Stop::Blocked(on)) => self.block(seat, version, on, backoff),
            Err(Stop::OutOfMemory) => Err(Exit::OutOfMemory),
            Err(Stop::Lost) => Err(Exit::Lost),
        }
    }

    // Decides a version on the rows that it sees, over the memory of these sets.
    #[inline(always)]
    fn decide(
        &self,
        seat: Seat,
        version: Version,
        frame: &Frame,
        sets: &mut (ReadSet, WriteSet),
    ) -> Result<Execution, Stop> {
        let rows = CoreRows::new(self.rt, self.core, seat, version);
        let unused = (ReadSet::new(self.alloc), WriteSet::new(self.alloc));
        execute_over(frame, rows, mem::replace(sets, unused), self.decision)
    }

    // Hands an execution in, and keeps its sets for their memory. Then the next task.
    #[inline(always)]
    fn hand_in(
        &self,
        seat: Seat,
        version: Version,
        execution: Execution,
        sets: &mut (ReadSet, WriteSet),
        backoff: &mut Backoff,
    ) -> Result<Task, Exit> {
        let next = self.finish(seat, version, &execution, backoff);
        if next.is_ok() {
            self.hook.after_record(version.index, version.incarnation);
        }
        let (_, reads, writes, _) = execution.into_parts();
        *sets = (reads, writes);
        next
    }

    // Hands an execution in, and validates the version where it is handed out for that, while the lock is held. Then the next task; none
    // yet where the worker is to rest.
    fn finish(
        &self,
        seat: Seat,
        version: Version,
        execution: &Execution,
        backoff: &mut Backoff,
    ) -> Result<Task, Exit> {
        let at_once = self.core.try_lock();
        *backoff = backoff.after(at_once.is_none());
        let mut core = match at_once {
            Some(core) => core,
            None => lock(self.rt, self.core),
        };
        match core.finish_copy(self.alloc, seat, version, execution) {
            CoreAnswer::Finished(true) => validate_here(self.rt, &mut *core, seat, version)?,
            CoreAnswer::Finished(false) => {}
            answer => return Err(exit_at(answer)),
        }
        if backoff.rests() {
            return Ok(Task::Idle);
        }
        next_task(&mut *core, seat)
    }

    // Aborts a version that met an ESTIMATE of the message at `on`. Then the next task; none yet where the worker is to rest.
    fn block(
        &self,
        seat: Seat,
        version: Version,
        on: u32,
        backoff: &mut Backoff,
    ) -> Result<Task, Exit> {
        let mut core = lock(self.rt, self.core);
        match core.block(seat, version, on) {
            CoreAnswer::Blocked => {}
            answer => return Err(exit_at(answer)),
        }
        *backoff = backoff.after(true);
        if backoff.rests() {
            return Ok(Task::Idle);
        }
        next_task(&mut *core, seat)
    }

    // Validates a version and commits what can be, while the lock is held. Then the next task.
    fn validation(&self, seat: Seat, version: Version) -> Result<Task, Exit> {
        let mut core = lock(self.rt, self.core);
        validate_here(self.rt, &mut *core, seat, version)?;
        next_task(&mut *core, seat)
    }
}

// Decides a body on the rows of a source, over the memory of sets that are not used any more.
fn execute_over<S: RowSource, F: Decide>(
    frame: &Frame,
    source: S,
    sets: (ReadSet, WriteSet),
    decision: &F,
) -> Result<Execution, Stop> {
    let (reads, writes) = sets;
    let mut recorder = Recorder::over(source, reads, writes);
    let decided = decision.decide(frame, &mut recorder);
    let (_, reads, writes) = recorder.into_parts();
    match decided {
        Ok(reply) => Ok(Execution::new(*frame, reads, writes, reply)),
        Err(stop) => Err(stop),
    }
}

// Validates a version and commits what can be.
fn validate_here<R: Wait, C: SharedCore>(
    rt: &R,
    core: &mut C,
    seat: Seat,
    version: Version,
) -> Result<(), Exit> {
    match validation(rt, core, seat, version) {
        Ok(false) => Ok(()),
        Ok(true) => Err(Exit::Exhausted),
        Err(_) => Err(Exit::OutOfMemory),
    }
}

// What is to be done next; nothing any more where the stop mark is set.
fn next_task<C: SharedCore>(core: &mut C, seat: Seat) -> Result<Task, Exit>
    ensures stopped { IsTrue (C.mark core.old) → result ≡ Ok Task.Done }
{
    if core.stopped() {
        return Ok(Task::Done);
    }
    match core.claim(seat) {
        Ok(task) => Ok(task),
        Err(_) => Err(Exit::OutOfMemory),
    }
}

// Why a worker leaves where the core refuses what it hands in or aborts.
fn exit_at(answer: CoreAnswer) -> Exit {
    match answer {
        CoreAnswer::Refused(CoreFault::OutOfMemory) => Exit::OutOfMemory,
        CoreAnswer::Refused(CoreFault::Exhausted) => Exit::Exhausted,
        _ => Exit::Lost,
    }
}
