//! Invalid calls of a core that keeps its journal: each is refused for what it is.

ghost use Rattle.std.specs.Prelude.{◌<◌};
ghost use Rattle.stm_journal_text.specs.Answers.{IsNoFinish};

use issuer_fold::PlainRows;
use issuer_rows::{Book, Frame, RowKey};
use issuer_rules::Shipped;
use issuer_view::execute;
use std::alloc::Global;
use stm_core_laws::{CoreFault, Seat};
use stm_journal::{CoreAnswer, Event, Traced};
use stm_memory::Version;
use stm_scheduler::Status;
use test_fixtures::pan;

/// What no worker asks for.
#[derive(Clone, Copy)]
pub(crate) enum InvalidCall {
    /// Nothing.
    Nothing,
    /// A row, for an incarnation that there never is.
    Read,
    /// To keep an execution that is true on another book, of a version that runs.
    Finish,
    /// To validate a message that is ready to be executed.
    BeginValidation,
    /// To go on with a validation where none is open.
    ValidateOne,
    /// To end a validation where none is open.
    EndValidation,
    /// To abort a committed version.
    Block,
}

/// Three requests, the book of the core, and one of other balances.
#[derive(Clone, Copy)]
pub(crate) struct InvalidCalls<'a> {
    pub(crate) alloc: Global,
    pub(crate) own: &'a Book,
    pub(crate) other: &'a Book,
    pub(crate) frames: &'a [Frame; 3],
}

// Asks at a seat that no call of a script has, and says whether it is refused for this.
fn refuses(traced: &mut Traced, event: Event, fault: CoreFault, calls: &mut usize) -> bool
    requires { IsNoFinish event }
{
    *calls = calls.saturating_add(1);
    match Seat::new(5) {
        Some(seat) =>
            matches!(traced.step(seat, event), CoreAnswer::Refused(found) if found == fault),
        None => false,
    }
}

// Reads for an incarnation that there never is.
fn refuses_to_read(traced: &mut Traced, calls: &mut usize) -> bool {
    let nobody = Version {
        index: 0,
        incarnation: 9,
    };
    match pan("A") {
        Some(card) => {
            let event = Event::Read(nobody, RowKey::Card(card));
            refuses(traced, event, CoreFault::NotRunning, calls)
        }
        None => false,
    }
}

impl InvalidCalls<'_> {
    /// Makes the invalid call wherever the core stands so that there is one, and counts it. Says whether it is refused as it
    /// should be.
    pub(crate) fn is_refused(
        &self,
        traced: &mut Traced,
        invalid: InvalidCall,
        calls: &mut usize,
    ) -> bool {
        match invalid {
            InvalidCall::Nothing => true,
            InvalidCall::Read => refuses_to_read(traced, calls),
            InvalidCall::Finish => self.refuses_all(traced, calls),
            InvalidCall::BeginValidation => {
                self.refuses_validation(traced, 0, calls)
                    & self.refuses_validation(traced, 1, calls)
                    & self.refuses_validation(traced, 2, calls)
            }
            InvalidCall::ValidateOne => refuses(
                traced,
                Event::ValidateOne,
                CoreFault::NotRunning,
                calls,
            ),
            InvalidCall::EndValidation => refuses(
                traced,
                Event::EndValidation,
                CoreFault::NotRunning,
                calls,
            ),
            InvalidCall::Block => {
                self.refuses_block(traced, 0, calls)
                    & self.refuses_block(traced, 1, calls)
                    & self.refuses_block(traced, 2, calls)
            }
        }
    }

    // Validates the message, where it is ready.
    fn refuses_validation(&self, traced: &mut Traced, index: u32, calls: &mut usize) -> bool
        requires { index < 3 }
    {
        let (core, frames) = (traced.core(), self.frames);
        if !core.opened_with(self.own, frames) || core.status(index) != Status::Ready {
            return true;
        }
        let incarnation = core.incarnation(index);
        let event = Event::BeginValidation(Version { index, incarnation });
        refuses(traced, event, CoreFault::Outdated, calls)
    }

    // Aborts the message, where it is committed.
    fn refuses_block(&self, traced: &mut Traced, index: u32, calls: &mut usize) -> bool
        requires { index < 3 }
    {
        let (core, frames) = (traced.core(), self.frames);
        if !core.opened_with(self.own, frames) || index >= core.committed() {
            return true;
        }
        let incarnation = core.incarnation(index);
        let event = Event::Block(Version { index, incarnation }, 0);
        refuses(traced, event, CoreFault::NotRunning, calls)
    }

    // Hands in, of each version that runs, an execution that is true on the other book.
    fn refuses_all(&self, traced: &mut Traced, calls: &mut usize) -> bool {
        self.refuses_other(traced, 0, 0, calls)
            & self.refuses_other(traced, 1, 0, calls)
            & self.refuses_other(traced, 1, 1, calls)
            & self.refuses_other(traced, 2, 0, calls)
            & self.refuses_other(traced, 2, 1, calls)
    }

    fn refuses_other(
        &self,
        traced: &mut Traced,
        index: u32,
        incarnation: u32,
        calls: &mut usize,
    ) -> bool {
        let version = Version { index, incarnation };
        if !traced.core().is_running(version) {
            return true;
        }
        *calls = calls.saturating_add(1);
        let frames = self.frames;
        let Some(frame) = frames.get(index as usize) else {
            return false;
        };
        match execute(self.alloc, frame, PlainRows::new(self.other), &Shipped) {
            Ok(execution) => {
                let answer = traced.finish(self.alloc, Seat::first(), version, execution);
                matches!(answer, CoreAnswer::Refused(CoreFault::OtherReads))
            }
            Err(_) => false,
        }
    }
}
