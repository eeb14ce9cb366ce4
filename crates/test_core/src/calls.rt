//! A line of a script: a call of a core, and what it is answered.

use crate::marks::{has_limits, has_marks, has_stands};
use crate::rows_seen::Rows;
use crate::words::{is_number, number, said, seat, task, version};
use issuer_fold::PlainRows;
use issuer_rows::{Book, Frame, RowKey};
use issuer_rules::Shipped;
use issuer_view::{Execution, Stop, execute};
use std::alloc::Global;
use stm_core::Core;
use stm_core_laws::Seat;
use stm_memory::Version;
use test_fixtures::pan;

/// What a script's calls need beside the core.
#[derive(Clone, Copy)]
pub(crate) struct CallContext<'a> {
    pub(crate) alloc: Global,
    pub(crate) book: &'a Book,
    pub(crate) frames: &'a [Frame; 3],
}

impl CallContext<'_> {
    /// Makes the call, and says whether it is answered so.
    pub(crate) fn is_answered(&self, core: &mut Core, line: &str) -> bool {
        let Some((call, answer)) = line.split_once(" = ") else {
            return false;
        };
        let (name, words) = call.split_once(' ').unwrap_or((call, ""));
        match name {
            "task" => Some(core.next_task()) == task(answer),
            "commit" => said(Ok(core.commit())) == answer,
            "committed" => is_number(answer, Some(u64::from(core.committed()))),
            "marks" => has_marks(core, self.book, self.frames, answer),
            "stand" => has_stands(core, self.book, self.frames, answer),
            "limits" => has_limits(core, answer),
            "begin" | "one" | "end" | "pass" => of_seat(core, name, words) == Some(answer),
            _ => self.of_version(core, name, words) == Some(answer),
        }
    }

    // The answer of a call for a version, of which the words are its version and a number.
    fn of_version(&self, core: &mut Core, name: &str, words: &str) -> Option<&'static str> {
        let (first, second) = words.split_once(' ').unwrap_or((words, "0"));
        let version = version(first)?;
        let number = number(second)?;
        match name {
            "block" => Some(said(core.block(version, number).map(|()| true))),
            "read" => Some(said(core.read(version, &card()?).map(|_| true))),
            "logged" => Some(said(Ok(core.logged(version, &card()?).is_some()))),
            "decide" => self.decide(core, version, number),
            "finish" => self.finish(core, version, number),
            "unread" => self.finish_unread(core, version, number),
            _ => None,
        }
    }

    // Decides a message on what the core has for the version; the reads are logged.
    fn decide(&self, core: &mut Core, version: Version, message: u32) -> Option<&'static str> {
        let frames = self.frames;
        let frame = frames.get(message as usize)?;
        match execute(self.alloc, frame, Rows { core, version }, &Shipped) {
            Ok(_) => Some("yes"),
            Err(Stop::Blocked(1)) => Some("blocked by 1"),
            Err(_) => None,
        }
    }

    // Decides a message on what the core has for the version, and hands it in.
    fn finish(&self, core: &mut Core, version: Version, message: u32) -> Option<&'static str> {
        let frames = self.frames;
        let frame = frames.get(message as usize)?;
        let decided = execute(self.alloc, frame, Rows { core, version }, &Shipped);
        hand_in(self.alloc, core, version, decided)
    }

    // Decides a message on the opening book itself, and hands it in.
    fn finish_unread(
        &self,
        core: &mut Core,
        version: Version,
        message: u32,
    ) -> Option<&'static str> {
        let frames = self.frames;
        let frame = frames.get(message as usize)?;
        let decided = execute(self.alloc, frame, PlainRows::new(self.book), &Shipped);
        hand_in(self.alloc, core, version, decided)
    }
}

fn hand_in(
    alloc: Global,
    core: &mut Core,
    version: Version,
    decided: Result<Execution, Stop>,
) -> Option<&'static str> {
    match decided {
        Ok(execution) => Some(said(core.finish(alloc, version, execution))),
        Err(_) => None,
    }
}

// The row of the requests' card.
fn card() -> Option<RowKey> {
    Some(RowKey::Card(pan("A")?))
}

// The answer of a call at a seat, of which the words are its number and a version.
fn of_seat(core: &mut Core, name: &str, words: &str) -> Option<&'static str> {
    let (first, second) = words.split_once(' ').unwrap_or((words, "0.0"));
    let seat = seat(first)?;
    let version = version(second)?;
    match name {
        "begin" => Some(said(core.begin_validation(seat, version))),
        "one" => Some(said(core.validate_one(seat))),
        "end" => Some(said(core.end_validation(seat))),
        _ => Some(said(Ok(passes(core, seat, version)))),
    }
}

// Whether the version passes a validation of its five reads.
fn passes(core: &mut Core, seat: Seat, version: Version) -> bool {
    said(core.begin_validation(seat, version)) == "no"
        && said(core.validate_one(seat)) == "no"
        && said(core.validate_one(seat)) == "no"
        && said(core.validate_one(seat)) == "no"
        && said(core.validate_one(seat)) == "no"
        && said(core.validate_one(seat)) == "yes"
        && said(core.end_validation(seat)) == "yes"
}
