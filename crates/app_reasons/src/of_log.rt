//! What is told of a log behind a fault of it.

ghost use Rattle.std.specs.Prelude.{IfSome};
ghost use Rattle.app_reasons.specs.Uses.{TellsOfLog};
ghost use Rattle.app_reasons.specs.Words.{IsLineOf};

use crate::explaining::line_of;
use crate::log_words::LogWords;
use crate::reason::Reason;
use crate::told::Told;
use file_devices::{Files, HostReason};
use file_laws::LogFault;
use std::alloc::Global;

/// What is told of a log behind this fault of it, in one line, where something is. Where a call on it failed it is opened once more, to
/// hear from the host why.
pub fn words_of_log<F: Files>(
    alloc: Global,
    files: &F,
    name: &str,
    fault: &LogFault,
) -> Option<Vec<u8>>
    ensures { IfSome result (λ line. IsLineOf name.now (TellsOfLog (F.holds files.now) fault.now) line.items) }
{
    match reason_of_log(files, name, fault) {
        Some(reason) => line_of(alloc, &Told { name, reason }),
        None => None,
    }
}

// Why a log is not read or written.
fn reason_of_log<F: Files>(files: &F, name: &str, fault: &LogFault) -> Option<Reason>
    ensures { IfSome result (TellsOfLog (F.holds files.now) fault.now name.now) }
{
    match fault {
        LogFault::OutOfMemory => None,
        LogFault::Failed => match files.open_again(name) {
            Err(reason) => Some(Reason::Host(reason)),
            Ok(Some(_)) => Some(Reason::Host(HostReason::Failed)),
            Ok(None) => None,
        },
        LogFault::NoLog
        | LogFault::Version
        | LogFault::OtherBook
        | LogFault::InUse
        | LogFault::Broken(_) => Some(Reason::Log(LogWords(*fault))),
    }
}
