ghost use Rattle.std.specs.Prelude.{◌≡◌, ◌≤◌, ◌++◌, ℕ, List, map, MatchResult, option_map, string_bytes};
ghost use Rattle.app_commands.specs.Answered.{AreSparing, IsActed, IsAskedFor, IsRefusalOf, status_of_report, text_of_report};
ghost use Rattle.app_commands.specs.Fault.{text_of};
ghost use Rattle.app_commands.specs.Printed.{behind, printed, Prints, PrintsLine};
ghost use Rattle.file_devices.specs.Holding.{IsAsItWas};

use crate::doing::done;
use crate::fault::Fault;
use crate::printer::Printer;
use crate::refusal::Refusal;
use crate::report::Report;
use app_audit::{Audit, BlockAudit};
use app_words::read_arguments;
use file_devices::Files;
use std::alloc::Global;
use std::io::Write;
use std::sync::Wait;
use std::thread::Threads;
use std::time::Clock;

/// Does what the words say over these files, and returns the exit status: 0 done, 1 fault, 2 words that are no command or two names of
/// one file, 3 an audit that found a difference. What is asked for goes to the first printer, a fault's text to the second, and behind it
/// the name of the file that has the fault, the place and the reason, where these are found. Where the first writer doesn't take all, that
/// is a fault, too; what the second doesn't take is dropped.
pub fn act<R: Clock + Threads + Wait + Sync, F: Files, O: Write, E: Write>(
    rt: &R,
    alloc: Global,
    files: &mut F,
    words: &[String],
    out: &mut Printer<O>,
    err: &mut Printer<E>,
) -> u8
    ensures status { result ≤ 3 }
    ensures acted { IsActed (F.is_known files.old) (F.holds files.old) (F.holds files.new) (F.failing files.old) (map string_bytes words.now)
        (record { out = printed O.contents out.old; err = printed E.contents err.old; is_lost = out.old.is_stuck })
        (record { out = printed O.contents out.new; err = printed E.contents err.new; is_lost = out.new.is_stuck }) result }
    // A file that is none of those that are written for what the words ask for stays as it was.
    ensures others { (other : List ℕ) → AreSparing (map string_bytes words.now) other → IsAsItWas (F.holds files.old) (F.holds files.new) other }
{
    match answer(rt, alloc, files, words) {
        Ok(report) => {
            print_report(&report, out);
            if out.is_stuck() {
                err.line(b"output 1");
                return 1;
            }
            status_of(&report)
        }
        Err(refusal) => {
            print_refusal(&refusal, err);
            refusal.fault.status()
        }
    }
}

// What is asked for.
fn answer<R: Clock + Threads + Wait + Sync, F: Files>(
    rt: &R,
    alloc: Global,
    files: &mut F,
    words: &[String],
) -> Result<Report, Refusal>
    ensures answered { MatchResult result
        (IsAskedFor (F.is_known files.old) (F.holds files.old) (F.holds files.new) (map string_bytes words.now))
        (IsRefusalOf (F.is_known files.old) (F.holds files.old) (F.holds files.new) (F.failing files.old) (map string_bytes words.now)) }
    ensures others { (other : List ℕ) → AreSparing (map string_bytes words.now) other → IsAsItWas (F.holds files.old) (F.holds files.new) other }
{
    let command = read_arguments(alloc, words)?;
    done(rt, alloc, files, &command)
}

// 0 where the words are done, 3 for an audit that found a difference.
fn status_of(report: &Report) -> u8
    ensures { result ≡ status_of_report report.now }
{
    match report {
        Report::Audited(Audit::Same, _) | Report::AuditedBlocks(BlockAudit::Same, _) => 0,
        Report::Audited(..) | Report::AuditedBlocks(..) => 3,
        _ => 0,
    }
}

fn print_report<W: Write>(report: &Report, out: &mut Printer<W>)
    ensures { Prints (printed W.contents out.old) (printed W.contents out.new) (text_of_report report.now) }
{
    match report {
        Report::Help(text) | Report::Answer(text) => out.line(text.as_bytes()),
        Report::Version => out.line(b"switch 0.1.0"),
        Report::Decided(count) => out.decided(*count),
        Report::DecidedBlocks(count) => out.decided_in_blocks(*count),
        Report::Packed(count) => out.numbered("packed", *count as u64),
        Report::PackedBlocks { bodies, blocks } => {
            out.packed_in_blocks(*bodies as u64, *blocks as u64);
        }
        Report::Audited(_, text) | Report::AuditedBlocks(_, text) => out.line(text),
        Report::Lines(text) => out.text(text),
    }
}

// The line of the fault, or its two lines, and what is told behind it.
fn print_refusal<W: Write>(refusal: &Refusal, err: &mut Printer<W>)
    ensures { PrintsLine (printed W.contents err.old) (printed W.contents err.new) (text_of refusal.now.fault ++ behind (option_map (λ line. line.items) refusal.now.words)) }
{
    match &refusal.words {
        Some(words) => err.fault(&refusal.fault, Some(words.as_slice())),
        None => err.fault(&refusal.fault, None),
    }
}

/// Prints the line of a fault, as `act` does for its own: what it is of and its number there, or what is wrong with the words.
pub fn print_fault<W: Write>(fault: &Fault, err: &mut Printer<W>)
    ensures { PrintsLine (printed W.contents err.old) (printed W.contents err.new) (text_of fault.now) }
{
    err.fault(fault, None);
}
