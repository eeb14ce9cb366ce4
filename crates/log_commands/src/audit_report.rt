ghost use Rattle.std.specs.Prelude.{◌≡◌, ◌++◌, ◌∷◌, [], IfErr, IfOk, OnOk};
ghost use Rattle.std.specs.Io.KnownBytes.{Appends};
ghost use Rattle.app_audit.specs.Texts.{block_audit_text};
ghost use Rattle.log_commands.specs.Audited.{IsAudited, IsAuditRefusal, status_of_audit};
ghost use Rattle.log_commands.specs.Audits.{EndsAudit};
ghost use Rattle.log_commands.specs.Names.{names_of};

use crate::auditing::audit_log_files;
use crate::command_fault::CommandFault;
use crate::locked_logs::LockedLogs;
use crate::log_names::LogNames;
use crate::telling::tell_of_audit;
use app_audit::{BlockAudit, block_audit_text};
use file_devices::Files;
use std::alloc::Global;
use std::io;
use std::io::Write;
use std::sync::Wait;
use std::thread::Threads;

/// Audits what is kept of a log, as [`audit_log_files`] does, and returns the exit status: 0 where nothing differs, 3 where something does,
/// which is printed on `out`; 1 a fault, which is a line on `err`, with what is told of the file that has it behind it, or where `out` doesn't
/// take all. What `err` doesn't take is dropped.
pub fn audit_log<R: Threads + Wait + Sync, F: Files, L: LockedLogs, O: Write, E: Write>(
    rt: &R,
    alloc: Global,
    files: &F,
    logs: &L,
    names: &LogNames<'_>,
    out: &mut O,
    err: &mut E,
) -> u8
    ensures { EndsAudit (F.is_known files.now) (F.holds files.now) (F.failing files.now) (L.holds logs.now) (L.reading logs.now) (L.in_use logs.now) (names_of names.now)
        (O.contents out.old) (O.contents out.new) result }
{
    match found(rt, alloc, files, logs, names) {
        Ok((found, text)) => {
            if write_line(out, &text).is_err() {
                let _ = err.write_all(b"output 1\n");
                return 1;
            }
            status_of(&found)
        }
        Err(fault) => {
            tell_of_audit(alloc, files, names, &fault, err);
            fault.status()
        }
    }
}

// What the audit finds, and its text.
fn found<R: Threads + Wait + Sync, F: Files, L: LockedLogs>(
    rt: &R,
    alloc: Global,
    files: &F,
    logs: &L,
    names: &LogNames<'_>,
) -> Result<(BlockAudit, Vec<u8>), CommandFault>
    ensures audited { IfOk result (λ found. IsAudited (F.is_known files.now) (F.holds files.now) (L.holds logs.now) (names_of names.now) found.0) }
    ensures text { IfOk result (λ found. found.1.items ≡ block_audit_text found.0) }
    ensures fault { IfErr result (IsAuditRefusal (L.holds logs.now) (L.reading logs.now) (L.in_use logs.now) (F.holds files.now) (F.failing files.now) (names_of names.now)) }
{
    let found = audit_log_files(rt, alloc, files, logs, names)?;
    let text = block_audit_text(alloc, &found)?;
    Ok((found, text))
}

// 0 where nothing differs, else 3.
fn status_of(found: &BlockAudit) -> u8
    ensures { result ≡ status_of_audit found.now }
{
    match found {
        BlockAudit::Same => 0,
        _ => 3,
    }
}

// Writes the text and a line feed.
fn write_line<W: Write>(writer: &mut W, text: &[u8]) -> io::Result<()>
    ensures { OnOk result (Appends (W.contents writer.old) (W.contents writer.new) (text.now ++ 10 ∷ [])) }
{
    writer.write_all(text)?;
    writer.write_all(b"\n")
}
