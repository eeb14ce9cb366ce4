ghost use Rattle.std.specs.Prelude.{◌≡◌, ◌+◌, ◌++◌, ◌^◌, ◌<◌, ℕ, List, IfOk, OnOk, length, string_bytes};
ghost use Rattle.std.specs.Io.KnownBytes.{Appends};
ghost use Rattle.app_parts_folder.specs.Faults.{status_of};
ghost use Rattle.app_parts.specs.Told.{IsAnswered, IsWritten, count_line, count_lines, done_line};
ghost use Rattle.app_parts.specs.declared.asking.PartsAsked.TheVariants as asked;
ghost use Rattle.file_devices.specs.Holding.{IsAsItWas};

use crate::asking::PartsAsked;
use crate::deciding::decide_part;
use crate::fault_lines::{line_of_decide, line_of_join, line_of_part};
use crate::joining::join_parts;
use crate::parting::part_files;
use app_parts_folder::{JoinNames, MostParts, PartCount, PartNames, PartsFault};
use app_reasons::tell_with;
use app_words::{put, status_of};
use file_devices::Files;
use std::alloc::{AllocError, Global};
use std::io;
use std::io::Write;
use std::sync::Wait;
use std::thread::Threads;

/// Does what is asked of parts over these files, and returns the exit status: 0 done, 1 a fault, 2 words that are no command or names of
/// one file. What is asked for goes to `out`, a fault to `err`; what that doesn't take is dropped.
pub fn answer_parts<R: Threads + Wait + Sync, F: Files, O: Write, E: Write>(
    rt: &R,
    alloc: Global,
    files: &mut F,
    asked: &PartsAsked<'_>,
    out: &mut O,
    err: &mut E,
) -> u8
    ensures answered { IsAnswered (F.is_known files.old) (F.holds files.old) (F.holds files.new) (F.failing files.old) asked.now (O.contents out.old) (O.contents out.new) result }
    ensures others { (name : List ℕ) → ¬ IsWritten asked.now name → IsAsItWas (F.holds files.old) (F.holds files.new) name }
{
    match asked {
        PartsAsked::Part(names, most) => answer_part(rt, alloc, files, names, *most, out, err),
        PartsAsked::Decide(folder, part) => answer_decide(
            rt, alloc, files, folder, *part, out, err,
        ),
        PartsAsked::Join(names) => answer_join(rt, alloc, files, names, out, err),
        PartsAsked::Help(text) => status_of(put(out, text.as_bytes()), err),
        PartsAsked::Wrong(usage) => {
            let _ = err.write_all(usage.as_bytes());
            2
        }
    }
}

// Puts a batch in parts.
fn answer_part<R: Threads + Wait + Sync, F: Files, O: Write, E: Write>(
    rt: &R,
    alloc: Global,
    files: &mut F,
    names: &PartNames<'_>,
    most: MostParts,
    out: &mut O,
    err: &mut E,
) -> u8
    ensures answered { IsAnswered (F.is_known files.old) (F.holds files.old) (F.holds files.new) (F.failing files.old) (asked.Part names.now most) (O.contents out.old) (O.contents out.new) result }
    ensures others { (name : List ℕ) → ¬ IsWritten (asked.Part names.now most) name → IsAsItWas (F.holds files.old) (F.holds files.new) name }
{
    match part_files(rt, alloc, files, names, most) {
        Ok(counts) => status_of(say_counts(alloc, &counts, out), err),
        Err(fault) => refuse(&fault, line_of_part(alloc, files, names, most, &fault), err),
    }
}

// Decides a part.
fn answer_decide<R: Threads + Wait + Sync, F: Files, O: Write, E: Write>(
    rt: &R,
    alloc: Global,
    files: &mut F,
    folder: &str,
    part: u32,
    out: &mut O,
    err: &mut E,
) -> u8
    ensures answered { IsAnswered (F.is_known files.old) (F.holds files.old) (F.holds files.new) (F.failing files.old) (asked.Decide folder.entry part) (O.contents out.old) (O.contents out.new) result }
    ensures others { (name : List ℕ) → ¬ IsWritten (asked.Decide folder.entry part) name → IsAsItWas (F.holds files.old) (F.holds files.new) name }
{
    match decide_part(rt, alloc, files, folder, part) {
        Ok(count) => status_of(say(alloc, "decided", count.bodies as usize, out), err),
        Err(fault) => refuse(
            &fault,
            line_of_decide(alloc, files, folder, part, &fault),
            err,
        ),
    }
}

// Puts parts together.
fn answer_join<R: Threads + Wait + Sync, F: Files, O: Write, E: Write>(
    rt: &R,
    alloc: Global,
    files: &mut F,
    names: &JoinNames<'_>,
    out: &mut O,
    err: &mut E,
) -> u8
    ensures answered { IsAnswered (F.is_known files.old) (F.holds files.old) (F.holds files.new) (F.failing files.old) (asked.Join names.now) (O.contents out.old) (O.contents out.new) result }
    ensures others { (name : List ℕ) → ¬ IsWritten (asked.Join names.now) name → IsAsItWas (F.holds files.old) (F.holds files.new) name }
{
    match join_parts(rt, alloc, files, names) {
        Ok(count) => status_of(say(alloc, "joined", count, out), err),
        Err(fault) => refuse(&fault, line_of_join(alloc, files, names, &fault), err),
    }
}

// Tells a fault, and behind it a line on the file that has it, if there is one.
fn refuse<E: Write>(fault: &PartsFault, line: Option<Vec<u8>>, err: &mut E) -> u8
    ensures { result ≡ status_of fault.now }
{
    tell_with(fault, line, err);
    fault.status()
}

// Says how much each part has.
fn say_counts<O: Write>(alloc: Global, counts: &[PartCount], out: &mut O) -> io::Result<()>
    ensures { OnOk result (Appends (O.contents out.old) (O.contents out.new) (count_lines 0 counts.now)) }
{
    match lines_of(alloc, counts) {
        Ok(lines) => put(out, lines.as_slice()),
        Err(_) => Err(io::Error::from(io::ErrorKind::OutOfMemory)),
    }
}

// The same as lines.
fn lines_of(alloc: Global, counts: &[PartCount]) -> Result<Vec<u8>, AllocError>
    ensures { IfOk result (λ lines. lines.items ≡ count_lines 0 counts.now) }
{
    let mut lines = Vec::new(alloc);
    add_lines(alloc, 0, counts, &mut lines)?;
    Ok(lines)
}

// Adds the lines of these parts, of which the first has this number.
fn add_lines(
    alloc: Global,
    part: u64,
    counts: &[PartCount],
    lines: &mut Vec<u8>,
) -> Result<(), AllocError>
    requires { part + length counts.now < 2 ^ 64 }
    ensures { OnOk result (lines.new.items ≡ lines.old.items ++ count_lines part counts.now) }
{
    let Some((count, rest)) = counts.split_first() else {
        return Ok(());
    };
    let line = line_of(alloc, part, count)?;
    lines.extend_from_slice(line.as_bytes())?;
    add_lines(alloc, part + 1, rest, lines)
}

// The line of a part.
fn line_of(alloc: Global, part: u64, count: &PartCount) -> Result<String, AllocError>
    ensures { IfOk result (λ line. string_bytes line ≡ count_line part count.now) }
{
    let (messages, rows) = (count.messages, count.rows);
    let line = format!(in alloc; "part {part}: {messages} messages, {rows} rows\n")?;
    Ok(line)
}

// Says what was done, with so many messages.
fn say<O: Write>(alloc: Global, done: &str, count: usize, out: &mut O) -> io::Result<()>
    ensures { OnOk result (Appends (O.contents out.old) (O.contents out.new) (done_line done.now count)) }
{
    match done_line(alloc, done, count) {
        Ok(line) => put(out, line.as_bytes()),
        Err(_) => Err(io::Error::from(io::ErrorKind::OutOfMemory)),
    }
}

// The same as a line.
fn done_line(alloc: Global, done: &str, count: usize) -> Result<String, AllocError>
    ensures { IfOk result (λ line. string_bytes line ≡ done_line done.now count) }
{
    format!(in alloc; "{done} {count}\n")
}
