ghost use Rattle.std.specs.Prelude.{◌≡◌, IfSome, MatchResult, OnOk, None, Some, map, string_bytes};
ghost use Rattle.app_words.specs.Asked.{asked_of, audit, audit_blocks, blocks, names_of, pack, pack_blocks, run, run_with_journal, serial, show};
ghost use Rattle.app_jobs.specs.Deciding.{DecidesBlockFiles, DecidesFiles};
ghost use Rattle.app_commands.specs.Apart.{AreApart, names_apart};
ghost use Rattle.app_commands.specs.Claims.{claims_for};
ghost use Rattle.file_devices.specs.Claims.{AreOn};
ghost use Rattle.app_commands.specs.Answered.{IsDoneAs, IsDoneOrFault, IsRefusalIn, IsTold, SparesOthers};

use crate::apart::check_names;
use crate::claims::claim_files;
use crate::fault::Fault;
use crate::refusal::Refusal;
use crate::report::Report;
use app_audit::{audit_text, block_audit_text};
use app_jobs::{
    BlockCount, Halt, JobFault, audit_batch, audit_batch_with_journal, audit_block_files,
    serial_batch, serial_blocks,
};
use app_messages::{pack_batch, pack_blocks, show_file};
use app_reasons::words_of;
use app_runs::{decide_one, run_batch, run_batch_with_journal, run_blocks};
use app_words::{Command, EngineChoice, Form};
use engine_workers::Workers;
use file_batch::{BodyCount, Strictness};
use file_devices::{BatchNames, Files};
use std::alloc::Global;
use std::sync::Wait;
use std::thread::Threads;
use std::time::Clock;

/// Does what the command asks for, where its names are of as many files as they have to be and no other run has claimed one.
pub(crate) fn done<R: Clock + Threads + Wait + Sync, F: Files>(
    rt: &R,
    alloc: Global,
    files: &mut F,
    command: &Command,
) -> Result<Report, Refusal>
    ensures apart { OnOk result (F.is_known files.old → AreApart (names_apart (asked_of command.now))) }
    ensures done { MatchResult result
        (IsDoneAs (F.is_known files.old) (F.holds files.old) (F.holds files.new) (asked_of command.now))
        (IsRefusalIn (F.is_known files.old) (F.holds files.old) (F.holds files.new) (F.failing files.old) (asked_of command.now)) }
    ensures others { SparesOthers (F.holds files.old) (F.holds files.new) (asked_of command.now) }
{
    check_names(alloc, files, command)?;
    let claims = match claim_files(alloc, files, command) {
        Ok(claims) => claims,
        Err(fault) => return Err(explained(alloc, files, command, fault)),
    };
    match act_on(rt, alloc, files, command, &claims) {
        Ok(report) => Ok(report),
        Err(fault) => Err(explained(alloc, files, command, fault)),
    }
}

// The fault, and what is told of it. What was claimed still is.
fn explained<F: Files>(alloc: Global, files: &F, command: &Command, fault: Fault) -> Refusal
    ensures fault { result.fault ≡ fault }
    ensures words { IfSome result.words (λ line. IsTold (F.holds files.now) (asked_of command.now) fault line.items) }
{
    let words = match &fault {
        Fault::Job(job) | Fault::Halted(job, _) => words_of(alloc, files, command, job),
        Fault::Usage(_) | Fault::OutOfMemory => None,
    };
    Refusal { fault, words }
}

// Does what the command asks for, while its files are claimed.
fn act_on<R: Clock + Threads + Wait + Sync, F: Files>(
    rt: &R,
    alloc: Global,
    files: &mut F,
    command: &Command,
    claims: &[F::Claim],
) -> Result<Report, Fault>
    requires claimed { AreOn F.is_alone_on F.is_to_read (claims_for (asked_of command.now)) claims.now }
    ensures done { IsDoneOrFault (F.is_known files.old) (F.holds files.old) (F.holds files.new) (F.failing files.old) (asked_of command.now) result }
    ensures others { SparesOthers (F.holds files.old) (F.holds files.new) (asked_of command.now) }
{
    let _ = claims;
    match command {
        Command::Help(text) => Ok(Report::Help(String::from_str(alloc, text.as_str())?)),
        Command::Version => Ok(Report::Version),
        Command::One(body) => Ok(Report::Answer(decide_one(rt, alloc, body)?)),
        Command::Serial { names, strictness } => serial(rt, alloc, files, names, *strictness),
        Command::Run {
            names,
            workers,
            engine,
            strictness,
        } => run(rt, alloc, files, names, *workers, *engine, *strictness),
        Command::RunWithJournal {
            names,
            workers,
            journal,
            strictness,
        } => run_with_journal(
            rt,
            alloc,
            files,
            names,
            *workers,
            journal.as_str(),
            *strictness,
        ),
        Command::Blocks {
            names,
            workers,
            engine,
            strictness,
        } => blocks(rt, alloc, files, names, *workers, *engine, *strictness),
        Command::Audit { names, journal } => match journal {
            Some(journal) => audited_with_journal(rt, alloc, files, names, journal.as_str()),
            None => audited(rt, alloc, files, names),
        },
        Command::AuditBlocks(names) => audited_blocks(rt, alloc, files, names),
        Command::Show(file) => show(alloc, files, file.as_str()),
        Command::Pack { texts, batch } => packed(alloc, files, texts, batch.as_str()),
        Command::PackBlocks { texts, blocks } => {
            packed_in_blocks(alloc, files, texts, blocks.as_str())
        }
    }
}

// A batch is decided one message after another.
fn serial<R: Threads + Wait + Sync, F: Files>(
    rt: &R,
    alloc: Global,
    files: &mut F,
    names: &BatchNames,
    strictness: Strictness,
) -> Result<Report, Fault>
    ensures done { IsDoneOrFault (F.is_known files.old) (F.holds files.old) (F.holds files.new) (F.failing files.old) (serial (names_of names.now) strictness) result }
    ensures others { SparesOthers (F.holds files.old) (F.holds files.new) (serial (names_of names.now) strictness) }
{
    let count = serial_batch(rt, alloc, files, names, strictness)?;
    Ok(Report::Decided(count))
}

// A batch is decided by so many workers of the engine that is named; where none is, one message after another, which is the fastest.
fn run<R: Clock + Threads + Wait + Sync, F: Files>(
    rt: &R,
    alloc: Global,
    files: &mut F,
    names: &BatchNames,
    workers: Workers,
    engine: EngineChoice,
    strictness: Strictness,
) -> Result<Report, Fault>
    ensures done { IsDoneOrFault (F.is_known files.old) (F.holds files.old) (F.holds files.new) (F.failing files.old) (run (names_of names.now) workers engine strictness) result }
    ensures others { SparesOthers (F.holds files.old) (F.holds files.new) (run (names_of names.now) workers engine strictness) }
{
    let count = decided(rt, alloc, files, names, workers, engine, strictness)?;
    Ok(Report::Decided(count))
}

// Decides a batch by the engine that is named, or else one message after another. Returns how many bodies it has.
fn decided<R: Clock + Threads + Wait + Sync, F: Files>(
    rt: &R,
    alloc: Global,
    files: &mut F,
    names: &BatchNames,
    workers: Workers,
    engine: EngineChoice,
    strictness: Strictness,
) -> Result<BodyCount, JobFault>
    ensures decides { DecidesFiles F.is_known F.holds F.failing strictness files.old files.new (names_of names.now) result }
{
    match engine {
        EngineChoice::NotNamed => serial_batch(rt, alloc, files, names, strictness),
        EngineChoice::Named(engine) => {
            run_batch(rt, alloc, files, names, workers, engine, strictness)
        }
    }
}

// A batch is decided by several workers under one lock, and the run's journal is kept.
fn run_with_journal<R: Clock + Threads + Wait + Sync, F: Files>(
    rt: &R,
    alloc: Global,
    files: &mut F,
    names: &BatchNames,
    workers: Workers,
    journal: &str,
    strictness: Strictness,
) -> Result<Report, Fault>
    ensures done { IsDoneOrFault (F.is_known files.old) (F.holds files.old) (F.holds files.new) (F.failing files.old) (run_with_journal (names_of names.now) workers journal.now strictness) result }
    ensures others { SparesOthers (F.holds files.old) (F.holds files.new) (run_with_journal (names_of names.now) workers journal.now strictness) }
{
    let count = run_batch_with_journal(rt, alloc, files, names, workers, journal, strictness)?;
    Ok(Report::Decided(count))
}

// Blocks are decided, one after another, long ones by so many workers of the engine that is named; where none is, one message after another
// on the book itself, which is the fastest.
fn blocks<R: Clock + Threads + Wait + Sync, F: Files>(
    rt: &R,
    alloc: Global,
    files: &mut F,
    names: &BatchNames,
    workers: Workers,
    engine: EngineChoice,
    strictness: Strictness,
) -> Result<Report, Fault>
    ensures done { IsDoneOrFault (F.is_known files.old) (F.holds files.old) (F.holds files.new) (F.failing files.old) (blocks (names_of names.now) workers engine strictness) result }
    ensures others { SparesOthers (F.holds files.old) (F.holds files.new) (blocks (names_of names.now) workers engine strictness) }
{
    let count = decided_blocks(rt, alloc, files, names, workers, engine, strictness)?;
    Ok(Report::DecidedBlocks(count))
}

// Decides blocks by the engine that is named, or else one message after another. Returns how many blocks and bodies there are.
fn decided_blocks<R: Clock + Threads + Wait + Sync, F: Files>(
    rt: &R,
    alloc: Global,
    files: &mut F,
    names: &BatchNames,
    workers: Workers,
    engine: EngineChoice,
    strictness: Strictness,
) -> Result<BlockCount, Halt>
    ensures decides { DecidesBlockFiles F.is_known F.holds F.failing strictness files.old files.new (names_of names.now) result }
{
    match engine {
        EngineChoice::NotNamed => serial_blocks(rt, alloc, files, names, strictness),
        EngineChoice::Named(engine) => {
            run_blocks(rt, alloc, files, names, workers, engine, strictness)
        }
    }
}

// A batch is compared with what deciding it comes to.
fn audited<R: Threads + Wait + Sync, F: Files>(
    rt: &R,
    alloc: Global,
    files: &F,
    names: &BatchNames,
) -> Result<Report, Fault>
    ensures { IsDoneOrFault (F.is_known files.now) (F.holds files.now) (F.holds files.now) (F.failing files.now) (audit (names_of names.now) None) result }
{
    let found = audit_batch(rt, alloc, files, names)?;
    let text = audit_text(alloc, &found)?;
    Ok(Report::Audited(found, text))
}

// A batch is compared with what a journal plays to.
fn audited_with_journal<R: Threads + Wait + Sync, F: Files>(
    rt: &R,
    alloc: Global,
    files: &F,
    names: &BatchNames,
    journal: &str,
) -> Result<Report, Fault>
    ensures { IsDoneOrFault (F.is_known files.now) (F.holds files.now) (F.holds files.now) (F.failing files.now) (audit (names_of names.now) (Some journal.now)) result }
{
    let found = audit_batch_with_journal(rt, alloc, files, names, journal)?;
    let text = audit_text(alloc, &found)?;
    Ok(Report::Audited(found, text))
}

// Blocks are compared with what deciding them comes to.
fn audited_blocks<R: Threads + Wait + Sync, F: Files>(
    rt: &R,
    alloc: Global,
    files: &F,
    names: &BatchNames,
) -> Result<Report, Fault>
    ensures { IsDoneOrFault (F.is_known files.now) (F.holds files.now) (F.holds files.now) (F.failing files.now) (audit_blocks (names_of names.now)) result }
{
    let found = audit_block_files(rt, alloc, files, names)?;
    let text = block_audit_text(alloc, &found)?;
    Ok(Report::AuditedBlocks(found, text))
}

// A file is shown.
fn show<F: Files>(alloc: Global, files: &F, file: &str) -> Result<Report, Fault>
    ensures { IsDoneOrFault (F.is_known files.now) (F.holds files.now) (F.holds files.now) (F.failing files.now) (show file.now) result }
{
    let text = show_file(alloc, files, Form::Lines, file)?;
    Ok(Report::Lines(text))
}

// Texts are packed into a batch.
fn packed<F: Files>(
    alloc: Global,
    files: &mut F,
    texts: &[String],
    batch: &str,
) -> Result<Report, Fault>
    ensures done { IsDoneOrFault (F.is_known files.old) (F.holds files.old) (F.holds files.new) (F.failing files.old) (pack (map string_bytes texts.now) batch.now) result }
    ensures others { SparesOthers (F.holds files.old) (F.holds files.new) (pack (map string_bytes texts.now) batch.now) }
{
    let count = pack_batch(alloc, files, texts, batch)?;
    Ok(Report::Packed(count))
}

// Texts are packed into a block each.
fn packed_in_blocks<F: Files>(
    alloc: Global,
    files: &mut F,
    texts: &[String],
    name: &str,
) -> Result<Report, Fault>
    ensures done { IsDoneOrFault (F.is_known files.old) (F.holds files.old) (F.holds files.new) (F.failing files.old) (pack_blocks (map string_bytes texts.now) name.now) result }
    ensures others { SparesOthers (F.holds files.old) (F.holds files.new) (pack_blocks (map string_bytes texts.now) name.now) }
{
    let bodies = pack_blocks(alloc, files, texts, name)?;
    Ok(Report::PackedBlocks {
        bodies,
        blocks: texts.len(),
    })
}
