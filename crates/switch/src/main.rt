//! `switch`: decides card messages for an issuer.
#![tactic(auto)]

mod advance;
mod estimate;
mod progress;
mod progress_file;
mod progress_files;
mod progress_log;
mod progress_logs;
mod reading;
mod stream_files;
mod stream_input;
mod stream_output;

use advance::Advance;
use app_commands::{Fault, Printer, act, print_fault};
use app_messages::{
    MakeAsked, ShowAsked, UnpackAsked, answer_make, answer_show, answer_unpack, make_asked,
    show_asked, unpack_asked,
};
use app_parts::{
    ArchiveAsked, PartsAsked, answer_archive, answer_parts, archive_asked, parts_asked,
};
use app_reports::{ReportAsked, answer_report, answer_why, report_asked, why_asked};
use app_words::{names_standard_output, take_progress, topic_asked, with_streams};
use file_devices::{Files, FromRead, IntoWrite};
use host_commands::{
    AskedLinks, HostAsked, HostLogs, PipeSink, PipeSource, SERVE_HELP, host_asked, links_asked,
    serve, serve_links,
};
use host_links::Seat;
use log_commands::{
    AUDIT_LOG_HELP, HostLockedLogs, LogAsked, REPLAY_HELP, audit_log, audit_log_asked, replay,
    replay_asked,
};
use progress::Progress;
use progress_files::ProgressFiles;
use progress_logs::ProgressLogs;
use std::alloc::{AllocError, Global};
use std::fs::File;
use std::io::{ErrorKind, IsTerminal, Write};
use std::os::unix::prelude::{FileTypeExt, MetadataExt};
use std::process::ExitCode;
use std::sync::Wait;
use std::thread::Threads;
use std::time::Clock;
use std::{env, fs, io};
use stream_files::{StreamFiles, is_input};

fn main(rt: HostRuntime) -> ExitCode {
    // A standard stream that is closed is opened on nothing, to be read alone, so that no file that is opened has its number.
    let _held = [held(&rt), held(&rt), held(&rt)];
    let mut err = Printer::new(rt.stderr());
    let (words, progress) = match asked_words(&rt) {
        Ok(asked) => asked,
        Err(fault) => {
            print_fault(&fault, &mut err);
            return ExitCode::from(fault.status());
        }
    };
    let mut files = ProgressFiles::new(
        StreamFiles::new(rt, rt.alloc(), rt.stdin(), rt.stdout()),
        progress,
    );
    if let Some(asked) = why_asked(&words) {
        let (mut out, mut err) = (rt.stdout(), rt.stderr());
        let status = answer_why(&rt, rt.alloc(), &files, &asked, &mut out, &mut err);
        return ExitCode::from(status);
    }
    let mut out = Printer::new(rt.stdout());
    let status = if let Some(topic) = topic_asked(&words) {
        help(topic.text(), &mut out)
    } else if let Some(asked) = host_asked(&words) {
        serve_words(&rt, rt, &files, &words, &asked, &mut out, &mut err)
    } else if let Some(asked) = replay_asked(&words) {
        replay_words(&rt, rt, &mut files, progress, asked, &mut out, &mut err)
    } else if let Some(asked) = audit_log_asked(&words) {
        audit_log_words(&rt, rt, &files, progress, asked, &mut out, &mut err)
    } else if let Some(asked) = report_asked(&words) {
        report_words(rt, &mut files, &asked)
    } else if let Some(asked) = archive_asked(&words) {
        archive_words(&rt, rt, &mut files, &asked, names_standard_output(&words))
    } else if let Some(asked) = parts_asked(&words) {
        parts_words(&rt, rt, &mut files, &asked, names_standard_output(&words))
    } else if let Some(asked) = make_asked(&words) {
        make_words(rt, &asked)
    } else if let Some(asked) = unpack_asked(&words) {
        unpack_words(rt, &files, &asked)
    } else if let Some(asked) = show_asked(&words) {
        show_words(rt, &files, &asked)
    } else if names_standard_output(&words) {
        // What is said doesn't stand between the bytes of a file.
        let mut said = Printer::new(rt.stderr());
        act(&rt, rt.alloc(), &mut files, &words, &mut said, &mut err)
    } else {
        act(&rt, rt.alloc(), &mut files, &words, &mut out, &mut err)
    };
    ExitCode::from(status)
}

// A file that is empty, at the least number that is free.
fn held(rt: &HostRuntime) -> Option<File> {
    fs::open(rt, "/dev/null").ok()
}

// Does what is asked of a live host, over standard input and output.
fn serve_words<R: Threads + Wait + Copy + Sync, F: Files, O: Write, E: Write>(
    rt: &R,
    host: HostRuntime,
    files: &F,
    words: &[String],
    asked: &HostAsked<'_>,
    out: &mut Printer<O>,
    err: &mut Printer<E>,
) -> u8 {
    match asked {
        HostAsked::Serve(book, _, _) if is_input(book) => usage(
            b"BOOK can't be standard input, from which the messages come",
            err,
        ),
        HostAsked::Serve(book, log, settings) => serve(
            rt,
            host.alloc(),
            files,
            &HostLogs::new(host),
            book,
            log,
            *settings,
            &mut FromRead::new(host.stdin()),
            &mut IntoWrite::new(host.stdout()),
            host.stderr(),
        ),
        HostAsked::Help => help(SERVE_HELP, out),
        HostAsked::Wrong => links_words(rt, host, files, words, err),
    }
}

// Does what is asked of a live host over links by the names of their pipes.
fn links_words<R: Threads + Wait + Copy + Sync, F: Files, E: Write>(
    rt: &R,
    host: HostRuntime,
    files: &F,
    words: &[String],
    err: &mut Printer<E>,
) -> u8 {
    match links_asked(host.alloc(), words) {
        Ok(Some(asked)) => match wrong_outputs(host, files, &asked) {
            Ok(Some(wrong)) => usage(wrong.as_bytes(), err),
            Ok(None) => match serve_pipes(rt, host, files, &asked) {
                Ok(status) => status,
                Err(_) => out_of_memory(err),
            },
            Err(_) => out_of_memory(err),
        },
        Ok(None) => usage(
            b"usage: switch serve <BOOK> <LOG> [--link <IN> <OUT>].. [--max-batch <M>] [--stats <N>]; `switch serve --help` says more",
            err,
        ),
        Err(_) => out_of_memory(err),
    }
}

// What is wrong with where replies go: over the book or the log, or from two links into one pipe.
fn wrong_outputs<F: Files>(
    host: HostRuntime,
    files: &F,
    asked: &AskedLinks<'_>,
) -> Result<Option<&'static str>, AllocError> {
    for (place, link) in asked.links.iter().enumerate() {
        if files.is_one_file(link.output, asked.book)?
            || files.is_one_file(link.output, asked.log)?
        {
            return Ok(Some("a link's OUT is BOOK or LOG"));
        }
        for other in &asked.links[..place] {
            if files.is_one_file(link.output, other.output)?
                || is_one_pipe(host, link.output, other.output)
            {
                return Ok(Some("OUT of two links is one file"));
            }
        }
    }
    Ok(None)
}

// Whether both names are one pipe's.
fn is_one_pipe(host: HostRuntime, first: &str, second: &str) -> bool {
    match (fs::metadata(&host, first), fs::metadata(&host, second)) {
        (Ok(first), Ok(second)) => {
            first.file_type().is_fifo()
                && first.dev() == second.dev()
                && first.ino() == second.ino()
        }
        _ => false,
    }
}

// Serves links over pipes of the host.
fn serve_pipes<R: Threads + Wait + Copy + Sync, F: Files>(
    rt: &R,
    host: HostRuntime,
    files: &F,
    asked: &AskedLinks<'_>,
) -> Result<u8, AllocError> {
    let mut seats = Vec::new(host.alloc());
    for link in &asked.links {
        let source = PipeSource::new(host, link.input);
        let sink = PipeSink::new(host, link.output);
        seats.push(Seat::new(source, sink))?;
    }
    Ok(serve_links(
        rt,
        host.alloc(),
        files,
        &HostLogs::new(host),
        asked.book,
        asked.log,
        asked.settings,
        &asked.links,
        &mut seats,
        host.stderr(),
    ))
}

// Says that memory ran out.
fn out_of_memory<E: Write>(err: &mut Printer<E>) -> u8 {
    print_fault(&Fault::OutOfMemory, err);
    Fault::OutOfMemory.status()
}

// Does what is asked of a log that is decided again.
fn replay_words<R: Threads + Wait + Sync, F: Files, O: Write, E: Write>(
    rt: &R,
    host: HostRuntime,
    files: &mut F,
    progress: Option<OnStandardError>,
    asked: LogAsked<'_>,
    out: &mut Printer<O>,
    err: &mut Printer<E>,
) -> u8 {
    match asked {
        LogAsked::Files(names) => {
            let logs = ProgressLogs::new(HostLockedLogs::new(host), progress);
            replay(rt, host.alloc(), files, &logs, &names, &mut host.stderr())
        }
        LogAsked::Help => help(REPLAY_HELP, out),
        LogAsked::Wrong => usage(
            b"usage: switch replay <BOOK> <LOG> <REPLIES> <NEWBOOK>; `switch replay --help` says more",
            err,
        ),
    }
}

// Does what is asked of a log whose replies and new book are audited.
fn audit_log_words<R: Threads + Wait + Sync, F: Files, O: Write, E: Write>(
    rt: &R,
    host: HostRuntime,
    files: &F,
    progress: Option<OnStandardError>,
    asked: LogAsked<'_>,
    out: &mut Printer<O>,
    err: &mut Printer<E>,
) -> u8 {
    match asked {
        LogAsked::Files(names) => audit_log(
            rt,
            host.alloc(),
            files,
            &ProgressLogs::new(HostLockedLogs::new(host), progress),
            &names,
            &mut host.stdout(),
            &mut host.stderr(),
        ),
        LogAsked::Help => help(AUDIT_LOG_HELP, out),
        LogAsked::Wrong => usage(
            b"usage: switch audit-log <BOOK> <LOG> <REPLIES> <NEWBOOK>; `switch audit-log --help` says more",
            err,
        ),
    }
}

// Does what is asked of how a day went.
fn report_words<F: Files>(host: HostRuntime, files: &mut F, asked: &ReportAsked<'_>) -> u8 {
    answer_report(
        host.alloc(),
        files,
        asked,
        &mut host.stdout(),
        &mut host.stderr(),
    )
}

// Does what is asked of a book that is archived. What is said doesn't stand between the bytes of a file.
fn archive_words<R: Threads + Wait + Sync, F: Files>(
    rt: &R,
    host: HostRuntime,
    files: &mut F,
    asked: &ArchiveAsked<'_>,
    is_streamed: bool,
) -> u8 {
    let (alloc, mut err) = (host.alloc(), host.stderr());
    if is_streamed {
        return answer_archive(rt, alloc, files, asked, &mut host.stderr(), &mut err);
    }
    answer_archive(rt, alloc, files, asked, &mut host.stdout(), &mut err)
}

// Does what is asked of a batch in parts. What is said doesn't stand between the bytes of a file.
fn parts_words<R: Threads + Wait + Sync, F: Files>(
    rt: &R,
    host: HostRuntime,
    files: &mut F,
    asked: &PartsAsked<'_>,
    is_streamed: bool,
) -> u8 {
    let (alloc, mut err) = (host.alloc(), host.stderr());
    if is_streamed {
        return answer_parts(rt, alloc, files, asked, &mut host.stderr(), &mut err);
    }
    answer_parts(rt, alloc, files, asked, &mut host.stdout(), &mut err)
}

// Does what is asked of a message from words.
fn make_words(host: HostRuntime, asked: &MakeAsked<'_>) -> u8 {
    answer_make(host.alloc(), asked, &mut host.stdout(), &mut host.stderr())
}

// Does what is asked of a batch's bodies.
fn unpack_words<F: Files>(host: HostRuntime, files: &F, asked: &UnpackAsked<'_>) -> u8 {
    answer_unpack(
        host.alloc(),
        files,
        asked,
        &mut host.stdout(),
        &mut host.stderr(),
    )
}

// Does what is asked of a file's messages or replies as JSON.
fn show_words<F: Files>(host: HostRuntime, files: &F, asked: &ShowAsked<'_>) -> u8 {
    answer_show(
        host.alloc(),
        files,
        asked,
        &mut host.stdout(),
        &mut host.stderr(),
    )
}

// Prints what a command takes.
fn help<O: Write>(text: &str, out: &mut Printer<O>) -> u8 {
    out.text(text.as_bytes());
    u8::from(out.is_stuck())
}

// Says what is wrong with the words.
fn usage<E: Write>(text: &[u8], err: &mut Printer<E>) -> u8 {
    err.line(text);
    2
}

// Where a person sees how far files are read: what is opened where that was asked for, and a line a second.
#[derive(Clone, Copy)]
struct OnStandardError {
    rt: HostRuntime,
    is_asked: bool,
}

impl Progress for OnStandardError {
    fn is_opened(&self, name: &str) {
        if self.is_asked {
            let _ = write!(self.rt.stderr(), "reading {name}\n");
        }
    }

    fn size_of(&self, name: &str) -> Option<u64> {
        match fs::metadata(&self.rt, name) {
            Ok(metadata) if metadata.is_file() => Some(metadata.len()),
            _ => None,
        }
    }

    fn second(&self) -> u64 {
        match self.rt.monotonic() {
            Ok(since) => since.as_secs(),
            Err(_) => 0,
        }
    }

    fn has_read(&self, advance: &Advance) {
        let _ = write!(self.rt.stderr(), "{advance}\n");
    }
}

// The words that the program was started with, with streams by their names, and where it is told how far files are read.
fn asked_words(rt: &HostRuntime) -> Result<(Vec<String>, Option<OnStandardError>), Fault> {
    let mut words = arguments_of(rt)?;
    let is_asked = take_progress(&mut words);
    let progress = if is_asked || rt.stderr().is_terminal() {
        Some(OnStandardError { rt: *rt, is_asked })
    } else {
        None
    };
    ask_for_help(rt.alloc(), &mut words)?;
    Ok((with_streams(rt.alloc(), &words)?, progress))
}

// Where help of a command is asked for by its name, `help COMMAND`, as by `COMMAND --help`.
fn ask_for_help(alloc: Global, words: &mut Vec<String>) -> Result<(), AllocError> {
    if words.len() == 3 && words[1].as_str() == "help" && topic_asked(words).is_none() {
        words.swap(1, 2);
        words[2] = String::from_str(alloc, "--help")?;
    }
    Ok(())
}

// The words that the program was started with.
fn arguments_of(rt: &HostRuntime) -> Result<Vec<String>, Fault> {
    let words: Vec<String> = match env::args(rt) {
        Ok(words) => words.collect(rt.alloc())?,
        Err(error) => return Err(unread(rt.alloc(), &error)?),
    };
    // A variable of a script that isn't set would name the root folder.
    for word in &words {
        if word.is_empty() {
            return Err(Fault::Usage(String::from_str(rt.alloc(), "a word is empty")?));
        }
    }
    Ok(words)
}

// Why the words can't be read: memory ran out, or one is no text.
fn unread(alloc: Global, error: &io::Error) -> Result<Fault, AllocError> {
    match error.kind() {
        ErrorKind::OutOfMemory => Ok(Fault::OutOfMemory),
        _ => Ok(Fault::Usage(String::from_str(alloc, "a word is no UTF-8 text")?)),
    }
}
