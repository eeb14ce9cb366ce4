//! One body's way through the program, part by part.

use crate::script::arguments_of;
use app_commands::{Printer, act};
use app_runs::{answer_on, decide_one, sample_book};
use app_words::{Command, plain_arguments_are_read, read_arguments};
use engine_workers::Workers;
use file_devices::MemoryFiles;
use file_listing::body_of_digits;
use std::alloc::{AllocError, Global};
use std::io;
use std::io::{ErrorKind, Write};
use std::sync::Wait;
use std::thread::Threads;
use std::time::Clock;

// Whether so many workers answer that a body is too short.
fn is_too_short<R: Clock + Threads + Wait + Sync>(
    rt: &R,
    alloc: Global,
    body: &[u8],
    count: u32,
) -> Result<bool, AllocError> {
    let Some(workers) = Workers::new(count) else {
        return Ok(false);
    };
    let answer = answer_on(rt, alloc, &sample_book(alloc)?, body, workers)?;
    Ok(answer.as_slice() == b"F01000".as_slice())
}

#[test]
fn a_body_is_answered_in_bytes_and_in_digits(rt: HostRuntime) {
    let alloc = rt.alloc();
    let read = body_of_digits(alloc, b"31").expect(&rt, "room");
    let body = read.expect(&rt, "a body");
    assert!(rt; body.as_slice() == b"1".as_slice());
    assert!(rt; matches!(is_too_short(&rt, alloc, &body, 1), Ok(true)));
    assert!(rt; matches!(is_too_short(&rt, alloc, &body, 64), Ok(true)));
    let digits = decide_one(&rt, alloc, &body).expect(&rt, "room");
    assert!(rt; digits.as_str() == "463031303030");
}

#[test]
fn words_are_read(rt: HostRuntime) {
    plain_arguments_are_read();
    let words = arguments_of(rt.alloc(), "switch one 3a").expect(&rt, "room");
    let read = read_arguments(rt.alloc(), &words);
    assert!(rt; matches!(&read, Ok(Command::One(body)) if body.as_slice() == b":".as_slice()));
}

// A writer that takes nothing.
#[derive(Drop)]
struct Closed;

impl Write for Closed {
    fn write(&mut self, _buf: &[u8]) -> io::Result<usize> {
        Err(io::Error::from(ErrorKind::BrokenPipe))
    }

    fn flush(&mut self) -> io::Result<()> {
        Ok(())
    }
}

// The status of these words, and whether all is taken that they print to such a writer, and to another such one as a fault.
fn unheard<R: Clock + Threads + Wait + Sync>(
    rt: &R,
    alloc: Global,
    words: &[String],
) -> (u8, bool, bool) {
    let mut out = Printer::new(Closed);
    let mut err = Printer::new(Closed);
    let status = act(
        rt,
        alloc,
        &mut MemoryFiles::new(alloc),
        words,
        &mut out,
        &mut err,
    );
    (status, out.into_parts().1, err.into_parts().1)
}

// What standard output doesn't take is a fault; what standard error doesn't take is dropped, and the status stays.
#[test]
fn what_is_not_taken_is_a_fault(rt: HostRuntime) {
    for (line, status, is_out_whole) in [("switch one 31", 1, false), ("switch one 3", 2, true)] {
        let words = arguments_of(rt.alloc(), line).expect(&rt, "room");
        let (ended, all_out, all_err) = unheard(&rt, rt.alloc(), &words);
        assert!(rt;
            ended == status && all_out == is_out_whole && !all_err,
            "{line}"
        );
    }
}

// A report that standard output doesn't take is told on standard error.
#[test]
fn a_lost_report_is_told(rt: HostRuntime) {
    let words = arguments_of(rt.alloc(), "switch one 31").expect(&rt, "room");
    let mut out = Printer::new(Closed);
    let mut err = Printer::new(Vec::new(rt.alloc()));
    let mut files = MemoryFiles::new(rt.alloc());
    let status = act(&rt, rt.alloc(), &mut files, &words, &mut out, &mut err);
    let (told, _) = err.into_parts();
    assert!(rt; status == 1 && told.as_slice() == b"output 1\n".as_slice());
}

// A writer that takes one write of ten bytes at most, and then nothing.
#[derive(Drop)]
struct Full {
    taken: Vec<u8>,
}

impl Write for Full {
    fn write(&mut self, buf: &[u8]) -> io::Result<usize> {
        let room = 10usize.saturating_sub(self.taken.len());
        let Some(part) = buf.get(..room.min(buf.len())) else {
            return Ok(0);
        };
        self.taken.extend_from_slice(part)?;
        Ok(part.len())
    }

    fn flush(&mut self) -> io::Result<()> {
        Ok(())
    }
}

// A line that is taken in part stays so, and nothing stands behind it.
#[test]
fn nothing_is_printed_behind_a_line_that_was_cut(rt: HostRuntime) {
    let mut printer = Printer::new(Full {
        taken: Vec::new(rt.alloc()),
    });
    for line in ["first", "second", ""] {
        printer.line(line.as_bytes());
    }
    let (full, all) = printer.into_parts();
    assert!(rt; !all && full.taken.as_slice() == b"first\nseco".as_slice());
}
