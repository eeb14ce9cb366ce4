//! Scripts: cases in words, which are played over files in memory, or over the host's.
//!
//! A line that begins with `#` begins a case, without files. `put FILE PART..` makes a file of these parts, `is FILE PART..` says that
//! the file has these bytes, `has FILE PART..` that they are among its own, and `none FILE` that it is not there. A part is a text behind
//! `'`, the name of a text, the name of a file, either of them with `+10` for what is behind its first ten bytes, or hexadecimal digits.
//!
//! `0 switch WORD..` says that the program ends with status 0 for these words, in which `_` is a space and `00*513` stands for 513 times
//! `00`. Then `> LINE` is the next line that it printed, `! LINE` the next one on standard error, and `>> PART` a part of what it
//! printed. What else a line may ask for is said where the files are. All of that has to be stated. What is wrong with words that are no command (status 2) is stated whole or not at all, but
//! there has to be something.

use crate::texts::text_of;
use app_commands::{Printer, act};
use file_devices::{Files, MemoryFiles};
use file_listing::body_of_digits;
use std::alloc::{AllocError, Global};
use std::process::Abort;
use std::sync::Wait;
use std::thread::Threads;
use std::time::Clock;

// What was printed, and how much of it the script stated.
#[derive(Drop)]
struct Said {
    bytes: Vec<u8>,
    told: usize,
    is_whole: bool,
}

/// Where the files of a script are.
pub(crate) trait Stage {
    /// The files.
    type Files: Files;

    /// The files, for the program.
    fn files(&mut self) -> &mut Self::Files;
    /// What the file of this name holds.
    fn get(&self, alloc: Global, name: &str) -> Option<Vec<u8>>;
    /// Makes a file of this name, or says that it can't.
    fn put(&mut self, name: &str, bytes: Vec<u8>) -> Option<()>;
    /// Takes all files away.
    fn clear(&mut self) -> bool;
    /// Does what else the line asks for, or says that it doesn't hold.
    fn does(&mut self, verb: &str, rest: &str) -> Option<bool>;
}

impl Stage for MemoryFiles {
    type Files = MemoryFiles;

    fn files(&mut self) -> &mut MemoryFiles {
        self
    }

    fn get(&self, alloc: Global, name: &str) -> Option<Vec<u8>> {
        copied(alloc, MemoryFiles::get(self, name)?)
    }

    fn put(&mut self, name: &str, bytes: Vec<u8>) -> Option<()> {
        MemoryFiles::put(self, name, bytes).ok()?;
        Some(())
    }

    fn clear(&mut self) -> bool {
        MemoryFiles::clear(self);
        true
    }

    fn does(&mut self, _verb: &str, _rest: &str) -> Option<bool> {
        None
    }
}

// The files, and what the program said last.
#[derive(Drop)]
struct ProgramRun<S> {
    files: S,
    status: u8,
    out: Said,
    err: Said,
}

/// Plays the script over files in memory. Each of its lines has to hold.
pub(crate) fn play<R: Abort + Clock + Threads + Wait + Sync>(rt: &R, alloc: Global, script: &str) {
    play_on(rt, alloc, MemoryFiles::new(alloc), script);
}

/// Plays the script over these files. Each of its lines has to hold.
pub(crate) fn play_on<R: Abort + Clock + Threads + Wait + Sync, S: Stage + Drop>(
    rt: &R,
    alloc: Global,
    files: S,
    script: &str,
) {
    let mut stage = ProgramRun {
        files,
        status: 0,
        out: taken(Printer::new(Vec::new(alloc))),
        err: taken(Printer::new(Vec::new(alloc))),
    };
    for (index, line) in script.lines().enumerate() {
        assert!(rt;
            holds(rt, alloc, &mut stage, line),
            "behind {index} lines: {line}"
        );
    }
    assert!(rt; is_told(&stage), "at the end");
}

// Whether the line holds; what it makes or asks for is done.
fn holds<R: Clock + Threads + Wait + Sync, S: Stage>(
    rt: &R,
    alloc: Global,
    stage: &mut ProgramRun<S>,
    line: &str,
) -> bool {
    let Some((verb, rest)) = line.split_once(' ') else {
        return line.is_empty();
    };
    match verb {
        "#" => begins(stage),
        "put" => is_put(alloc, &mut stage.files, rest).is_some(),
        "is" | "has" => is_held(alloc, &stage.files, verb, rest).is_some_and(|held| held),
        "none" => stage.files.get(alloc, rest).is_none(),
        ">" => is_next(&mut stage.out, rest.as_bytes()),
        "!" => is_next(&mut stage.err, rest.as_bytes()),
        ">>" => {
            stage.out.told = stage.out.bytes.len();
            has(&stage.out.bytes, rest.as_bytes())
        }
        _ => match stage.files.does(verb, rest) {
            Some(holds) => holds,
            None => {
                is_told(stage)
                    && ends(rt, alloc, stage, rest)
                    && verb.parse().ok() == Some(stage.status)
            }
        },
    }
}

// A case begins without files, once all that was printed before is stated.
fn begins<S: Stage>(stage: &mut ProgramRun<S>) -> bool {
    stage.files.clear() && is_told(stage)
}

fn is_told<S>(stage: &ProgramRun<S>) -> bool {
    let ProgramRun { out, err, .. } = stage;
    let is_all = err.told == err.bytes.len();
    let is_err_told = if stage.status == 2 {
        !err.bytes.is_empty() && (is_all || err.told == 0)
    } else {
        is_all
    };
    out.is_whole && err.is_whole && out.told == out.bytes.len() && is_err_told
}

// Whether the next line is this one.
fn is_next(said: &mut Said, line: &[u8]) -> bool {
    let Some(rest) = said.bytes.get(said.told..) else {
        return false;
    };
    said.told = said.told.saturating_add(line.len()).saturating_add(1);
    rest.starts_with(line) && rest.get(line.len()).copied() == Some(b'\n')
}

fn has(bytes: &[u8], part: &[u8]) -> bool {
    (0..bytes.len()).any(|start| bytes[start..].starts_with(part))
}

// Makes a file of these parts.
fn is_put<S: Stage>(alloc: Global, files: &mut S, line: &str) -> Option<()> {
    let (file, bytes) = file_and_bytes(alloc, files, line)?;
    files.put(file, bytes)
}

// Whether the file is these parts, or has them.
fn is_held<S: Stage>(alloc: Global, files: &S, verb: &str, line: &str) -> Option<bool> {
    let (file, bytes) = file_and_bytes(alloc, files, line)?;
    let held = files.get(alloc, file)?;
    Some(held.as_slice() == bytes.as_slice() || verb == "has" && has(&held, &bytes))
}

// The name of a file, and the parts behind it.
fn file_and_bytes<'a, S: Stage>(
    alloc: Global,
    files: &S,
    line: &'a str,
) -> Option<(&'a str, Vec<u8>)> {
    let mut parts = line.split(' ');
    let file = parts.next()?;
    let mut bytes = Vec::new(alloc);
    for part in parts {
        if !is_added(alloc, files, &mut bytes, part) {
            return None;
        }
    }
    Some((file, bytes))
}

// Appends the part.
fn is_added<S: Stage>(alloc: Global, files: &S, bytes: &mut Vec<u8>, part: &str) -> bool {
    match known_part(alloc, files, part) {
        Some(known) => bytes.extend_from_slice(&known).is_ok(),
        None => match body_of_digits(alloc, part.as_bytes()) {
            Ok(Some(body)) => bytes.extend_from_slice(&body).is_ok(),
            _ => false,
        },
    }
}

// A part that is a text or the end of one.
fn known_part<S: Stage>(alloc: Global, files: &S, part: &str) -> Option<Vec<u8>> {
    if let Some(text) = part.strip_prefix('\'') {
        return copied(alloc, text.as_bytes());
    }
    let (name, from) = part.split_once('+').unwrap_or((part, "0"));
    let from = from.parse::<usize>().ok()?;
    match text_of(name) {
        Some(text) => copied(alloc, text.get(from..)?),
        None => copied(alloc, files.get(alloc, name)?.get(from..)?),
    }
}

fn copied(alloc: Global, bytes: &[u8]) -> Option<Vec<u8>> {
    let mut copy = Vec::new(alloc);
    copy.extend_from_slice(bytes).ok()?;
    Some(copy)
}

// Runs the program for the words, the first of which is its name.
fn ends<R: Clock + Threads + Wait + Sync, S: Stage>(
    rt: &R,
    alloc: Global,
    stage: &mut ProgramRun<S>,
    line: &str,
) -> bool {
    match arguments_of(alloc, line) {
        Ok(words) => {
            run(rt, alloc, stage, &words);
            true
        }
        Err(_) => false,
    }
}

pub(crate) fn arguments_of(alloc: Global, line: &str) -> Result<Vec<String>, AllocError> {
    let mut words = Vec::new(alloc);
    for word in line.split(' ') {
        words.push(word_of(alloc, word)?)?;
    }
    Ok(words)
}

fn word_of(alloc: Global, word: &str) -> Result<String, AllocError> {
    match word.split_once('*') {
        Some((text, count)) => text.repeat(alloc, count.parse().unwrap_or(0)),
        None => word.replace(alloc, "_", " "),
    }
}

fn run<R: Clock + Threads + Wait + Sync, S: Stage>(
    rt: &R,
    alloc: Global,
    stage: &mut ProgramRun<S>,
    words: &[String],
) {
    let mut out = Printer::new(Vec::new(alloc));
    let mut err = Printer::new(Vec::new(alloc));
    stage.status = act(rt, alloc, stage.files.files(), words, &mut out, &mut err);
    stage.out = taken(out);
    stage.err = taken(err);
}

fn taken(printer: Printer<Vec<u8>>) -> Said {
    let (bytes, is_whole) = printer.into_parts();
    Said {
        bytes,
        told: 0,
        is_whole,
    }
}
