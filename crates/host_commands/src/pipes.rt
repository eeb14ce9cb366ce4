//! Links over named pipes of the host.

ghost use Rattle.std.specs.Prelude.{◌≡◌, ◌≤◌, [], IfOk, length};

use file_devices::{Broken, Sink, Source};
use host_links::{LinkSink, LinkSource};
use std::fs::{File, OpenFile, OpenOptions};
use std::io::{Read, Write};
use std::{fs, rt};

/// A pipe of the host that is read. To open it waits for somebody who opens it to write. What comes on it is not known.
#[derive(Drop)]
pub struct PipeSource<'a, R> {
    host: R,
    name: &'a str,
    file: Option<File>,
    has_failed: bool,
}

impl<'a, R: rt::Files<File = File> + Copy> PipeSource<'a, R> {
    /// The pipe of this name, which isn't open yet.
    pub fn new(host: R, name: &'a str) -> PipeSource<'a, R> {
        PipeSource {
            host,
            name,
            file: None,
            has_failed: false,
        }
    }

    // Reads from the pipe, if it is open.
    fn read(&mut self, buffer: &mut [u8]) -> Result<usize, Broken>
        ensures count { IfOk result (λ n. n ≤ length buffer.new) }
        ensures failed { self.new.has_failed ≡ self.old.has_failed }
    {
        let Some(file) = &mut self.file else {
            return Err(Broken);
        };
        match file.read(buffer) {
            Ok(count) => Ok(count),
            Err(_) => Err(Broken),
        }
    }
}

impl<R: rt::Files<File = File> + Copy> Source for PipeSource<'_, R> {
    ghost is_known = { λ _. ⊥ };

    ghost remaining = { λ _. [] };

    ghost has_failed = { λ pipe. pipe.has_failed };

    ghost may_fail = { λ _. Unit {0} };

    fn take(&mut self, buffer: &mut [u8]) -> Result<usize, Broken> {
        let taken = self.read(buffer);
        if taken.is_err() {
            self.has_failed = true;
        }
        taken
    }
}

impl<R: rt::Files<File = File> + Copy> LinkSource for PipeSource<'_, R> {
    fn open(&mut self) -> Result<(), Broken> {
        match fs::open(&self.host, self.name) {
            Ok(file) => {
                self.file = Some(file);
                Ok(())
            }
            Err(_) => Err(Broken),
        }
    }

    fn close(&mut self) {
        self.file = None;
    }
}

/// A pipe of the host that is written. To open it waits for somebody who opens it to read. Into a plain file what is written goes behind what
/// it has. What was written on it is not known.
#[derive(Drop)]
pub struct PipeSink<'a, R> {
    host: R,
    name: &'a str,
    file: Option<File>,
    has_failed: bool,
}

impl<'a, R: rt::Files<File = File> + Copy> PipeSink<'a, R> {
    /// The pipe of this name, which isn't open yet.
    pub fn new(host: R, name: &'a str) -> PipeSink<'a, R> {
        PipeSink {
            host,
            name,
            file: None,
            has_failed: false,
        }
    }

    // Writes to the pipe, if it is open.
    fn write(&mut self, bytes: &[u8]) -> Result<usize, Broken>
        ensures count { IfOk result (λ n. n ≤ length bytes.now) }
        ensures failed { self.new.has_failed ≡ self.old.has_failed }
    {
        let Some(file) = &mut self.file else {
            return Err(Broken);
        };
        match file.write(bytes) {
            Ok(count) => Ok(count),
            Err(_) => Err(Broken),
        }
    }
}

impl<R: rt::Files<File = File> + Copy> Sink for PipeSink<'_, R> {
    ghost is_known = { λ _. ⊥ };

    ghost written = { λ _. [] };

    ghost has_failed = { λ pipe. pipe.has_failed };

    ghost may_fail = { λ _. Unit {0} };

    fn put(&mut self, bytes: &[u8]) -> Result<usize, Broken> {
        let written = self.write(bytes);
        if matches!(written, Ok(0) | Err(_)) {
            self.has_failed = true;
        }
        written
    }
}

impl<R: rt::Files<File = File> + Copy> LinkSink for PipeSink<'_, R> {
    fn open(&mut self) -> Result<(), Broken> {
        match OpenOptions::new().append(true).open(&self.host, self.name) {
            Ok(file) => {
                self.file = Some(file);
                Ok(())
            }
            Err(_) => Err(Broken),
        }
    }

    fn close(&mut self) {
        self.file = None;
    }
}
