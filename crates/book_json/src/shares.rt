//! A book's text in shares, which several threads read.

use crate::book_reader::BookReader;
use crate::read_share::ReadShare;
use crate::share::Share;
use book_text::{Help, WorkAhead, lock_meanwhile, with_help};
use std::alloc::{AllocError, Global};
use std::sync::{Mutex, Wait};
use std::thread::Threads;

// How many shares are read ahead at most.
const AHEAD: usize = 32;

/// The shares of a text, one behind another, which several threads read ahead of the one that adds them to a book.
#[derive(Drop)]
pub(crate) struct Shares<'a> {
    alloc: Global,
    shares: Vec<Mutex<Share<'a>>>,
    ahead: WorkAhead,
}

impl<'a> Shares<'a> {
    ghost use Rattle.std.specs.Prelude.{IfOk, IsTrue};
    ghost use Rattle.book_json.specs.ReadsOn.{IsFurther};

    /// These shares, none of which is read.
    pub(crate) fn new(alloc: Global, shares: Vec<Share<'a>>) -> Result<Shares<'a>, AllocError> {
        let mut locked = Vec::new(alloc);
        locked.reserve(shares.len())?;
        for share in shares {
            locked.push(Mutex::new(share))?;
        }
        Ok(Shares {
            alloc,
            shares: locked,
            ahead: WorkAhead::new(AHEAD),
        })
    }

    /// Adds all shares to what a reader has read, one after another, while other threads read those behind. Returns whether all were as
    /// they are written.
    pub(crate) fn add_to<R: Threads + Wait + Sync>(
        &self,
        rt: &R,
        reader: &mut BookReader<'_>,
    ) -> Result<bool, AllocError>
        ensures { IfOk result (λ are_added. IsTrue are_added → IsFurther reader.old reader.new) }
    {
        if self.shares.len() < 2 {
            return self.add_each(rt, reader);
        }
        with_help(
            rt,
            self,
            &mut || -> Result<bool, AllocError>
                ensures { IfOk result (λ are_added. IsTrue are_added → IsFurther reader.entry.now reader.exit.now) }
            { self.add_each(rt, reader) },
        )
    }

    // Adds the shares, one after another. Returns whether all were as they are written.
    fn add_each<R: Wait>(&self, rt: &R, reader: &mut BookReader<'_>) -> Result<bool, AllocError>
        ensures { IfOk result (λ are_added. IsTrue are_added → IsFurther reader.old reader.new) }
    {
        for number in 0..self.shares.len() {
            let Some(share) = self.take(rt, number)? else {
                return Ok(false);
            };
            if !reader.add(&share)? {
                return Ok(false);
            }
        }
        Ok(true)
    }

    // What is read of the share of this number. While another thread reads it, this one reads others.
    fn take<R: Wait>(&self, rt: &R, number: usize) -> Result<Option<ReadShare<'a>>, AllocError> {
        let Some(share) = self.shares.get(number) else {
            return Ok(None);
        };
        let mut share = lock_meanwhile(rt, share, &|| self.read_next(rt));
        self.ahead.end_piece(number);
        share.take(self.alloc)
    }

    // Reads the next share that nobody reads. Returns whether there was one.
    fn read_next<R: Wait>(&self, rt: &R) -> bool {
        match self.ahead.try_draw() {
            Some(number) => self.read(rt, number),
            None => false,
        }
    }

    // Reads the share of this number, if it is still needed. Returns whether there is one.
    fn read<R: Wait>(&self, rt: &R, number: usize) -> bool {
        let Some(share) = self.shares.get(number) else {
            return false;
        };
        let mut share = share.lock(rt);
        if self.ahead.is_needed(number) {
            share.read(self.alloc);
        }
        true
    }
}

impl Help for Shares<'_> {
    // Reads shares ahead, one after another, as long as there are any.
    fn help<R: Threads + Wait + Sync>(&self, rt: &R) {
        for _ in rt.forever() {
            let number = self.ahead.draw();
            if number < self.shares.len() {
                self.ahead.await_room(rt, number);
            }
            if !self.read(rt, number) {
                return;
            }
        }
    }

    fn close(&self) {
        self.ahead.close();
    }
}
