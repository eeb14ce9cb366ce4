ghost use Rattle.std.specs.Prelude.{◌≡◌, ◌∷◌, [], ◌++◌, List, IfOk, OnOk, map};
ghost use Rattle.issuer_rows.specs.declared.frame.Frame.{Frame};
ghost use Rattle.file_laws.specs.Frames.{AreFramesOf};
ghost use Rattle.log_replay.specs.Blocks.{AreBlocksOf};
ghost use Rattle.log_replay.specs.Gathering.{Gathers, HasGathered, full_blocks};

use crate::copying::push_copy;
use file_laws::frame_of;
use issuer_rows::Frame;
use log_file::Bodies;
use std::alloc::{AllocError, Global};
use std::mem;

// How many messages a block has.
const FULL: usize = 65_536;

/// Messages that are gathered in blocks.
#[derive(Drop)]
pub(crate) struct Gathering {
    blocks: Vec<Vec<Frame>>,
    // Those that wait until their block is full.
    block: Vec<Frame>,
}

impl Gathering {
    /// None was gathered yet.
    pub(crate) fn new(alloc: Global) -> Gathering
        ensures { HasGathered [] result }
    {
        Gathering {
            blocks: Vec::new(alloc),
            block: Vec::new(alloc),
        }
    }

    // Puts the block under way behind the others.
    fn close(&mut self, alloc: Global) -> Result<(), AllocError>
        ensures blocks { OnOk result (full_blocks self.new ≡ full_blocks self.old ++ self.old.block.items ∷ []) }
        ensures empty { OnOk result (self.new.block.items ≡ []) }
    {
        let block = mem::replace(&mut self.block, Vec::new(alloc));
        self.blocks.push(block)?;
        Ok(())
    }

    // Gathers one message more.
    fn take(&mut self, alloc: Global, frame: &Frame) -> Result<(), AllocError>
        ensures { OnOk result (Gathers self.old self.new (frame.now ∷ [])) }
    {
        push_copy(&mut self.block, frame)?;
        if self.block.len() < FULL {
            return Ok(());
        }
        self.close(alloc)
    }

    /// Gathers the messages that these bodies spell.
    pub(crate) fn take_bodies(&mut self, alloc: Global, bodies: &Bodies) -> Result<(), AllocError>
        ensures { OnOk result ((more : List Frame) × AreFramesOf bodies.now more × Gathers self.old self.new more) }
    {
        let mut left = bodies.iter();
        for _ in 0..bodies.len() {
            let Some(body) = left.next() else {
                unreachable!();
            };
            let frame = frame_of(body);
            self.take(alloc, &frame)?;
        }
        Ok(())
    }

    /// The blocks; the last one may be shorter.
    pub(crate) fn into_blocks(self, alloc: Global) -> Result<Vec<Vec<Frame>>, AllocError>
        ensures { IfOk result (λ blocks. (messages : List Frame) → HasGathered messages self → AreBlocksOf messages (map (λ block. block.items) blocks.items)) }
    {
        let mut gathering = self;
        if gathering.block.is_empty() {
            return Ok(gathering.blocks);
        }
        gathering.close(alloc)?;
        Ok(gathering.blocks)
    }
}
