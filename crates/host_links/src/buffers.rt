use host_serving::Turn;
use link_frames::ReplyWriter;
use std::alloc::Global;

/// Memory for a link's turns: what came in the last one, and what is to be written for it.
#[derive(Drop)]
pub struct LinkBuffers {
    pub(crate) turn: Turn,
    pub(crate) writer: ReplyWriter,
    pub(crate) replies: Vec<u8>,
}

impl LinkBuffers {
    /// Nothing has come yet. It takes memory once something has.
    pub fn new(alloc: Global) -> LinkBuffers {
        LinkBuffers {
            turn: Turn::new(alloc),
            writer: ReplyWriter::new(alloc),
            replies: Vec::new(alloc),
        }
    }
}
