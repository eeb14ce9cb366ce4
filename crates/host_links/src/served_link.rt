use crate::buffers::LinkBuffers;
use crate::history::Front;
use crate::naming::Naming;
use link_frames::LinkReader;
use std::alloc::{AllocError, Global};

/// What a thread has that serves one of several links: its reader and its memory, and what it has seen of the history.
#[derive(Drop)]
pub(crate) struct ServedLink<J: Naming> {
    pub(crate) reader: LinkReader,
    pub(crate) buffers: LinkBuffers,
    pub(crate) front: Front<J>,
    // How many turns of the front are the link's own.
    pub(crate) count: u64,
}

impl<J: Naming> ServedLink<J> {
    ghost use Rattle.std.specs.Prelude.{◌≡◌, IfOk, []};
    ghost use Rattle.host_links.specs.Fresh.{IsFresh};

    /// Nothing has come on it yet. Memory can run out.
    pub(crate) fn new(alloc: Global, front: &Front<J>) -> Result<ServedLink<J>, AllocError>
        requires { front.now ≡ [] }
        ensures { IfOk result (λ state. IsFresh state) }
    {
        Ok(ServedLink {
            reader: LinkReader::new(alloc)?,
            buffers: LinkBuffers::new(alloc),
            front: front.again(),
            count: 0,
        })
    }
}
