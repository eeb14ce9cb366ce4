use crate::history::Trace;
use host_serving::HostFault;

/// One of several links, and what serving it came to.
#[derive(Drop)]
pub struct Seat<I, O> {
    pub(crate) source: I,
    pub(crate) sink: O,
    pub(crate) fault: Option<HostFault>,
    // Its own turns, once it was served.
    pub(crate) seen: Option<SeenTurns>,
}

/// What a link has seen of the history, and how many turns of that are its own.
#[derive(Drop)]
pub struct SeenTurns {
    pub(crate) trace: Trace,
    pub(crate) count: u64,
}

impl<I: Drop, O: Drop> Seat<I, O> {
    ghost use Rattle.std.specs.Prelude.{◌≡◌, None};

    /// A link that is read from this source and answered on this sink. Nothing has come yet.
    pub fn new(source: I, sink: O) -> Seat<I, O>
        ensures source { result.source ≡ source }
        ensures sink { result.sink ≡ sink }
        ensures fault { result.fault ≡ None }
    {
        Seat {
            source,
            sink,
            fault: None,
            seen: None,
        }
    }

    /// The fault with which serving it stopped, if it did.
    pub fn fault(&self) -> Option<HostFault>
        ensures { result ≡ self.now.fault }
    {
        self.fault
    }

    /// What it is answered on.
    pub fn sink(&self) -> &O
        ensures { result.now ≡ self.now.sink }
    {
        &self.sink
    }
}
