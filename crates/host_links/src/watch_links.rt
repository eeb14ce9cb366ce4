use host_serving::{HostFault, Unwatched, Watch};

/// Whoever is told what stands in the log of a host, and with which faults its links stop.
pub trait WatchLinks: Watch {
    /// Tells that this link stopped with a fault: one of its own, or the first of the log or of memory.
    fn link_stopped(&mut self, link: usize, fault: &HostFault);
}

impl WatchLinks for Unwatched {
    fn link_stopped(&mut self, _link: usize, _fault: &HostFault) {}
}
