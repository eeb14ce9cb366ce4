use host_serving::{Host, HostFault};

/// What serving links at one host came to.
#[derive(Drop)]
pub struct LinksOutcome<G, N> {
    /// The host behind all turns: its log has the entries of them.
    pub host: Host<G>,
    /// Whoever was told.
    pub watch: N,
    /// The fault of the log or of memory with which a turn stopped, if one did. Each link stopped with it at its next turn.
    pub fault: Option<HostFault>,
    /// Whether each link has seen all its own turns, as the host counted them.
    pub has_all: bool,
}
