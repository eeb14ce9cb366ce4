use host_serving::Host;

/// A live host, and what its log had as it was opened.
#[derive(Drop)]
pub struct Opened<G> {
    /// The host: its book is the one after the messages of its log.
    pub host: Host<G>,
    /// How many entries the log had, whose messages were decided again.
    pub entries: u64,
    /// How many bytes the torn tail had that was cut; 0 where there was none.
    pub torn: u64,
}
