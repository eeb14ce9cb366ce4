//! A live host: bodies of a link become entries of a log, are decided on the book in memory, and are answered once their entry is synced;
//! network management is answered by the link itself. What the host tells people meanwhile, as lines.
#![tactic(auto)]

mod answering;
mod decider;
mod decoding;
mod host;
mod host_fault;
mod lines;
mod max_batch;
mod serving;
mod stats_interval;
mod taking;
mod tally;
mod teller;
mod together;
mod turn;
mod unwatched;
mod watch;

pub use answering::answer;
pub use decider::Decider;
pub use host::Host;
pub use host_fault::HostFault;
pub use max_batch::MaxBatch;
pub use stats_interval::StatsInterval;
pub use taking::take_turn;
pub use tally::Tally;
pub use teller::Teller;
pub use turn::Turn;
pub use unwatched::Unwatched;
pub use watch::Watch;
