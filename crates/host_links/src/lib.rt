//! A live host that several links share: each link is served by a thread of its own, and takes its turns at the host one after another.
#![tactic(auto)]

mod buffers;
mod ends;
mod history;
mod laws;
mod link_server;
mod link_turn;
mod links;
mod links_outcome;
mod naming;
mod seat;
mod served_link;
mod shared_host;
mod turning;
mod watch_links;

pub use buffers::LinkBuffers;
pub use ends::{LinkSink, LinkSource};
pub use history::{Came, Front, History, Opened, Trace};
pub use laws::{turns_go_on, turns_of_others_change_nothing};
pub use link_turn::LinkTurn;
pub use links::serve_links;
pub use links_outcome::LinksOutcome;
pub use naming::{Before, Naming};
pub use seat::{Seat, SeenTurns};
pub use shared_host::SharedHost;
pub use watch_links::WatchLinks;
