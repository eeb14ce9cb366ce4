//! What the program does for `switch serve`: a live host is opened, and serves standard input and output, or named pipes. What its log means to
//! its clients, and what a replay of it means to whoever ran the host, as laws.
#![tactic(auto)]

mod again;
mod ahead;
mod asked_links;
mod asking;
mod choices;
mod help;
mod laws;
mod link_names;
mod links_teller;
mod links_words;
mod logs;
mod opened;
mod opening;
mod opening_fault;
mod pipes;
mod replaying;
mod serve_fault;
mod serving;
mod serving_links;
mod settings;
mod settings_words;
mod telling;

pub use asked_links::AskedLinks;
pub use asking::{HostAsked, host_asked};
pub use choices::Choices;
pub use help::SERVE_HELP;
pub use laws::{a_host_stays_behind_its_log, a_repeat_after_any_restart_is_safe, replies_go_on};
pub use link_names::LinkNames;
pub use links_teller::LinksTeller;
pub use links_words::links_asked;
pub use logs::{HostLogs, Logs};
pub use opened::Opened;
pub use opening::open_host;
pub use opening_fault::OpeningFault;
pub use pipes::{PipeSink, PipeSource};
pub use replaying::a_replay_gives_what_the_host_gave;
pub use serve_fault::ServeFault;
pub use serving::serve;
pub use serving_links::serve_links;
pub use settings::Settings;
pub use telling::words_of_opening;
