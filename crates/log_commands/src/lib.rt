//! What the program does for `switch replay` and `switch audit-log`: the next day's book and the replies of a log. It is read where no host
//! writes it.
#![tactic(auto)]

mod answering;
mod apart;
mod asking;
mod audit_report;
mod auditing;
mod claiming;
mod command_fault;
mod help;
mod host_locked_log;
mod locked_input;
mod locked_log;
mod locked_logs;
mod log_names;
mod log_replay_files;
mod placing;
mod replaying;
mod telling;
mod written_log;

pub use asking::{LogAsked, audit_log_asked, replay_asked};
pub use audit_report::audit_log;
pub use auditing::audit_log_files;
pub use command_fault::CommandFault;
pub use help::{AUDIT_LOG_HELP, REPLAY_HELP};
pub use host_locked_log::{HostLockedLog, HostLockedLogs};
pub use locked_input::LockedInput;
pub use locked_log::LockedLog;
pub use locked_logs::LockedLogs;
pub use log_names::LogNames;
pub use log_replay_files::{ReplayedFiles, replay_files};
pub use replaying::replay;
