//! The host's files: what is written stands beside its name until it is put in place.

mod beside;
mod claim;
mod files;
mod identity;
mod output;
mod target;

pub use claim::HostClaim;
pub use files::HostFiles;
pub use output::HostOutput;
