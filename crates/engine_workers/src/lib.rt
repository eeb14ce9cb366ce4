//! How a batch is to be decided: by how many workers, and by which engine; the hook that both engines call round decisions; and how a
//! worker takes a lock and backs off.
#![tactic(auto)]

mod backoff;
mod engine;
mod hook;
mod locking;
mod workers;

pub use backoff::Backoff;
pub use engine::Engine;
pub use hook::{Hook, NoHook};
pub use locking::lock;
pub use workers::Workers;
