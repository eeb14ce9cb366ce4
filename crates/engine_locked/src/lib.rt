//! Decides a batch through the speculative core, on several threads (Block-STM).
#![tactic(auto)]

mod alone;
mod core_rows;
mod exit;
mod running;
mod traced_rows;
mod turns;
mod validating;

pub use core_rows::CoreRows;
pub use running::{run, run_traced, run_with_limits};
