//! Decides a batch on several threads that share no one lock (Block-STM). Rows and messages have locks of their own, three words are
//! shared without any, and what is committed is the first worker's alone.
#![tactic(auto)]

mod alone;
mod board;
mod cost_probe;
mod exit;
mod leader;
mod leader_ledger;
mod leading;
mod run_brand;
mod running;
mod together;
mod turns;
mod worker_state;

pub use running::run_split;
