//! What the split engine's workers share: the messages that are committed, in order, and how many of them the workers are notified of; and
//! the rows that executions wrote, in shards with a lock each, as the messages see them.
#![tactic(auto)]

mod abort_outcome;
mod agreement;
mod attempt;
mod commit_outcome;
mod cursors;
mod frames;
mod ledger;
mod look;
mod message_slot;
mod message_stage;
mod published;
mod rule;
mod seat_view;
mod shard_of;
mod shard_rows;
mod shards;
mod shared_originals;
mod sight;
mod steps;

pub use abort_outcome::AbortOutcome;
pub use attempt::Attempt;
pub use commit_outcome::CommitOutcome;
pub use cursors::Cursors;
pub use ledger::Ledger;
pub use look::Look;
pub use message_slot::MessageSlot;
pub use message_stage::MessageStage;
pub use published::Published;
pub use rule::CursorRule;
pub use seat_view::{CursorSeat, SeatView};
pub use shard_rows::ShardRows;
pub use shards::Shards;
pub use sight::Sight;
