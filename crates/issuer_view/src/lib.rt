//! One decision: the rows that it reads and writes are recorded, so that it is known on which books it is true.
#![tactic(auto)]

mod decide;
mod execution;
mod inline_rows;
mod read_set;
mod recorder;
mod row_source;
mod spilled_rows;
mod stop;
mod write_set;

pub use decide::Decide;
pub use execution::{Execution, execute};
pub use read_set::ReadSet;
pub use recorder::Recorder;
pub use row_source::RowSource;
pub use stop::Stop;
pub use write_set::WriteSet;
