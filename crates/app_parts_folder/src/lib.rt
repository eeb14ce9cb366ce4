//! The folder of a batch in parts: which files it has, what they hold, and how they are opened, made and written. Beside books and batches
//! these are the plan, and what says that a part is decided.
#![tactic(auto)]

mod apart;
mod batch_in_parts;
mod bodies;
mod decided;
mod fields;
mod join_names;
mod laws;
mod listed;
mod making;
mod most_parts;
mod named_text;
mod names;
mod part_count;
mod part_digests;
mod part_fault;
mod part_file;
mod part_names;
mod parts_fault;
mod plan_file;
mod plan_opening;
mod plan_reading;
mod plan_writing;
mod planning;
mod putting;
mod reading;

pub use apart::{check_joined, check_outside, check_outside_parts, check_written_apart};
pub use batch_in_parts::BatchInParts;
pub use bodies::replies_text;
pub use decided::{behind_decided_head, decided_text};
pub use join_names::JoinNames;
pub use laws::a_text_is_of_one_plan;
pub use making::make_folder;
pub use most_parts::MostParts;
pub use named_text::NamedText;
pub use names::{part_name, plan_name, rest_name};
pub use part_count::PartCount;
pub use part_digests::PartDigests;
pub use part_fault::PartFault;
pub use part_file::PartFile;
pub use part_names::PartNames;
pub use parts_fault::PartsFault;
pub use plan_file::PlanFile;
pub use plan_opening::{OpenPlan, open_part_file, open_plan, open_planned};
pub use plan_reading::read_plan;
pub use plan_writing::plan_text;
pub use planning::plan_batch;
pub use putting::put_texts;
pub use reading::{digest_of, read_text};
