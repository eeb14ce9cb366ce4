//! Messages as texts: what the program does for `switch make`, a message from words; for `switch pack`, a batch or blocks from a text; for
//! `switch unpack`, the bodies as a text again; and for `switch show`, a file as lines for people or of JSON.
#![tactic(auto)]

mod block_fault;
mod block_packing;
mod block_unpacking;
mod block_writing;
mod help;
mod laws;
mod listing;
mod make_asking;
mod make_words;
mod making;
mod opening;
mod packing;
mod placing;
mod show_asking;
mod show_help;
mod show_telling;
mod showing;
mod unpack_asking;
mod unpack_telling;
mod unpacking;

pub use block_fault::BlockFault;
pub use block_packing::pack_blocks;
pub use block_unpacking::unpack_block;
pub use help::{MAKE_HELP, UNPACK_HELP};
pub use laws::packed_blocks_are_read;
pub use make_asking::{MakeAsked, make_asked};
pub use making::answer_make;
pub use packing::pack_batch;
pub use show_asking::{ShowAsked, show_asked};
pub use show_help::SHOW_JSON_HELP;
pub use show_telling::answer_show;
pub use showing::show_file;
pub use unpack_asking::{UnpackAsked, unpack_asked};
pub use unpack_telling::answer_unpack;
pub use unpacking::unpack;
