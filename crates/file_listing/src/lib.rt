//! Files as lines of text: what a batch or a file of replies holds; the bodies of a text in hexadecimal; those of a batch or of blocks as such
//! a text, which is packed into the file again; and where the first fault of a file of bodies stands.
#![tactic(auto)]

mod batch_place;
mod block_place;
mod blocks;
mod blocks_place;
mod bodies;
mod body_kind;
mod body_place;
mod cutting;
mod fields;
mod frame_lines;
mod head;
mod head_fault;
mod laws;
mod lines;
mod listing_fault;
mod one_body;
mod reply_lines;
mod search_batches;
mod search_blocks;
mod search_bodies;
mod search_fields;
mod search_heads;
mod search_unread;
mod unread_body;
mod writing;
mod wrong_block;
mod wrong_body;

pub use batch_place::BatchPlace;
pub use block_place::BlockPlace;
pub use blocks::texts_of_blocks;
pub use blocks_place::BlocksPlace;
pub use bodies::{body_of_digits, read_bodies};
pub use body_kind::BodyKind;
pub use body_place::BodyPlace;
pub use cutting::bodies_of_batch;
pub use frame_lines::frame_line;
pub use head_fault::HeadFault;
pub use laws::{lines_are_packed_again, texts_are_packed_again};
pub use lines::{line_of_body, lines_of_batch};
pub use listing_fault::ListingFault;
pub use reply_lines::reply_line;
pub use search_batches::{place_in_batch, place_in_replies};
pub use search_blocks::{place_in_block_replies, place_in_blocks};
pub use search_unread::first_unread;
pub use unread_body::UnreadBody;
pub use wrong_block::WrongBlock;
pub use wrong_body::WrongBody;
