//! Messages and replies of ISO 8583:1993 from bytes and into bytes.
#![tactic(auto)]

mod bitmap;
mod decoding;
mod fields;
mod header;
mod message;
mod reply;
mod side;
mod texts;
mod types;
mod value_test;
mod values;

pub use decoding::{decode, decode_reply};
pub use iso_encoder::{ROOM, encode, encode_reply, mti_text};
pub use types::mti_taken_in;
pub use value_test::is_text_of;
