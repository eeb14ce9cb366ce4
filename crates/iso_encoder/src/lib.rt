//! Messages and replies of ISO 8583:1993 into bytes.
#![tactic(auto)]

mod encoding;
mod parts;
mod values;
mod writer;

pub use encoding::{encode, encode_reply, mti_text};
pub use writer::ROOM;
