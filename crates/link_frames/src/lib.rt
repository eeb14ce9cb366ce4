//! Links: bodies that come in frames, and replies in frames, over sources and sinks that can fail; network management, which the link answers
//! itself (ISO 8583:1993: 1804 and 1814); and links that a thread of its own reads ahead.
#![tactic(auto)]

mod ahead;
mod buffer;
mod ends;
mod frames;
mod front;
mod last;
mod laws;
mod link;
mod link_fault;
mod network_answering;
mod network_decoding;
mod network_function;
mod network_message;
mod network_request;
mod reader;
mod reading;
mod replies;
mod signals;
mod waiting;
mod writing;

pub use ahead::Ahead;
pub use ends::ends_of_link;
pub use front::{Front, front_of};
pub use laws::{a_link_is_read_in_one_way, answers_are_in_order};
pub use link::Link;
pub use link_fault::LinkFault;
pub use network_answering::add_network_reply;
pub use network_decoding::decode_network;
pub use network_function::NetworkFunction;
pub use network_message::NetworkMessage;
pub use network_request::NetworkRequest;
pub use reader::LinkReader;
pub use reading::Reading;
pub use replies::ReplyWriter;
pub use signals::Signals;
pub use writing::put_all;
