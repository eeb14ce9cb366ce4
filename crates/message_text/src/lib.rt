//! Messages of ISO 8583:1993 as people write and read them: from words, the type and then an element's name and value each; and messages
//! and replies as lines of JSON, objects of their elements by the same names.
#![tactic(auto)]

mod bitmap;
mod body;
mod element_value;
mod given;
mod has_elements;
mod lines;
mod make_fault;
mod members;
mod message_values;
mod names;
mod place;
mod reply_values;
mod spelling;
mod texts;
mod transaction_values;
mod types;
mod words;
mod writing;

pub use body::body_of_words;
pub use given::Given;
pub use lines::{frame_line, reply_line};
pub use make_fault::MakeFault;
pub use members::{put_frame, put_reply};
pub use names::{element_named, element_numbered, elements, name_of};
pub use place::Place;
