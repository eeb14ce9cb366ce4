//! The grammar of ISO 8583:1993 messages in this profile: elements, types, spellings and reading, with their laws.
#![tactic(auto)]

mod class;
mod element;
mod laws;
mod mti;
mod rule;
mod shape;

pub use class::Class;
pub use element::Element;
pub use laws::{
    names_a_secondary_bitmap, names_a_trailing_byte, names_an_unknown_type,
    names_the_first_wrong_element, names_the_least_missing, names_the_least_unexpected,
    no_message_begins_another, no_reply_begins_another,
};
pub use mti::{COMMON, Mti};
pub use rule::Rule;
pub use shape::Shape;
