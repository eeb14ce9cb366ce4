//! A book and a batch in parts that share no row, and put together again: which rows each part's book has, what is left to the rest, and
//! that parts which are decided apart, by whatever decides one message after another, are the whole batch.
#![tactic(auto)]

mod joining_books;
mod joining_replies;
mod keys;
mod making_parts;
mod making_rest;
mod part_book_laws;

pub use joining_books::join_books;
pub use joining_replies::join_replies;
pub use making_parts::{book_for, part_book, part_books};
pub use making_rest::rest_book;
pub use part_book_laws::{
    each_book_is_sound, each_row_has_its_place, parts_make_the_whole, replies_have_one_order,
    rows_are_enough,
};
