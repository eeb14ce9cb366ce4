//! Bodies from hexadecimal text.

use file_listing::{ListingFault, read_bodies};
use std::alloc::Global;

// Texts and their bodies: empty lines and comments are passed over, a text without lines has none, and the last line may have
// no end.
const TEXTS: &[(&str, &[&str])] = &[
    ("# two bodies\n31\n\n#\n3a3B\n", &["1", ":;"]),
    ("", &[]),
    ("31", &["1"]),
];

fn has_bodies(alloc: Global, text: &str, bodies: &[&str]) -> bool {
    match read_bodies(alloc, text.as_bytes()) {
        Ok(read) => are_same(&read, bodies),
        Err(_) => false,
    }
}

fn are_same(read: &[Vec<u8>], bodies: &[&str]) -> bool {
    for (one, body) in read.iter().zip(bodies) {
        if one.as_slice() != body.as_bytes() {
            return false;
        }
    }
    read.len() == bodies.len()
}

#[test]
fn bodies_are_read(rt: HostRuntime) {
    for (text, bodies) in TEXTS {
        assert!(rt; has_bodies(rt.alloc(), text, bodies), "{text}");
    }
}

// Texts, and the number of the first line that is wrong.
const WRONG: &[(&str, usize)] = &[
    ("3", 1),
    ("31\n3\n4", 2),
    ("31\n\n 31", 3),
    ("31 \n", 1),
    ("31\r\n", 1),
    ("# \n3g", 2),
];

fn wrong_line(alloc: Global, text: &str) -> Option<usize> {
    match read_bodies(alloc, text.as_bytes()) {
        Err(ListingFault::Line(line)) => Some(line),
        _ => None,
    }
}

#[test]
fn the_first_wrong_line_is_named(rt: HostRuntime) {
    for (text, line) in WRONG {
        assert!(rt; wrong_line(rt.alloc(), text) == Some(*line), "{text}");
    }
}
