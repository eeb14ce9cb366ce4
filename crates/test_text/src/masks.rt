//! Masked card numbers, and how bodies begin.

use iso_shown::{MaskedPan, Opening, opening_of};
use iso8583::Pan;
use std::alloc::Global;

/// Card numbers, and what is shown of each.
const SHOWN: &[(&[u8], &str)] = &[
    (b"411111000004", "411111**0004"),
    (b"4111110000000004", "411111******0004"),
    (b"4111110000000000004", "411111*********0004"),
];

/// Bodies, and how each begins.
const OPENINGS: &[(&[u8], Option<Opening>)] = &[
    (b"1100", Some(Opening::Mti)),
    (b"0800", Some(Opening::Mti)),
    (b"110", None),
    (b"1900", None),
    (b"\x00\x041100", Some(Opening::LengthHeader)),
    (b"\x00\x051100", None),
    (b"\x60\x00\x01\x00\x001100", Some(Opening::Tpdu)),
    (b"\x60\x00\x01\x00\x00\x11\x00", Some(Opening::Tpdu)),
    (b"\xf1\xf1\xf0\xf0", Some(Opening::Ebcdic)),
    (b"\x11\x00", Some(Opening::Bcd)),
    (b"\x00\x11", None),
    (b"<?xml", None),
];

/// Whether this is shown of the card number.
fn is_shown(alloc: Global, digits: &[u8], text: &str) -> bool {
    let Some(pan) = Pan::new(digits) else {
        return false;
    };
    match MaskedPan::new(pan).to_string(alloc) {
        Ok(shown) => shown.as_str() == text,
        Err(_) => false,
    }
}

#[test]
fn the_middle_of_a_card_number_is_hidden(rt: HostRuntime) {
    for (digits, text) in SHOWN {
        assert!(rt; is_shown(rt.alloc(), digits, text), "{text}");
    }
}

#[test]
fn bodies_begin_so(rt: HostRuntime) {
    for (body, opening) in OPENINGS {
        assert!(rt; opening_of(body) == *opening, "{body:?}");
    }
}
