//! Values: card numbers of which it is known whether they pass the Luhn test, and what faults print.

use iso8583::{CodecFault, Pan, luhn};
use std::alloc::Global;

/// Numbers of cards, and whether they pass.
const NUMBERS: &[(&[u8], bool)] = &[
    (b"4111110000000005", true),
    (b"4111110000000013", true),
    (b"4111110000000004", false),
];

/// Whether the number passes; nothing of what is no number.
fn passes(digits: &[u8]) -> Option<bool> {
    match Pan::new(digits) {
        Some(pan) => Some(luhn(&pan)),
        None => None,
    }
}

/// Faults, and what they print.
const PRINTED: &[(CodecFault, &str)] = &[
    (CodecFault::Short(49), "too few bytes for element 49"),
    (CodecFault::BadMti, "unknown message type"),
    (CodecFault::SecondaryBitmap, "secondary bitmap"),
    (CodecFault::Unexpected(5), "unexpected element 5"),
    (CodecFault::Missing(49), "missing element 49"),
    (CodecFault::BadLength(2), "bad length of element 2"),
    (CodecFault::BadCharacter(4), "bad character in element 4"),
    (CodecFault::Trailing, "bytes after the last element"),
    (CodecFault::BadValue(12), "bad value of element 12"),
    (CodecFault::OutOfMemory, "out of memory"),
];

/// Whether the fault prints so.
fn prints(alloc: Global, fault: CodecFault, text: &str) -> bool {
    match fault.to_string(alloc) {
        Ok(printed) => printed.as_str() == text,
        Err(_) => false,
    }
}

#[test]
fn luhn_and_what_faults_print(rt: HostRuntime) {
    for (digits, expected) in NUMBERS {
        assert!(rt; passes(digits) == Some(*expected), "of {digits:?}");
    }
    for (fault, text) in PRINTED {
        assert!(rt; prints(rt.alloc(), *fault, text), "{text}");
    }
}
