//! Each fault that each element of each type can have.

use crate::forms::{Form, SECOND_BITMAP, form_at, forms};
use iso_codec::{decode, decode_reply};
use iso8583::CodecFault;

/// Whether a text is refused so, as a message or as a reply.
fn is_refused(form: &Form, text: &[u8], fault: CodecFault) -> bool {
    if form.is_reply() {
        matches!(decode_reply(text), Err(found) if found == fault)
    } else {
        matches!(decode(text), Err(found) if found == fault)
    }
}

/// An element's number, how it is spelled, and the fault of that.
type Spelling = (u8, &'static [u8], CodecFault);

/// A form by its place, and a fault that a text of it should have and has not.
type Missed = Option<(usize, CodecFault)>;

/// Wrong spellings of each element, in every form that has it, and the fault of each.
const SPELLINGS: &[Spelling] = &[
    (2, b"114111110000000", CodecFault::BadLength(2)),
    (2, b"2041111100000000000005", CodecFault::BadLength(2)),
    (2, b"1x4111110000000005", CodecFault::BadLength(2)),
    (2, b"x64111110000000005", CodecFault::BadLength(2)),
    (2, b"16x111110000000005", CodecFault::BadCharacter(2)),
    (2, b"16411111000000000 ", CodecFault::BadCharacter(2)),
    (3, b"00000x", CodecFault::BadCharacter(3)),
    (4, b"00000000010x", CodecFault::BadCharacter(4)),
    (7, b"011012000x", CodecFault::BadCharacter(7)),
    (11, b"00000x", CodecFault::BadCharacter(11)),
    (12, b"26011012000x", CodecFault::BadCharacter(12)),
    (12, b"260010120000", CodecFault::BadValue(12)),
    (12, b"261310120000", CodecFault::BadValue(12)),
    (12, b"260100120000", CodecFault::BadValue(12)),
    (12, b"260132120000", CodecFault::BadValue(12)),
    (12, b"260110240000", CodecFault::BadValue(12)),
    (12, b"260110126000", CodecFault::BadValue(12)),
    (12, b"260110120060", CodecFault::BadValue(12)),
    (24, b"10x", CodecFault::BadCharacter(24)),
    (
        30,
        b"x00000000250000000000000",
        CodecFault::BadCharacter(30),
    ),
    (
        30,
        b"00000000025000000000000x",
        CodecFault::BadCharacter(30),
    ),
    (30, b"000000000250000000000001", CodecFault::BadValue(30)),
    (30, b"000000000250100000000000", CodecFault::BadValue(30)),
    (32, b"00", CodecFault::BadLength(32)),
    (32, b"12123456789012", CodecFault::BadLength(32)),
    (32, b"0x123456", CodecFault::BadLength(32)),
    (32, b"0612345x", CodecFault::BadCharacter(32)),
    (37, b"ABC-12345678", CodecFault::BadCharacter(37)),
    (37, b"ABC 1234567\x7F", CodecFault::BadCharacter(37)),
    (38, b"00000-", CodecFault::BadCharacter(38)),
    (39, b"00x", CodecFault::BadCharacter(39)),
    (41, b"TERM000\x1F", CodecFault::BadCharacter(41)),
    (41, b"\x7FERM0001", CodecFault::BadCharacter(41)),
    (49, b"97x", CodecFault::BadCharacter(49)),
    (49, b"EUR", CodecFault::BadCharacter(49)),
    (56, b"24110000000126011012000006", CodecFault::BadLength(56)),
    (
        56,
        b"36110000000126011012000012123456789012",
        CodecFault::BadLength(56),
    ),
    (
        56,
        b"3x110000000126011012000006123456",
        CodecFault::BadLength(56),
    ),
    (
        56,
        b"30x10000000126011012000006123456",
        CodecFault::BadCharacter(56),
    ),
    (
        56,
        b"3011000000012601101200000612345x",
        CodecFault::BadCharacter(56),
    ),
    (
        56,
        b"30111000000126011012000006123456",
        CodecFault::BadValue(56),
    ),
    (
        56,
        b"30142000000126011012000006123456",
        CodecFault::BadValue(56),
    ),
    (
        56,
        b"30110000000126001012000006123456",
        CodecFault::BadValue(56),
    ),
    (
        56,
        b"30110000000126131012000006123456",
        CodecFault::BadValue(56),
    ),
    (
        56,
        b"30110000000126010012000006123456",
        CodecFault::BadValue(56),
    ),
    (
        56,
        b"30110000000126013212000006123456",
        CodecFault::BadValue(56),
    ),
    (
        56,
        b"30110000000126011024000006123456",
        CodecFault::BadValue(56),
    ),
    (
        56,
        b"30110000000126011012600006123456",
        CodecFault::BadValue(56),
    ),
    (
        56,
        b"30110000000126011012006006123456",
        CodecFault::BadValue(56),
    ),
    (
        56,
        b"30110000000126011012000005123456",
        CodecFault::BadValue(56),
    ),
    (
        56,
        b"30110000000126011012000007123456",
        CodecFault::BadValue(56),
    ),
    (
        56,
        b"2911000000012601101200000612345",
        CodecFault::BadValue(56),
    ),
    (56, b"25110000000126011012000000", CodecFault::Short(56)),
    (102, b"00", CodecFault::BadLength(102)),
    (
        102,
        b"2912345678901234567890123456789",
        CodecFault::BadLength(102),
    ),
    (102, b"x1A", CodecFault::BadLength(102)),
    (102, b"02A\x1F", CodecFault::BadCharacter(102)),
];

/// Texts of each element that end too soon, in every form that has it.
const SHORT: &[Spelling] = &[
    (2, b"", CodecFault::Short(2)),
    (2, b"1", CodecFault::Short(2)),
    (2, b"16", CodecFault::Short(2)),
    (2, b"16411111000000000", CodecFault::Short(2)),
    (3, b"00000", CodecFault::Short(3)),
    (4, b"00000000010", CodecFault::Short(4)),
    (7, b"011012000", CodecFault::Short(7)),
    (11, b"00000", CodecFault::Short(11)),
    (12, b"26011012000", CodecFault::Short(12)),
    (24, b"10", CodecFault::Short(24)),
    (30, b"00000000025000000000000", CodecFault::Short(30)),
    (32, b"", CodecFault::Short(32)),
    (32, b"0", CodecFault::Short(32)),
    (32, b"06", CodecFault::Short(32)),
    (32, b"0612345", CodecFault::Short(32)),
    (37, b"ABC 1234567", CodecFault::Short(37)),
    (38, b"00000", CodecFault::Short(38)),
    (39, b"00", CodecFault::Short(39)),
    (41, b"TERM000", CodecFault::Short(41)),
    (49, b"97", CodecFault::Short(49)),
    (56, b"", CodecFault::Short(56)),
    (56, b"3", CodecFault::Short(56)),
    (
        56,
        b"3011000000012601101200000612345",
        CodecFault::Short(56),
    ),
    (102, b"", CodecFault::Short(102)),
    (102, b"1", CodecFault::Short(102)),
    (102, b"16411111000000000", CodecFault::Short(102)),
];

/// Each form that has the element refuses it, spelled so, as the last one or with those that follow it.
fn missed_by_any(spelling: &Spelling, is_last: bool, text: &mut Vec<u8>) -> Missed {
    for (place, form) in forms().iter().enumerate() {
        if form.has(spelling.0)
            && !(form.put_spelled((spelling.0, spelling.1), is_last, text)
                && is_refused(form, text, spelling.2))
        {
            return Some((place, spelling.2));
        }
    }
    None
}

fn missed_spelling(spellings: &[Spelling], is_last: bool, text: &mut Vec<u8>) -> Missed {
    for spelling in spellings {
        let missed = missed_by_any(spelling, is_last, text);
        if missed.is_some() {
            return missed;
        }
    }
    None
}

/// A form, one of its elements spelled otherwise, and the fault that comes of the other elements.
const TOGETHER: &[(usize, Spelling)] = &[
    (4, (24, b"401", CodecFault::Missing(30))),
    (5, (24, b"401", CodecFault::Missing(30))),
    (6, (24, b"400", CodecFault::Unexpected(30))),
    (7, (24, b"400", CodecFault::Unexpected(30))),
    (4, (24, b"402", CodecFault::BadValue(24))),
    (5, (24, b"100", CodecFault::BadValue(24))),
    (6, (24, b"402", CodecFault::BadValue(24))),
    (7, (24, b"399", CodecFault::BadValue(24))),
    (8, (39, b"116", CodecFault::Unexpected(38))),
    (9, (39, b"000", CodecFault::Missing(38))),
    // The fault of 24 comes before that of 30, which comes before that of 32.
    (6, (24, b"40x", CodecFault::BadCharacter(24))),
    (0, (49, b"9780", CodecFault::Trailing)),
    (2, (49, b"9780", CodecFault::Trailing)),
    (
        4,
        (
            56,
            b"301100000001260110120000061234560",
            CodecFault::Trailing,
        ),
    ),
    (
        6,
        (
            56,
            b"301100000001260110120000061234560",
            CodecFault::Trailing,
        ),
    ),
    (8, (49, b"9780", CodecFault::Trailing)),
    (10, (49, b"9780", CodecFault::Trailing)),
    (11, (49, b"9780", CodecFault::Trailing)),
    (12, (102, b"1641111100000000050", CodecFault::Trailing)),
    (16, (102, b"1641111100000000050", CodecFault::Trailing)),
];

/// Whether the form at this place refuses its element spelled so.
fn holds(place: usize, spelling: &Spelling, text: &mut Vec<u8>) -> bool {
    match form_at(place) {
        Some(form) => {
            form.put_spelled((spelling.0, spelling.1), false, text)
                && is_refused(form, text, spelling.2)
        }
        None => false,
    }
}

fn missed_rule(text: &mut Vec<u8>) -> Missed {
    for (place, spelling) in TOGETHER {
        if !holds(*place, spelling, text) {
            return Some((*place, spelling.2));
        }
    }
    None
}

/// Forms, the bytes of a second bitmap that they don't have, and the fault of that.
const SECOND_BITMAPS: &[(&[usize], &[u8], CodecFault)] = &[
    (
        &[0, 1, 2, 3, 4, 5, 6, 7, 8, 9, 10, 11],
        &[0, 0, 0, 0, 0, 0, 0, 0],
        CodecFault::SecondaryBitmap,
    ),
    // A reversal and its reply have no account.
    (
        &[4, 5, 6, 7, 11],
        SECOND_BITMAP,
        CodecFault::Unexpected(102),
    ),
    (&[0], SECOND_BITMAP, CodecFault::Short(102)),
];

/// Whether the form at this place refuses its text with this second bitmap, and nothing else of element 102.
fn refuses_second(place: usize, second: &[u8], fault: CodecFault, text: &mut Vec<u8>) -> bool {
    match form_at(place) {
        Some(form) => form.put_with(false, second, text) && is_refused(form, text, fault),
        None => false,
    }
}

fn missed_by_these(
    places: &[usize],
    second: &[u8],
    fault: CodecFault,
    text: &mut Vec<u8>,
) -> Missed {
    for place in places {
        if !refuses_second(*place, second, fault, text) {
            return Some((*place, fault));
        }
    }
    None
}

fn missed_second_bitmap(text: &mut Vec<u8>) -> Missed {
    for (places, second, fault) in SECOND_BITMAPS {
        let missed = missed_by_these(places, second, *fault, text);
        if missed.is_some() {
            return missed;
        }
    }
    None
}

/// Elements that forms have or not by another rule than the bitmap's: 102 is there with its eight bytes, and bit 1 says so.
fn is_optional(form: &Form, number: u8) -> bool {
    match number {
        1 => form.has(102),
        37 | 102 => true,
        30 => form.has(56),
        38 => form.is_request_reply(),
        _ => false,
    }
}

/// The fault of a form with one bit of its bitmap changed. Behind bit 1 alone the elements are read as a second bitmap.
fn fault_of_bit(form: &Form, number: u8) -> CodecFault {
    if number == 1 {
        CodecFault::Unexpected(67)
    } else if form.has(number) {
        CodecFault::Missing(number)
    } else {
        CodecFault::Unexpected(number)
    }
}

/// Whether the form's text with one bit of its bitmap changed is refused so.
fn refuses_bit(form: &Form, number: u8, fault: CodecFault, text: &mut Vec<u8>) -> bool {
    let is_put = form.put(true, text);
    let bit = number.saturating_sub(1);
    if let Some(byte) = text.get_mut(4 + usize::from(bit / 8)) {
        *byte ^= 0x80 >> (bit % 8);
    }
    is_put && is_refused(form, text, fault)
}

/// A bit that can be changed.
fn missed_bit(form: &Form, text: &mut Vec<u8>) -> Option<CodecFault> {
    let end = if form.has(102) { 129 } else { 65 };
    for number in 1..end {
        let fault = fault_of_bit(form, number);
        if !is_optional(form, number) && !refuses_bit(form, number, fault, text) {
            return Some(fault);
        }
    }
    None
}

/// Whether the form refuses each text that ends in its bitmaps.
fn refuses_headers(form: &Form, text: &mut Vec<u8>) -> bool {
    text.clear();
    let is_put = form.put_header(true, form.second(), text).is_ok();
    for size in 0..text.len() {
        if !is_refused(form, &text[..size], CodecFault::Short(0)) {
            return false;
        }
    }
    is_put
}

fn missed_header(text: &mut Vec<u8>) -> Missed {
    for (place, form) in forms().iter().enumerate() {
        if let Some(fault) = missed_bit(form, text) {
            return Some((place, fault));
        }
        if !refuses_headers(form, text) {
            return Some((place, CodecFault::Short(0)));
        }
    }
    None
}

/// Bytes of a request from a place on, and the fault that comes first.
const ORDER: &[(usize, &[u8], CodecFault)] = &[
    (0, b"1102", CodecFault::BadMti),
    (0, b"1110\xF2", CodecFault::BadMti),
    // Bit 1 before eight zeros, before element 5, which is not of the type.
    (
        4,
        b"\xFA\x30\x01\x01\x08\x80\x80\0\0\0\0\0\0\0\0\0",
        CodecFault::SecondaryBitmap,
    ),
    // Element 5, before element 67 of what is then read as a second bitmap.
    (4, b"\xFA", CodecFault::Unexpected(5)),
    // Element 5, before element 2, which is not there.
    (4, b"\x3A", CodecFault::Unexpected(5)),
    // Elements 5 and 64.
    (
        4,
        b"\x7A\x30\x01\x01\x08\x80\x80\x01",
        CodecFault::Unexpected(5),
    ),
    // Elements 3 and 49.
    (
        4,
        b"\x52\x30\x01\x01\x08\x80\x00\x00",
        CodecFault::Missing(3),
    ),
    // Element 49 is missed before the wrong text of element 3.
    (10, b"\x00\x00164111110000000005x", CodecFault::Missing(49)),
    (30, b"x00000x", CodecFault::BadCharacter(3)),
];

/// Whether the first form's text with these bytes at this place is refused so.
fn refuses_bytes(place: usize, bytes: &[u8], fault: CodecFault, text: &mut Vec<u8>) -> bool {
    let is_put = match form_at(0) {
        Some(form) => form.put(true, text),
        None => false,
    };
    for (i, byte) in bytes.iter().enumerate() {
        if let Some(old) = text.get_mut(place.saturating_add(i)) {
            *old = *byte;
        }
    }
    is_put && matches!(decode(text), Err(found) if found == fault)
}

fn missed_first(text: &mut Vec<u8>) -> Missed {
    for (place, bytes, fault) in ORDER {
        if !refuses_bytes(*place, bytes, *fault, text) {
            return Some((0, *fault));
        }
    }
    None
}

/// An element in place of the type.
fn missed_type() -> Missed {
    match decode(b"1641111100000000050000") {
        Err(CodecFault::BadMti) => None,
        _ => Some((0, CodecFault::BadMti)),
    }
}

/// The first of all faults that is missed.
fn missed(text: &mut Vec<u8>) -> Missed {
    missed_spelling(SPELLINGS, false, text)
        .or(missed_spelling(SHORT, true, text))
        .or(missed_rule(text))
        .or(missed_second_bitmap(text))
        .or(missed_header(text))
        .or(missed_first(text))
        .or(missed_type())
}

#[test]
fn each_fault(rt: HostRuntime) {
    let mut text = Vec::new(rt.alloc());
    let missed = missed(&mut text);
    assert!(rt; missed.is_none(), "a form and its fault: {missed:?}");
}
