//! What a person is told behind a fault: the file's name, the place and the reason.

use crate::script::play;
use app_reasons::{Reason, Told};
use std::alloc::Global;

// Books that are none.
const BOOKS: &str = r#"# A version that isn't that of the keys.
put batch BATCH
put book '{"accounts":[],"ahead":[],"budgets":[],"cards":[],"days":[],"originals":[],"version":2}
1 switch serial book batch replies after
! book 3
! book: version: not that of the keys

# A version that is no number.
put batch BATCH
put book '{"accounts":[],"ahead":[],"budgets":[],"cards":[],"days":[],"originals":[],"version":"3"}
1 switch serial book batch replies after
! book 2
! book: version: not that of the keys

# A list that is none.
put batch BATCH
put book '{"accounts":[],"ahead":[],"budgets":[],"cards":{},"days":[],"originals":[],"version":3}
1 switch serial book batch replies after
! book 2
! book: cards: no list

# An entry that is no object.
put batch BATCH
put book '{"accounts":[],"ahead":[],"budgets":[],"cards":[7],"days":[],"originals":[],"version":3}
1 switch serial book batch replies after
! book 2
! book: cards[0]: it hasn't the keys of its list

# The thirteenth month, in the second card.
put batch BATCH
put book '{"accounts":[],"ahead":[],"budgets":[],"cards":[{"account":"A","approvals":0,"day_amount":0,"day_count":0,"expiry":"2812","pan":"4111110000000005","second":null,"status":"active"},{"account":"A","approvals":0,"day_amount":0,"day_count":0,"expiry":"2813","pan":"4111110000000013","second":null,"status":"active"}],"days":[],"originals":[],"version":3}
1 switch serial book batch replies after
! book 3
! book: cards[1].expiry: month 13

# No month.
put batch BATCH
put book '{"accounts":[],"ahead":[],"budgets":[],"cards":[{"account":"A","approvals":0,"day_amount":0,"day_count":0,"expiry":"28-1","pan":"4111110000000005","second":null,"status":"active"}],"days":[],"originals":[],"version":3}
1 switch serial book batch replies after
! book 3
! book: cards[0].expiry: not a month as YYMM

# A letter in a card number.
put batch BATCH
put book '{"accounts":[],"ahead":[],"budgets":[],"cards":[{"account":"A","approvals":0,"day_amount":0,"day_count":0,"expiry":"2812","pan":"41111100000000x5","second":null,"status":"active"}],"days":[],"originals":[],"version":3}
1 switch serial book batch replies after
! book 3
! book: cards[0].pan: not 12 to 19 digits

# Another status.
put batch BATCH
put book '{"accounts":[],"ahead":[],"budgets":[],"cards":[{"account":"A","approvals":0,"day_amount":0,"day_count":0,"expiry":"2812","pan":"4111110000000005","second":null,"status":"open"}],"days":[],"originals":[],"version":3}
1 switch serial book batch replies after
! book 3
! book: cards[0].status: not active, blocked, lost or stolen

# A number in place of a text.
put batch BATCH
put book '{"accounts":[],"ahead":[],"budgets":[],"cards":[{"account":"A","approvals":0,"day_amount":0,"day_count":0,"expiry":"2812","pan":"4111110000000005","second":7,"status":"active"}],"days":[],"originals":[],"version":3}
1 switch serial book batch replies after
! book 2
! book: cards[0].second: not a name of 1 to 28 printable characters, or null

# A card number that fails the Luhn test, behind one that passes it.
put batch BATCH
put book '{"accounts":[{"available":0,"currency":"978","id":"A"}],"ahead":[],"budgets":[],"cards":[{"account":"A","approvals":0,"day_amount":0,"day_count":0,"expiry":"2812","pan":"4111110000000005","second":null,"status":"active"},{"account":"A","approvals":0,"day_amount":0,"day_count":0,"expiry":"2812","pan":"4111110000000004","second":null,"status":"active"}],"days":[],"originals":[],"version":3}
1 switch serial book batch replies after
! book 4
! book: cards[1].pan: 411111******0004 fails the Luhn test

# A second account that isn't there.
put batch BATCH
put book '{"accounts":[{"available":0,"currency":"978","id":"A"}],"ahead":[],"budgets":[],"cards":[{"account":"A","approvals":0,"day_amount":0,"day_count":0,"expiry":"2812","pan":"4111110000000005","second":"B","status":"active"}],"days":[],"originals":[],"version":3}
1 switch serial book batch replies after
! book 4
! book: cards[0].second: this account isn't in the book

# A second account that is the first.
put batch BATCH
put book '{"accounts":[{"available":0,"currency":"978","id":"A"}],"ahead":[],"budgets":[],"cards":[{"account":"A","approvals":0,"day_amount":0,"day_count":0,"expiry":"2812","pan":"4111110000000005","second":"A","status":"active"}],"days":[],"originals":[],"version":3}
1 switch serial book batch replies after
! book 4
! book: cards[0].second: it is the first account again

# An original that an account paid that isn't there.
put batch BATCH
put book '{"accounts":[{"available":0,"currency":"978","id":"A"}],"ahead":[],"budgets":[],"cards":[],"days":[],"originals":[{"account":"B","acquirer":"123456","action":"000","amount":500,"approval":"000001","kind":"request","paid":"account","pan":"4111110000000005","processing":"000000","reversed":null,"stamp":"260110120000","stay":500,"trace":"000001"}],"version":3}
1 switch serial book batch replies after
! book 4
! book: originals[0].account: this account isn't in the book

# An account with 10^15, of which 500 were paid.
put batch BATCH
put book '{"accounts":[{"available":1000000000000000,"currency":"978","id":"A"}],"ahead":[],"budgets":[],"cards":[],"days":[],"originals":[{"account":"A","acquirer":"123456","action":"000","amount":500,"approval":"000001","kind":"request","paid":"account","pan":"4111110000000005","processing":"000000","reversed":null,"stamp":"260110120000","stay":500,"trace":"000001"}],"version":3}
1 switch serial book batch replies after
! book 4
! book: an account or a prefix is backed by over 10^15

# No JSON in the second line.
put batch BATCH
put book '{ 0a '"version":x}
1 switch serial book batch replies after
! book 1
! book: line 2, column 11: no JSON
"#;

#[test]
fn the_first_wrong_entry_of_a_book_is_told(rt: HostRuntime) {
    play(&rt, rt.alloc(), BOOKS);
}

// Files of bodies, and texts, that are none.
const FILES: &str = r#"# The second body is the first that is wrong.
put book BOOK
put batch 'I83B 000100000003 0001 'A 0000
1 switch serial book batch replies after
! batch 4
! batch: body 1 at byte 13: length 0, where 1 to 512 is allowed
put batch 'I83B 000100000002 0001 'A 0003 'A
1 switch run book batch replies after
! batch 5
! batch: body 1 at byte 13: the file ends within it, 1 of 2 bodies are whole

# So is a body of a block, and the count of one. Of replies one is none.
put book BOOK
put file 'I83M 000100000001 00000002 0001 'A 0201
1 switch blocks book file replies after
! batch 4
! kept 0
! file: block 0, body 1 at byte 17: length 513, where 1 to 512 is allowed
put file 'I83M 000100000002 00000000 00010001
1 switch blocks book file replies after
! batch 3
! kept 1
! file: block 1 at byte 14: 65537 bodies, where at most 65536 are allowed
put file TWO_BLOCKS
put replies 'I83T 000100000001 00000001 0006 'F10000
1 switch audit-blocks book file replies after
! batch 9
! replies: block 0, body 0 at byte 14: the text of no reply and of no fault

# A line of three digits.
put text '3131 0a '313
1 switch pack text batch
! text 2
! text: line 2: 3 digits, where two are a byte
"#;

#[test]
fn the_first_fault_of_a_file_is_told(rt: HostRuntime) {
    play(&rt, rt.alloc(), FILES);
}

// A name with a control character, which is shown in hexadecimal.
const NAME: &str =
    "# No file.\n1 switch show no\tne\n! file 1\n! no\\x09ne: no such file or directory\n";

#[test]
fn a_name_is_told_in_one_line(rt: HostRuntime) {
    play(&rt, rt.alloc(), NAME);
}

// Batches with a body that is no message, and what is told of it. The second has a message before it.
const UNREAD: &[(&[u8], &str)] = &[
    (
        b"I83B\x00\x01\x00\x00\x00\x01\x00\x05<?xml",
        "b: body 0 at byte 10: F02000",
    ),
    (
        b"I83B\x00\x01\x00\x00\x00\x02\x00\x621100\x72\x30\x01\x01\x00\x80\x80\x0016411111000000000500000000000000010001101200000000012601101200001000612345\x36TERM0001978\x00\x06\x00\x041100",
        "b: body 1 at byte 110: F02000, begins with a length of two bytes, where an MTI is to be",
    ),
    (
        b"I83B\x00\x01\x00\x00\x00\x01\x00\x09\x60\x00\x01\x00\x001100",
        "b: body 0 at byte 10: F02000, begins with a TPDU, where an MTI is to be",
    ),
    (
        b"I83B\x00\x01\x00\x00\x00\x01\x00\x04\xf1\xf1\xf0\xf0",
        "b: body 0 at byte 10: F02000, begins with an MTI in EBCDIC, where ASCII is to be",
    ),
    (
        b"I83B\x00\x01\x00\x00\x00\x01\x00\x02\x11\x00",
        "b: body 0 at byte 10: F01000, begins with an MTI in BCD, where ASCII is to be",
    ),
];

// Whether this is told of the first body that is no message.
fn is_told(alloc: Global, file: &[u8], text: &str) -> bool {
    let Some(reason) = Reason::of_unread(file) else {
        return false;
    };
    let told = Told { name: "b", reason };
    match told.to_string(alloc) {
        Ok(told) => told.as_str() == text,
        Err(_) => false,
    }
}

#[test]
fn the_first_body_that_is_no_message_is_told(rt: HostRuntime) {
    for (file, text) in UNREAD {
        assert!(rt; is_told(rt.alloc(), file, text), "{text}");
    }
}
