//! Texts and files that scripts name.

use crate::day::{DAY_BOOK, FIRST_HALF, SECOND_HALF};

const TEXTS: &[(&str, &str)] = &[
    ("BOOK", BOOK),
    ("AFTER", AFTER),
    ("AFTER_BOTH", AFTER_BOTH),
    ("TEXT", TEXT),
    ("DAY_BOOK", DAY_BOOK),
    ("FIRST_HALF", FIRST_HALF),
    ("SECOND_HALF", SECOND_HALF),
];

const FILES: &[(&str, &[u8])] = &[
    ("BATCH", BATCH),
    ("REPLIES", REPLIES),
    ("TWO_BLOCKS", TWO_BLOCKS),
    ("TWO_REPLIES", TWO_REPLIES),
];

// The text or the file of this name.
pub(crate) fn text_of(name: &str) -> Option<&'static [u8]> {
    for (known, text) in TEXTS {
        if *known == name {
            return Some(text.as_bytes());
        }
    }
    for (known, bytes) in FILES {
        if *known == name {
            return Some(bytes);
        }
    }
    None
}

// A card with 100.00 available.
const BOOK: &str =
    r#"{"accounts":[{"available":10000,"currency":"978","id":"4111110000000005"}],"ahead":[],"budgets":[],"cards":[{"account":"4111110000000005","approvals":0,"day_amount":20000,"day_count":3,"expiry":"2812","pan":"4111110000000005","second":null,"status":"active"}],"days":[],"originals":[],"version":3}"#;

// It, after a request of 1.00 was approved.
const AFTER: &str =
    r#"{"accounts":[{"available":9900,"currency":"978","id":"4111110000000005"}],"ahead":[],"budgets":[],"cards":[{"account":"4111110000000005","approvals":1,"day_amount":20000,"day_count":3,"expiry":"2812","pan":"4111110000000005","second":null,"status":"active"}],"days":[{"count":1,"day":"260110","pan":"4111110000000005","sum":100}],"originals":[{"account":"4111110000000005","acquirer":"123456","action":"000","amount":100,"approval":"000001","kind":"request","paid":"account","pan":"4111110000000005","processing":"000000","reversed":null,"stamp":"260110120000","stay":100,"trace":"000001"}],"version":3}"#;

// It, after a request of 60.00 was approved, and another one declined.
const AFTER_BOTH: &str =
    r#"{"accounts":[{"available":4000,"currency":"978","id":"4111110000000005"}],"ahead":[],"budgets":[],"cards":[{"account":"4111110000000005","approvals":1,"day_amount":20000,"day_count":3,"expiry":"2812","pan":"4111110000000005","second":null,"status":"active"}],"days":[{"count":1,"day":"260110","pan":"4111110000000005","sum":6000}],"originals":[{"account":"4111110000000005","acquirer":"123456","action":"000","amount":6000,"approval":"000001","kind":"request","paid":"account","pan":"4111110000000005","processing":"000000","reversed":null,"stamp":"260110120000","stay":6000,"trace":"000001"},{"account":null,"acquirer":"123456","action":"116","amount":6000,"approval":null,"kind":"request","paid":"nothing","pan":"4111110000000005","processing":"000000","reversed":null,"stamp":"260110120000","stay":0,"trace":"000002"}],"version":3}"#;

// The request of 1.00 in hexadecimal, with a comment and an empty line before it.
const TEXT: &str =
    "# A request of 1.00.\n\n3131303072300101008080003136343131313131303030303030303030353030303030303030303030303030303130303031313031323030303030303030303132363031313031323030303031303030363132333435365445524D30303031393738\n";

// A batch of that request, and its replies.
const BATCH: &[u8] =
    b"I83B\x00\x01\x00\x00\x00\x01\x00\x621100\x72\x30\x01\x01\x00\x80\x80\x0016411111000000000500000000000000010001101200000000012601101200001000612345\x36TERM0001978";

const REPLIES: &[u8] =
    b"I83R\x00\x01\x00\x00\x00\x01\x00\x69R1110\x72\x30\x00\x01\x06\x80\x80\x00164111110000000005000000000000000100011012000000000126011012000006123456000001000TERM0001978";

// Two blocks of a request of 60.00 each, and their replies: 000 with the approval code 000001, and 116.
const TWO_BLOCKS: &[u8] =
    b"I83M\x00\x01\x00\x00\x00\x02\x00\x00\x00\x01\x00\x621100\x72\x30\x01\x01\x00\x80\x80\x00164111110000000005000000000000006000011012000000000126011012000010006123456TERM0001978\x00\x00\x00\x01\x00\x621100\x72\x30\x01\x01\x00\x80\x80\x00164111110000000005000000000000006000011012000000000226011012000010006123456TERM0001978";

const TWO_REPLIES: &[u8] =
    b"I83T\x00\x01\x00\x00\x00\x02\x00\x00\x00\x01\x00\x69R1110\x72\x30\x00\x01\x06\x80\x80\x00164111110000000005000000000000006000011012000000000126011012000006123456000001000TERM0001978\x00\x00\x00\x01\x00\x63R1110\x72\x30\x00\x01\x02\x80\x80\x00164111110000000005000000000000006000011012000000000226011012000006123456116TERM0001978";
