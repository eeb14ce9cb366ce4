//! The lines of a message: every kind of row, absent ones, and masked numbers.

use crate::why::rules::explanation;
use iso_shown::CardNumbers;
use reason_json::why_line;
use reason_text::lines_of;
use std::alloc::Global;
use std::process::Abort;

const BATCH: &str =
    "# a request that the account pays, its repeat and its partial reversal; and others
put card A 2812 active 12 3 20000 MAIN SAVE
put account MAIN 10000 978
put budget 411111 direct 400 3000
body 1100 000001 A 6000
body 1101 000001 A 6000
body 1420 000002 A 1000 request=000001 all=6000
body 1120 000003 B 501 action=116 account=B
body 1420 000004 B 7 advice=000009
body bad";

// The lines of each body.
const LINES: &[&str] = &[
    "message  0: 1100 of card 411111******0005, amount 6000, currency 978, processing code 000000, trace 000001, time 260110120000, acquirer 123456
rule     AccountPays: the account pays
read     original 123456/000001/260110120000: absent
read     card 411111******0005: active, expires 2812, account MAIN and SAVE, approvals 12, a day at most 3 and 20000
read     account MAIN: available 10000, currency 978
read     day 411111******0005 260110: absent
read     budget 411111: doesn't stand in, at most 400 a message, left 3000
wrote    original 123456/000001/260110120000: request of card 411111******0005, amount 6000, processing code 000000, answered 000, approval code 000013, paid by account MAIN
wrote    card 411111******0005: active, expires 2812, account MAIN and SAVE, approvals 13, a day at most 3 and 20000
wrote    day 411111******0005 260110: approvals 1, spent 6000
wrote    account MAIN: available 4000, currency 978
reply    1110 000, approval code 000013
",
    "message  1: 1101 of card 411111******0005, amount 6000, currency 978, processing code 000000, trace 000001, time 260110120000, acquirer 123456
rule     Repeat: it repeats the message that is kept, whose answer it gets
read     original 123456/000001/260110120000: request of card 411111******0005, amount 6000, processing code 000000, answered 000, approval code 000013, paid by account MAIN
reply    1110 000, approval code 000013
",
    "message  2: 1420 of card 411111******0005, amount 1000, currency 978, processing code 000000, trace 000002, time 260110120000, acquirer 123456, of request 123456/000001/260110120000, in part, of 6000
rule     GivenBack: the money goes back
read     original 123456/000001/260110120000: request of card 411111******0005, amount 6000, processing code 000000, answered 000, approval code 000013, paid by account MAIN
read     account MAIN: available 4000, currency 978
read     day 411111******0005 260110: approvals 1, spent 6000
wrote    original 123456/000001/260110120000: request of card 411111******0005, amount 6000, processing code 000000, answered 000, approval code 000013, paid by account MAIN, reversed by 123456/000002/260110120000, stays 1000
wrote    day 411111******0005 260110: approvals 1, spent 1000
wrote    account MAIN: available 9000, currency 978
reply    1430 400
",
    "message  3: 1120 of card 411111******0013, amount 501, currency 978, processing code 000000, trace 000003, time 260110120000, acquirer 123456, action 116, account 411111******0013
rule     NotApproved: the acquirer didn't approve
read     original 123456/000003/260110120000: absent
wrote    original 123456/000003/260110120000: advice of card 411111******0013, amount 501, processing code 000000, answered 900
reply    1130 900
",
    "message  4: 1420 of card 411111******0013, amount 7, currency 978, processing code 000000, trace 000004, time 260110120000, acquirer 123456, of advice 123456/000009/260110120000, in full
rule     NoOriginal: nothing stands at the identity of the original
read     original 123456/000009/260110120000: absent
wrote    original 123456/000009/260110120000: advice of card 411111******0013, reversed ahead by 123456/000004/260110120000
reply    1430 914
",
    "message  5: no message: bytes after the last element
rule     NoMessage: the body is no message
reply    F08000
",
];

// Some of them as JSON: the place, which card numbers are asked for, and the line.
const JSON: &[(usize, CardNumbers, &str)] = &[
    (
        0,
        CardNumbers::Masked,
        r#"{"index":0,"message":{"type":"1100","pan":"411111******0005","processing":"000000","amount":6000,"transmission":"0110120000","trace":"000001","local-time":"260110120000","function":"100","acquirer":"123456","terminal":"TERM0001","currency":"978"},"rule":"AccountPays","reason":"the account pays","read":[{"row":"original","acquirer":"123456","stamp":"260110120000","trace":"000001","absent":true},{"row":"card","account":"MAIN","approvals":12,"day_amount":20000,"day_count":3,"expiry":"2812","pan":"411111******0005","second":"SAVE","status":"active"},{"row":"account","available":10000,"currency":"978","id":"MAIN"},{"row":"day","pan":"411111******0005","day":"260110","absent":true},{"row":"budget","cap":400,"left":3000,"mode":"direct","prefix":"411111"}],"wrote":[{"row":"original","account":"MAIN","acquirer":"123456","action":"000","amount":6000,"approval":"000013","kind":"request","paid":"account","pan":"411111******0005","processing":"000000","reversed":null,"stamp":"260110120000","stay":6000,"trace":"000001"},{"row":"card","account":"MAIN","approvals":13,"day_amount":20000,"day_count":3,"expiry":"2812","pan":"411111******0005","second":"SAVE","status":"active"},{"row":"day","count":1,"day":"260110","pan":"411111******0005","sum":6000},{"row":"account","available":4000,"currency":"978","id":"MAIN"}],"reply":{"type":"1110","pan":"411111******0005","processing":"000000","amount":6000,"transmission":"0110120000","trace":"000001","local-time":"260110120000","acquirer":"123456","approval":"000013","action":"000","terminal":"TERM0001","currency":"978"}}
"#,
    ),
    (
        4,
        CardNumbers::Full,
        r#"{"index":4,"message":{"type":"1420","pan":"4111110000000013","processing":"000000","amount":7,"transmission":"0110120000","trace":"000004","local-time":"260110120000","function":"400","acquirer":"123456","terminal":"TERM0001","currency":"978","original":"1120000009260110120000123456"},"rule":"NoOriginal","reason":"nothing stands at the identity of the original","read":[{"row":"original","acquirer":"123456","stamp":"260110120000","trace":"000009","absent":true}],"wrote":[{"row":"original","acquirer":"123456","kind":"advice","pan":"4111110000000013","reversal":{"acquirer":"123456","stamp":"260110120000","trace":"000004"},"stamp":"260110120000","trace":"000009"}],"reply":{"type":"1430","pan":"4111110000000013","processing":"000000","amount":7,"transmission":"0110120000","trace":"000004","local-time":"260110120000","acquirer":"123456","action":"914","terminal":"TERM0001","currency":"978"}}
"#,
    ),
    (
        5,
        CardNumbers::Masked,
        r#"{"index":5,"message":{"fault":"F08000"},"rule":"NoMessage","reason":"the body is no message","read":[],"wrote":[],"reply":{"fault":"F08000"}}
"#,
    ),
];

// Whether these are the lines of the body at this place.
fn are_lines(alloc: Global, index: usize, lines: &str) -> bool {
    let Some(explanation) = explanation(alloc, BATCH, index) else {
        return false;
    };
    match lines_of(alloc, index, &explanation) {
        Ok(text) => text.as_slice() == lines.as_bytes(),
        Err(_) => false,
    }
}

#[test]
fn shows_the_lines(rt: HostRuntime) {
    for (index, lines) in LINES.iter().enumerate() {
        assert!(rt; are_lines(rt.alloc(), index, lines), "{lines}");
    }
}

// Whether this is the line of JSON of the body at this place.
fn is_json(alloc: Global, index: usize, cards: CardNumbers, line: &str) -> bool {
    let Some(explanation) = explanation(alloc, BATCH, index) else {
        return false;
    };
    match why_line(alloc, cards, index, &explanation) {
        Ok(text) => text.as_slice() == line.as_bytes(),
        Err(_) => false,
    }
}

#[test]
fn shows_json(rt: HostRuntime) {
    for (index, cards, line) in JSON {
        assert!(rt; is_json(rt.alloc(), *index, *cards, line), "{line}");
    }
}
