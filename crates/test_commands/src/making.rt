//! `make`: the body of each type, whose bytes were worked out by hand from ISO 8583:1993, and why words make none.

use crate::files::words_of;
use app_messages::{MAKE_HELP, MakeAsked, answer_make, make_asked};
use std::alloc::Global;
use std::process::Abort;

// The elements of each message, by the words that give them.
const COMMON: &[&str] = &[
    "pan=4111110000000005",
    "currency=978",
    "terminal=TERM0001",
    "processing=000000",
    "transmission=1128120000",
    "trace=1",
    "local-time=261128120000",
    "acquirer=400001",
];

// Messages: the type, the words behind the common ones, and the line that is printed.
const MESSAGES: &[(&str, &[&str], &str)] = &[
    (
        "1100",
        &["amount=600", "function=100"],
        "3131303072300101008080003136343131313131303030303030303030353030303030303030303030303030303630303131323831323030303030303030303132363131323831323030303031303030363430303030315445524d30303031393738\n",
    ),
    (
        "1101",
        &[
            "amount=600",
            "function=100",
            "account=ACC1",
            "reference=REF000000001",
        ],
        "31313031f23001010880800000000000040000003136343131313131303030303030303030353030303030303030303030303030303630303131323831323030303030303030303132363131323831323030303031303030363430303030315245463030303030303030315445524d30303031393738303441434331\n",
    ),
    (
        "1120",
        &["amount=600", "function=100", "action=000"],
        "3131323072300101028080003136343131313131303030303030303030353030303030303030303030303030303630303131323831323030303030303030303132363131323831323030303031303030363430303030313030305445524d30303031393738\n",
    ),
    (
        "1121",
        &["amount=600", "function=100", "action=000"],
        "3131323172300101028080003136343131313131303030303030303030353030303030303030303030303030303630303131323831323030303030303030303132363131323831323030303031303030363430303030313030305445524d30303031393738\n",
    ),
    (
        "1420",
        &[
            "amount=600",
            "function=400",
            "original=1100000001261128120000400001",
        ],
        "3134323072300101008081003136343131313131303030303030303030353030303030303030303030303030303630303131323831323030303030303030303132363131323831323030303034303030363430303030315445524d303030313937383330313130303030303030313236313132383132303030303036343030303031\n",
    ),
    (
        "1421",
        &[
            "amount=200",
            "function=401",
            "original-amount=600",
            "original=1100000001261128120000400001",
        ],
        "3134323172300105008081003136343131313131303030303030303030353030303030303030303030303030303230303131323831323030303030303030303132363131323831323030303034303130303030303030303036303030303030303030303030303030363430303030315445524d303030313937383330313130303030303030313236313132383132303030303036343030303031\n",
    ),
];

// Words that make no message: the type, the words behind the common ones, and what stands on standard error.
const FAULTS: &[(&str, &[&str], &str)] = &[
    (
        "1110",
        &[],
        "make: no type of messages that are taken in: 1100, 1101, 1120, 1121, 1420 or 1421\n",
    ),
    (
        "1100",
        &["function=100"],
        "make: 1100 needs amount (element 4)\n",
    ),
    (
        "1100",
        &["amount=600", "function=100", "action=000"],
        "make: 1100 takes no action (element 39)\n",
    ),
    (
        "1100",
        &["amount="],
        "make: amount (element 4) can't be so: up to 12 digits, in minor units\n",
    ),
    (
        "1100",
        &["trace=2"],
        "make: trace (element 11) is given twice\n",
    ),
    (
        "1100",
        &["Trace=2"],
        "make: word 9 behind the type is no NAME=VALUE; `switch make --help` lists the names\n",
    ),
    (
        "1420",
        &[
            "amount=600",
            "function=100",
            "original=1100000001261128120000400001",
        ],
        "make: function (element 24) of 1420 can't be so: 3 digits; of a reversal 400 (full) or 401 (partial)\n",
    ),
];

// The common words, and more behind them.
fn common_words(alloc: Global, more: &[&str]) -> Option<Vec<String>> {
    let mut words = Vec::new(alloc);
    for word in COMMON {
        words.push(String::from_str(alloc, word).ok()?).ok()?;
    }
    for word in more {
        words.push(String::from_str(alloc, word).ok()?).ok()?;
    }
    Some(words)
}

// What the command comes to: its status, and what it said.
fn said(alloc: Global, asked: &MakeAsked<'_>) -> (u8, Vec<u8>, Vec<u8>) {
    let (mut out, mut err) = (Vec::new(alloc), Vec::new(alloc));
    let status = answer_make(alloc, asked, &mut out, &mut err);
    (status, out, err)
}

#[test]
fn makes_each_type(rt: HostRuntime) {
    for (kind, more, line) in MESSAGES {
        let words = common_words(rt.alloc(), more).expect(&rt, "room");
        let said = said(rt.alloc(), &MakeAsked::Message(kind, &words));
        assert!(rt; said.0 == 0 && said.2.is_empty(), "{kind}");
        assert!(rt; said.1.as_slice() == line.as_bytes(), "{kind}");
    }
}

#[test]
fn tells_why_words_make_none(rt: HostRuntime) {
    for (kind, more, line) in FAULTS {
        let words = common_words(rt.alloc(), more).expect(&rt, "room");
        let said = said(rt.alloc(), &MakeAsked::Message(kind, &words));
        assert!(rt; said.0 == 2 && said.1.is_empty(), "{line}");
        assert!(rt; said.2.as_slice() == line.as_bytes(), "{line}");
    }
}

#[test]
fn says_what_it_takes(rt: HostRuntime) {
    let help = said(rt.alloc(), &MakeAsked::Help);
    assert!(rt; help.0 == 0 && help.1.as_slice() == MAKE_HELP.as_bytes());
    let wrong = said(rt.alloc(), &MakeAsked::Wrong);
    assert!(rt; wrong.0 == 2 && wrong.1.is_empty());
}

#[test]
fn reads_its_words(rt: HostRuntime) {
    let make = words_of(rt.alloc(), &["switch", "make", "1100", "trace=1"]).expect(&rt, "room");
    assert!(rt; matches!(make_asked(&make), Some(MakeAsked::Message("1100", [_]))));
    let help = words_of(rt.alloc(), &["switch", "make", "--help"]).expect(&rt, "room");
    assert!(rt; matches!(make_asked(&help), Some(MakeAsked::Help)));
    let wrong = words_of(rt.alloc(), &["switch", "make"]).expect(&rt, "room");
    assert!(rt; matches!(make_asked(&wrong), Some(MakeAsked::Wrong)));
}
