//! A small day, worked out by hand, as lines.

use day_totals::{DayTotals, day_of, lines_of, page_of};
use iso8583::{Action, Answer, Approval, DeclineCode, Message, Reply, Verdict};
use issuer_rows::{Frame, ReplyBody};
use std::alloc::Global;
use std::process::Abort;
use test_fixtures::body;

// Bodies, and what each was answered.
const DAY: &[(&str, &str)] = &[
    ("1100 000001 A 6000", "000"),
    ("1101 000001 A 6000", "000"),
    ("1100 000002 A 150", "116"),
    ("1100 000003 B 250 currency=840 at=260110235959", "000"),
    ("1100 000004 A 70", "116"),
    ("1120 000005 B 501", "901"),
    ("1420 000006 A 1000 request=000001 all=6000", "400"),
    ("1421 000006 A 1000 request=000001 all=6000", "400"),
    ("1420 000007 B 250 request=000009 currency=840", "914"),
    ("1100 000008 B 40", "118"),
    ("bad", ""),
];

// What that comes to.
const LINES: &str = "bodies    1100: 5
bodies    1101: 1
bodies    1120: 1
bodies    1420: 2
bodies    1421: 1
bodies    no message: 1
repeats   1101: 1
repeats   1421: 1
replies   000: 3, approved
replies   116: 2, not sufficient funds
replies   118: 1, no card record
replies   400: 2, accepted (reversal)
replies   901: 1, advice acknowledged, financial liability accepted
replies   914: 1, not able to trace back to original transaction
approved  840: 250
approved  978: 6000
declined  978: 260
reversed  978: 5000
hour      12: 1
hour      23: 1
terminal  TERM0001: 3
card      411111******0005: 2
card      411111******0013: 1
";

// What a body was answered: its action code.
fn answered(frame: &Frame, action: &str) -> Option<ReplyBody> {
    let message = match frame {
        Frame::Good(message) => message,
        Frame::Bad(fault) => return Some(ReplyBody::Fault(*fault)),
    };
    let action = Action::new(u16::from_str_radix(action, 10).ok()?)?;
    let (transaction, answer) = match message {
        Message::Request(request) => (request.transaction, Answer::Request(verdict(action)?, None)),
        Message::Advice(advice) => (advice.transaction, Answer::Advice(action, None)),
        Message::Reversal(reversal) => (reversal.transaction, Answer::Reversal(action)),
    };
    Some(ReplyBody::Reply(Reply {
        transaction,
        answer,
    }))
}

// The answer to a request by its action code.
fn verdict(action: Action) -> Option<Verdict> {
    if action.code() == 0 {
        return Some(Verdict::Approved(Approval::new(b"000001")?));
    }
    Some(Verdict::Declined(DeclineCode::new(action)?))
}

// The totals of the day.
fn totals(alloc: Global) -> Option<DayTotals> {
    let (mut frames, mut replies) = (Vec::new(alloc), Vec::new(alloc));
    for (line, action) in DAY {
        let frame = body(line)?;
        frames.push(frame).ok()?;
        replies.push(answered(&frame, action)?).ok()?;
    }
    if frames.len() != replies.len() {
        return None;
    }
    let day = day_of(alloc, &frames, &replies).ok()?;
    if day.len() > 64 {
        return None;
    }
    DayTotals::of(alloc, &day).ok()
}

#[test]
fn tells_a_day(rt: HostRuntime) {
    let totals = totals(rt.alloc()).expect(&rt, "room");
    let lines = lines_of(rt.alloc(), &totals).expect(&rt, "room");
    assert!(rt; lines.as_slice() == LINES.as_bytes(), "another report");
}

#[test]
fn makes_a_page(rt: HostRuntime) {
    let totals = totals(rt.alloc()).expect(&rt, "room");
    let page = page_of(rt.alloc(), &totals).expect(&rt, "room");
    let page = str::from_utf8(page.as_slice()).expect(&rt, "text");
    let row =
        "<tr><td>116</td><td class=\"number\">2</td><td><svg width=\"300\" height=\"12\" aria-hidden=\"true\"><rect width=\"200\" height=\"12\"/></svg></td><td>not sufficient funds</td></tr>\n";
    assert!(rt; page.starts_with("<!DOCTYPE html>\n"), "no page");
    assert!(rt; page.contains(row), "another row of 116");
    assert!(rt;
        page.contains("<tr><td>TERM0001</td><td class=\"number\">3</td></tr>\n"),
        "another row of a terminal"
    );
    assert!(rt; page.ends_with("</html>\n"), "no end");
}
