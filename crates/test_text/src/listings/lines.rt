//! Bodies and replies as lines.

ghost use Rattle.std.specs.Prelude.{◌≤◌, length};

use file_listing::{frame_line, reply_line};
use issuer_fold::Prefix;
use issuer_rows::{Frame, ReplyBody};
use issuer_rules::decide_all;
use std::alloc::{AllocError, Global};
use std::test::Fail;
use test_fixtures::{body, first_book_with};

// Bodies, their lines, and the lines of their replies.
const SHOWN: &[(&str, &str, &str)] = &[
    (
        "1100 000001 A 6000",
        "0 1100 6000 000001",
        "0 1110 000 000001 000001",
    ),
    (
        "1101 000001 A 6000",
        "1 1101 6000 000001",
        "1 1110 000 000001 000001",
    ),
    (
        "1100 000002 A 6000",
        "2 1100 6000 000002",
        "2 1110 116 - 000002",
    ),
    ("bad", "3 F08000", "3 F08000"),
    (
        "1420 000003 A 6000 request=000001",
        "4 1420 6000 000003",
        "4 1430 400 - 000003",
    ),
    (
        "1421 000003 A 6000 request=000001",
        "5 1421 6000 000003",
        "5 1430 400 - 000003",
    ),
    (
        "1120 000004 A 0 action=116",
        "6 1120 0 000004",
        "6 1130 900 - 000004",
    ),
    (
        "1121 000004 A 0 action=116",
        "7 1121 0 000004",
        "7 1130 900 - 000004",
    ),
];

// The bodies; a line that is none is left out.
fn frames(alloc: Global) -> Result<Vec<Frame>, AllocError> {
    SHOWN
        .iter()
        .filter_map(|(line, _, _)| body(line))
        .collect(alloc)
}

// What the first book answers.
fn replies_to(alloc: Global, frames: &[Frame]) -> Result<Vec<ReplyBody>, Fail>
    requires { length frames.now ≤ 65536 }
{
    let opening = Prefix::new(alloc, first_book_with(alloc, &[])?);
    Ok(decide_all(alloc, opening, frames)?.replies)
}

fn is_shown(alloc: Global, place: u32, frame: Option<&Frame>, line: &str) -> bool {
    let Some(frame) = frame else {
        return false;
    };
    match frame_line(alloc, place, frame) {
        Ok(shown) => shown.as_slice() == line.as_bytes(),
        Err(_) => false,
    }
}

fn is_answered(alloc: Global, place: u32, reply: Option<&ReplyBody>, line: &str) -> bool {
    let Some(reply) = reply else {
        return false;
    };
    match reply_line(alloc, place, reply) {
        Ok(shown) => shown.as_slice() == line.as_bytes(),
        Err(_) => false,
    }
}

// The first of the lines that is not the one of its body or its reply.
fn first_wrong(alloc: Global, frames: &[Frame], replies: &[ReplyBody]) -> Option<&'static str> {
    for (place, (_, sent, answered)) in (0u32..64).zip(SHOWN) {
        if !is_shown(alloc, place, frames.get(place as usize), sent) {
            return Some(sent);
        }
        if !is_answered(alloc, place, replies.get(place as usize), answered) {
            return Some(answered);
        }
    }
    None
}

#[test]
fn bodies_and_replies_are_shown(rt: HostRuntime) -> Result<(), Fail> {
    let frames = frames(rt.alloc()).expect(&rt, "room");
    assert!(rt; frames.len() == SHOWN.len() && frames.len() <= 64);
    let replies = replies_to(rt.alloc(), &frames)?;
    assert!(rt; replies.len() == SHOWN.len());
    let wrong = first_wrong(rt.alloc(), &frames, &replies);
    assert!(rt; wrong.is_none(), "{wrong:?}");
    Ok(())
}
