//! Files byte for byte.

use crate::batches::serial::{WAYS, Way, process_serially};
use crate::batches::texts::{BATCH, EMPTY, EMPTY_REPLIES, REPLIES, SHORT, SHORT_REPLIES};
use file_batch::{read_batch, read_replies, write_batch, write_replies};
use file_devices::{FromRead, IntoWrite};
use iso_codec::decode_reply;
use issuer_rows::{Book, Frame, ReplyBody};
use std::alloc::{AllocError, Global};
use std::sync::Wait;
use std::test::Fail;
use std::thread::Threads;
use test_fixtures::{count_of, first_book_with, has_row};

// Batches, their replies, and a row of the book after them.
const ANSWERED: &[(&[u8], &[u8], &str)] = &[
    (EMPTY, EMPTY_REPLIES, "account A 10000 978"),
    (BATCH, REPLIES, "account A 9900 978"),
    (SHORT, SHORT_REPLIES, "account A 10000 978"),
];

fn is_answered<T: Threads + Wait + Sync>(
    rt: &T,
    alloc: Global,
    way: Way,
    book: &Book,
    (batch, replies, row): (&[u8], &[u8], &str),
) -> bool {
    let mut source = FromRead::new(batch);
    let mut sink = IntoWrite::new(Vec::new(alloc));
    match process_serially(rt, alloc, way, book, &mut source, &mut sink) {
        Ok(after) => sink.writer().as_slice() == replies && has_row(&after, row),
        Err(_) => false,
    }
}

#[test]
fn batches_are_answered_byte_for_byte(rt: HostRuntime) -> Result<(), Fail> {
    let book = first_book_with(rt.alloc(), &[])?;
    for way in WAYS {
        for answered in ANSWERED {
            assert!(rt;
                is_answered(&rt, rt.alloc(), way, &book, *answered),
                "{way:?} {answered:?}"
            );
        }
    }
    Ok(())
}

// So many bodies that some are decided while others are read, and the last one stands alone behind whole pieces.
const MANY: usize = 8193;

// A batch of so many bodies, all of them the request of the one batch.
fn long_batch(alloc: Global) -> Result<Vec<u8>, AllocError> {
    let mut bodies = Vec::new(alloc);
    for _ in 0..MANY {
        bodies.push(Vec::from_slice(alloc, BATCH.get(12..).unwrap_or(BATCH))?)?;
    }
    let mut sink = IntoWrite::new(Vec::new(alloc));
    write_batch(alloc, &bodies, &mut sink).map_err(|_| AllocError)?;
    Ok(sink.into_writer())
}

// The replies to a batch that is decided on this book.
fn replies_by<T: Threads + Wait + Sync>(
    rt: &T,
    alloc: Global,
    way: Way,
    book: &Book,
    batch: &[u8],
) -> Option<Vec<ReplyBody>> {
    let mut source = FromRead::new(batch);
    let mut sink = IntoWrite::new(Vec::new(alloc));
    process_serially(rt, alloc, way, book, &mut source, &mut sink).ok()?;
    let mut written = sink.writer().as_slice();
    read_replies(alloc, &mut written).ok()
}

#[test]
fn a_long_batch_is_answered(rt: HostRuntime) -> Result<(), Fail> {
    let book = first_book_with(rt.alloc(), &[])?;
    let batch = long_batch(rt.alloc())?;
    for way in WAYS {
        let replies = replies_by(&rt, rt.alloc(), way, &book, &batch).ok_or("replies")?;
        assert!(rt; replies.len() == MANY, "{way:?}");
        // The first is approved, and all others are duplicates of it.
        assert!(rt;
            count_of(rt.alloc(), &replies, "000/000001") == 1,
            "{way:?}"
        );
        assert!(rt; count_of(rt.alloc(), &replies, "913") == 8192, "{way:?}");
    }
    Ok(())
}

// Whether the batch is made of its body.
fn is_made(alloc: Global) -> Result<bool, AllocError> {
    let mut bodies = Vec::new(alloc);
    bodies.push(Vec::from_slice(alloc, BATCH.get(12..).unwrap_or(BATCH))?)?;
    let mut sink = IntoWrite::new(Vec::new(alloc));
    Ok(write_batch(alloc, &bodies, &mut sink).is_ok() && sink.writer().as_slice() == BATCH)
}

// Whether bodies of every length from 1 to 512, of bytes that are no message, are written and read as bad frames.
fn is_every_length_a_body(alloc: Global, byte: u8) -> Result<bool, AllocError> {
    let mut bodies = Vec::new(alloc);
    for length in 1..=512usize {
        bodies.push(vec![in alloc; byte; length]?)?;
    }
    let mut sink = IntoWrite::new(Vec::new(alloc));
    Ok(write_batch(alloc, &bodies, &mut sink).is_ok() && has_bad_frames(alloc, sink.writer()))
}

fn has_bad_frames(alloc: Global, batch: &[u8]) -> bool {
    let mut source = batch;
    match read_batch(alloc, &mut source) {
        Ok(frames) => frames.len() == 512 && are_bad(&frames),
        Err(_) => false,
    }
}

fn are_bad(frames: &[Frame]) -> bool {
    for frame in frames {
        if !matches!(frame, Frame::Bad(_)) {
            return false;
        }
    }
    true
}

#[test]
fn a_batch_is_made_of_bodies(rt: HostRuntime) {
    assert!(rt; matches!(is_made(rt.alloc()), Ok(true)));
    for byte in [0x00u8, 0x31, 0xFF] {
        assert!(rt;
            matches!(is_every_length_a_body(rt.alloc(), byte), Ok(true)),
            "{byte}"
        );
    }
}

// Whether what is read is written again.
fn comes_back(alloc: Global, text: &[u8]) -> bool {
    let mut source = text;
    let mut sink = IntoWrite::new(Vec::new(alloc));
    match read_replies(alloc, &mut source) {
        Ok(replies) => {
            write_replies(alloc, &replies, &mut sink).is_ok() && sink.writer().as_slice() == text
        }
        Err(_) => false,
    }
}

// Whether the reply is read as it is spelled.
fn is_spelled(alloc: Global) -> bool {
    let mut source = REPLIES;
    match read_replies(alloc, &mut source) {
        Ok(replies) => is_reply(replies.first(), REPLIES.get(13..).unwrap_or(REPLIES)),
        Err(_) => false,
    }
}

fn is_reply(first: Option<&ReplyBody>, spelling: &[u8]) -> bool {
    match (first, decode_reply(spelling)) {
        (Some(ReplyBody::Reply(first)), Ok(reply)) => first.is_same(&reply),
        _ => false,
    }
}

// A reply, and the fault of a body that is one byte short.
#[test]
fn replies_are_read_and_written_again(rt: HostRuntime) {
    for replies in [EMPTY_REPLIES, REPLIES, SHORT_REPLIES] {
        assert!(rt; comes_back(rt.alloc(), replies), "{replies:?}");
    }
    assert!(rt; is_spelled(rt.alloc()));
}
