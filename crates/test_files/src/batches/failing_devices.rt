//! Sources and sinks that give or take a byte a call, and that fail at each call in turn.

use crate::batches::serial::{WAYS, Way, process_serially};
use crate::batches::texts::{BATCH, REPLIES};
use file_batch::{BatchFault, read_batch};
use file_devices::{FailingSink, FailingSource};
use issuer_rows::{Book, Frame};
use std::alloc::Global;
use std::sync::Wait;
use std::test::Fail;
use std::thread::Threads;
use test_fixtures::first_book_with;

// 110 bytes, one a call, and a last call that finds the end.
const CALLS: u64 = 111;

// Whether a source that gives a byte a call is read as one frame, the same as that of the bytes.
fn is_read_alike(alloc: Global) -> bool {
    let mut whole = BATCH;
    let mut slow = FailingSource::new(BATCH, 1, CALLS);
    let Ok(frames) = read_batch(alloc, &mut whole) else {
        return false;
    };
    match read_batch(alloc, &mut slow) {
        Ok(same) => is_one(&frames, &same),
        Err(_) => false,
    }
}

fn is_one(frames: &[Frame], same: &[Frame]) -> bool {
    match (frames, same) {
        ([mine], [theirs]) => mine.is_same(theirs),
        _ => false,
    }
}

#[test]
fn a_byte_a_call_gives_the_same_frames(rt: HostRuntime) {
    assert!(rt; is_read_alike(rt.alloc()));
}

// Whether a source that fails behind so many calls is a fault of a device, and leaves the sink.
fn source_fails<T: Threads + Wait + Sync>(
    rt: &T,
    alloc: Global,
    way: Way,
    book: &Book,
    answers: u64,
) -> bool {
    let mut source = FailingSource::new(BATCH, 1, answers);
    let mut sink = FailingSink::new(alloc, 1, 117);
    let fault = process_serially(rt, alloc, way, book, &mut source, &mut sink).err();
    fault == Some(BatchFault::Device) && sink.taken().is_empty()
}

// Whether a sink that fails behind so many calls, of so many bytes each, is one, and holds this beginning of the replies.
fn sink_fails<T: Threads + Wait + Sync>(
    rt: &T,
    alloc: Global,
    way: Way,
    book: &Book,
    (piece, answers): (usize, u64),
    front: &[u8],
) -> bool {
    let mut source = BATCH;
    let mut sink = FailingSink::new(alloc, piece, answers);
    let fault = process_serially(rt, alloc, way, book, &mut source, &mut sink).err();
    fault == Some(BatchFault::Device) && sink.taken() == front
}

// Whether each call that fails is a fault of its device.
fn fails_at_each_call<T: Threads + Wait + Sync>(
    rt: &T,
    alloc: Global,
    way: Way,
    book: &Book,
) -> bool {
    for answers in 0..CALLS {
        if !source_fails(rt, alloc, way, book, answers) {
            return false;
        }
    }
    for answers in 0..117usize {
        let front = REPLIES.get(..answers).unwrap_or(BATCH);
        if !sink_fails(rt, alloc, way, book, (1, answers as u64), front) {
            return false;
        }
    }
    let front = REPLIES.get(..50).unwrap_or(BATCH);
    sink_fails(rt, alloc, way, book, (50, 1), front)
}

#[test]
fn a_device_that_fails_is_a_fault(rt: HostRuntime) -> Result<(), Fail> {
    let book = first_book_with(rt.alloc(), &[])?;
    assert!(rt; REPLIES.len() == 117);
    for way in WAYS {
        assert!(rt; fails_at_each_call(&rt, rt.alloc(), way, &book), "{way:?}");
    }
    Ok(())
}
