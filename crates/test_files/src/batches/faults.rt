//! Files that are refused, each with its first fault.

use crate::batches::texts::{BAD_BATCHES, BAD_REPLIES, BATCH};
use file_batch::{BatchFault, read_batch, read_replies, write_batch};
use file_devices::IntoWrite;
use std::alloc::{AllocError, Global};

fn batch_fault(alloc: Global, bytes: &[u8]) -> Option<BatchFault> {
    let mut source = bytes;
    read_batch(alloc, &mut source).err()
}

fn reply_fault(alloc: Global, bytes: &[u8]) -> Option<BatchFault> {
    let mut source = bytes;
    read_replies(alloc, &mut source).err()
}

#[test]
fn every_cut_ends_within_a_field(rt: HostRuntime) {
    assert!(rt; BATCH.len() == 110);
    for length in 0..110usize {
        let front = BATCH.get(..length).unwrap_or(BATCH);
        assert!(rt;
            batch_fault(rt.alloc(), front) == Some(BatchFault::Ended),
            "{length}"
        );
    }
    assert!(rt; batch_fault(rt.alloc(), BATCH).is_none());
}

#[test]
fn the_first_fault_is_named(rt: HostRuntime) {
    for (bytes, fault) in BAD_BATCHES {
        assert!(rt; batch_fault(rt.alloc(), bytes) == Some(*fault), "{bytes:?}");
    }
    for (bytes, fault) in BAD_REPLIES {
        assert!(rt; reply_fault(rt.alloc(), bytes) == Some(*fault), "{bytes:?}");
    }
}

// Whether a body of this length is not written behind one of a byte, and nothing is.
fn is_refused(alloc: Global, length: usize) -> Result<bool, AllocError> {
    let mut bodies = Vec::new(alloc);
    bodies.push(vec![in alloc; b'1'; 1]?)?;
    bodies.push(vec![in alloc; b'1'; length]?)?;
    let mut sink = IntoWrite::new(Vec::new(alloc));
    let written = write_batch(alloc, &bodies, &mut sink);
    Ok(written == Err(BatchFault::Length) && sink.writer().is_empty())
}

#[test]
fn bodies_of_other_lengths_are_not_written(rt: HostRuntime) {
    assert!(rt; matches!(is_refused(rt.alloc(), 0), Ok(true)));
    assert!(rt; matches!(is_refused(rt.alloc(), 513), Ok(true)));
}

#[test]
fn faults_are_numbered_and_printed(rt: HostRuntime) {
    let fault = BatchFault::Body(3);
    assert!(rt; fault.number() == 9);
    let text = format!(in rt.alloc(); "{fault}").expect(&rt, "room");
    assert!(rt; text.as_str() == "body 3 is no reply and no fault");
}
