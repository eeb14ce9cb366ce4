//! Frames of a link that is cut at each place, and its faults.

ghost use Rattle.std.specs.Prelude.{◌<◌};

use crate::vectors::{FIRST, LINK, REPEAT};
use file_devices::{FailingSource, Source};
use link_frames::{Front, LinkFault, LinkReader, front_of};
use std::alloc::{AllocError, Global};

// What a link came to: the frames that were given, how many they are, and the fault that ended it, if any.
#[derive(Drop)]
struct Given {
    frames: Vec<u8>,
    count: u32,
    fault: Option<LinkFault>,
}

// Reads a link to its end, or to its first fault.
fn read<S: Source>(alloc: Global, source: &mut S, most: u32) -> Result<Given, AllocError>
    requires { 0 < most }
{
    let mut reader = LinkReader::new(alloc)?;
    let mut given = Given {
        frames: Vec::new(alloc),
        count: 0,
        fault: None,
    };
    for _ in 0..1000 {
        match reader.next(source, most) {
            Ok(0) => return Ok(given),
            Ok(count) => {
                given.frames.extend_from_slice(reader.frames())?;
                given.count = given.count.saturating_add(count);
            }
            Err(fault) => {
                given.fault = Some(fault);
                return Ok(given);
            }
        }
    }
    Ok(given)
}

// Whether all three frames are given in pieces of this size, at most so many at once.
fn is_given_whole(alloc: Global, piece: usize, most: u32) -> bool
    requires some { 0 < most }
    requires room { 0 < piece }
{
    let mut source = FailingSource::new(LINK, piece, 1000);
    match read(alloc, &mut source, most) {
        Ok(given) => {
            given.frames.as_slice() == LINK && given.count == 3 && given.fault.is_none()
        }
        Err(_) => false,
    }
}

#[test]
fn frames_are_given_whole_however_the_link_is_cut(rt: HostRuntime) {
    for piece in [1, 2, 7, 99, 100, 101, 102, 104, 105, 106, 204, 205, 206] {
        assert!(rt; is_given_whole(rt.alloc(), piece, 65_536));
        assert!(rt; is_given_whole(rt.alloc(), piece, 1));
    }
}

// Whether a link of the first request and the first bytes of the repeat's frame gives that request, and then ended within a frame.
fn ends_within(alloc: Global, size: usize) -> bool {
    let Some(front) = LINK.get(..size) else {
        return false;
    };
    let mut source = FailingSource::new(front, 7, 1000);
    match read(alloc, &mut source, 65_536) {
        Ok(given) => {
            given.frames.as_slice() == FIRST
                && given.count == 1
                && given.fault == Some(LinkFault::Ended)
        }
        Err(_) => false,
    }
}

#[test]
fn a_link_that_ends_within_a_frame_is_a_fault_behind_the_frames_before(rt: HostRuntime) {
    for size in 101..105 {
        assert!(rt; ends_within(rt.alloc(), size));
    }
}

// Whether these bytes give the first request's frame, and then this fault.
fn fails_behind_first(alloc: Global, link: &[u8], fault: LinkFault) -> bool {
    let mut source = link;
    match read(alloc, &mut source, 65_536) {
        Ok(given) => given.frames.as_slice() == FIRST && given.fault == Some(fault),
        Err(_) => false,
    }
}

#[test]
fn a_length_of_0_or_over_512_is_a_fault_behind_the_frames_before(rt: HostRuntime) {
    let none =
        b"\x00\x621100\x72\x30\x01\x01\x00\x80\x80\x00164111110000000005000000000000000100011012000000000126011012000010006123456TERM0001978\x00\x00\x00\x62";
    let many =
        b"\x00\x621100\x72\x30\x01\x01\x00\x80\x80\x00164111110000000005000000000000000100011012000000000126011012000010006123456TERM0001978\x02\x01";
    assert!(rt; fails_behind_first(rt.alloc(), none, LinkFault::Length));
    assert!(rt; fails_behind_first(rt.alloc(), many, LinkFault::Length));
}

// Whether a link whose source fails behind so many calls is one that can't be read.
fn is_unreadable(alloc: Global, answers: u64) -> bool {
    let mut source = FailingSource::new(LINK, 10, answers);
    match read(alloc, &mut source, 65_536) {
        Ok(given) => given.fault == Some(LinkFault::Unreadable),
        Err(_) => false,
    }
}

#[test]
fn a_source_that_fails_at_any_call_is_a_fault(rt: HostRuntime) {
    for answers in 0..21 {
        assert!(rt; is_unreadable(rt.alloc(), answers));
    }
}

#[test]
fn the_longest_frame_is_one(rt: HostRuntime) {
    let mut bytes = [0x31u8; 514];
    bytes[0] = 2;
    bytes[1] = 0;
    assert!(rt;
        matches!(front_of(&bytes), Front::Frame(body, behind) if body.len() == 512 && behind.is_empty())
    );
    assert!(rt; matches!(front_of(&bytes[..513]), Front::Part));
    assert!(rt; matches!(front_of(REPEAT), Front::Frame(_, _)));
}
