//! Links that are read ahead, over sources that give little at once, or fail.

ghost use Rattle.std.specs.Prelude.{◌<◌};

use crate::hosts::served;
use crate::vectors::{FIRST_REPLY, LINK, REPLIES};
use file_devices::FailingSource;
use host_commands::Settings;
use issuer_rows::Book;
use std::alloc::Global;
use std::sync::Wait;
use std::test::Fail;
use std::thread::Threads;
use test_fixtures::first_book_with;

// Whether `serve` over a source that gives so many bytes at once, and fails behind so many calls, returns this status, writes this and says
// that.
fn comes_to<R: Threads + Wait + Copy + Sync>(
    rt: &R,
    alloc: Global,
    book: &Book,
    piece: usize,
    answers: u64,
    outcome: (u8, &[u8], &[u8]),
) -> bool
    requires { 0 < piece }
{
    let mut source = FailingSource::new(LINK, piece, answers);
    match served(
        rt,
        alloc,
        book,
        Vec::new(alloc),
        "book",
        Settings::plain(),
        &mut source,
    ) {
        Some((status, replies, said)) => {
            status == outcome.0 && replies.as_slice() == outcome.1 && said.as_slice() == outcome.2
        }
        None => false,
    }
}

#[test]
fn a_link_is_served_in_any_pieces(rt: HostRuntime) -> Result<(), Fail> {
    let book = first_book_with(rt.alloc(), &[])?;
    for piece in [1, 7, 100, 1000] {
        assert!(rt;
            comes_to(
                &rt,
                rt.alloc(),
                &book,
                piece,
                1000,
                (0, REPLIES, b"unreadable 1 F01000\n")
            )
        );
    }
    Ok(())
}

// The first frame has 100 bytes.
#[test]
fn what_came_before_a_failed_read_is_answered(rt: HostRuntime) -> Result<(), Fail> {
    let book = first_book_with(rt.alloc(), &[])?;
    assert!(rt; comes_to(&rt, rt.alloc(), &book, 10, 0, (1, b"", b"link 4\n")));
    assert!(rt; comes_to(&rt, rt.alloc(), &book, 10, 9, (1, b"", b"link 4\n")));
    assert!(rt;
        comes_to(
            &rt,
            rt.alloc(),
            &book,
            10,
            12,
            (1, FIRST_REPLY, b"unreadable 1 F01000\nlink 4\n")
        )
    );
    Ok(())
}
