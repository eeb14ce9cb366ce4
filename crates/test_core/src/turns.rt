//! Turns of three workers in every order, on three requests of one card: the core commits the same.

ghost use Rattle.std.specs.Prelude.{◌≤◌};

use crate::journal_answers::{frames_of, is_answer};
use crate::journal_scripts::{JournalScript, comes_late, waits};
use issuer_fold::Prefix;
use issuer_rows::{Book, Frame};
use std::alloc::{AllocError, Global};
use std::process::Abort;
use std::test::Fail;
use stm_core_laws::Seat;
use stm_journal::{Event, Traced, drive};
use test_fixtures::first_book_with;

// How many turns are chosen, in every way. Turns of the three seats in their order follow, as many as are allowed in all.
const CHOSEN: usize = 10;

const ALLOWED: usize = 3000;

// The turns are chosen in 59,049 ways, a third of them in each test.
const THIRD: u32 = 19_683;

// One of three seats.
fn seat(number: u32) -> Seat {
    Seat::new(number % 3).unwrap_or(Seat::first())
}

// The three seats in their order, as many turns as are allowed.
fn turns_in_order(alloc: Global) -> Result<Vec<Seat>, AllocError> {
    let mut turns = Vec::with_capacity(alloc, ALLOWED)?;
    for place in 0..ALLOWED as u32 {
        turns.push(seat(place))?;
    }
    Ok(turns)
}

// Writes the ten turns of this number at the front: its digits to the base of three.
fn choose(turns: &mut [Seat], number: u32) {
    let mut rest = number;
    for place in 0..CHOSEN {
        if let Some(turn) = turns.get_mut(place) {
            *turn = seat(rest);
        }
        rest /= 3;
    }
}

// Whether the committed replies are the first of these answers.
fn are_first(alloc: Global, prefix: &Prefix, answers: &[&str; 3]) -> bool {
    if prefix.count as usize != prefix.replies.len() || prefix.replies.len() > answers.len() {
        return false;
    }
    for (reply, answer) in prefix.replies.iter().zip(answers) {
        if !is_answer(alloc, reply, answer) {
            return false;
        }
    }
    true
}

// How many replies are committed, where they are the first of these answers.
fn committed(alloc: Global, traced: Traced, answers: &[&str; 3]) -> Option<usize> {
    let (core, _) = traced.into_parts();
    let prefix = core.into_prefix(alloc).ok()?;
    are_first(alloc, &prefix, answers).then_some(prefix.replies.len())
}

// Whether the last entry of this seat is a claim that was answered that nothing is to be done any more.
fn has_ended(traced: &Traced, seat: Seat) -> bool {
    let mut ended = false;
    for entry in traced.entries() {
        if entry.seat == seat {
            ended = entry.event == Event::Claim;
        }
    }
    ended
}

// Whether the replies that are committed after these turns begin the answers.
fn begins(
    alloc: Global,
    book: &Book,
    frames: &[Frame; 3],
    turns: &[Seat],
    answers: &[&str; 3],
) -> bool {
    match drive(alloc, book, frames, turns) {
        Ok(traced) => committed(alloc, traced, answers).is_some(),
        Err(_) => false,
    }
}

// Whether the replies that are committed after these turns are the answers, and each worker has ended.
fn comes_to_its_end(
    alloc: Global,
    book: &Book,
    frames: &[Frame; 3],
    turns: &[Seat],
    answers: &[&str; 3],
) -> bool {
    match drive(alloc, book, frames, turns) {
        Ok(traced) => {
            has_ended(&traced, seat(0))
                & has_ended(&traced, seat(1))
                & has_ended(&traced, seat(2))
                & (committed(alloc, traced, answers) == Some(3))
        }
        Err(_) => false,
    }
}

// The number of the first list of turns that comes to anything else, from this one on, of a third of all.
fn first_wrong(
    alloc: Global,
    book: &Book,
    frames: &[Frame; 3],
    turns: &mut [Seat],
    answers: &[&str; 3],
    first: u32,
) -> Option<u32>
    requires { first ≤ 39366 }
{
    for number in first..first + THIRD {
        choose(turns, number);
        let chosen = turns.get(..CHOSEN).unwrap_or(&[]);
        if !(begins(alloc, book, frames, chosen, answers)
            & comes_to_its_end(alloc, book, frames, turns, answers))
        {
            return Some(number);
        }
    }
    None
}

fn assert_driven(
    rt: &impl Abort,
    alloc: Global,
    script: &JournalScript,
    first: u32,
) -> Result<(), Fail>
    requires { first ≤ 39366 }
{
    let book = first_book_with(alloc, &[])?;
    let frames = frames_of(&script.bodies).expect(rt, "three requests");
    let mut turns = turns_in_order(alloc).expect(rt, "room");
    let wrong = first_wrong(alloc, &book, &frames, &mut turns, &script.answers, first);
    assert!(rt; wrong.is_none(), "turns {wrong:?}");
    Ok(())
}

#[test]
fn requests_that_share_a_card_in_the_first_third(rt: HostRuntime) -> Result<(), Fail> {
    assert_driven(&rt, rt.alloc(), waits(), 0)
}

#[test]
fn requests_that_share_a_card_in_the_second_third(rt: HostRuntime) -> Result<(), Fail> {
    assert_driven(&rt, rt.alloc(), waits(), THIRD)
}

#[test]
fn requests_that_share_a_card_in_the_last_third(rt: HostRuntime) -> Result<(), Fail> {
    assert_driven(&rt, rt.alloc(), waits(), 2 * THIRD)
}

#[test]
fn the_first_takes_all_in_the_first_third(rt: HostRuntime) -> Result<(), Fail> {
    assert_driven(&rt, rt.alloc(), comes_late(), 0)
}

#[test]
fn the_first_takes_all_in_the_second_third(rt: HostRuntime) -> Result<(), Fail> {
    assert_driven(&rt, rt.alloc(), comes_late(), THIRD)
}

#[test]
fn the_first_takes_all_in_the_last_third(rt: HostRuntime) -> Result<(), Fail> {
    assert_driven(&rt, rt.alloc(), comes_late(), 2 * THIRD)
}
