//! The order of texts of one length, eight or four bytes at a time.

ghost use Rattle.std.specs.Prelude.{◌≡◌, ◌+◌, ◌<◌, ◌≤◌, length, take, drop};
ghost use Rattle.std.specs.Cmp.Lexicographic.{slice_cmp};
ghost use Rattle.std.specs.Ordering.{nat_cmp};

use std::cmp::Ordering;

// Which of two texts of one length comes first.
#[inline(always)]
pub(crate) fn order(a: &[u8], b: &[u8]) -> Ordering
    requires same { length a.now ≡ length b.now }
    ensures { result ≡ slice_cmp nat_cmp a.now b.now }
{
    if a.len() < 8 {
        return order_short(a, b);
    }
    if a.len() > 32 {
        return a.cmp(b);
    }
    let last = a.len() - 8;
    match order_eight(a, b, 0) {
        Ordering::Equal => {}
        unequal => return unequal,
    }
    match order_eight(a, b, last.min(8)) {
        Ordering::Equal => {}
        unequal => return unequal,
    }
    match order_eight(a, b, last.min(16)) {
        Ordering::Equal => {}
        unequal => return unequal,
    }
    order_eight(a, b, last)
}

// Which of two texts of one length below 8 comes first.
#[inline(always)]
fn order_short(a: &[u8], b: &[u8]) -> Ordering
    requires same { length a.now ≡ length b.now }
    requires short { length a.now < 8 }
    ensures { result ≡ slice_cmp nat_cmp a.now b.now }
{
    if a.len() < 4 {
        return a.cmp(b);
    }
    match order_four(a, b, 0) {
        Ordering::Equal => order_four(a, b, a.len() - 4),
        unequal => unequal,
    }
}

// Which comes first by the eight bytes from a place on.
#[inline(always)]
fn order_eight(a: &[u8], b: &[u8], place: usize) -> Ordering
    requires mine { place + 8 ≤ length a.now }
    requires theirs { place + 8 ≤ length b.now }
    ensures { result ≡ slice_cmp nat_cmp (take 8 (drop place a.now)) (take 8 (drop place b.now)) }
{
    let (_, mine) = a.split_at(place);
    let (_, theirs) = b.split_at(place);
    match (mine.first_chunk::<8>(), theirs.first_chunk::<8>()) {
        (Some(mine), Some(theirs)) => {
            order_numbers(u64::from_be_bytes(*mine), u64::from_be_bytes(*theirs))
        }
        _ => unreachable!(),
    }
}

// Which comes first by the four bytes from a place on.
#[inline(always)]
fn order_four(a: &[u8], b: &[u8], place: usize) -> Ordering
    requires mine { place + 4 ≤ length a.now }
    requires theirs { place + 4 ≤ length b.now }
    ensures { result ≡ slice_cmp nat_cmp (take 4 (drop place a.now)) (take 4 (drop place b.now)) }
{
    let (_, mine) = a.split_at(place);
    let (_, theirs) = b.split_at(place);
    match (mine.first_chunk::<4>(), theirs.first_chunk::<4>()) {
        (Some(mine), Some(theirs)) => {
            let (mine, theirs) = (u32::from_be_bytes(*mine), u32::from_be_bytes(*theirs));
            order_numbers(u64::from(mine), u64::from(theirs))
        }
        _ => unreachable!(),
    }
}

// Which of two numbers comes first. That they are the same is tested first: it needs no turning of bytes.
#[inline(always)]
fn order_numbers(mine: u64, theirs: u64) -> Ordering
    ensures { result ≡ nat_cmp mine theirs }
{
    if mine == theirs {
        Ordering::Equal
    } else {
        mine.cmp(&theirs)
    }
}
