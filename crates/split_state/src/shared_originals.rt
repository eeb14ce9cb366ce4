use iso8583::{Identity, Message};
use issuer_rows::Frame;
use std::alloc::{AllocError, Global};

// There are 64 bits for each so many bodies: so few of them fall on one bit by chance.
const BODIES: usize = 4;

/// Which originals more than one body of a batch names. It is a hint, by a bit of each original's identity: one that a single body names
/// may be taken for shared, where its bit is another one's too. Any answer is right.
#[derive(Drop)]
pub(crate) struct SharedOriginals {
    bits: Vec<u64>,
}

impl SharedOriginals {
    // Those of these bodies.
    pub(crate) fn of(alloc: Global, frames: &[Frame]) -> Result<SharedOriginals, AllocError> {
        let words = (frames.len() / BODIES).next_power_of_two();
        let mut named = vec![in alloc; 0u64; words]?;
        let mut bits = vec![in alloc; 0u64; words]?;
        for frame in frames {
            if let Some(identity) = original_of(frame) {
                let (word, bit) = place_of(&identity, words);
                mark(&mut named, &mut bits, word, bit);
            }
        }
        Ok(SharedOriginals { bits })
    }

    // Whether another body names this original too, as far as its bit shows.
    pub(crate) fn has(&self, identity: &Identity) -> bool {
        let (word, bit) = place_of(identity, self.bits.len());
        match self.bits.get(word) {
            Some(bits) => bits & bit != 0,
            None => true,
        }
    }
}

// The original that a body names: a request or an advice is one, a reversal is of one.
fn original_of(frame: &Frame) -> Option<Identity> {
    match frame {
        Frame::Good(Message::Request(request)) => Some(request.transaction.identity()),
        Frame::Good(Message::Advice(advice)) => Some(advice.transaction.identity()),
        Frame::Good(Message::Reversal(reversal)) => Some(reversal.original.identity),
        Frame::Bad(_) => None,
    }
}

// Which bit of so many words is the identity's: determined by its trace number and the last characters of its acquirer, in which
// identities differ most.
fn place_of(identity: &Identity, words: usize) -> (usize, u64) {
    let acquirer = identity.acquirer.as_str().as_bytes().iter().rev().take(4);
    let trace = identity.stan.as_str().as_bytes().iter();
    let mut number = 0u64;
    for byte in acquirer.chain(trace) {
        number = number.wrapping_mul(10).wrapping_add(u64::from(*byte));
    }
    let word = (number / 64) as usize & words.wrapping_sub(1);
    (word, 1 << (number % 64))
}

// Marks a bit as named, or as shared where it was named before.
fn mark(named: &mut [u64], shared: &mut [u64], word: usize, bit: u64) {
    let (Some(named), Some(shared)) = (named.get_mut(word), shared.get_mut(word)) else {
        return;
    };
    *shared |= *named & bit;
    *named |= bit;
}
