use crate::body_words::BodyWords;
use file_listing::{BlockPlace, WrongBlock};
use std::fmt;

/// Which block is wrong, and why.
#[derive(Clone, Copy)]
pub struct BlockWords(pub BlockPlace);

impl fmt::Display for BlockWords {
    ghost use Rattle.std.specs.Prelude.{Some};
    ghost use Rattle.app_reasons.specs.Words.{block_words};

    ghost output = { λ words. Some (block_words words.0) };

    fn fmt<W: fmt::Write>(&self, f: &mut fmt::Formatter<W>) -> fmt::Result {
        let (number, of, at) = (self.0.number, self.0.of, self.0.at);
        match self.0.wrong {
            WrongBlock::TooMany(count) => write!(
                f,
                "block {number} at byte {at}: {count} bodies, where at most 65536 are allowed"
            ),
            WrongBlock::Ends => write!(
                f,
                "block {number} at byte {at}: the file ends within its count, {number} of {of} blocks are whole"
            ),
            WrongBlock::Body(body) => {
                let body = BodyWords(body);
                write!(f, "block {number}, {body}")
            }
        }
    }
}
