use crate::advice_words::AdviceWords;
use crate::fault_words::FaultWords;
use crate::request_words::RequestWords;
use crate::reversal_words::ReversalWords;
use iso8583::Message;
use issuer_rows::Frame;
use std::fmt;

/// A body for people: its message, with card numbers masked, or why it is none.
#[derive(Clone, Copy)]
pub struct FrameWords<'a>(pub &'a Frame);

impl fmt::Display for FrameWords<'_> {
    ghost use Rattle.std.specs.Prelude.{Some};
    ghost use Rattle.reason_text.specs.Words.{frame_words};

    ghost output = { λ words. Some (frame_words words.0.now) };

    fn fmt<W: fmt::Write>(&self, f: &mut fmt::Formatter<W>) -> fmt::Result {
        match self.0 {
            Frame::Good(Message::Request(request)) => RequestWords(request).fmt(f),
            Frame::Good(Message::Advice(advice)) => AdviceWords(advice).fmt(f),
            Frame::Good(Message::Reversal(reversal)) => ReversalWords(reversal).fmt(f),
            Frame::Bad(fault) => {
                let fault = FaultWords(*fault);
                write!(f, "no message: {fault}")
            }
        }
    }
}
