//! The line of a body of a batch.

ghost use Rattle.std.specs.Prelude.{◌≡◌, ◌++◌, IfOk, OnOk};
ghost use Rattle.iso_laws.specs.Messages.{mti_of, transaction_of};
ghost use Rattle.iso_laws.specs.Types.{mti_text};
ghost use Rattle.file_listing.specs.Lines.{frame_line, message_words};

use crate::writing::{put_number, put_word};
use iso8583::{Message, Transaction};
use issuer_rows::Frame;
use std::alloc::{AllocError, Global};

/// The line of the body at this place of a batch, in ASCII: the place, the message's type, its amount in minor units and its trace
/// number, as `0 1100 6000 000001`. For a body that is no message: the place and the fault, as `1 F05049`. It fails only where memory
/// runs out.
pub fn frame_line(alloc: Global, place: u32, frame: &Frame) -> Result<Vec<u8>, AllocError>
    ensures { IfOk result (λ line. line.items ≡ frame_line place frame.now) }
{
    let mut line = Vec::new(alloc);
    put_number(&mut line, u64::from(place))?;
    match frame {
        Frame::Good(message) => put_message(&mut line, message)?,
        Frame::Bad(fault) => put_word(&mut line, &fault.body())?,
    }
    Ok(line)
}

/// Appends the words of a message.
fn put_message(line: &mut Vec<u8>, message: &Message) -> Result<(), AllocError>
    ensures { OnOk result (line.new.items ≡ line.old.items ++ message_words message.now) }
{
    let transaction = transaction_of(message);
    put_word(line, mti_of(message))?;
    line.push(b' ')?;
    put_number(line, transaction.amount.minor())?;
    put_word(line, transaction.stan.as_slice())
}

/// The four digits of a message's type.
fn mti_of(message: &Message) -> &[u8]
    ensures { result.now ≡ mti_text (mti_of message.now) }
{
    match message {
        Message::Request(request) if request.repeat => b"1101",
        Message::Request(_) => b"1100",
        Message::Advice(advice) if advice.repeat => b"1121",
        Message::Advice(_) => b"1120",
        Message::Reversal(reversal) if reversal.repeat => b"1421",
        Message::Reversal(_) => b"1420",
    }
}

/// The elements that each message has.
fn transaction_of(message: &Message) -> &Transaction
    ensures { result.now ≡ transaction_of message.now }
{
    match message {
        Message::Request(request) => &request.transaction,
        Message::Advice(advice) => &advice.transaction,
        Message::Reversal(reversal) => &reversal.transaction,
    }
}
