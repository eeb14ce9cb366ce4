ghost use Rattle.std.specs.Prelude.{◌≡◌, ◌≢◌, IfOk, IfErr};
ghost use Rattle.iso8583.specs.declared.message.Message.{Message};
ghost use Rattle.iso8583.specs.declared.reply.Reply.{Reply};
ghost use Rattle.iso_laws.specs.Types.{taken_in, given_out};
ghost use Rattle.iso_laws.specs.Messages.{mti_of, fields_of, IsMessage, Spells};
ghost use Rattle.iso_laws.specs.Replies.{reply_mti, reply_fields, IsReply, SpellsReply};
ghost use Rattle.iso_laws.specs.Reading.{Gives, reading};

use crate::message::message_of;
use crate::reply::reply_of;
use crate::side::Side;
use crate::texts::texts_at;
use iso8583::{CodecFault, Message, Reply};

fn message_at(bytes: &[u8]) -> Result<Message, CodecFault>
    ensures gives { Gives (λ m. (mti_of m, fields_of m)) result (reading taken_in bytes.now) }
    ensures values { IfOk result IsMessage }
{
    match texts_at(Side::TakenIn, bytes) {
        Ok((mti, texts)) => Ok(message_of(mti, &texts)),
        Err(fault) => Err(fault),
    }
}

/// The message that the bytes spell, all of the bytes (ISO 8583:1993: 1100, 1101, 1120, 1121, 1420 and 1421),
/// else the first fault: of the type, of the bitmap, then of the elements from the left. It takes no memory.
pub fn decode(bytes: &[u8]) -> Result<Message, CodecFault>
    // What is read is spelled so.
    ensures found { IfOk result (Spells bytes.now) }
    // What is spelled so is read.
    ensures only { (m : Message) → Spells bytes.now m → result ≡ Ok m }
    // Which fault it is: the elements as they are read from the left, or the first fault.
    ensures exact { Gives (λ m. (mti_of m, fields_of m)) result (reading taken_in bytes.now) }
    ensures no_memory { IfErr result (λ e. e ≢ CodecFault.OutOfMemory) }
{
    message_at(bytes)
}

fn reply_at(bytes: &[u8]) -> Result<Reply, CodecFault>
    ensures gives { Gives (λ r. (reply_mti r, reply_fields r)) result (reading given_out bytes.now) }
    ensures values { IfOk result IsReply }
{
    match texts_at(Side::GivenOut, bytes) {
        Ok((mti, texts)) => Ok(reply_of(mti, &texts)),
        Err(fault) => Err(fault),
    }
}

/// The reply that the bytes spell, all of the bytes (ISO 8583:1993: 1110, 1130 and 1430), else the first
/// fault: of the type, of the bitmap, then of the elements from the left. It takes no memory.
pub fn decode_reply(bytes: &[u8]) -> Result<Reply, CodecFault>
    // What is read is spelled so.
    ensures found { IfOk result (SpellsReply bytes.now) }
    // What is spelled so is read.
    ensures only { (r : Reply) → SpellsReply bytes.now r → result ≡ Ok r }
    // Which fault it is: the elements as they are read from the left, or the first fault.
    ensures exact { Gives (λ r. (reply_mti r, reply_fields r)) result (reading given_out bytes.now) }
    ensures no_memory { IfErr result (λ e. e ≢ CodecFault.OutOfMemory) }
{
    reply_at(bytes)
}
