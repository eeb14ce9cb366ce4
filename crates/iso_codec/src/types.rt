//! Message types (ISO 8583:1993).

ghost use Rattle.std.specs.Prelude.{◌≡◌, IfErr};
ghost use Rattle.iso_codec.specs.Sides.{types_of};
ghost use Rattle.iso_laws.specs.Types.{taken_in, given_out};
ghost use Rattle.iso_laws.specs.Reading.{Gives, mti_at};

use crate::side::Side;
use crate::value_test::is_text;
use iso_laws::Mti;
use iso8583::CodecFault;

/// The type that the text names among those that are taken in, if it is one; else it is `BadMti`.
#[tactic(auto, unfolding(iso_laws::specs::Reading::mti_at))]
pub fn mti_taken_in(text: &[u8]) -> Result<Mti, CodecFault>
    ensures gives { Gives (λ t. t) result (mti_at taken_in text.now) }
    ensures fault { IfErr result (λ e. e ≡ CodecFault.BadMti) }
{
    if is_text(text, b"1100") {
        Ok(Mti::Request)
    } else if is_text(text, b"1101") {
        Ok(Mti::RequestRepeat)
    } else if is_text(text, b"1120") {
        Ok(Mti::Advice)
    } else if is_text(text, b"1121") {
        Ok(Mti::AdviceRepeat)
    } else if is_text(text, b"1420") {
        Ok(Mti::Reversal)
    } else if is_text(text, b"1421") {
        Ok(Mti::ReversalRepeat)
    } else {
        Err(CodecFault::BadMti)
    }
}

/// The type that the text names among those that are given out.
#[tactic(auto, unfolding(iso_laws::specs::Reading::mti_at))]
fn given_out(text: &[u8]) -> Result<Mti, CodecFault>
    ensures { Gives (λ t. t) result (mti_at given_out text.now) }
{
    if is_text(text, b"1110") {
        Ok(Mti::RequestReply)
    } else if is_text(text, b"1130") {
        Ok(Mti::AdviceReply)
    } else if is_text(text, b"1430") {
        Ok(Mti::ReversalReply)
    } else {
        Err(CodecFault::BadMti)
    }
}

/// The type that the text names, if messages of it are read.
pub(crate) fn mti_at(side: Side, text: &[u8]) -> Result<Mti, CodecFault>
    ensures { Gives (λ t. t) result (mti_at (types_of side) text.now) }
{
    match side {
        Side::TakenIn => mti_taken_in(text),
        Side::GivenOut => given_out(text),
    }
}
