ghost use Rattle.std.specs.Prelude.{◌≡◌, Some, IfSome, IfNone};
ghost use Rattle.issuer_words.specs.Words.{CodecFault, IsOfFrame, ReplyBody, element_of_fault, number_of_fault};
ghost use Rattle.issuer_rows.specs.declared.reply_body.ReplyBody.TheVariants.{Fault};
ghost use Rattle.file_laws.specs.Replies.{IsReplyText};

use iso_codec::decode_reply;
use iso8583::{CodecFault, is_digits, number_of};
use issuer_rows::{FrameFault, ReplyBody};

// The fault of this number and this element, if it has one.
fn fault_numbered(number: u64, element: u8) -> Option<FrameFault>
    ensures { (fault : CodecFault) → IsOfFrame fault → number_of_fault fault ≡ number → element_of_fault fault ≡ element → result ≡ Some fault }
{
    let fault = match number {
        1 => CodecFault::Short(element),
        2 => CodecFault::BadMti,
        3 => CodecFault::SecondaryBitmap,
        4 => CodecFault::Unexpected(element),
        5 => CodecFault::Missing(element),
        6 => CodecFault::BadLength(element),
        7 => CodecFault::BadCharacter(element),
        8 => CodecFault::Trailing,
        9 => CodecFault::BadValue(element),
        _ => return None,
    };
    FrameFault::new(fault)
}

// The fault that two digits of number and three of element name, if they name one.
fn fault_named(body: &[u8]) -> Option<FrameFault>
    ensures { (fault : CodecFault) → IsReplyText body.now (ReplyBody.Fault fault) → result ≡ Some fault }
{
    if body.len() != 6 || !is_digits(&body[1..]) {
        return None;
    }
    let Ok(element) = u8::try_from(number_of(&body[3..])) else {
        return None;
    };
    fault_numbered(number_of(&body[1..3]), element)
}

// The fault whose text the body is.
fn fault_of(body: &[u8]) -> Option<FrameFault>
    ensures found { IfSome result (λ fault. IsReplyText body.now (ReplyBody.Fault fault)) }
    ensures none { IfNone result ((fault : CodecFault) → ¬ IsReplyText body.now (ReplyBody.Fault fault)) }
{
    let fault = fault_named(body)?;
    if fault.body().as_slice() == body {
        Some(fault)
    } else {
        None
    }
}

/// The reply or the fault whose text the body is, if it is one.
pub fn reply_of(body: &[u8]) -> Option<ReplyBody>
    ensures found { IfSome result (IsReplyText body.now) }
    ensures none { IfNone result ((reply : ReplyBody) → ¬ IsReplyText body.now reply) }
{
    match body.split_first() {
        Some((b'R', spelling)) => match decode_reply(spelling) {
            Ok(reply) => Some(ReplyBody::Reply(reply)),
            Err(_) => None,
        },
        Some((b'F', _)) => match fault_of(body) {
            Some(fault) => Some(ReplyBody::Fault(fault)),
            None => None,
        },
        _ => None,
    }
}
