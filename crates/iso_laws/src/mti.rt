ghost use Rattle.std.specs.Prelude.{◌≡◌};
ghost use Rattle.iso_laws.specs.Types.{may_have, must_have};

use crate::element::Element;

/// A message type identifier (ISO 8583:1993).
#[derive(Clone, Copy)]
pub enum Mti {
    /// 1100, authorization request.
    Request,
    /// 1101, authorization request repeat.
    RequestRepeat,
    /// 1110, authorization request response.
    RequestReply,
    /// 1120, authorization advice.
    Advice,
    /// 1121, authorization advice repeat.
    AdviceRepeat,
    /// 1130, authorization advice response.
    AdviceReply,
    /// 1420, reversal advice.
    Reversal,
    /// 1421, reversal advice repeat.
    ReversalRepeat,
    /// 1430, reversal advice response.
    ReversalReply,
}

/// The elements that every message and every reply has, as bits: 2, 3, 4, 7, 11, 12, 32, 41 and 49.
pub const COMMON: u128 = 0x7230_0001_0080_8000 << 64;

impl Mti {
    /// The elements that each message of the type has, as bits of which bit 1 is the highest of 128.
    pub fn must_have(self) -> u128
        ensures { result ≡ must_have self }
    {
        COMMON
            + match self {
                Mti::Request | Mti::RequestRepeat => Element::Function.bit(),
                Mti::Advice | Mti::AdviceRepeat => Element::Function.bit() + Element::Action.bit(),
                Mti::Reversal | Mti::ReversalRepeat => {
                    Element::Function.bit() + Element::Original.bit()
                }
                Mti::RequestReply | Mti::AdviceReply | Mti::ReversalReply => Element::Action.bit(),
            }
    }

    /// The elements that a message of the type may have, as such bits.
    pub fn may_have(self) -> u128
        ensures { result ≡ may_have self }
    {
        self.must_have()
            + Element::Retrieval.bit()
            + match self {
                Mti::Request
                | Mti::RequestRepeat
                | Mti::Advice
                | Mti::AdviceRepeat
                | Mti::AdviceReply => Element::Account.bit(),
                Mti::RequestReply => Element::Approval.bit() + Element::Account.bit(),
                Mti::Reversal | Mti::ReversalRepeat => Element::OriginalAmount.bit(),
                Mti::ReversalReply => 0,
            }
    }
}
