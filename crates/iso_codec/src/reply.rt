//! Replies from the texts of their elements.

ghost use Rattle.std.specs.Prelude.{◌≡◌, Some, Ok, IfSome, is_some, option_map};
ghost use Rattle.iso_codec.specs.Texts.{texts_of};
ghost use Rattle.iso_laws.specs.Replies.{verdict_from, reply_from};
ghost use Rattle.iso_laws.specs.Elements.{IsText, parts_of};
ghost use Rattle.iso_laws.specs.Forms.{HasForm, AreKnown, AreTextsOf};
ghost use Rattle.iso_laws.specs.Reading.{verdict_at};
ghost use Rattle.iso_laws.specs.Types.{given_out};

use crate::message::transaction_of;
use crate::texts::Texts;
use crate::values;
use iso_laws::{Element, Mti};
use iso8583::{Alphanumeric, Answer, Approval, DeclineCode, Reply, Verdict};

/// The answer that elements 38 and 39 say.
#[tactic(auto, using(iso_laws::proofs::Rules::is_declined))]
fn verdict_of(approval: Option<&[u8; 6]>, action: &[u8; 3]) -> Verdict
    requires approval { IfSome (option_map (λ t. t.now) approval) (IsText Element.Approval) }
    requires action { IsText Element.Action action.now }
    requires verdict { verdict_at (is_some (option_map (λ t. t.now) approval)) action.now ≡ Ok tt }
    ensures { result ≡ verdict_from (option_map (λ t. t.now) approval.entry) (Some action.now) }
{
    if let Some(code) = approval {
        return Verdict::Approved(Approval(Alphanumeric::of_text(code)));
    }
    let Some(code) = DeclineCode::new(values::action(action)) else {
        unreachable!()
    };
    Verdict::Declined(code)
}

/// The reply to a request with these elements, 1110.
fn request_reply_of(texts: &Texts) -> Reply
    requires known { AreKnown (texts_of texts.now) }
    requires form { HasForm (parts_of Mti.RequestReply) (texts_of texts.now) }
    ensures { result ≡ reply_from Mti.RequestReply (texts_of texts.now) }
{
    let Some(action) = texts.action else {
        unreachable!()
    };
    Reply {
        transaction: transaction_of(texts),
        answer: Answer::Request(
            verdict_of(texts.approval, action),
            values::account(texts.account),
        ),
    }
}

/// The reply to an advice with these elements, 1130.
fn advice_reply_of(texts: &Texts) -> Reply
    requires known { AreKnown (texts_of texts.now) }
    requires form { HasForm (parts_of Mti.AdviceReply) (texts_of texts.now) }
    ensures { result ≡ reply_from Mti.AdviceReply (texts_of texts.now) }
{
    let Some(action) = texts.action else {
        unreachable!()
    };
    Reply {
        transaction: transaction_of(texts),
        answer: Answer::Advice(values::action(action), values::account(texts.account)),
    }
}

/// The reply to a reversal with these elements, 1430.
fn reversal_reply_of(texts: &Texts) -> Reply
    requires known { AreKnown (texts_of texts.now) }
    requires form { HasForm (parts_of Mti.ReversalReply) (texts_of texts.now) }
    ensures { result ≡ reply_from Mti.ReversalReply (texts_of texts.now) }
{
    let Some(action) = texts.action else {
        unreachable!()
    };
    Reply {
        transaction: transaction_of(texts),
        answer: Answer::Reversal(values::action(action)),
    }
}

/// The reply of a type that is given out, with these elements.
pub(crate) fn reply_of(mti: Mti, texts: &Texts) -> Reply
    requires { AreTextsOf given_out mti (texts_of texts.now) }
    ensures { result ≡ reply_from mti (texts_of texts.now) }
{
    match mti {
        Mti::RequestReply => request_reply_of(texts),
        Mti::AdviceReply => advice_reply_of(texts),
        Mti::ReversalReply => reversal_reply_of(texts),
        _ => unreachable!(),
    }
}
