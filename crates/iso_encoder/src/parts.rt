ghost use Rattle.std.specs.Prelude.{◌≡◌, List, ℕ, None, if◌then◌else◌};
ghost use Rattle.iso_encoder.specs.Writing.{written_texts};
ghost use Rattle.iso_laws.specs.Spelling.{fields};
ghost use Rattle.iso_laws.specs.Messages.{mti_of, fields_of, IsMessage};
ghost use Rattle.iso_laws.specs.Replies.{reply_mti, reply_fields, IsReply};

use crate::values::{
    account_in_range, answer_in_range, original_in_range, scope_in_range, transaction_in_range,
};
use iso_laws::Mti;
use iso8583::{
    AccountId, Advice, Amount, Answer, Approval, Digits, Message, OriginalRef, Reply, Request,
    Reversal, ReversalScope, Transaction, Verdict,
};

/// What a message or a reply is written from: its type, its transaction, and elements 24, 30, 38, 39, 56 and 102 where they
/// are there.
#[derive(Clone, Copy)]
pub(crate) struct Parts<'a> {
    pub(crate) mti: Mti,
    pub(crate) transaction: &'a Transaction,
    pub(crate) function: Option<Digits<3>>,
    pub(crate) original_amount: Option<Amount>,
    pub(crate) approval: Option<Approval>,
    pub(crate) action: Option<Digits<3>>,
    pub(crate) original: Option<OriginalRef>,
    pub(crate) account: Option<AccountId>,
}

impl Parts<'_> {
    /// A transaction alone.
    fn of(mti: Mti, transaction: &Transaction) -> Parts<'_>
        ensures { result ≡ record {
          mti = mti;
          transaction = transaction.entry;
          function = None;
          original_amount = None;
          approval = None;
          action = None;
          original = None;
          account = None;
        } }
    {
        Parts {
            mti,
            transaction,
            function: None,
            original_amount: None,
            approval: None,
            action: None,
            original: None,
            account: None,
        }
    }
}

/// The parts of a request.
fn parts_of_request(request: &Request) -> Parts<'_>
    ensures mti { result.mti ≡ mti_of (Message.Request request.now) }
    ensures fields { fields (written_texts result) ≡ fields_of (Message.Request request.now) }
    ensures values { IsMessage (Message.Request request.now) }
{
    transaction_in_range(&request.transaction);
    let _ = request.function.0.as_slice();
    account_in_range(&request.account);
    let mti = if request.repeat {
        Mti::RequestRepeat
    } else {
        Mti::Request
    };
    Parts {
        function: Some(request.function.0),
        account: request.account,
        ..Parts::of(mti, &request.transaction)
    }
}

/// The parts of an advice.
fn parts_of_advice(advice: &Advice) -> Parts<'_>
    ensures mti { result.mti ≡ mti_of (Message.Advice advice.now) }
    ensures fields { fields (written_texts result) ≡ fields_of (Message.Advice advice.now) }
    ensures values { IsMessage (Message.Advice advice.now) }
{
    transaction_in_range(&advice.transaction);
    let _ = advice.function.0.as_slice();
    let _ = advice.action.code();
    account_in_range(&advice.account);
    let mti = if advice.repeat {
        Mti::AdviceRepeat
    } else {
        Mti::Advice
    };
    Parts {
        function: Some(advice.function.0),
        action: Some(advice.action.digits()),
        account: advice.account,
        ..Parts::of(mti, &advice.transaction)
    }
}

/// The parts of a reversal.
#[tactic(auto, using(iso_laws::proofs::Codes::full_text, iso_laws::proofs::Codes::partial_text))]
fn parts_of_reversal(reversal: &Reversal) -> Parts<'_>
    ensures mti { result.mti ≡ mti_of (Message.Reversal reversal.now) }
    ensures fields { fields (written_texts result) ≡ fields_of (Message.Reversal reversal.now) }
    ensures values { IsMessage (Message.Reversal reversal.now) }
{
    transaction_in_range(&reversal.transaction);
    scope_in_range(&reversal.scope);
    original_in_range(&reversal.original);
    let mti = if reversal.repeat {
        Mti::ReversalRepeat
    } else {
        Mti::Reversal
    };
    let (function, original_amount) = match &reversal.scope {
        ReversalScope::Full => (Digits::of_number(400), None),
        ReversalScope::Partial(amount) => (Digits::of_number(401), Some(*amount)),
    };
    Parts {
        function: Some(function),
        original_amount,
        original: Some(reversal.original),
        ..Parts::of(mti, &reversal.transaction)
    }
}

/// The parts of a message.
pub(crate) fn parts_of(message: &Message) -> Parts<'_>
    ensures mti { result.mti ≡ mti_of message.now }
    ensures fields { fields (written_texts result) ≡ fields_of message.now }
    ensures values { IsMessage message.now }
{
    match message {
        Message::Request(request) => parts_of_request(request),
        Message::Advice(advice) => parts_of_advice(advice),
        Message::Reversal(reversal) => parts_of_reversal(reversal),
    }
}

/// The parts of a reply.
#[tactic(auto, using(iso_laws::proofs::Codes::zero_text))]
pub(crate) fn reply_parts(reply: &Reply) -> Parts<'_>
    ensures mti { result.mti ≡ reply_mti reply.now }
    ensures fields { fields (written_texts result) ≡ reply_fields reply.now }
    ensures values { IsReply reply.now }
{
    let transaction = &reply.transaction;
    transaction_in_range(transaction);
    answer_in_range(&reply.answer);
    match &reply.answer {
        Answer::Request(Verdict::Approved(code), account) => Parts {
            approval: Some(*code),
            action: Some(Digits::of_number(0)),
            account: *account,
            ..Parts::of(Mti::RequestReply, transaction)
        },
        Answer::Request(Verdict::Declined(code), account) => Parts {
            action: Some(code.action().digits()),
            account: *account,
            ..Parts::of(Mti::RequestReply, transaction)
        },
        Answer::Advice(action, account) => Parts {
            action: Some(action.digits()),
            account: *account,
            ..Parts::of(Mti::AdviceReply, transaction)
        },
        Answer::Reversal(action) => Parts {
            action: Some(action.digits()),
            ..Parts::of(Mti::ReversalReply, transaction)
        },
    }
}
