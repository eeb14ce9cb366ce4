//! Each form is read as its message or reply, and written again.

use crate::forms::{Form, Kind, form_at, forms};
use iso_codec::{decode, decode_reply, encode, encode_reply};
use iso8583::{
    AccountId, Acquirer, Action, Amount, Answer, Approval, CodecFault, Currency, FunctionCode,
    LocalStamp, Message, OriginalKind, OriginalRef, Pan, Processing, Reply, Retrieval,
    ReversalScope, Stan, Terminal, Transaction, Transmission, Verdict,
};

/// Whether it is the transaction of every form: 1.00 on a card of sixteen digits.
fn is_transaction(form: &Form, retrieval: bool, read: &Transaction) -> bool {
    (Some(read.pan) == Pan::new(b"4111110000000005"))
        & (Some(read.processing) == Processing::new(b"000000"))
        & (Some(read.amount) == Amount::new(100))
        & (Some(read.transmission) == Transmission::new(b"0110120000"))
        & (Some(read.stan) == Stan::new(form.stan))
        & (Some(read.stamp) == LocalStamp::new(b"260110120000"))
        & (Some(read.acquirer) == Acquirer::new(b"123456"))
        & is_retrieval(retrieval, read.retrieval)
        & (Some(read.terminal) == Terminal::new(b"TERM0001"))
        & (Some(read.currency) == Currency::new(b"978"))
}

/// Whether it is element 37, or none.
fn is_retrieval(retrieval: bool, read: Option<Retrieval>) -> bool {
    if retrieval {
        read.is_some() && read == Retrieval::new(b"ABC 12345678")
    } else {
        read.is_none()
    }
}

/// Whether it is element 102 of the form, or none.
fn is_account(form: &Form, read: Option<AccountId>) -> bool {
    match form.account.get(2..) {
        Some(name) => read.is_some() && read == AccountId::new(name),
        None => read.is_none(),
    }
}

/// Whether it is the original that each reversal names.
fn is_original(read: &OriginalRef) -> bool {
    read.kind == OriginalKind::Request
        && !read.repeat
        && Some(read.identity.acquirer) == Acquirer::new(b"123456")
        && Some(read.identity.stan) == Stan::new(b"000001")
        && Some(read.identity.stamp) == LocalStamp::new(b"260110120000")
}

/// Whether it is what the reversal takes back.
fn is_scope(form: &Form, read: ReversalScope) -> bool {
    match read {
        ReversalScope::Full => form.kind == Kind::FullReversal,
        ReversalScope::Partial(all) => {
            form.kind == Kind::PartialReversal && Some(all) == Amount::new(250)
        }
    }
}

/// Whether it is the message that a form spells.
fn is_message(form: &Form, retrieval: bool, read: &Message) -> bool {
    match read {
        Message::Request(request) => {
            form.kind == Kind::Request
                && request.repeat == form.repeat
                && Some(request.function) == FunctionCode::new(b"100")
                && is_account(form, request.account)
                && is_transaction(form, retrieval, &request.transaction)
        }
        Message::Advice(advice) => {
            form.kind == Kind::Advice
                && advice.repeat == form.repeat
                && Some(advice.function) == FunctionCode::new(b"100")
                && Some(advice.action) == Action::new(0)
                && is_account(form, advice.account)
                && is_transaction(form, retrieval, &advice.transaction)
        }
        Message::Reversal(reversal) => {
            reversal.repeat == form.repeat
                && is_scope(form, reversal.scope)
                && is_original(&reversal.original)
                && is_transaction(form, retrieval, &reversal.transaction)
        }
    }
}

/// Whether it is the answer that a form spells.
fn is_answer(form: &Form, read: &Answer) -> bool {
    match read {
        Answer::Request(Verdict::Approved(code), account) => {
            form.kind == Kind::Approved
                && Some(*code) == Approval::new(b"000001")
                && is_account(form, *account)
        }
        Answer::Request(Verdict::Declined(code), account) => {
            form.kind == Kind::Declined && code.action().code() == 116 && is_account(form, *account)
        }
        Answer::Advice(action, account) => {
            form.kind == Kind::AdviceReply && action.code() == 901 && is_account(form, *account)
        }
        Answer::Reversal(action) => form.kind == Kind::ReversalReply && action.code() == 400,
    }
}

/// Whether a text is read as the reply that its form spells, and written again behind what is there.
fn is_kept_reply(form: &Form, retrieval: bool, text: &[u8], out: &mut Vec<u8>) -> bool {
    match decode_reply(text) {
        Ok(reply) => {
            is_answer(form, &reply.answer)
                & is_transaction(form, retrieval, &reply.transaction)
                & matches!(decode(text), Err(CodecFault::BadMti))
                & encode_reply(&reply, out).is_ok()
        }
        Err(_) => false,
    }
}

/// The same of a message.
fn is_kept_message(form: &Form, retrieval: bool, text: &[u8], out: &mut Vec<u8>) -> bool {
    match decode(text) {
        Ok(message) => {
            is_message(form, retrieval, &message)
                & matches!(decode_reply(text), Err(CodecFault::BadMti))
                & encode(&message, out).is_ok()
        }
        Err(_) => false,
    }
}

/// Whether the form's text has its size, is read as what the form spells, and is written again.
fn is_round(form: &Form, retrieval: bool, text: &mut Vec<u8>, out: &mut Vec<u8>) -> bool {
    out.clear();
    let is_put = form.put(retrieval, text) & out.extend_from_slice(b"before").is_ok();
    let is_kept = if form.is_reply() {
        is_kept_reply(form, retrieval, text, out)
    } else {
        is_kept_message(form, retrieval, text, out)
    };
    let more = if retrieval { 12 } else { 0 };
    is_put
        & is_kept
        & (text.len() == form.size.saturating_add(more))
        & (out.get(6..) == Some(text.as_slice()))
}

/// The first form that isn't read and written, without element 37 and with it.
fn first_unkept(text: &mut Vec<u8>, out: &mut Vec<u8>) -> Option<usize> {
    for (place, form) in forms().iter().enumerate() {
        if !(is_round(form, false, text, out) & is_round(form, true, text, out)) {
            return Some(place);
        }
    }
    None
}

/// Spellings of element 56, and the type of the original that each names.
const ORIGINALS: &[(&[u8], OriginalKind, bool)] = &[
    (
        b"30110000000126011012000006123456",
        OriginalKind::Request,
        false,
    ),
    (
        b"30110100000126011012000006123456",
        OriginalKind::Request,
        true,
    ),
    (
        b"30112000000126011012000006123456",
        OriginalKind::Advice,
        false,
    ),
    (
        b"30112100000126011012000006123456",
        OriginalKind::Advice,
        true,
    ),
];

/// Whether the text of a reversal names an original of this type, and is written again.
fn names_original(text: &[u8], kind: OriginalKind, repeat: bool, out: &mut Vec<u8>) -> bool {
    out.clear();
    match decode(text) {
        Ok(Message::Reversal(reversal)) => {
            (reversal.original.kind == kind)
                & (reversal.original.repeat == repeat)
                & encode(&Message::Reversal(reversal), out).is_ok()
                & (out.as_slice() == text)
        }
        _ => false,
    }
}

/// Whether a reversal with this element 56 names an original of this type, and is written again.
fn keeps_original(
    spelled: &[u8],
    kind: OriginalKind,
    repeat: bool,
    text: &mut Vec<u8>,
    out: &mut Vec<u8>,
) -> bool {
    match form_at(4) {
        Some(form) => {
            form.put_spelled((56, spelled), false, text) && names_original(text, kind, repeat, out)
        }
        None => false,
    }
}

/// The first of them that isn't kept.
fn first_unnamed(text: &mut Vec<u8>, out: &mut Vec<u8>) -> Option<usize> {
    for (place, (spelled, kind, repeat)) in ORIGINALS.iter().enumerate() {
        if !keeps_original(spelled, *kind, *repeat, text, out) {
            return Some(place);
        }
    }
    None
}

/// The request and the approval without element 37 and with element 102.
const REQUEST: &[u8] =
    b"1100\xF2\x30\x01\x01\x00\x80\x80\x00\x00\x00\x00\x00\x04\x00\x00\x00164111110000000005000000000000000100011012000000000126011012000010006123456TERM0001978164111110000000005";

const APPROVAL: &[u8] =
    b"1110\xF2\x30\x00\x01\x06\x80\x80\x00\x00\x00\x00\x00\x04\x00\x00\x00164111110000000005000000000000000100011012000000000126011012000006123456000001000TERM0001978164111110000000005";

/// Whether the text of a request names this account, and is written again.
fn names_account(text: &[u8], name: &[u8], out: &mut Vec<u8>) -> bool {
    out.clear();
    match decode(text) {
        Ok(Message::Request(request)) => {
            request.account.is_some()
                & (request.account == AccountId::new(name))
                & encode(&Message::Request(request), out).is_ok()
                & (out.as_slice() == text)
        }
        _ => false,
    }
}

/// Whether the form at this place, without element 37, is spelled so, in as many bytes.
fn is_spelled(place: usize, spelled: &[u8], size: usize, text: &mut Vec<u8>) -> bool {
    match form_at(place) {
        Some(form) => {
            form.put(false, text) & (text.as_slice() == spelled) & (spelled.len() == size)
        }
        None => false,
    }
}

fn is_request_spelled(text: &mut Vec<u8>) -> bool {
    is_spelled(12, REQUEST, 124, text) & names_account(REQUEST, b"4111110000000005", text)
}

fn is_approval_spelled(text: &mut Vec<u8>) -> bool {
    is_spelled(16, APPROVAL, 130, text)
}

#[test]
fn each_form_is_read_and_written(rt: HostRuntime) {
    let mut text = Vec::new(rt.alloc());
    let mut out = Vec::new(rt.alloc());
    let unkept = first_unkept(&mut text, &mut out);
    let unnamed = first_unnamed(&mut text, &mut out);
    let is_spelled = is_request_spelled(&mut text) & is_approval_spelled(&mut text);
    assert!(rt;
        (unkept, unnamed, is_spelled) == (None, None, true),
        "forms {unkept:?}, originals {unnamed:?}"
    );
}
