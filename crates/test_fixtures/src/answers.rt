use iso8583::{Answer, Approval, Reply, Verdict};
use issuer_rows::{FrameFault, ReplyBody};
use std::alloc::{AllocError, Global};

/// Action and approval code of a reply, as `000/000001` or `116`; of a body that is no message its fault, as `F08000`.
pub fn answer_text(alloc: Global, reply: &ReplyBody) -> Result<String, AllocError> {
    match reply {
        ReplyBody::Reply(reply) => reply_text(alloc, reply),
        ReplyBody::Fault(fault) => fault_text(alloc, fault),
    }
}

/// Whether this is the reply's action and approval code.
pub fn is_answer(alloc: Global, reply: &ReplyBody, answer: &str) -> bool {
    match answer_text(alloc, reply) {
        Ok(text) => text.as_str() == answer,
        Err(_) => false,
    }
}

fn reply_text(alloc: Global, reply: &Reply) -> Result<String, AllocError> {
    let action = match &reply.answer {
        Answer::Request(Verdict::Approved(code), _) => return approval_text(alloc, code),
        Answer::Request(Verdict::Declined(code), _) => code.action(),
        Answer::Advice(action, _) | Answer::Reversal(action) => *action,
    };
    let action = action.code();
    format!(in alloc; "{action:03}")
}

fn approval_text(alloc: Global, code: &Approval) -> Result<String, AllocError> {
    let code = str::from_utf8(code.as_slice()).unwrap_or("no text");
    format!(in alloc; "000/{code}")
}

fn fault_text(alloc: Global, fault: &FrameFault) -> Result<String, AllocError> {
    let body = fault.body();
    let text = str::from_utf8(&body).unwrap_or("no text");
    String::from_str(alloc, text)
}
