//! The names under which messages and replies are counted.

ghost use Rattle.std.specs.Prelude.{◌≡◌, ◌<◌, ◌^◌, IfOk, string_bytes};
ghost use Rattle.iso_shown.specs.Masked.{masked};
ghost use Rattle.day_totals.specs.Day.{action_of, hour_of, is_repeat, taken_back, type_of};

use iso_shown::MaskedPan;
use iso8583::{
    Action, Amount, Answer, Digits, LocalStamp, Message, Pan, PrintableUpTo, ReversalScope,
    Terminal, Verdict,
};
use std::alloc::{AllocError, Global};

// A message's type.
pub(crate) fn type_of(message: &Message) -> &'static str
    ensures { result.now ≡ type_of message.now }
{
    match message {
        Message::Request(request) => if request.repeat { "1101" } else { "1100" },
        Message::Advice(advice) => if advice.repeat { "1121" } else { "1120" },
        Message::Reversal(reversal) => if reversal.repeat { "1421" } else { "1420" },
    }
}

// Whether a message is marked as a repeat.
pub(crate) fn is_repeat(message: &Message) -> bool
    ensures { result ≡ is_repeat message.now }
{
    match message {
        Message::Request(request) => request.repeat,
        Message::Advice(advice) => advice.repeat,
        Message::Reversal(reversal) => reversal.repeat,
    }
}

// The action code of an answer.
pub(crate) fn action_of(answer: &Answer) -> Action
    ensures { result ≡ action_of answer.now }
{
    match answer {
        Answer::Request(Verdict::Approved(_), _) => Action::APPROVED,
        Answer::Request(Verdict::Declined(code), _) => code.action(),
        Answer::Advice(action, _) => *action,
        Answer::Reversal(action) => *action,
    }
}

// What a reversal takes back.
pub(crate) fn taken_back(scope: &ReversalScope, amount: Amount) -> Amount
    ensures { result ≡ taken_back scope.now amount }
{
    match scope {
        ReversalScope::Full => amount,
        ReversalScope::Partial(original) => original.saturating_sub(amount),
    }
}

// The hour of a local time.
pub(crate) fn hour_name(alloc: Global, stamp: &LocalStamp) -> Result<String, AllocError>
    ensures { IfOk result (λ name. string_bytes name ≡ hour_of stamp.now) }
{
    let hour = Digits::<2>::of_text(&stamp.as_slice()[6..8]);
    String::from_str(alloc, hour.as_str())
}

// A terminal.
pub(crate) fn terminal_name(alloc: Global, terminal: &Terminal) -> Result<String, AllocError>
    ensures { IfOk result (λ name. string_bytes name ≡ terminal.now.0) }
{
    let text = PrintableUpTo::<8, 8>::of_text(terminal.0.as_slice());
    String::from_str(alloc, text.as_str())
}

// A card's number, masked.
pub(crate) fn card_name(alloc: Global, pan: &Pan) -> Result<String, AllocError>
    ensures { IfOk result (λ name. string_bytes name ≡ masked pan.now.0) }
{
    let pan = MaskedPan::new(*pan);
    format!(in alloc; "{pan}")
}
