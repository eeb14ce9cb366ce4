use crate::values::{account, action, amount, identity, pan};
use crate::words::{told, words_of};
use iso8583::{
    AccountId, Advice, CodecFault, Currency, FunctionCode, LocalStamp, Message, OriginalKind,
    OriginalRef, Processing, Request, Reversal, ReversalScope, Terminal, Transaction, Transmission,
};
use issuer_rows::{Frame, FrameFault};

/// A body: its type, trace number, card and amount, then what else is stated of it.
///
/// `1100 000001 A 6000` is a request; `code=`, `currency=`, `at=` and `account=` change elements 3, 49, 12 and 102.
/// `1120 000002 A 6000 action=116` is an advice. `1420 000003 A 6000 request=000001` takes that request back, and with
/// `all=6000` in part; `advice=` names an advice. `bad` is a body that is no message.
pub fn body(line: &str) -> Option<Frame> {
    let words = words_of(line);
    match words[0] {
        "1100" => request(&words, false),
        "1101" => request(&words, true),
        "1120" => advice(&words, false),
        "1121" => advice(&words, true),
        "1420" => reversal(&words, false),
        "1421" => reversal(&words, true),
        "bad" => Some(Frame::Bad(FrameFault::new(CodecFault::Trailing)?)),
        _ => None,
    }
}

fn request(words: &[&str; 9], repeat: bool) -> Option<Frame> {
    let (function, transaction) = FunctionCode::new(b"100").zip(transaction(words))?;
    Some(Frame::Good(Message::Request(Request {
        repeat,
        function,
        account: named(words)?,
        transaction,
    })))
}

fn advice(words: &[&str; 9], repeat: bool) -> Option<Frame> {
    let (function, transaction) = FunctionCode::new(b"100").zip(transaction(words))?;
    let (action, account) = action(told(words, "action=", "000")).zip(named(words))?;
    Some(Frame::Good(Message::Advice(Advice {
        repeat,
        function,
        action,
        account,
        transaction,
    })))
}

fn reversal(words: &[&str; 9], repeat: bool) -> Option<Frame> {
    let (scope, original) = scope(told(words, "all=", "")).zip(original(words))?;
    Some(Frame::Good(Message::Reversal(Reversal {
        repeat,
        scope,
        original,
        transaction: transaction(words)?,
    })))
}

// The account that is named, if any is.
fn named(words: &[&str; 9]) -> Option<Option<AccountId>> {
    let word = told(words, "account=", "");
    if word.is_empty() {
        Some(None)
    } else {
        account(word).map(Some)
    }
}

fn scope(all: &str) -> Option<ReversalScope> {
    if all.is_empty() {
        Some(ReversalScope::Full)
    } else {
        amount(all).map(ReversalScope::Partial)
    }
}

fn original(words: &[&str; 9]) -> Option<OriginalRef> {
    let request = told(words, "request=", "");
    let advice = told(words, "advice=", "");
    let (kind, trace) = if request.is_empty() {
        (OriginalKind::Advice, advice)
    } else {
        (OriginalKind::Request, request)
    };
    Some(OriginalRef {
        kind,
        repeat: false,
        identity: identity(trace)?,
    })
}

// The elements that all messages have.
fn transaction(words: &[&str; 9]) -> Option<Transaction> {
    if !words[4..].iter().all(|word| is_known(word)) {
        return None;
    }
    let processing = Processing::new(told(words, "code=", "000000").as_bytes());
    let currency = Currency::new(told(words, "currency=", "978").as_bytes());
    let stamp = LocalStamp::new(told(words, "at=", "260110120000").as_bytes());
    let (pan, amount) = pan(words[2]).zip(amount(words[3]))?;
    let (processing, currency) = processing.zip(currency)?;
    let (identity, stamp) = identity(words[1]).zip(stamp)?;
    let (transmission, terminal) = Transmission::new(b"0110120000").zip(Terminal::new(
        b"TERM0001",
    ))?;
    Some(Transaction {
        pan,
        processing,
        amount,
        transmission,
        stan: identity.stan,
        stamp,
        acquirer: identity.acquirer,
        retrieval: None,
        terminal,
        currency,
    })
}

const NAMES: [&str; 8] = [
    "code=",
    "currency=",
    "at=",
    "account=",
    "action=",
    "request=",
    "advice=",
    "all=",
];

// Whether the word states what can be stated, or there is none.
fn is_known(word: &str) -> bool {
    for name in NAMES {
        if word.starts_with(name) {
            return true;
        }
    }
    word.is_empty()
}
