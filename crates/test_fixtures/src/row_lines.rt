use crate::values::{account, action, amount, balance, count, identity, pan};
use crate::words::words_of;
use iso8583::{
    Approval, Currency, Day, DeclineCode, Identity, OriginalKind, PanPrefix, Processing,
};
use issuer_rows::{
    AccountRow, BudgetMode, BudgetRow, CardAccounts, CardRow, CardStatus, Expiry, Kept, Mark,
    OriginalOutcome, Payer, Payment, RowKey, RowVal, Settlement, UnpostedAction, VelocityRow,
};

/// A row: its kind, what names it, and what it holds, in the order of its fields.
///
/// - `card A 2812 active 0 3 20000 A -`: expiry, status, approvals, limits of a day, first and second account;
/// - `day A 260110 1 6000`, `budget 411111 standin 400 500`, `account SAVE1 50 978`;
/// - `approved 000001 A 6000 000001 A`, `accepted 000001 A 6000 901 A`: a posted request or advice, its trace number, card,
///   amount, approval code or action, and what paid, an account or `budget`; and `000003 2000` behind it where it was
///   reversed by 000003 and 2000 stay;
/// - `declined 000001 A 6000 116 -`, `acknowledged 000001 A 6000 900 -`: one that is not posted, and the trace number of its
///   reversal behind it where it has one;
/// - `ahead 000001 A request 000002`: a mark, and the reversal that came ahead.
pub fn row(line: &str) -> Option<(RowKey, RowVal)> {
    let words = words_of(line);
    match words[0] {
        "card" => card(&words),
        "day" => day(&words),
        "budget" => budget(&words),
        "account" => account_row(&words),
        "ahead" => mark(&words),
        _ => kept(&words),
    }
}

fn card(words: &[&str; 9]) -> Option<(RowKey, RowVal)> {
    let (expiry, status) = Expiry::new(words[2].as_bytes()).zip(status(words[3]))?;
    let (approvals, day_count) = count(words[4]).zip(count(words[5]))?;
    let (day_amount, accounts) = balance(words[6]).zip(accounts(words[7], words[8]))?;
    let card = CardRow {
        expiry,
        status,
        approvals,
        day_count,
        day_amount,
        accounts,
    };
    Some((RowKey::Card(pan(words[1])?), RowVal::Card(card)))
}

fn status(word: &str) -> Option<CardStatus> {
    match word {
        "active" => Some(CardStatus::Active),
        "blocked" => Some(CardStatus::Blocked),
        "lost" => Some(CardStatus::Lost),
        "stolen" => Some(CardStatus::Stolen),
        _ => None,
    }
}

fn accounts(first: &str, second: &str) -> Option<CardAccounts> {
    let second = if second == "-" {
        Some(None)
    } else {
        account(second).map(Some)
    };
    let (first, second) = account(first).zip(second)?;
    Some(CardAccounts::new(first, second))
}

fn day(words: &[&str; 9]) -> Option<(RowKey, RowVal)> {
    let (card, day) = pan(words[1]).zip(Day::new(words[2].as_bytes()))?;
    let (count, sum) = count(words[3]).zip(balance(words[4]))?;
    let row = VelocityRow { count, sum };
    Some((RowKey::Velocity(card, day), RowVal::Velocity(row)))
}

fn budget(words: &[&str; 9]) -> Option<(RowKey, RowVal)> {
    let (prefix, mode) = PanPrefix::new(words[1].as_bytes()).zip(mode(words[2]))?;
    let (cap, left) = balance(words[3]).zip(balance(words[4]))?;
    let row = BudgetRow { mode, cap, left };
    Some((RowKey::Budget(prefix), RowVal::Budget(row)))
}

fn mode(word: &str) -> Option<BudgetMode> {
    match word {
        "direct" => Some(BudgetMode::Direct),
        "standin" => Some(BudgetMode::StandIn),
        _ => None,
    }
}

fn account_row(words: &[&str; 9]) -> Option<(RowKey, RowVal)> {
    let (available, currency) = balance(words[2]).zip(Currency::new(words[3].as_bytes()))?;
    let row = AccountRow {
        available,
        currency,
    };
    Some((RowKey::Account(account(words[1])?), RowVal::Account(row)))
}

fn mark(words: &[&str; 9]) -> Option<(RowKey, RowVal)> {
    let (original, reversal) = identity(words[1]).zip(identity(words[4]))?;
    let (card, kind) = pan(words[2]).zip(original_kind(words[3]))?;
    let mark = Mark {
        card,
        kind,
        reversal,
    };
    Some((RowKey::Original(original), RowVal::Ahead(mark)))
}

fn original_kind(word: &str) -> Option<OriginalKind> {
    match word {
        "request" => Some(OriginalKind::Request),
        "advice" => Some(OriginalKind::Advice),
        _ => None,
    }
}

fn kept(words: &[&str; 9]) -> Option<(RowKey, RowVal)> {
    let (card, amount) = pan(words[2]).zip(amount(words[3]))?;
    let (outcome, processing) = outcome(words).zip(Processing::new(b"000000"))?;
    let kept = Kept::new(card, amount, processing, outcome);
    let (original, kept) = identity(words[1]).zip(kept)?;
    Some((RowKey::Original(original), RowVal::Kept(kept)))
}

fn outcome(words: &[&str; 9]) -> Option<OriginalOutcome> {
    let code = words[4];
    let reversal = identity(words[6]);
    let payment = payment(payer(words[5]), settlement(reversal, words[7]));
    match words[0] {
        "approved" => approved(code, payment),
        "declined" => declined(code, reversal),
        "accepted" => Some(OriginalOutcome::Accepted(payment?)),
        "acknowledged" => acknowledged(code, reversal),
        _ => None,
    }
}

fn approved(code: &str, payment: Option<Payment>) -> Option<OriginalOutcome> {
    let (code, payment) = Approval::new(code.as_bytes()).zip(payment)?;
    Some(OriginalOutcome::Approved(code, payment))
}

fn declined(code: &str, reversal: Option<Identity>) -> Option<OriginalOutcome> {
    let code = action(code).and_then(DeclineCode::new)?;
    Some(OriginalOutcome::Declined(code, reversal))
}

fn acknowledged(code: &str, reversal: Option<Identity>) -> Option<OriginalOutcome> {
    let action = action(code).and_then(UnpostedAction::new)?;
    Some(OriginalOutcome::Acknowledged(action, reversal))
}

fn payment(payer: Option<Payer>, settlement: Option<Settlement>) -> Option<Payment> {
    Some(Payment {
        payer: payer?,
        settlement,
    })
}

// What paid, if anything did.
fn payer(word: &str) -> Option<Payer> {
    match word {
        "-" => None,
        "budget" => Some(Payer::Budget),
        text => account(text).map(Payer::Account),
    }
}

// How it was reversed, if that is stated.
fn settlement(reversal: Option<Identity>, stay: &str) -> Option<Settlement> {
    let (reversal, stay) = reversal.zip(amount(stay))?;
    Some(Settlement { reversal, stay })
}
