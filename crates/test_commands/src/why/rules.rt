//! The rule of each body of batches that were worked out by hand: `body LINE = RULE`.

use issuer_reasons::{Explanation, explain_at};
use reason_text::RuleWords;
use std::alloc::Global;
use std::process::Abort;
use test_fixtures::{frames, opening};

const RULES: &str = "# a body that is no message
body bad = NoMessage

# a mark of this card and kind, of another kind, of another card
put ahead 000001 A request 000009
put ahead 000002 A advice 000009
put ahead 000003 B request 000009
body 1100 000001 A 100 = ReversedAhead
body 1100 000002 A 100 = MarkOfAnother
body 1100 000003 A 100 = MarkOfAnother
body 1120 000002 A 100 = ReversedAhead
body 1120 000003 A 100 = MarkOfAnother

# a row of the identity
put declined 000001 A 100 116 -
put acknowledged 000002 A 100 900 -
body 1101 000001 A 100 = Repeat
body 1100 000001 A 100 = Duplicate
body 1101 000001 B 100 = Duplicate
body 1101 000001 A 101 = Duplicate
body 1101 000001 A 100 code=010000 = Duplicate
body 1101 000002 A 100 = Duplicate
body 1121 000002 A 100 action=116 = Repeat
body 1120 000002 A 100 = Duplicate

# what is asked before the card
body 1100 000001 4111110000000004 0 code=200000 = NotPermitted
body 1100 000002 4111110000000004 0 = NoAmount
body 1100 000003 4111110000000004 1 = WrongCardNumber
body 1100 000004 4111110000000021 1 = NoCard
body 1120 000005 A 1 action=100 = NotApproved
body 1120 000006 4111110000000021 1 = NoCard

# a blocked card that expired
put card A 2512 blocked 0 0 0 A -
body 1100 000001 A 1 = CardBlocked

# a lost card, and a stolen one
put card A 2812 lost 0 0 0 A -
put card B 2812 stolen 0 0 0 B -
body 1100 000001 A 1 = CardLost
body 1100 000002 B 1 = CardStolen

# the month after a card's last, and its last
put card A 2512 active 0 3 20000 A -
put card B 2601 active 0 3 20000 B -
body 1100 000001 A 1 account=NONE = CardExpired
body 1100 000002 B 1 = AccountPays

# an account that is not the card's, and another currency
put card B 2812 active 0 0 0 B -
body 1100 000001 A 1 account=B currency=840 = NotOfCard
body 1100 000002 B 1 currency=840 = OtherCurrency
body 1120 000003 A 1 account=B = NotOfCard
body 1120 000004 A 1 currency=840 = OtherCurrency
body 1120 000005 B 501 = NotSufficientFunds
body 1120 000006 B 500 = AccountPays

# the account isn't there
put card A 2812 active 0 3 20000 NONE -
body 1100 000001 A 1 currency=840 = NoAccount
body 1120 000002 A 1 = NoAccount

# limits of a day, and of approvals
put card A 2812 active 999999 1 100 A -
put card B 2812 active 1 1 100 B -
put day B 260110 1 100
body 1100 000001 A 101 = TooMuchMoney
body 1100 000002 A 100 = ApprovalsExhausted
body 1100 000003 B 1 = TooManyApprovals

# a budget that stands in
put budget 411111 standin 100 150
body 1100 000001 A 101 = BudgetRefuses
body 1100 000002 A 100 = BudgetPays
body 1100 000003 A 51 = BudgetRefuses
body 1120 000004 A 51 = AccountPays
body 1120 000005 A 50 = BudgetPays

# a budget that doesn't stand in
put budget 411111 direct 0 0
body 1100 000001 B 501 = NotSufficientFunds
body 1100 000002 B 500 = AccountPays

# no row of the original, and a mark
put ahead 000002 B request 000008
body 1421 000003 A 100 advice=000001 = NoOriginal
body 1420 000004 A 100 request=000002 = MarkedBefore
body 1421 000003 A 100 advice=000001 = MarkedBefore

# the original is of another card or kind, or was not posted
put declined 000001 A 100 116 -
put acknowledged 000002 A 100 900 -
body 1420 000003 B 100 request=000001 = OtherOriginal
body 1420 000004 A 100 advice=000001 = OtherOriginal
body 1420 000005 A 50 request=000001 all=99 = NotPosted
body 1420 000005 A 50 request=000001 all=99 = ReversedBefore
body 1421 000005 A 50 request=000001 all=99 = ReversalRepeat
body 1421 000006 A 50 request=000001 all=99 = ReversedBefore

# a part of another amount, or of no less; what paid isn't there, or the day
put approved 000001 A 100 000001 A
put accepted 000002 A 100 901 budget
body 1420 000003 A 50 request=000001 all=99 = WrongPart
body 1420 000004 A 100 request=000001 all=100 = WrongPart
body 1420 000005 A 100 advice=000002 = NoPayer
body 1420 000006 A 100 request=000001 = NoDay

# a day that has no approval, or spent less; and money that goes back
put approved 000001 A 100 000001 A
put approved 000002 B 100 000001 B
put day A 260110 0 100
put day B 260110 1 99
body 1420 000003 A 100 request=000001 = DayTooShort
body 1420 000004 B 100 request=000002 = DayTooShort
body 1420 000005 A 99 request=000001 all=100 = GivenBack

# more than 10^15 would be available
put account A 999999999999901 978
put accepted 000001 A 100 901 A
put accepted 000002 A 99 901 A
body 1420 000003 A 100 advice=000001 = BalanceTooGreat
body 1420 000004 A 99 advice=000002 = GivenBack";

// Why the body at this place is decided so, on the batch's book.
pub(crate) fn explanation(alloc: Global, batch: &str, index: usize) -> Option<Explanation> {
    let book = opening(alloc, batch)?;
    let frames = frames(alloc, batch).ok()?;
    if index < frames.len() && frames.len() <= 64 {
        explain_at(alloc, book, &frames, index).ok()
    } else {
        None
    }
}

// Whether the body at this place has this rule.
fn has_rule(alloc: Global, batch: &str, index: usize, rule: &str) -> bool {
    match explanation(alloc, batch, index) {
        Some(explanation) => RuleWords(explanation.rule).name() == rule,
        None => false,
    }
}

// The first body of the batch that has another rule than its line says.
fn first_wrong(alloc: Global, batch: &str) -> Option<&str> {
    let mut index = 0;
    for line in batch.lines() {
        if let Some((told, rule)) = line.split_once(" = ") {
            if told.starts_with("body ") {
                if !has_rule(alloc, batch, index, rule) {
                    return Some(line);
                }
                index = index.wrapping_add(1);
            }
        }
    }
    if index == 0 { Some("no body") } else { None }
}

#[test]
fn names_the_rules(rt: HostRuntime) {
    for batch in RULES.split("\n\n") {
        let wrong = first_wrong(rt.alloc(), batch);
        assert!(rt; wrong.is_none(), "{wrong:?} of {batch}");
    }
}
