ghost use Rattle.std.specs.Prelude.{◌∷◌, [], Some};
ghost use Rattle.iso8583.specs.declared.message.Message.TheVariants as message;
ghost use Rattle.issuer_rows.specs.AdviceTable as table;
ghost use Rattle.issuer_rows.specs.declared.frame.Frame.TheVariants.{Good};
ghost use Rattle.issuer_rules.specs.Following.{IsAt};
ghost use Rattle.issuer_rules.specs.Stage.{DecidesAdvice};

use crate::advice_answers::{accept, acknowledge, answer_again};
use crate::advice_facts::advice_funds;
use crate::typed::{account_in, budget_in, card_in, original_in};
use iso8583::{AccountId, Advice};
use issuer_rows::{AccountRow, ReplyBody, RowKey};
use issuer_view::{Recorder, RowSource, Stop};

// Decides an authorization advice.
pub(crate) fn decide_advice<S: RowSource>(
    advice: &Advice,
    rows: &mut Recorder<S>,
) -> Result<ReplyBody, Stop>
    requires at { IsAt (Good (message.Advice advice.now)) rows.old [] (table.advice_plan advice.now) }
    ensures { DecidesAdvice S.answers S.book advice.now rows.old rows.new result }
{
    let key = RowKey::Original(advice.transaction.identity());
    rows.ask(&key)?;
    match original_in(rows.latest()) {
        Some(row) => answer_again(advice, &row, rows),
        None => decide_fresh(advice, rows),
    }
}

// Decides an advice whose identity wasn't seen before: nothing else is looked at where the acquirer didn't approve.
fn decide_fresh<S: RowSource>(advice: &Advice, rows: &mut Recorder<S>) -> Result<ReplyBody, Stop>
    requires at { IsAt (Good (message.Advice advice.now)) rows.old (3 ∷ []) (table.fresh_advice advice.now) }
    ensures { DecidesAdvice S.answers S.book advice.now rows.old rows.new result }
{
    if advice.action.code() != 0 {
        return acknowledge(advice, rows);
    }
    let key = RowKey::Card(advice.transaction.pan);
    rows.ask(&key)?;
    let Some(card) = card_in(rows.latest()) else {
        return acknowledge(advice, rows);
    };
    match card.accounts.account_of(&advice.account).copied() {
        Some(id) => decide_on_account(advice, id, rows),
        None => acknowledge(advice, rows),
    }
}

// Decides an advice whose account is known.
fn decide_on_account<S: RowSource>(
    advice: &Advice,
    id: AccountId,
    rows: &mut Recorder<S>,
) -> Result<ReplyBody, Stop>
    requires at { IsAt (Good (message.Advice advice.now)) rows.old (3 ∷ 0 ∷ []) (table.advice_on_named advice.now (Some id)) }
    ensures { DecidesAdvice S.answers S.book advice.now rows.old rows.new result }
{
    let paying = id;
    let key = RowKey::Account(paying);
    rows.ask(&key)?;
    let Some(account) = account_in(rows.latest()) else {
        return acknowledge(advice, rows);
    };
    if advice.transaction.currency != account.currency {
        return acknowledge(advice, rows);
    }
    decide_on_funds(advice, id, &account, rows)
}

// Decides an advice in its account's currency: what pays.
fn decide_on_funds<S: RowSource>(
    advice: &Advice,
    id: AccountId,
    account: &AccountRow,
    rows: &mut Recorder<S>,
) -> Result<ReplyBody, Stop>
    requires at { IsAt (Good (message.Advice advice.now)) rows.old (3 ∷ 0 ∷ 4 ∷ []) (table.looked_for_funds advice.now id account.now) }
    ensures { DecidesAdvice S.answers S.book advice.now rows.old rows.new result }
{
    let key = RowKey::Budget(advice.transaction.pan.prefix());
    rows.ask(&key)?;
    let budget = budget_in(rows.latest());
    match advice_funds(&advice.transaction, id, account, &budget) {
        Some(paying) => accept(advice, &paying, rows),
        None => acknowledge(advice, rows),
    }
}
