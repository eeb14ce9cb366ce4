ghost use Rattle.std.specs.Prelude.{◌≡◌, ◌∷◌, [], Ok};
ghost use Rattle.iso8583.specs.declared.message.Message.TheVariants as message;
ghost use Rattle.issuer_rows.specs.Facts.{identity_of};
ghost use Rattle.issuer_rows.specs.RequestTable as table;
ghost use Rattle.issuer_rows.specs.declared.frame.Frame.TheVariants.{Good};
ghost use Rattle.issuer_rules.specs.Following.{IsAt};
ghost use Rattle.issuer_rules.specs.Stage.{DecidesRequest};

use crate::request_answers::{answer_again, approve, decline};
use crate::request_facts::{refused_by_limits, refused_unseen, request_funds, usable_account};
use crate::typed::{account_in, budget_in, card_in, spent_in, velocity_in};
use iso8583::{AccountId, DeclineCode, Request, Verdict};
use issuer_rows::{AccountRow, CardRow, RowKey, VelocityRow};
use issuer_view::{Recorder, RowSource, Stop};

// Decides an authorization request: approved, or what it is declined for.
pub(crate) fn decide_request<S: RowSource>(
    request: &Request,
    rows: &mut Recorder<S>,
) -> Result<Verdict, Stop>
    requires at { IsAt (Good (message.Request request.now)) rows.old [] (table.request_plan request.now) }
    ensures { DecidesRequest S.answers S.book request.now rows.old rows.new result }
{
    let key = RowKey::Original(request.transaction.identity());
    rows.ask(&key)?;
    match rows.latest() {
        Some(_) => answer_again(request, &key, rows),
        None => decide_fresh(request, &key, rows),
    }
}

// Decides a request whose identity wasn't seen before: what it is refused for before its card is known, then its card.
fn decide_fresh<S: RowSource>(
    request: &Request,
    key: &RowKey,
    rows: &mut Recorder<S>,
) -> Result<Verdict, Stop>
    requires named { key.now ≡ RowKey.Original (identity_of request.now.transaction) }
    requires at { IsAt (Good (message.Request request.now)) rows.old (3 ∷ []) (table.fresh_request request.now) }
    ensures { DecidesRequest S.answers S.book request.now rows.old rows.new result }
{
    if let Some(code) = refused_unseen(request) {
        return decline(request, key, code, rows);
    }
    rows.ask(&RowKey::Card(request.transaction.pan))?;
    let Some(card) = card_in(rows.latest()) else {
        return decline(request, key, DeclineCode::NO_CARD_RECORD, rows);
    };
    match usable_account(request, &card) {
        Ok(id) => decide_on_account(request, key, &card, id, rows),
        Err(code) => decline(request, key, code, rows),
    }
}

// Decides a request that its card doesn't refuse: its account.
fn decide_on_account<S: RowSource>(
    request: &Request,
    key: &RowKey,
    card: &CardRow,
    id: &AccountId,
    rows: &mut Recorder<S>,
) -> Result<Verdict, Stop>
    requires named { key.now ≡ RowKey.Original (identity_of request.now.transaction) }
    requires at { IsAt (Good (message.Request request.now)) rows.old (3 ∷ 0 ∷ []) (table.on_usable request.now card.now (Ok id.now)) }
    ensures { DecidesRequest S.answers S.book request.now rows.old rows.new result }
{
    rows.ask(&RowKey::Account(*id))?;
    let Some(account) = account_in(rows.latest()) else {
        return decline(request, key, DeclineCode::SYSTEM_MALFUNCTION, rows);
    };
    if request.transaction.currency != account.currency {
        return decline(request, key, DeclineCode::DO_NOT_HONOUR, rows);
    }
    decide_on_day(request, key, card, id, &account, rows)
}

// Decides a request in its account's currency: what was spent on its day.
fn decide_on_day<S: RowSource>(
    request: &Request,
    key: &RowKey,
    card: &CardRow,
    id: &AccountId,
    account: &AccountRow,
    rows: &mut Recorder<S>,
) -> Result<Verdict, Stop>
    requires named { key.now ≡ RowKey.Original (identity_of request.now.transaction) }
    requires at { IsAt (Good (message.Request request.now)) rows.old (3 ∷ 0 ∷ 4 ∷ []) (table.looked_for_day request.now card.now id.now account.now) }
    ensures { DecidesRequest S.answers S.book request.now rows.old rows.new result }
{
    let day_key = RowKey::Velocity(request.transaction.pan, request.transaction.stamp.day());
    rows.ask(&day_key)?;
    let day = spent_in(velocity_in(rows.latest()));
    decide_on_limits(request, key, card, id, account, &day, rows)
}

// Decides a request whose day is known: the limits of its card, then what pays.
fn decide_on_limits<S: RowSource>(
    request: &Request,
    key: &RowKey,
    card: &CardRow,
    id: &AccountId,
    account: &AccountRow,
    day: &VelocityRow,
    rows: &mut Recorder<S>,
) -> Result<Verdict, Stop>
    requires named { key.now ≡ RowKey.Original (identity_of request.now.transaction) }
    requires at { IsAt (Good (message.Request request.now)) rows.old (3 ∷ 0 ∷ 4 ∷ 1 ∷ []) (table.on_day request.now card.now id.now account.now day.now) }
    ensures { DecidesRequest S.answers S.book request.now rows.old rows.new result }
{
    if let Some(code) = refused_by_limits(request, card, day) {
        return decline(request, key, code, rows);
    }
    rows.ask(&RowKey::Budget(request.transaction.pan.prefix()))?;
    let budget = budget_in(rows.latest());
    match request_funds(&request.transaction, id, account, &budget) {
        Ok(paying) => approve(request, key, card, day, &paying, rows),
        Err(code) => decline(request, key, code, rows),
    }
}
