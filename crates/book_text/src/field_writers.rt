//! Members of an entry, as they are written. They are inlined, so that a name is stored and not copied.

ghost use Rattle.std.specs.Prelude.{◌≡◌, ◌∷◌, [], decimal, OnOk};
ghost use Rattle.iso8583.specs.Number.{fixed_digits};
ghost use Rattle.json.specs.Token.{key as key_token, string as string_token, number as number_token};
ghost use Rattle.book_laws.specs.Text.{Adds, tokens_of, optional_data, account_id_data, approval_data, identity_data};
ghost use Rattle.book_laws.specs.Words.{status_word, mode_word, kind_word, paid_word};
ghost use Rattle.book_text.specs.Members.{name_of};

use crate::escapes::is_plain;
use crate::json_writer::JsonWriter;
use crate::member::Member;
use book_laws::Paid;
use iso8583::{
    AccountId, Acquirer, Action, Amount, Approval, Currency, Day, Digits, Identity, LocalStamp,
    OriginalKind, Pan, PanPrefix, Processing, Stan,
};
use issuer_rows::{Balance, BudgetMode, CardStatus, Count, Expiry};
use std::alloc::AllocError;

/// Writes a member that is a balance, in minor units. It fails only where memory runs out.
#[inline(always)]
pub fn balance_field(
    out: &mut JsonWriter,
    member: Member,
    balance: Balance,
) -> Result<(), AllocError>
    ensures { OnOk result (Adds out.old out.new (key_token (name_of member) ∷ number_token (decimal balance) ∷ [])) }
{
    out.number_member(member, balance.minor())
}

/// Writes a member that is an amount, in minor units. It fails only where memory runs out.
#[inline(always)]
pub fn amount_field(out: &mut JsonWriter, member: Member, amount: Amount) -> Result<(), AllocError>
    ensures { OnOk result (Adds out.old out.new (key_token (name_of member) ∷ number_token (decimal amount) ∷ [])) }
{
    out.number_member(member, amount.minor())
}

/// Writes a member that is a count. It fails only where memory runs out.
#[inline(always)]
pub fn count_field(out: &mut JsonWriter, member: Member, count: Count) -> Result<(), AllocError>
    ensures { OnOk result (Adds out.old out.new (key_token (name_of member) ∷ number_token (decimal count) ∷ [])) }
{
    out.number_member(member, u64::from(count.number()))
}

#[inline(always)]
fn digits_field<const N: usize>(
    out: &mut JsonWriter,
    member: Member,
    digits: Digits<N>,
) -> Result<(), AllocError>
    ensures { OnOk result (Adds out.old out.new (key_token (name_of member) ∷ string_token digits.entry ∷ [])) }
{
    out.text_member(member, digits.as_slice())
}

/// Writes a member that is a currency, ISO 4217's number. It fails only where memory runs out.
#[inline(always)]
pub fn currency_field(
    out: &mut JsonWriter,
    member: Member,
    currency: Currency,
) -> Result<(), AllocError>
    ensures { OnOk result (Adds out.old out.new (key_token (name_of member) ∷ string_token currency.0 ∷ [])) }
{
    digits_field(out, member, currency.0)
}

/// Writes a member that is a prefix of card numbers. It fails only where memory runs out.
#[inline(always)]
pub fn prefix_field(
    out: &mut JsonWriter,
    member: Member,
    prefix: PanPrefix,
) -> Result<(), AllocError>
    ensures { OnOk result (Adds out.old out.new (key_token (name_of member) ∷ string_token prefix.0 ∷ [])) }
{
    digits_field(out, member, prefix.0)
}

/// Writes a member that is a processing code. It fails only where memory runs out.
#[inline(always)]
pub fn processing_field(
    out: &mut JsonWriter,
    member: Member,
    processing: Processing,
) -> Result<(), AllocError>
    ensures { OnOk result (Adds out.old out.new (key_token (name_of member) ∷ string_token processing.0 ∷ [])) }
{
    digits_field(out, member, processing.0)
}

/// Writes a member that is a trace number. It fails only where memory runs out.
#[inline(always)]
pub fn stan_field(out: &mut JsonWriter, member: Member, stan: Stan) -> Result<(), AllocError>
    ensures { OnOk result (Adds out.old out.new (key_token (name_of member) ∷ string_token stan.0 ∷ [])) }
{
    digits_field(out, member, stan.0)
}

/// Writes a member that is an action code. It fails only where memory runs out.
#[inline(always)]
pub fn action_field(out: &mut JsonWriter, member: Member, action: Action) -> Result<(), AllocError>
    ensures { OnOk result (Adds out.old out.new (key_token (name_of member) ∷ string_token (fixed_digits 3 action) ∷ [])) }
{
    digits_field(out, member, action.digits())
}

/// Writes a member that is a last month, YYMM. It fails only where memory runs out.
#[inline(always)]
pub fn expiry_field(out: &mut JsonWriter, member: Member, expiry: Expiry) -> Result<(), AllocError>
    ensures { OnOk result (Adds out.old out.new (key_token (name_of member) ∷ string_token expiry ∷ [])) }
{
    out.text_member(member, expiry.as_slice())
}

/// Writes a member that is a day, YYMMDD. It fails only where memory runs out.
#[inline(always)]
pub fn day_field(out: &mut JsonWriter, member: Member, day: Day) -> Result<(), AllocError>
    ensures { OnOk result (Adds out.old out.new (key_token (name_of member) ∷ string_token day ∷ [])) }
{
    out.text_member(member, day.as_slice())
}

/// Writes a member that is a local time, YYMMDDhhmmss. It fails only where memory runs out.
#[inline(always)]
pub fn stamp_field(
    out: &mut JsonWriter,
    member: Member,
    stamp: LocalStamp,
) -> Result<(), AllocError>
    ensures { OnOk result (Adds out.old out.new (key_token (name_of member) ∷ string_token stamp ∷ [])) }
{
    out.text_member(member, stamp.as_slice())
}

#[inline(always)]
pub(crate) fn pan_field(out: &mut JsonWriter, member: Member, pan: Pan) -> Result<(), AllocError>
    ensures { OnOk result (Adds out.old out.new (key_token (name_of member) ∷ string_token pan.0 ∷ [])) }
{
    out.text_member(member, pan.as_slice())
}

/// Writes a member that is an acquirer. It fails only where memory runs out.
#[inline(always)]
pub fn acquirer_field(
    out: &mut JsonWriter,
    member: Member,
    acquirer: Acquirer,
) -> Result<(), AllocError>
    ensures { OnOk result (Adds out.old out.new (key_token (name_of member) ∷ string_token acquirer.0 ∷ [])) }
{
    out.text_member(member, acquirer.as_slice())
}

#[inline(always)]
pub(crate) fn account_id_field(
    out: &mut JsonWriter,
    member: Member,
    id: AccountId,
) -> Result<(), AllocError>
    ensures { OnOk result (Adds out.old out.new (key_token (name_of member) ∷ string_token id.0 ∷ [])) }
{
    let text = id.as_slice();
    if is_plain(text) {
        return out.text_member(member, text);
    }
    out.name(member)?;
    out.string(id.as_str())
}

#[inline(always)]
pub(crate) fn optional_account_id_field(
    out: &mut JsonWriter,
    member: Member,
    id: Option<AccountId>,
) -> Result<(), AllocError>
    ensures { OnOk result (Adds out.old out.new (key_token (name_of member) ∷ tokens_of (optional_data account_id_data id))) }
{
    match id {
        Some(id) => account_id_field(out, member, id),
        None => out.null_member(member),
    }
}

#[inline(always)]
fn approval_field(out: &mut JsonWriter, member: Member, code: Approval) -> Result<(), AllocError>
    ensures { OnOk result (Adds out.old out.new (key_token (name_of member) ∷ string_token code.0 ∷ [])) }
{
    out.text_member(member, code.0.as_slice())
}

/// Writes a member that is an approval code, or null. It fails only where memory runs out.
#[inline(always)]
pub fn optional_approval_field(
    out: &mut JsonWriter,
    member: Member,
    code: Option<Approval>,
) -> Result<(), AllocError>
    ensures { OnOk result (Adds out.old out.new (key_token (name_of member) ∷ tokens_of (optional_data approval_data code))) }
{
    match code {
        Some(code) => approval_field(out, member, code),
        None => out.null_member(member),
    }
}

/// Writes a member that is an identity: acquirer, time and trace number. It fails only where memory runs out.
pub fn identity_field(
    out: &mut JsonWriter,
    member: Member,
    identity: Identity,
) -> Result<(), AllocError>
    ensures { OnOk result (Adds out.old out.new (key_token (name_of member) ∷ tokens_of (identity_data identity))) }
{
    out.name(member)?;
    out.begin_object()?;
    acquirer_field(out, Member::Acquirer, identity.acquirer)?;
    stamp_field(out, Member::Stamp, identity.stamp)?;
    stan_field(out, Member::Trace, identity.stan)?;
    out.end_object()?;
    Ok(())
}

/// Writes a member that is an identity, or null. It fails only where memory runs out.
pub fn optional_identity_field(
    out: &mut JsonWriter,
    member: Member,
    identity: Option<Identity>,
) -> Result<(), AllocError>
    ensures { OnOk result (Adds out.old out.new (key_token (name_of member) ∷ tokens_of (optional_data identity_data identity))) }
{
    match identity {
        Some(identity) => identity_field(out, member, identity),
        None => out.null_member(member),
    }
}

// The word for the status of a card.
#[inline(always)]
fn status_word(status: CardStatus) -> &'static str
    ensures { result.now ≡ status_word status }
{
    match status {
        CardStatus::Active => "active",
        CardStatus::Blocked => "blocked",
        CardStatus::Lost => "lost",
        CardStatus::Stolen => "stolen",
    }
}

/// Writes a member that is the status of a card. It fails only where memory runs out.
#[inline(always)]
pub fn status_field(
    out: &mut JsonWriter,
    member: Member,
    status: CardStatus,
) -> Result<(), AllocError>
    ensures { OnOk result (Adds out.old out.new (key_token (name_of member) ∷ string_token (status_word status) ∷ [])) }
{
    out.text_member(member, status_word(status).as_bytes())
}

// The word for the mode of a budget.
#[inline(always)]
fn mode_word(mode: BudgetMode) -> &'static str
    ensures { result.now ≡ mode_word mode }
{
    match mode {
        BudgetMode::Direct => "direct",
        BudgetMode::StandIn => "stand-in",
    }
}

/// Writes a member that is the mode of a budget. It fails only where memory runs out.
#[inline(always)]
pub fn mode_field(out: &mut JsonWriter, member: Member, mode: BudgetMode) -> Result<(), AllocError>
    ensures { OnOk result (Adds out.old out.new (key_token (name_of member) ∷ string_token (mode_word mode) ∷ [])) }
{
    out.text_member(member, mode_word(mode).as_bytes())
}

// The word for a kind of original.
#[inline(always)]
fn kind_word(kind: OriginalKind) -> &'static str
    ensures { result.now ≡ kind_word kind }
{
    match kind {
        OriginalKind::Request => "request",
        OriginalKind::Advice => "advice",
    }
}

/// Writes a member that is a kind of original. It fails only where memory runs out.
#[inline(always)]
pub fn kind_field(
    out: &mut JsonWriter,
    member: Member,
    kind: OriginalKind,
) -> Result<(), AllocError>
    ensures { OnOk result (Adds out.old out.new (key_token (name_of member) ∷ string_token (kind_word kind) ∷ [])) }
{
    out.text_member(member, kind_word(kind).as_bytes())
}

// The word for what paid.
#[inline(always)]
fn paid_word(paid: Paid) -> &'static str
    ensures { result.now ≡ paid_word paid }
{
    match paid {
        Paid::Nothing => "nothing",
        Paid::Card => "card",
        Paid::Account => "account",
        Paid::Budget => "budget",
    }
}

/// Writes a member that is what paid. It fails only where memory runs out.
#[inline(always)]
pub fn paid_field(out: &mut JsonWriter, member: Member, paid: Paid) -> Result<(), AllocError>
    ensures { OnOk result (Adds out.old out.new (key_token (name_of member) ∷ string_token (paid_word paid) ∷ [])) }
{
    out.text_member(member, paid_word(paid).as_bytes())
}
