//! Members that are card numbers, or may be.

ghost use Rattle.std.specs.Prelude.{◌≡◌, ◌∷◌, [], true, OnOk, codes};
ghost use Rattle.iso_shown.specs.Masked.{masked};
ghost use Rattle.iso_shown.specs.Shown.{shown_account, shown_card};
ghost use Rattle.json.specs.Token.{key as key_token, string as string_token};
ghost use Rattle.book_laws.specs.Text.{Adds, account_id_data, optional_data, tokens_of};
ghost use Rattle.reason_json.specs.Rows.{names_account, shown_value};

use book_text::JsonWriter;
use iso_shown::{CardNumbers, MaskedPan};
use iso8583::{AccountId, Pan};
use std::alloc::{AllocError, Global};

// Writes a member that is a card number, masked.
fn masked_field(out: &mut JsonWriter, alloc: Global, name: &str, pan: Pan) -> Result<(), AllocError>
    ensures { OnOk result (Adds out.old out.new (key_token name.now ∷ string_token (masked pan.0) ∷ [])) }
{
    let pan = MaskedPan::new(pan);
    let text = format!(in alloc; "{pan}")?;
    out.text_field(name, text.as_str())
}

/// Writes a card number as a member. It fails only where memory runs out.
pub(crate) fn pan_field(
    out: &mut JsonWriter,
    alloc: Global,
    cards: CardNumbers,
    pan: Pan,
) -> Result<(), AllocError>
    ensures { OnOk result (Adds out.old out.new (key_token (codes "pan") ∷ string_token (shown_card cards pan.0) ∷ [])) }
{
    match cards {
        CardNumbers::Masked => masked_field(out, alloc, "pan", pan),
        CardNumbers::Full => out.text_field("pan", pan.as_str()),
    }
}

/// Writes the name of an account, which may be a card number, as a member. It fails only where memory runs out.
pub(crate) fn account_field(
    out: &mut JsonWriter,
    alloc: Global,
    cards: CardNumbers,
    name: &str,
    id: AccountId,
) -> Result<(), AllocError>
    ensures { OnOk result (Adds out.old out.new (key_token name.now ∷ string_token (shown_account cards id.0) ∷ [])) }
{
    match (cards, Pan::new(id.as_slice())) {
        (CardNumbers::Masked, Some(pan)) => masked_field(out, alloc, name, pan),
        _ => out.text_field(name, id.as_str()),
    }
}

/// Writes the name of an account as a member, or null. It fails only where memory runs out.
pub(crate) fn optional_account_field(
    out: &mut JsonWriter,
    alloc: Global,
    cards: CardNumbers,
    name: &str,
    id: Option<AccountId>,
) -> Result<(), AllocError>
    requires { names_account name.now ≡ true }
    ensures { OnOk result (Adds out.old out.new (key_token name.now ∷ tokens_of (shown_value cards name.now (optional_data account_id_data id)))) }
{
    match id {
        Some(id) => account_field(out, alloc, cards, name, id),
        None => out.null_field(name),
    }
}
