//! Reading keys. Each reader takes the texts that are written of its values, and no other.

ghost use Rattle.std.specs.Prelude.{◌≡◌, ◌≢◌, ◌/◌, ◌++◌, length, IfSome, IfNone, codes};
ghost use Rattle.hex.specs.Hex.{encode_lower};
ghost use Rattle.issuer_words.specs.Words.{AccountId, HasPrintable, Identity, RowKey};
ghost use Rattle.stm_journal_text.specs.Texts.{identity_text, key_text, IsIdentity, IsKey};

use crate::fields::parted;
use crate::hexadecimal::name_digits;
use iso8583::{AccountId, Acquirer, Day, Identity, LocalStamp, Pan, PanPrefix, Stan};
use issuer_rows::RowKey;

/// What names an original, written so.
fn identity_of(text: &[u8]) -> Option<Identity>
    ensures found { IfSome result (λ i. IsIdentity i × (text.now ≡ identity_text i)) }
    ensures none { IfNone result ((i : Identity) → IsIdentity i → text.now ≢ identity_text i) }
{
    let (acquirer, rest) = parted(text, b':')?;
    let (stan, stamp) = parted(rest, b':')?;
    Some(Identity {
        acquirer: Acquirer::new(acquirer)?,
        stan: Stan::new(stan)?,
        stamp: LocalStamp::new(stamp)?,
    })
}

/// The name of an account, written so in hexadecimal, by way of half as many bytes.
fn account_by(text: &[u8], name: &mut [u8]) -> Option<AccountId>
    requires { length name.old ≡ length text.now / 2 }
    ensures found { IfSome result (λ id. HasPrintable 1 28 id.0 × (text.now ≡ encode_lower id.0)) }
    ensures none { IfNone result ((id : AccountId) → HasPrintable 1 28 id.0 → text.now ≢ encode_lower id.0) }
{
    hex::decode_to_slice(text, name).ok()?;
    let id = AccountId::new(name)?;
    // Small letters alone are taken: those that are written of the name.
    let (digits, size) = name_digits(&id);
    if &digits[..size] == text {
        Some(id)
    } else {
        None
    }
}

/// The name of an account, written so in hexadecimal.
fn account_of(text: &[u8]) -> Option<AccountId>
    ensures found { IfSome result (λ id. HasPrintable 1 28 id.0 × (text.now ≡ encode_lower id.0)) }
    ensures none { IfNone result ((id : AccountId) → HasPrintable 1 28 id.0 → text.now ≢ encode_lower id.0) }
{
    let mut name = [0; 28];
    let len = text.len() / 2;
    if len > 28 {
        return None;
    }
    account_by(text, &mut name[..len])
}

/// The key of what was spent on a day, written so behind its kind.
fn velocity_of(text: &[u8]) -> Option<RowKey>
    ensures found { IfSome result (λ row. IsKey row × (codes "day:" ++ text.now ≡ key_text row)) }
    ensures none { IfNone result ((row : RowKey) → IsKey row → codes "day:" ++ text.now ≢ key_text row) }
{
    let (pan, day) = parted(text, b':')?;
    Some(RowKey::Velocity(Pan::new(pan)?, Day::new(day)?))
}

/// The key that is written so.
pub(crate) fn key_of(text: &[u8]) -> Option<RowKey>
    ensures found { IfSome result (λ row. IsKey row × (text.now ≡ key_text row)) }
    ensures none { IfNone result ((row : RowKey) → IsKey row → text.now ≢ key_text row) }
{
    let (kind, rest) = parted(text, b':')?;
    if kind == b"card".as_slice() {
        Some(RowKey::Card(Pan::new(rest)?))
    } else if kind == b"day".as_slice() {
        velocity_of(rest)
    } else if kind == b"budget".as_slice() {
        Some(RowKey::Budget(PanPrefix::new(rest)?))
    } else if kind == b"orig".as_slice() {
        Some(RowKey::Original(identity_of(rest)?))
    } else if kind == b"acct".as_slice() {
        Some(RowKey::Account(account_of(rest)?))
    } else {
        None
    }
}
