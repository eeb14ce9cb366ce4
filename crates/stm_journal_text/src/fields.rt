//! Reading marks, numbers and versions. Each reader takes the texts that are written of its values, and no other.

ghost use Rattle.std.specs.Prelude.{◌≡◌, ◌≢◌, ℕ, ◌<◌, ◌^◌, ◌∷◌, ◌++◌, IfSome, IfNone};
ghost use Rattle.std.specs.Bool.{OnTrue, OnFalse};
ghost use Rattle.std.specs.Fmt.{decimal};
ghost use Rattle.stm_journal_text.specs.Marks.{Lacks};
ghost use Rattle.stm_journal_text.specs.Texts.{version_text, IsVersion, IsShortDecimal};
ghost use Rattle.stm_memory.specs.declared.version.Version.{Version};

use memchr::memchr;
use stm_memory::Version;

/// What stands before the first mark, and what stands behind it; `None` where there is no mark.
pub(crate) fn parted(text: &[u8], mark: u8) -> Option<(&[u8], &[u8])>
    ensures found { IfSome result (λ parts. (text.now ≡ parts.0.now ++ mark ∷ parts.1.now) × Lacks mark parts.0.now) }
    ensures none { IfNone result (Lacks mark text.now) }
{
    let place = memchr(mark, text)?;
    Some((&text[..place], &text[place + 1..]))
}

/// Whether the text is one to ten digits, of which the first of more than one is not 0.
fn is_decimal(text: &[u8]) -> bool
    ensures yes { OnTrue result (IsShortDecimal text.now) }
    ensures other { OnFalse result (¬ IsShortDecimal text.now) }
{
    let has_zero_first = text.len() > 1 && text[0] == b'0';
    matches!(text.len(), 1..=10) && !has_zero_first && iso8583::is_digits(text)
}

/// The number that is written so in decimal.
pub(crate) fn number_of(text: &[u8]) -> Option<u32>
    ensures found { IfSome result (λ n. (n < 2 ^ 32) × (text.now ≡ decimal n)) }
    ensures none { IfNone result ((n : ℕ) → n < 2 ^ 32 → text.now ≢ decimal n) }
{
    if is_decimal(text) {
        u32::try_from(iso8583::number_of(text)).ok()
    } else {
        None
    }
}

/// The version that is written so.
pub(crate) fn version_of(text: &[u8]) -> Option<Version>
    ensures found { IfSome result (λ v. IsVersion v × (text.now ≡ version_text v)) }
    ensures none { IfNone result ((v : Version) → IsVersion v → text.now ≢ version_text v) }
{
    let (index, incarnation) = parted(text, b'.')?;
    Some(Version {
        index: number_of(index)?,
        incarnation: number_of(incarnation)?,
    })
}
