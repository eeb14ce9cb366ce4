//! Classes of characters that texts of elements are made of. Each byte is looked at, without a branch: most texts are
//! of their class.

ghost use Rattle.std.specs.Prelude.{◌≡◌};
ghost use Rattle.iso8583.specs.Class.{is_digits, is_alphanumeric, is_printable};

/// Whether the text has digits alone.
pub fn is_digits(text: &[u8]) -> bool
    ensures { result ≡ is_digits text.now }
{
    let mut only = true;
    for c in text {
        only &= c.is_ascii_digit();
    }
    only
}

/// Whether the text has letters, digits and spaces alone (anp).
pub fn is_alphanumeric(text: &[u8]) -> bool
    ensures { result ≡ is_alphanumeric text.now }
{
    let mut only = true;
    for c in text {
        only &= c.is_ascii_alphanumeric() || *c == b' ';
    }
    only
}

/// Whether the text has printable characters alone, 0x20 to 0x7E (ans).
pub fn is_printable(text: &[u8]) -> bool
    ensures { result ≡ is_printable text.now }
{
    let mut only = true;
    for c in text {
        only &= matches!(*c, b' '..=b'~');
    }
    only
}
