//! Numbers as texts of digits.

ghost use Rattle.std.specs.Prelude.{◌≡◌, ◌≤◌, ◌<◌, ◌^◌, length};
ghost use Rattle.iso8583.specs.Class.{IsDigits};
ghost use Rattle.iso8583.specs.Number.{number_of, fixed_digits};

/// The number that up to 18 digits stand for.
pub fn number_of(text: &[u8]) -> u64
    requires digits { IsDigits text.now }
    requires fits { length text.now ≤ 18 }
    ensures value { result ≡ number_of text.now }
    ensures bound { result < 10 ^ length text.now }
{
    let mut n = 0;
    for c in text {
        n = n * 10 + u64::from(*c - b'0');
    }
    n
}

/// The last `N` digits of a number, with leading zeros.
pub(crate) fn fixed_digits<const N: usize>(number: u64) -> [u8; N]
    ensures digits { result ≡ fixed_digits N number }
    ensures class { IsDigits result }
{
    let mut text = [b'0'; N];
    let mut rest = number;
    for i in (0..N).rev() {
        text[i] = b'0' + (rest % 10) as u8;
        rest /= 10;
    }
    text
}
