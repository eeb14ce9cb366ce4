ghost use Rattle.std.specs.Prelude.{◌≡◌, ◌≤◌};
ghost use Rattle.iso8583.specs.Luhn.{doubled, passes_luhn};

use crate::pan::Pan;

/// Whether the card number passes the Luhn test (ISO/IEC 7812-1).
pub fn luhn(pan: &Pan) -> bool
    ensures { result ≡ passes_luhn pan.now.0 }
{
    // In pairs from the right: the left digit of each is doubled. One that is left over at the front isn't.
    let digits = pan.as_slice();
    let mut place = digits.len() % 2;
    let mut sum = if place == 1 {
        u32::from(digits[0] - b'0')
    } else {
        0
    };
    while place < digits.len() {
        sum += u32::from(doubled(digits[place] - b'0') + (digits[place + 1] - b'0'));
        place += 2;
    }
    sum % 10 == 0
}

// Each digit doubled, less 9 where that passes 9.
const DOUBLED: [u8; 10] = [0, 2, 4, 6, 8, 1, 3, 5, 7, 9];

fn doubled(digit: u8) -> u8
    requires { digit ≤ 9 }
    ensures value { result ≡ doubled digit }
    ensures bound { result ≤ 9 }
{
    DOUBLED[usize::from(digit)]
}
