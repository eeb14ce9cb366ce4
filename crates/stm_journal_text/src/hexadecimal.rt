ghost use Rattle.std.specs.Prelude.{◌≡◌, ◌≤◌, take};
ghost use Rattle.hex.specs.Hex.{encode_lower};
ghost use Rattle.iso8583.specs.Padded.{HasPrintable};

use iso8583::AccountId;

/// The name of an account in hexadecimal, at the front of an array, and how many digits it has: two small ones a byte.
pub(crate) fn name_digits(id: &AccountId) -> ([u8; 56], usize)
    ensures digits { take result.1 result.0 ≡ encode_lower id.now.0 }
    ensures size { result.1 ≤ 56 }
    ensures name { HasPrintable 1 28 id.now.0 }
{
    let name = id.as_slice();
    let size = 2 * name.len();
    let mut digits = [0; 56];
    let Ok(()) = hex::encode_to_slice(name, &mut digits[..size]) else {
        unreachable!()
    };
    (digits, size)
}
