ghost use Rattle.std.specs.Prelude.{◌≡◌, ◌+◌, ◌<◌};
ghost use Rattle.iso_shown.specs.Opening.{is_mti_from, is_bcd_mti, has_own_length, is_tpdu, opening_of};

use crate::opening::Opening;

// The digit 0 in ASCII and in EBCDIC.
const ASCII_ZERO: u8 = b'0';

const EBCDIC_ZERO: u8 = 0xf0;

// Whether the bytes begin with an MTI whose digit 0 is this byte.
fn is_mti_from(zero: u8, bytes: &[u8]) -> bool
    requires { zero + 10 < 256 }
    ensures { result ≡ is_mti_from zero bytes.now }
{
    match bytes {
        [version, class, function, origin, ..] => {
            zero <= *version
                && *version < zero + 3
                && zero < *class
                && *class < zero + 9
                && zero <= *function
                && *function < zero + 10
                && zero <= *origin
                && *origin < zero + 6
        }
        _ => false,
    }
}

// Whether the bytes begin with an MTI of two BCD bytes.
fn is_bcd_mti(bytes: &[u8]) -> bool
    ensures { result ≡ is_bcd_mti bytes.now }
{
    match bytes {
        [first, second, ..] => {
            *first / 16 < 3
                && 0 < *first % 16
                && *first % 16 < 9
                && *second / 16 < 10
                && *second % 16 < 6
        }
        _ => false,
    }
}

// Whether two bytes of length stand before an MTI.
fn has_own_length(bytes: &[u8]) -> bool
    ensures { result ≡ has_own_length bytes.now }
{
    match bytes {
        [high, low, rest @ ..] => {
            256 * usize::from(*high) + usize::from(*low) == rest.len()
                && is_mti_from(ASCII_ZERO, rest)
        }
        _ => false,
    }
}

// Whether a TPDU stands before an MTI.
fn is_tpdu(bytes: &[u8]) -> bool
    ensures { result ≡ is_tpdu bytes.now }
{
    match bytes {
        [id, _, _, _, _, rest @ ..] => {
            *id == 0x60 && (is_mti_from(ASCII_ZERO, rest) || is_bcd_mti(rest))
        }
        _ => false,
    }
}

/// How a body begins, where its bytes say so.
pub fn opening_of(body: &[u8]) -> Option<Opening>
    ensures { result ≡ opening_of body.now }
{
    if is_mti_from(ASCII_ZERO, body) {
        Some(Opening::Mti)
    } else if has_own_length(body) {
        Some(Opening::LengthHeader)
    } else if is_tpdu(body) {
        Some(Opening::Tpdu)
    } else if is_mti_from(EBCDIC_ZERO, body) {
        Some(Opening::Ebcdic)
    } else if is_bcd_mti(body) {
        Some(Opening::Bcd)
    } else {
        None
    }
}
