ghost use Rattle.std.specs.Prelude.{◌≡◌, Ok, Err, IfOk, IfErr};
ghost use Rattle.file_laws.specs.Reading.{field_at, number_at};

use byteorder::{BigEndian, ByteOrder};
use file_laws::BatchFault;

/// So many bytes, and the bytes behind them.
pub(crate) fn field_at(bytes: &[u8], size: usize) -> Result<(&[u8], &[u8]), BatchFault>
    ensures ok { IfOk result (λ parts. field_at size bytes.now ≡ Ok (parts.0.now, parts.1.now)) }
    ensures err { IfErr result (λ fault. field_at size bytes.now ≡ Err fault) }
{
    if bytes.len() < size {
        return Err(BatchFault::Ended);
    }
    Ok(bytes.split_at(size))
}

/// A number of two bytes, the highest first, and the bytes behind it.
#[tactic(auto, unfolding(file_laws::specs::Reading::number_at))]
pub(crate) fn short_at(bytes: &[u8]) -> Result<(u16, &[u8]), BatchFault>
    ensures ok { IfOk result (λ parts. number_at 2 bytes.now ≡ Ok (parts.0, parts.1.now)) }
    ensures err { IfErr result (λ fault. number_at 2 bytes.now ≡ Err fault) }
{
    match field_at(bytes, 2) {
        Ok((field, behind)) => Ok((BigEndian::read_u16(field), behind)),
        Err(fault) => Err(fault),
    }
}

/// A number of four bytes, the highest first, and the bytes behind it.
#[tactic(auto, unfolding(file_laws::specs::Reading::number_at))]
pub(crate) fn long_at(bytes: &[u8]) -> Result<(u32, &[u8]), BatchFault>
    ensures ok { IfOk result (λ parts. number_at 4 bytes.now ≡ Ok (parts.0, parts.1.now)) }
    ensures err { IfErr result (λ fault. number_at 4 bytes.now ≡ Err fault) }
{
    match field_at(bytes, 4) {
        Ok((field, behind)) => Ok((BigEndian::read_u32(field), behind)),
        Err(fault) => Err(fault),
    }
}
