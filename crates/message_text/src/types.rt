ghost use Rattle.std.specs.Prelude.{◌≡◌, Ok, Err, IfSome, IfNone};
ghost use Rattle.iso8583.specs.declared.codec_fault.CodecFault.TheVariants.{BadMti};
ghost use Rattle.iso_laws.specs.Reading.{mti_at};
ghost use Rattle.iso_laws.specs.Types.{taken_in};

use iso_codec::mti_taken_in;
use iso_laws::Mti;

/// The type of the messages that are taken in that the text names.
pub(crate) fn type_named(text: &[u8]) -> Option<Mti>
    ensures found { IfSome result (λ t. mti_at taken_in text.now ≡ Ok t) }
    ensures none { IfNone result (mti_at taken_in text.now ≡ Err BadMti) }
{
    match mti_taken_in(text) {
        Ok(mti) => Some(mti),
        Err(_) => None,
    }
}
