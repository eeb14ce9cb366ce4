ghost use Rattle.std.specs.Prelude.{◌↔◌, All, IsTrue};
ghost use Rattle.book_text.specs.Escapes.{IsPlainByte};

/// Whether a text needs no escapes in JSON (RFC 8259): it has no quote, no backslash and no control character.
pub(crate) fn is_plain(text: &[u8]) -> bool
    ensures { IsTrue result ↔ All IsPlainByte text.now }
{
    text.iter()
        .all(|byte| *byte >= b' ' && *byte != b'"' && *byte != b'\\')
}
