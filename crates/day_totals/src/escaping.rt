ghost use Rattle.std.specs.Prelude.{◌≡◌, ◌++◌, OnOk};
ghost use Rattle.day_totals.specs.Escaped.{escaped, escaped_byte};

use std::alloc::AllocError;

/// Appends a text as it stands in HTML: `<`, `>`, `&` and `"` as entities (HTML Living Standard, 13.1.4). It fails only where memory runs
/// out.
pub fn escape(html: &mut Vec<u8>, text: &[u8]) -> Result<(), AllocError>
    ensures { OnOk result (html.new.items ≡ html.old.items ++ escaped text.now) }
{
    for byte in text {
        escape_byte(html, *byte)?;
    }
    Ok(())
}

// Appends a byte of a text.
fn escape_byte(html: &mut Vec<u8>, byte: u8) -> Result<(), AllocError>
    ensures { OnOk result (html.new.items ≡ html.old.items ++ escaped_byte byte) }
{
    match byte {
        b'<' => html.extend_from_slice(b"&lt;"),
        b'>' => html.extend_from_slice(b"&gt;"),
        b'&' => html.extend_from_slice(b"&amp;"),
        b'"' => html.extend_from_slice(b"&quot;"),
        _ => html.extend_from_slice(&[byte]),
    }
}
