ghost use Rattle.std.specs.Prelude.{◌≡◌, ◌≤◌, IsOk, OnOk};
ghost use Rattle.std.specs.Io.KnownBytes.{Appends};

use std::io;
use std::io::Write;

/// Writes all of the text, as it stands.
pub fn put<W: Write>(writer: &mut W, text: &[u8]) -> io::Result<()>
    ensures { OnOk result (Appends (W.contents writer.old) (W.contents writer.new) text.now) }
{
    writer.write_all(text)
}

/// The exit status of a command whose last work is what it says: 0, or 1 where that wasn't all written, which `err` is told.
pub fn status_of<E: Write>(said: io::Result<()>, err: &mut E) -> u8
    ensures bound { result ≤ 1 }
    ensures done { result ≡ 0 → IsOk said }
    ensures told { IsOk said → (result ≡ 0) × (err.new ≡ err.old) }
{
    if said.is_ok() {
        return 0;
    }
    let _ = err.write_all(b"output 1\n");
    1
}
