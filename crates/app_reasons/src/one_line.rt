ghost use Rattle.std.specs.Prelude.{◌≡◌, ◌<◌, ◌++◌, IfOk, OnOk};
ghost use Rattle.app_reasons.specs.OneLine.{hex_digit, shown, shown_byte};

use std::alloc::{AllocError, Global};

// The hexadecimal digit of a number up to 15.
fn digit(number: u8) -> u8
    requires { number < 16 }
    ensures { result ≡ hex_digit number }
{
    if number < 10 {
        b'0' + number
    } else {
        b'a' + (number - 10)
    }
}

// Appends the byte, or where it is a control character `\\x` and its two hexadecimal digits.
fn add_byte(line: &mut Vec<u8>, byte: u8) -> Result<(), AllocError>
    ensures { OnOk result (line.new.items ≡ line.old.items ++ shown_byte byte) }
{
    if byte < 32 || byte == 127 {
        line.extend_from_slice(&[b'\\', b'x', digit(byte / 16), digit(byte % 16)])?;
    } else {
        line.push(byte)?;
    }
    Ok(())
}

/// The text in one line: of each control character `\\x` and its two hexadecimal digits stand there.
pub(crate) fn in_one_line(alloc: Global, text: &str) -> Result<Vec<u8>, AllocError>
    ensures { IfOk result (λ line. line.items ≡ shown text.now) }
{
    let mut line = Vec::new(alloc);
    for byte in text.as_bytes() {
        add_byte(&mut line, *byte)?;
    }
    Ok(line)
}
