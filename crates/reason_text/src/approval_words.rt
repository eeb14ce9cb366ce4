ghost use Rattle.std.specs.Prelude.{◌≡◌};
ghost use Rattle.std.specs.Str.{IsUtf8};

use iso8583::Approval;
use std::fmt;

/// An approval code for people.
#[derive(Clone, Copy)]
pub struct ApprovalWords(pub Approval);

// The code as characters.
#[tactic(auto, using(crate::proofs::Ascii::alphanumeric_utf8))]
fn text_of(code: &Approval) -> &str
    ensures { result.now ≡ code.now.0 }
{
    text_of_ascii(code.0.as_slice())
}

// The text of bytes that are UTF-8.
fn text_of_ascii(text: &[u8]) -> &str
    requires { IsUtf8 text.now }
    ensures { result.now ≡ text.now }
{
    str::from_utf8(text).unwrap()
}

impl fmt::Display for ApprovalWords {
    ghost use Rattle.std.specs.Prelude.{Some};

    ghost output = { λ words. Some words.0.0 };

    fn fmt<W: fmt::Write>(&self, f: &mut fmt::Formatter<W>) -> fmt::Result {
        f.write_str(text_of(&self.0))
    }
}
