use iso8583::{Digits, Pan};
use std::fmt;

/// A card number that shows its first six digits and its last four, with a star for each digit between them.
#[derive(Clone, Copy)]
pub struct MaskedPan {
    pan: Pan,
}

impl MaskedPan {
    ghost use Rattle.std.specs.Prelude.{◌≡◌, ◌-◌, length, drop, replicate};

    /// The card number, masked.
    pub fn new(pan: Pan) -> MaskedPan
        ensures { result.pan ≡ pan }
    {
        MaskedPan { pan }
    }

    // The last four digits.
    fn last(&self) -> Digits<4>
        ensures { result ≡ drop (length self.now.pan.0 - 4) self.now.pan.0 }
    {
        let digits = self.pan.as_slice();
        let (_, last) = digits.split_at(digits.len() - 4);
        Digits::of_text(last)
    }

    // A star for each digit between the first six and the last four.
    fn stars(&self) -> &'static str
        ensures { result.now ≡ replicate (length self.now.pan.0 - 10) 42 }
    {
        match self.pan.as_slice().len() - 10 {
            2 => "**",
            3 => "***",
            4 => "****",
            5 => "*****",
            6 => "******",
            7 => "*******",
            8 => "********",
            _ => "*********",
        }
    }
}

impl fmt::Display for MaskedPan {
    ghost use Rattle.std.specs.Prelude.{Some};
    ghost use Rattle.iso_shown.specs.Masked.{masked};

    ghost output = { λ shown. Some (masked shown.pan.0) };

    fn fmt<W: fmt::Write>(&self, f: &mut fmt::Formatter<W>) -> fmt::Result {
        let first = self.pan.prefix();
        let last = self.last();
        write!(f, "{}{}{}", first.as_str(), self.stars(), last.as_str())
    }
}
