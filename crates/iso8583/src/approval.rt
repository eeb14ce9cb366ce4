ghost use Rattle.std.specs.Prelude.{◌≡◌, length};
ghost use Rattle.std.specs.Option.{SomeIff};
ghost use Rattle.iso8583.specs.Class.{IsAlphanumeric};
ghost use Rattle.iso8583.specs.Number.{fixed_digits};

use crate::alphanumeric::Alphanumeric;
use crate::digits::Digits;

/// Approval code, element 38: six letters, digits or spaces (ISO 8583:1993).
#[derive(Clone, Copy, PartialEq, Eq)]
pub struct Approval(pub Alphanumeric<6>);

impl Approval {
    /// The value, if the text is six letters, digits or spaces.
    pub fn new(text: &[u8]) -> Option<Approval>
        ensures { SomeIff result ((length text.now ≡ 6) × IsAlphanumeric text.now) (record { 0 = text.now }) }
    {
        Some(Approval(Alphanumeric::new(text)?))
    }

    /// The approval code that numbers a card's approvals: the last six digits of the count, with leading zeros.
    // Not inlined, so that its digits have no place among the rows that its caller builds.
    #[inline(never)]
    pub fn of_count(count: u32) -> Approval
        ensures { result ≡ record { 0 = fixed_digits 6 count } }
    {
        Approval(Alphanumeric::of_digits(Digits::of_number(u64::from(count))))
    }

    /// The text.
    pub fn as_slice(&self) -> &[u8]
        ensures { result.now ≡ self.now.0 }
    {
        self.0.as_slice()
    }
}
