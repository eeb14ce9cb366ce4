ghost use Rattle.std.specs.Prelude.{◌≡◌, ◌-◌, ◌^◌};
ghost use Rattle.iso_laws.specs.Elements.{element_number, shape_of, class_of};

use crate::class::Class;
use crate::shape::Shape;

/// A data element (ISO 8583:1993).
#[derive(Clone, Copy)]
pub enum Element {
    /// 2, primary account number.
    Pan,
    /// 3, processing code.
    Processing,
    /// 4, amount of the transaction, in minor units.
    Amount,
    /// 7, date and time of transmission, MMDDhhmmss.
    Transmission,
    /// 11, systems trace audit number.
    Stan,
    /// 12, local date and time of the transaction, YYMMDDhhmmss.
    Stamp,
    /// 24, function code.
    Function,
    /// 30, original amount: twelve digits in minor units, and twelve zeros.
    OriginalAmount,
    /// 32, acquiring institution.
    Acquirer,
    /// 37, retrieval reference number.
    Retrieval,
    /// 38, approval code.
    Approval,
    /// 39, action code.
    Action,
    /// 41, card acceptor terminal.
    Terminal,
    /// 49, currency of the transaction, three digits.
    Currency,
    /// 56, original data elements: type, trace number, local date and time, acquirer.
    Original,
    /// 102, account identification 1.
    Account,
}

impl Element {
    /// Its row of the table: number, shape and class of characters.
    #[inline(always)]
    fn row(self) -> (u8, Shape, Class)
        ensures number { result.0 ≡ element_number self }
        ensures shape { result.1 ≡ shape_of self }
        ensures class { result.2 ≡ class_of self }
    {
        match self {
            Element::Pan => (2, Shape::UpTo(12, 19), Class::Digits),
            Element::Processing => (3, Shape::Fixed(6), Class::Digits),
            Element::Amount => (4, Shape::Fixed(12), Class::Digits),
            Element::Transmission => (7, Shape::Fixed(10), Class::Digits),
            Element::Stan => (11, Shape::Fixed(6), Class::Digits),
            Element::Stamp => (12, Shape::Fixed(12), Class::Digits),
            Element::Function => (24, Shape::Fixed(3), Class::Digits),
            Element::OriginalAmount => (30, Shape::Fixed(24), Class::Digits),
            Element::Acquirer => (32, Shape::UpTo(1, 11), Class::Digits),
            Element::Retrieval => (37, Shape::Fixed(12), Class::Alphanumeric),
            Element::Approval => (38, Shape::Fixed(6), Class::Alphanumeric),
            Element::Action => (39, Shape::Fixed(3), Class::Digits),
            Element::Terminal => (41, Shape::Fixed(8), Class::Printable),
            Element::Currency => (49, Shape::Fixed(3), Class::Digits),
            Element::Original => (56, Shape::UpTo(25, 35), Class::Digits),
            Element::Account => (102, Shape::UpTo(1, 28), Class::Printable),
        }
    }

    /// Its number, which is that of its bit.
    pub fn number(self) -> u8
        ensures { result ≡ element_number self }
    {
        self.row().0
    }

    /// Its bit in a bitmap of 128, of which bit 1 is the highest.
    pub fn bit(self) -> u128
        ensures { result ≡ 2 ^ (128 - element_number self) }
    {
        1 << (128 - self.number())
    }

    /// How long its text is, in characters.
    pub fn shape(self) -> Shape
        ensures { result ≡ shape_of self }
    {
        self.row().1
    }

    /// The class of characters that its text is made of.
    pub fn class(self) -> Class
        ensures { result ≡ class_of self }
    {
        self.row().2
    }
}
