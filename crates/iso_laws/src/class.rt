/// The class of an element's characters (ISO 8583:1993: n, anp and ans).
#[derive(Clone, Copy)]
pub enum Class {
    /// `0` to `9`.
    Digits,
    /// Letters, digits and spaces.
    Alphanumeric,
    /// 0x20 to 0x7E.
    Printable,
}
