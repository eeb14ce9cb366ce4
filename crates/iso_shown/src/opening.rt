/// How a body begins, where its bytes say so.
#[derive(Clone, Copy, Debug, PartialEq, Eq)]
pub enum Opening {
    /// With an MTI of four ASCII digits, as ISO 8583:1993 has it here.
    Mti,
    /// With its own length in two bytes, and then such an MTI.
    LengthHeader,
    /// With a TPDU of five bytes, and then an MTI in ASCII or BCD.
    Tpdu,
    /// With an MTI of four EBCDIC digits.
    Ebcdic,
    /// With an MTI of two BCD bytes.
    Bcd,
}
