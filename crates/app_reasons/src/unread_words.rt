use file_listing::UnreadBody;
use iso_shown::Opening;
use iso8583::Digits;
use std::fmt;

/// Which body is no message, why, and how it begins.
#[derive(Clone, Copy)]
pub struct UnreadWords {
    /// The body and its fault.
    pub unread: UnreadBody,
    /// How it begins, where its bytes say so.
    pub opening: Option<Opening>,
}

impl UnreadWords {
    ghost use Rattle.std.specs.Prelude.{◌≡◌};
    ghost use Rattle.app_reasons.specs.Words.{opening_words};

    // How the body begins, where that is no MTI in ASCII.
    fn opening(&self) -> &'static str
        ensures { result.now ≡ opening_words self.now.opening }
    {
        match self.opening {
            None | Some(Opening::Mti) => "",
            Some(Opening::LengthHeader) => {
                ", begins with a length of two bytes, where an MTI is to be"
            }
            Some(Opening::Tpdu) => ", begins with a TPDU, where an MTI is to be",
            Some(Opening::Ebcdic) => ", begins with an MTI in EBCDIC, where ASCII is to be",
            Some(Opening::Bcd) => ", begins with an MTI in BCD, where ASCII is to be",
        }
    }
}

impl fmt::Display for UnreadWords {
    ghost use Rattle.std.specs.Prelude.{Some};
    ghost use Rattle.app_reasons.specs.Words.{unread_words};

    ghost output = { λ words. Some (unread_words words) };

    fn fmt<W: fmt::Write>(&self, f: &mut fmt::Formatter<W>) -> fmt::Result {
        let (number, at) = (self.unread.number, self.unread.at);
        let fault = self.unread.fault.fault();
        let fault_number = Digits::<2>::of_number(u64::from(fault.number()));
        let element = Digits::<3>::of_number(u64::from(fault.element()));
        let (fault_number, element) = (fault_number.as_str(), element.as_str());
        let opening = self.opening();
        write!(
            f,
            "body {number} at byte {at}: F{fault_number}{element}{opening}"
        )
    }
}
