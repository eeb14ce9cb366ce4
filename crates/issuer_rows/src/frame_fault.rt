ghost use Rattle.std.specs.Prelude.{◌≡◌, ◌≢◌};
ghost use Rattle.std.specs.Option.{SomeIff};

use iso8583::{CodecFault, Digits};
use std::marker::Model;

/// Why a body is no message. It is never out of memory.
#[derive(Clone, Copy, Debug, PartialEq, Eq)]
pub struct FrameFault {
    fault: CodecFault,
}

impl Model for FrameFault {
    ghost use Rattle.iso8583.specs.declared.codec_fault.CodecFault.{CodecFault};
    ghost use Rattle.issuer_rows.specs.FrameFault.{IsOfFrame};

    ghost Value = { CodecFault };

    ghost view = { λ f. f.fault };

    ghost invariant = { λ f. IsOfFrame f.fault };

    ghost inverse = { λ fault. record { fault = fault } };
}

impl FrameFault {
    ghost use Rattle.issuer_rows.specs.FrameFault.{IsOfFrame, fault_body};

    /// The fault, unless it is out of memory.
    pub fn new(fault: CodecFault) -> Option<FrameFault>
        ensures { SomeIff result (IsOfFrame fault) fault }
    {
        match fault {
            CodecFault::OutOfMemory => None,
            _ => Some(FrameFault { fault }),
        }
    }

    /// The fault.
    pub fn fault(&self) -> CodecFault
        ensures value { result ≡ self.now }
        ensures frame { IsOfFrame result }
    {
        self.fault
    }

    /// How the fault is answered: `F`, two digits of its number, three of the element's, as `F05049`.
    pub fn body(&self) -> [u8; 6]
        ensures { result ≡ fault_body self.now }
    {
        let number = Digits::<2>::of_number(u64::from(self.fault.number()));
        let element = Digits::<3>::of_number(u64::from(self.fault.element()));
        let number = number.as_slice();
        let element = element.as_slice();
        [
            b'F', number[0], number[1], element[0], element[1], element[2],
        ]
    }
}
