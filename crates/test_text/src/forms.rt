//! The forms of messages and replies, as they are spelled.

use std::alloc::AllocError;

/// What a form is read as.
#[derive(Clone, Copy, PartialEq, Eq)]
pub(crate) enum Kind {
    Request,
    Advice,
    FullReversal,
    PartialReversal,
    Approved,
    Declined,
    AdviceReply,
    ReversalReply,
}

/// A form: its type, its bitmap without elements 37 and 102, and the elements in which forms differ. One that it
/// doesn't have is empty here.
#[derive(Clone, Copy)]
pub(crate) struct Form {
    pub(crate) kind: Kind,
    pub(crate) repeat: bool,
    mti: &'static [u8],
    bitmap: &'static [u8],
    pub(crate) stan: &'static [u8],
    function: &'static [u8],
    original_amount: &'static [u8],
    approval: &'static [u8],
    action: &'static [u8],
    original: &'static [u8],
    pub(crate) account: &'static [u8],
    /// Bytes of the whole without element 37.
    pub(crate) size: usize,
}

const REQUEST: Form = Form {
    kind: Kind::Request,
    repeat: false,
    mti: b"1100",
    bitmap: &[0x72, 0x30, 0x01, 0x01, 0x00, 0x80, 0x80, 0x00],
    stan: b"000001",
    function: b"100",
    original_amount: b"",
    approval: b"",
    action: b"",
    original: b"",
    account: b"",
    size: 98,
};

const ADVICE: Form = Form {
    kind: Kind::Advice,
    repeat: false,
    mti: b"1120",
    bitmap: &[0x72, 0x30, 0x01, 0x01, 0x02, 0x80, 0x80, 0x00],
    stan: b"000001",
    function: b"100",
    original_amount: b"",
    approval: b"",
    action: b"000",
    original: b"",
    account: b"",
    size: 101,
};

const FULL_REVERSAL: Form = Form {
    kind: Kind::FullReversal,
    repeat: false,
    mti: b"1420",
    bitmap: &[0x72, 0x30, 0x01, 0x01, 0x00, 0x80, 0x81, 0x00],
    stan: b"000002",
    function: b"400",
    original_amount: b"",
    approval: b"",
    action: b"",
    original: b"30110000000126011012000006123456",
    account: b"",
    size: 130,
};

const PARTIAL_REVERSAL: Form = Form {
    kind: Kind::PartialReversal,
    repeat: false,
    mti: b"1420",
    bitmap: &[0x72, 0x30, 0x01, 0x05, 0x00, 0x80, 0x81, 0x00],
    stan: b"000002",
    function: b"401",
    original_amount: b"000000000250000000000000",
    approval: b"",
    action: b"",
    original: b"30110000000126011012000006123456",
    account: b"",
    size: 154,
};

const APPROVED: Form = Form {
    kind: Kind::Approved,
    repeat: false,
    mti: b"1110",
    bitmap: &[0x72, 0x30, 0x00, 0x01, 0x06, 0x80, 0x80, 0x00],
    stan: b"000001",
    function: b"",
    original_amount: b"",
    approval: b"000001",
    action: b"000",
    original: b"",
    account: b"",
    size: 104,
};

const DECLINED: Form = Form {
    kind: Kind::Declined,
    repeat: false,
    mti: b"1110",
    bitmap: &[0x72, 0x30, 0x00, 0x01, 0x02, 0x80, 0x80, 0x00],
    stan: b"000001",
    function: b"",
    original_amount: b"",
    approval: b"",
    action: b"116",
    original: b"",
    account: b"",
    size: 98,
};

const ADVICE_REPLY: Form = Form {
    kind: Kind::AdviceReply,
    mti: b"1130",
    action: b"901",
    ..DECLINED
};

const REVERSAL_REPLY: Form = Form {
    kind: Kind::ReversalReply,
    mti: b"1430",
    stan: b"000002",
    action: b"400",
    ..DECLINED
};

const REQUEST_REPEAT: Form = Form {
    repeat: true,
    mti: b"1101",
    ..REQUEST
};

const ADVICE_REPEAT: Form = Form {
    repeat: true,
    mti: b"1121",
    ..ADVICE
};

const ACCOUNT: &[u8] = b"164111110000000005";

/// Messages, their repeats and replies, each that may have element 102 without it and with it.
const FORMS: &[Form] = &[
    REQUEST,
    REQUEST_REPEAT,
    ADVICE,
    ADVICE_REPEAT,
    FULL_REVERSAL,
    Form {
        repeat: true,
        mti: b"1421",
        ..FULL_REVERSAL
    },
    PARTIAL_REVERSAL,
    Form {
        repeat: true,
        mti: b"1421",
        ..PARTIAL_REVERSAL
    },
    APPROVED,
    DECLINED,
    ADVICE_REPLY,
    REVERSAL_REPLY,
    Form {
        account: ACCOUNT,
        size: 124,
        ..REQUEST
    },
    Form {
        account: ACCOUNT,
        size: 124,
        ..REQUEST_REPEAT
    },
    Form {
        account: ACCOUNT,
        size: 127,
        ..ADVICE
    },
    Form {
        account: ACCOUNT,
        size: 127,
        ..ADVICE_REPEAT
    },
    Form {
        account: ACCOUNT,
        size: 130,
        ..APPROVED
    },
    Form {
        account: ACCOUNT,
        size: 124,
        ..DECLINED
    },
    Form {
        account: ACCOUNT,
        size: 124,
        ..ADVICE_REPLY
    },
];

/// The bytes of the second bitmap, where element 102 is there.
pub(crate) const SECOND_BITMAP: &[u8] = &[0, 0, 0, 0, 0x04, 0, 0, 0];

/// No element is spelled otherwise.
const AS_IT_IS: (u8, &[u8]) = (0, b"");

/// The forms.
pub(crate) fn forms() -> &'static [Form] {
    FORMS
}

/// The form at this place.
pub(crate) fn form_at(place: usize) -> Option<&'static Form> {
    FORMS.get(place)
}

impl Form {
    /// The numbers and texts of its elements. Those that it doesn't have are empty.
    fn elements(&self, retrieval: bool) -> [(u8, &'static [u8]); 16] {
        let retrieval = if retrieval {
            b"ABC 12345678".as_slice()
        } else {
            b"".as_slice()
        };
        [
            (2, b"164111110000000005".as_slice()),
            (3, b"000000".as_slice()),
            (4, b"000000000100".as_slice()),
            (7, b"0110120000".as_slice()),
            (11, self.stan),
            (12, b"260110120000".as_slice()),
            (24, self.function),
            (30, self.original_amount),
            (32, b"06123456".as_slice()),
            (37, retrieval),
            (38, self.approval),
            (39, self.action),
            (41, b"TERM0001".as_slice()),
            (49, b"978".as_slice()),
            (56, self.original),
            (102, self.account),
        ]
    }

    /// Appends the type and the bitmap, and the second bitmap where there is one.
    pub(crate) fn put_header(
        &self,
        retrieval: bool,
        second: &[u8],
        text: &mut Vec<u8>,
    ) -> Result<(), AllocError> {
        let start = text.len();
        text.extend_from_slice(self.mti)?;
        text.extend_from_slice(self.bitmap)?;
        text.extend_from_slice(second)?;
        if !second.is_empty() {
            set_bits(text, start + 4, 0x80);
        }
        if retrieval {
            set_bits(text, start + 8, 0x08);
        }
        Ok(())
    }

    /// The second bitmap that it has.
    pub(crate) fn second(&self) -> &'static [u8] {
        if self.account.is_empty() {
            b""
        } else {
            SECOND_BITMAP
        }
    }

    /// Appends the elements up to the last one, one of them spelled otherwise.
    pub(crate) fn put_elements(
        &self,
        retrieval: bool,
        spelling: (u8, &[u8]),
        last: u8,
        text: &mut Vec<u8>,
    ) -> Result<(), AllocError> {
        for (number, element) in &self.elements(retrieval) {
            if *number == spelling.0 {
                text.extend_from_slice(spelling.1)?;
            } else if *number <= last {
                text.extend_from_slice(element)?;
            }
        }
        Ok(())
    }

    /// Writes the whole text in place of what is there, with this second bitmap. Says whether there was room.
    pub(crate) fn put_with(&self, retrieval: bool, second: &[u8], text: &mut Vec<u8>) -> bool {
        text.clear();
        self.put_header(retrieval, second, text).is_ok()
            && self.put_elements(retrieval, AS_IT_IS, 128, text).is_ok()
    }

    /// The same with the second bitmap that it has.
    pub(crate) fn put(&self, retrieval: bool, text: &mut Vec<u8>) -> bool {
        self.put_with(retrieval, self.second(), text)
    }

    /// The same with element 37 and with one element spelled otherwise, which is the last one or not.
    pub(crate) fn put_spelled(
        &self,
        spelling: (u8, &[u8]),
        is_last: bool,
        text: &mut Vec<u8>,
    ) -> bool {
        text.clear();
        let last = if is_last { spelling.0 } else { 128 };
        self.put_header(true, self.second(), text).is_ok()
            && self.put_elements(true, spelling, last, text).is_ok()
    }

    /// Whether it is a reply.
    pub(crate) fn is_reply(&self) -> bool {
        matches!(
            self.kind,
            Kind::Approved | Kind::Declined | Kind::AdviceReply | Kind::ReversalReply
        )
    }

    /// Whether it is a reply to a request.
    pub(crate) fn is_request_reply(&self) -> bool {
        self.kind == Kind::Approved || self.kind == Kind::Declined
    }

    /// Whether the form has an element, 37 among them.
    pub(crate) fn has(&self, number: u8) -> bool {
        for (n, element) in &self.elements(true) {
            if *n == number {
                return !element.is_empty();
            }
        }
        false
    }
}

// Sets these bits of the byte at this place.
fn set_bits(text: &mut [u8], place: usize, bits: u8) {
    if let Some(byte) = text.get_mut(place) {
        *byte |= bits;
    }
}
