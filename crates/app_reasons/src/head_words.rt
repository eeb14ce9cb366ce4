use crate::file_kind::FileKind;
use file_listing::HeadFault;
use std::fmt;

/// What is wrong with the head of a file that is to be of this kind, and begins as one of that kind.
#[derive(Clone, Copy)]
pub struct HeadWords {
    /// What it is to be.
    pub kind: FileKind,
    /// What its letters say that it is.
    pub found: Option<FileKind>,
    /// What is wrong.
    pub wrong: HeadFault,
}

impl HeadWords {
    ghost use Rattle.std.specs.Prelude.{◌≡◌};
    ghost use Rattle.app_reasons.specs.Words.{limit_words};

    // What the head announces, and how many of it are allowed.
    fn limit(&self) -> &'static str
        ensures { result.now ≡ limit_words self.now.kind }
    {
        match self.kind {
            FileKind::Batch | FileKind::Replies => "bodies, where at most 65536 are allowed",
            FileKind::Blocks | FileKind::BlockReplies => "blocks, where at most 1000 are allowed",
        }
    }
}

impl fmt::Display for HeadWords {
    ghost use Rattle.std.specs.Prelude.{Some};
    ghost use Rattle.app_reasons.specs.Words.{head_words};

    ghost output = { λ words. Some (head_words words) };

    fn fmt<W: fmt::Write>(&self, f: &mut fmt::Formatter<W>) -> fmt::Result {
        let (letters, kind) = (self.kind.letters(), self.kind);
        match (self.wrong, self.found) {
            (HeadFault::Letters, Some(found)) => {
                let begun = found.letters();
                write!(
                    f,
                    "it begins with {begun}, the letters of {found}, where {letters} is to be"
                )
            }
            (HeadFault::Letters, None) => {
                write!(f, "it doesn't begin with {letters}, the letters of {kind}")
            }
            (HeadFault::Version(version), _) => {
                write!(f, "byte 4: version {version}, where 1 is read")
            }
            (HeadFault::TooMany(count), _) => {
                let limit = self.limit();
                write!(f, "byte 6: {count} {limit}")
            }
            (HeadFault::Ends, _) => f.write_str("it ends within its head, which has 10 bytes"),
        }
    }
}
