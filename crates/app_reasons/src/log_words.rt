use file_laws::LogFault;
use std::fmt;

/// Why a log is not read or written, with the place where that is known.
#[derive(Clone, Copy)]
pub struct LogWords(pub LogFault);

impl fmt::Display for LogWords {
    ghost use Rattle.std.specs.Prelude.{Some};
    ghost use Rattle.app_reasons.specs.Words.{log_words};

    ghost output = { λ words. Some (log_words words.0) };

    fn fmt<W: fmt::Write>(&self, f: &mut fmt::Formatter<W>) -> fmt::Result {
        match self.0 {
            LogFault::NoLog => f.write_str(
                "it doesn't begin with the head of a log, which has 38 bytes, the first of them I83L",
            ),
            LogFault::Version => f.write_str("byte 4: another version, where 1 is read"),
            LogFault::OtherBook => f.write_str("byte 6: the digest of another book"),
            LogFault::InUse => f.write_str("in use by another program"),
            LogFault::Broken(entries) => write!(
                f,
                "behind {entries} whole entries: no entry and no torn tail"
            ),
            LogFault::Failed => f.write_str("input or output failed"),
            LogFault::OutOfMemory => f.write_str("out of memory"),
        }
    }
}
