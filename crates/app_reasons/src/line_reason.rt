use std::fmt;

/// Why a line of a text is no body in hexadecimal.
#[derive(Clone, Copy, Debug, PartialEq, Eq)]
pub enum LineReason {
    /// The character at this column, from 1, is no hexadecimal digit.
    Character(usize),
    /// It has this many digits, and two are a byte.
    Odd(usize),
    /// It has this many bytes, more than 512.
    Long(usize),
}

/// Why the line, without its end, is no body in hexadecimal.
pub fn reason_of_line(line: &[u8]) -> Option<LineReason> {
    if let Some(index) = line.iter().position(|digit| !digit.is_ascii_hexdigit()) {
        return Some(LineReason::Character(index + 1));
    }
    if line.len() % 2 != 0 {
        return Some(LineReason::Odd(line.len()));
    }
    if line.len() > 1024 {
        return Some(LineReason::Long(line.len() / 2));
    }
    None
}

impl fmt::Display for LineReason {
    ghost use Rattle.std.specs.Prelude.{Some};
    ghost use Rattle.app_reasons.specs.Words.{line_words};

    ghost output = { λ reason. Some (line_words reason) };

    fn fmt<W: fmt::Write>(&self, f: &mut fmt::Formatter<W>) -> fmt::Result {
        match self {
            LineReason::Character(column) => write!(f, "column {column}: no hexadecimal digit"),
            LineReason::Odd(count) => write!(f, "{count} digits, where two are a byte"),
            LineReason::Long(count) => write!(f, "{count} bytes, where at most 512 are allowed"),
        }
    }
}
