use std::fmt::Display;
use std::io::Write;

/// Tells a fault, and behind it what is told of a file, where something is, a line each. What `err` doesn't take is dropped.
pub fn tell_with<T: Display, E: Write>(fault: &T, line: Option<Vec<u8>>, err: &mut E) {
    let _ = write!(err, "{fault}\n");
    if let Some(line) = line {
        let _ = err.write_all(&line);
        let _ = err.write_all(b"\n");
    }
}
