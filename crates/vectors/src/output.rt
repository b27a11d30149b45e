// What several topics print.
use std::io;
use std::io::Write;

// The mean engine speed of a window, or "-".
pub(crate) fn engine(output: &mut impl Write, speed: Option<u16>) -> io::Result<()> {
    match speed {
        Some(n) => write!(output, "{n}"),
        None => write!(output, "-"),
    }
}
