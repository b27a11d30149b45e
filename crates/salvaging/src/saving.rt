// The program's streams: a record from its input, what is left of it to its output, and one line.
ghost use Rattle.std.specs.Prelude.{◌≡◌, OnOk, IfSome};
ghost use Rattle.std.specs.Io.KnownBytes.{Appends};
ghost use Rattle.salvaging.specs.Answers.{with_more};
ghost use Rattle.salvaging.specs.Saving.{counted, saved_bytes, saved_line};

use crate::Salvaged;
use std::io;
use std::io::{Read, Write};

// Bytes that were read on beyond those that were salvaged are dropped too.
fn with_more(x: Salvaged, more: u64) -> Salvaged
    ensures { result ≡ counted (with_more more x) }
{
    let bytes_dropped = x.bytes_dropped.saturating_add(more as usize);
    Salvaged { bytes_dropped, ..x }
}

// Salvages the record that the input holds. Where a read or a write fails, what was written before is left free, since no clause of std says how
// much a failing writer took. Ruled out: bytes beyond the longest record that are left unread, or not counted; a byte of a refused record written.
pub fn save<R: Read, W: Write, L: Write>(
    input: &mut R,
    output: &mut W,
    line: &mut L,
) -> io::Result<()>
    ensures { OnOk result (IfSome (R.remaining input.old) (λ s.
        Appends (W.contents output.old) (W.contents output.new) (saved_bytes s)
        × Appends (L.contents line.old) (L.contents line.new) (saved_line s))) }
{
    let mut bytes = [0u8; 60_966];
    let n = inputs::fill(input, &mut bytes)?;
    let more = io::copy(input, &mut io::sink())?;
    let mut out = [0u8; 60_966];
    match crate::salvage(&mut out, &bytes[..n]) {
        Ok(x) => {
            output.write_all(&out[..x.written])?;
            writeln!(line, "{}", with_more(x, more))
        }
        Err(r) => writeln!(line, "{r}"),
    }
}
