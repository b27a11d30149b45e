// What the programs read from their input: a buffer full, and for those that run vectors little-endian numbers, a start's settings, and a second's
// readings; zeros past the input's end. Each contract says what is given, and what of the input is left, wherever the input's bytes are known. An error, and the input
// and a lent buffer after it, are left free, since no clause of std says when a read fails; so is everything where the bytes are not known.
#![tactic(auto)]

ghost use Rattle.std.specs.Prelude.{◌≡◌, ◌-◌, ◌≤◌, ◌++◌, length, take, replicate};
ghost use Rattle.std.specs.Io.{ReadsAtMost};
ghost use Rattle.std.specs.Io.KnownBytes.{ReadConsumes};
ghost use Rattle.inputs.specs.Inputs.{
  byte_of,
  short_of,
  long_of,
  settings_of,
  reading_in,
  readings_of,
  Takes,
  TakesInto,
  Fills,
};

use reading::{ByChannel, Readings};
use std::io;
use std::io::Read;
use vehicle::Settings;

// How often a read that was interrupted is tried.
const TRIES: u64 = u64::MAX;

// One read, tried again where it was interrupted and `again` is set.
fn read_once<R: Read>(input: &mut R, into: &mut [u8], again: bool) -> io::Result<usize>
    ensures bound { ReadsAtMost result into.new }
    ensures bytes { ReadConsumes (R.remaining input.old) (R.remaining input.new) result into.new }
{
    for _ in 0..TRIES {
        match input.read(into) {
            Ok(n) => return Ok(n),
            Err(e) => {
                if !again || e.kind() != io::ErrorKind::Interrupted {
                    return Err(e);
                }
            }
        }
    }
    Err(io::Error::from(io::ErrorKind::TimedOut))
}

// The next byte, 0 past the end.
// Ruled out: a byte left to be read again, and anything but 0 past the end.
pub fn byte<R: Read>(input: &mut R) -> io::Result<u8>
    ensures { Takes 1 byte_of (R.remaining input.old) result (R.remaining input.new) }
{
    let mut one = [0; 1];
    if read_once(input, &mut one, true)? == 0 {
        return Ok(0);
    }
    Ok(one[0])
}

// Reads until the buffer is full or the input ends, and answers how many bytes it put at the start.
fn fill_by<R: Read>(input: &mut R, into: &mut [u8], again: bool) -> io::Result<usize>
    ensures { Fills (length into.old) (R.remaining input.old) result into.new (R.remaining input.new) }
{
    let mut done = 0;
    while done < into.len() {
        let n = read_once(input, &mut into[done..], again)?;
        if n == 0 {
            break;
        }
        done += n;
    }
    Ok(done)
}

// Zeros from an index on.
fn zero_from(into: &mut [u8], n: usize)
    requires { n ≤ length into.old }
    ensures { into.new ≡ take n into.old ++ replicate (length into.old - n) 0 }
{
    into[n..].fill(0);
}

// The buffer full of the next bytes, zeros past the input's end.
// Ruled out: what the buffer held before, past the end; a byte left to be read again.
pub fn bytes<R: Read>(input: &mut R, into: &mut [u8]) -> io::Result<()>
    ensures { TakesInto (length into.old) (R.remaining input.old) result into.new (R.remaining input.new) }
{
    let n = fill_by(input, into, true)?;
    zero_from(into, n);
    Ok(())
}

// The next two bytes as a number, taken at once.
// Ruled out: the high byte first, and one byte read alone.
pub fn short<R: Read>(input: &mut R) -> io::Result<u16>
    ensures { Takes 2 short_of (R.remaining input.old) result (R.remaining input.new) }
{
    let mut two = [0; 2];
    bytes(input, &mut two)?;
    let low = two[0];
    let high = two[1];
    Ok((low as u16) + 256 * (high as u16))
}

// The next four bytes as a number, taken at once.
// Ruled out: the high half first, and a half shifted by 8 places alone.
pub fn long<R: Read>(input: &mut R) -> io::Result<u32>
    ensures { Takes 4 long_of (R.remaining input.old) result (R.remaining input.new) }
{
    let mut four = [0; 4];
    bytes(input, &mut four)?;
    pair(&mut four.as_slice())
}

// The number of the next two shorts.
fn pair<R: Read>(input: &mut R) -> io::Result<u32>
    ensures { Takes 4 long_of (R.remaining input.old) result (R.remaining input.new) }
{
    let low = short(input)?;
    let high = short(input)?;
    Ok((low as u32) + 65_536 * (high as u32))
}

// The seven settings in their order, a short each.
// Ruled out: humidity and temperature exchanged, and a setting skipped.
pub fn settings<R: Read>(input: &mut R) -> io::Result<Settings>
    ensures { Takes 14 settings_of (R.remaining input.old) result (R.remaining input.new) }
{
    Ok(Settings {
        kind: short(input)?,
        year: short(input)?,
        displacement: short(input)?,
        gearbox: short(input)?,
        humidity: short(input)?,
        temperature: short(input)?,
        pressure: short(input)?,
    })
}

// A reading of the next 32 bits, a short after the other.
// Ruled out: a reading of 16 bits, and missing given for every input.
pub fn reading<R: Read>(input: &mut R) -> io::Result<reading::Reading>
    ensures { Takes 4 reading_in (R.remaining input.old) result (R.remaining input.new) }
{
    Ok(reading::from_bits(pair(input)?))
}

// The readings of codes 1 to 8.
// Ruled out: two channels exchanged, and one reading given for all eight.
pub fn readings<R: Read>(input: &mut R) -> io::Result<Readings>
    ensures { Takes 32 readings_of (R.remaining input.old) result (R.remaining input.new) }
{
    Ok(ByChannel {
        speed: reading(input)?,
        load: reading(input)?,
        engine: reading(input)?,
        hc: reading(input)?,
        co: reading(input)?,
        no: reading(input)?,
        co2: reading(input)?,
        o2: reading(input)?,
    })
}

// Reads until the buffer is full or the input ends, and answers how many bytes it put at the start: memory is fixed, and std's readers to an
// input's end take the heap.
// Ruled out: bytes left in the input where there is room for them; a buffer that is filled twice from the start.
pub fn fill<R: Read>(input: &mut R, into: &mut [u8]) -> io::Result<usize>
    ensures { Fills (length into.old) (R.remaining input.old) result into.new (R.remaining input.new) }
{
    fill_by(input, into, false)
}
