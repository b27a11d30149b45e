// Runs, records and outputs from the input, each at the start of a lent space, to which its count is cut; zeros for what is past the input's
// end.
use crate::space::{CELLS, LARGE, RUN, Runs};
use record::Content;
use std::io;
use std::io::Read;

// The next n bytes, as far as they fit.
fn taken<'a>(input: &mut impl Read, into: &'a mut [u8], n: usize) -> io::Result<&'a [u8]> {
    let n = n.min(into.len());
    let bytes = &mut into[..n];
    inputs::bytes(input, bytes)?;
    Ok(bytes)
}

// The next run of bytes, after its count of two bytes.
fn bytes<'a>(input: &mut impl Read, into: &'a mut [u8; RUN]) -> io::Result<&'a [u8]> {
    let n = usize::from(inputs::short(input)?);
    taken(input, into, n)
}

// The next run of numbers of two bytes, after its count.
fn halves<'a>(
    input: &mut impl Read,
    space: &mut [u8; LARGE],
    into: &'a mut [u16; RUN],
) -> io::Result<&'a [u16]> {
    let n = usize::from(inputs::short(input)?).min(RUN);
    let bytes = taken(input, space, 2 * n)?;
    for (number, two) in into[..n].iter_mut().zip(bytes.as_chunks::<2>().0) {
        *number = u16::from_le_bytes(*two);
    }
    Ok(&into[..n])
}

// The cells, after their count of four bytes.
fn cells<'a>(
    input: &mut impl Read,
    space: &mut [u8; LARGE],
    into: &'a mut [u32; CELLS],
) -> io::Result<&'a [u32]> {
    let n = (inputs::long(input)? as usize).min(CELLS);
    let bytes = taken(input, space, 4 * n)?;
    for (number, four) in into[..n].iter_mut().zip(bytes.as_chunks::<4>().0) {
        *number = u32::from_le_bytes(*four);
    }
    Ok(&into[..n])
}

// A record, after its length of four bytes.
pub(crate) fn record<'a>(input: &mut impl Read, into: &'a mut [u8; LARGE]) -> io::Result<&'a [u8]> {
    let n = inputs::long(input)? as usize;
    taken(input, into, n)
}

// The six runs, one after the other; the space is for the bytes of their numbers.
pub(crate) fn content<'a>(
    input: &mut impl Read,
    space: &mut [u8; LARGE],
    into: &'a mut Runs,
) -> io::Result<Content<'a>> {
    Ok(Content {
        codes: halves(input, space, &mut into.codes)?,
        settings: halves(input, space, &mut into.settings)?,
        saturation: halves(input, space, &mut into.saturation)?,
        cells: cells(input, space, &mut into.cells)?,
        pasts: halves(input, space, &mut into.pasts)?,
        causes: bytes(input, &mut into.causes)?,
    })
}

// An output of the next length, filled with the byte after it.
pub(crate) fn output<'a>(
    input: &mut impl Read,
    into: &'a mut [u8; LARGE],
) -> io::Result<&'a mut [u8]> {
    let n = (inputs::long(input)? as usize).min(LARGE);
    let out = &mut into[..n];
    out.fill(inputs::byte(input)?);
    Ok(out)
}
