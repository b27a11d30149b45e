// Topic 1: a record is read; if it is fit, its content is taken out, written again and compared with the record.
use crate::space::{LARGE, Runs, Space};
use crate::{content, input};
use record::Record;
use std::io;
use std::io::{Read, Write};

// Whether the content fills an output of the record's length with the record's bytes.
fn comes_back(r: Record, output: &mut [u8; LARGE], runs: &mut Runs) -> bool {
    let out = &mut output[..r.bytes.len().min(LARGE)];
    let answer = record::write_record(out, &content::taken(r, runs));
    (answer == Ok(r.bytes.len())) & (*out == *r.bytes)
}

pub(crate) fn item(
    input: &mut impl Read,
    output: &mut impl Write,
    space: &mut Space,
) -> io::Result<()> {
    let bytes = input::record(input, &mut space.bytes)?;
    match record::read_record(bytes) {
        Ok(shape) => {
            let r = Record { bytes, shape };
            let back = outputs::same(comes_back(r, &mut space.output, &mut space.runs));
            writeln!(
                output,
                "fit {} {} {} {back}",
                shape.channels, shape.rows, shape.stops
            )
        }
        Err(r) => writeln!(output, "{r}"),
    }
}
