// Topic 2: a content is written; if it is written, it is read again and compared with the content given.
use crate::space::Space;
use crate::{content, input};
use record::{Content, Record};
use std::io;
use std::io::{Read, Write};

// Whether bytes are a record of this content.
fn has_content(bytes: &[u8], given: &Content) -> bool {
    match record::read_record(bytes) {
        Ok(shape) => content::equals(Record { bytes, shape }, given),
        Err(_) => false,
    }
}

pub(crate) fn item(
    input: &mut impl Read,
    output: &mut impl Write,
    space: &mut Space,
) -> io::Result<()> {
    let out = input::output(input, &mut space.output)?;
    let given = input::content(input, &mut space.bytes, &mut space.runs)?;
    let answer = record::write_record(out, &given);
    outputs::written(output, answer, out)?;
    if let Ok(n) = answer {
        if let Some(written) = out.get(..n) {
            write!(output, " {}", outputs::same(has_content(written, &given)))?;
        }
    }
    writeln!(output)
}
