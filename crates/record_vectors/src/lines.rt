// Topic 3: the rejudge line of a record, put at the start of an output.
use crate::input;
use crate::space::Space;
use std::io;
use std::io::{Read, Write};

pub(crate) fn item(
    input: &mut impl Read,
    output: &mut impl Write,
    space: &mut Space,
) -> io::Result<()> {
    let out = input::output(input, &mut space.output)?;
    let record = input::record(input, &mut space.bytes)?;
    let answer = rejudging::line(rejudging::rejudge(record), out);
    outputs::written(output, answer, out)?;
    writeln!(output)
}
