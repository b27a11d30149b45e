// Topic 4: what is left of a record that was cut, put at the start of an output.
use crate::input;
use crate::space::Space;
use std::io;
use std::io::{Read, Write};

pub(crate) fn item(
    input: &mut impl Read,
    output: &mut impl Write,
    space: &mut Space,
) -> io::Result<()> {
    let out = input::output(input, &mut space.output)?;
    let record = input::record(input, &mut space.bytes)?;
    let answer = salvaging::salvage(out, record);
    if let Ok(x) = answer {
        write!(output, "{x} ")?;
    }
    outputs::written(output, answer.map(|x| x.written), out)?;
    writeln!(output)
}
