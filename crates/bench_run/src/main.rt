// Runs one bench on a list of events from standard input, and prints an answer a line.
// The input: V (4 bytes), U (2 bytes), then each event: kind (1 byte), clock (4 bytes) and what its kind carries, little-endian.
#![tactic(auto)]

mod input;
mod output;

use std::io;
use std::io::{BufReader, BufWriter, Read, Write};

// The bench from its opening on, until the events end.
fn run(input: &mut impl Read, output: &mut impl Write) -> io::Result<()> {
    let validity = inputs::long(input)?;
    let limit = inputs::short(input)?;
    let mut bench = match bench::open(validity, limit) {
        Ok(fresh) => fresh,
        Err(r) => return writeln!(output, "{r}"),
    };
    for _ in 0..1_000_000 {
        let Some(event) = input::next(input)? else {
            break;
        };
        let handled = bench::step(bench, event);
        output::line(output, handled.answer)?;
        bench = handled.bench;
    }
    Ok(())
}

// A read or write that fails ends the run with an error, behind the answers before it.
fn main(rt: HostRuntime) -> io::Result<()> {
    let mut input = BufReader::new(rt.alloc(), rt.stdin())?;
    let mut output = BufWriter::new(rt.alloc(), rt.stdout())?;
    run(&mut input, &mut output)?;
    output.flush()
}
