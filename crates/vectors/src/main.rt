// Runs outside vectors: items of the proved crates' inputs from standard input, one answer a line on standard output.
// An item is a topic byte and the topic's fields, little-endian; tests/second_judge/README.md has the layout.
#![tactic(auto)]

mod corrections;
mod output;
mod readings;
mod tests;

use std::io;
use std::io::{BufReader, BufWriter, Read, Write};

// The items, until the input ends. A topic is a byte of the input's format, as are the tags of corrections.rt and tests.rt: the match is all
// that there is to a table of them.
fn run(input: &mut impl Read, output: &mut impl Write) -> io::Result<()> {
    let mut running = loaded_test::none_running();
    for _ in 0..1_000_000 {
        match input.bytes().next().transpose()? {
            Some(1) => readings::item(input, output)?,
            Some(2) => corrections::item(input, output)?,
            Some(3) => running = tests::item(input, output, running)?,
            _ => break,
        }
    }
    Ok(())
}

// A read or write that fails ends the run with an error, behind the answers before it.
fn main(rt: HostRuntime) -> io::Result<()> {
    let mut input = BufReader::new(rt.alloc(), rt.stdin())?;
    let mut output = BufWriter::new(rt.alloc(), rt.stdout())?;
    run(&mut input, &mut output)?;
    output.flush()
}
