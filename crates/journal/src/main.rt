// The journal program: a journal on standard input, a line of each start on standard output.
// The longest journal that is read has 62,911 bytes, so that the first 62,912 of the input decide every line.
#![tactic(auto)]

use std::io;
use std::io::{BufWriter, Read, Write};

fn run(input: &mut impl Read, output: &mut impl Write) -> io::Result<()> {
    let mut journal = [0u8; 62_912];
    let n = inputs::fill(input, &mut journal)?;
    replaying::print_starts(&journal[..n], output)?;
    output.flush()
}

// A read or write that fails ends the program with an error, behind the lines before it.
fn main(rt: HostRuntime) -> io::Result<()> {
    let mut output = BufWriter::new(rt.alloc(), rt.stdout())?;
    run(&mut rt.stdin(), &mut output)
}
