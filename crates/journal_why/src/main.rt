// The journal_why program: a journal on standard input, on standard output a line of each start that is locked: which event left its lock standing.
// The longest journal that is read has 62,911 bytes, so that the first 62,912 of the input decide every line.
#![tactic(auto)]

use std::io;
use std::io::{BufWriter, Read, Write};

fn run(input: &mut impl Read, output: &mut impl Write) -> io::Result<()> {
    let mut journal = [0u8; 62_912];
    let n = inputs::fill(input, &mut journal)?;
    tracing::print_whys(&journal[..n], output)?;
    output.flush()
}

// A read or write that fails ends the program with an error, behind the lines before it.
fn main(rt: HostRuntime) -> io::Result<()> {
    let mut output = BufWriter::new(rt.alloc(), rt.stdout())?;
    run(&mut rt.stdin(), &mut output)
}
