// The averages program: a record on standard input, the averages of its last valid window on standard output.
// The longest record that is read has 60,965 bytes, so that the first 60,966 of the input decide what is printed.
#![tactic(auto)]

use std::io;
use std::io::{BufWriter, Read, Write};

fn run(input: &mut impl Read, output: &mut impl Write) -> io::Result<()> {
    let mut record = [0u8; 60_966];
    let n = inputs::fill(input, &mut record)?;
    averaging::print_record(&record[..n], output)?;
    output.flush()
}

// A read or write that fails ends the program with an error.
fn main(rt: HostRuntime) -> io::Result<()> {
    let mut output = BufWriter::new(rt.alloc(), rt.stdout())?;
    run(&mut rt.stdin(), &mut output)
}
