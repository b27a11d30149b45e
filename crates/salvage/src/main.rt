// The salvage program: a record that a full card cut on standard input, what is left of it on standard output, one line on standard error.
// Its buffers are the record's and the salvaged record's, 60,966 bytes each; to read on std has 8,192 more, to print an error 1,024.
#![tactic(auto)]

use std::io;

// A read or write that fails ends the program with an error.
fn main(rt: HostRuntime) -> io::Result<()> {
    salvaging::save(&mut rt.stdin(), &mut rt.stdout(), &mut rt.stderr())
}
