// The rejudge program: a record on standard input, one line on standard output.
// The longest record that is read has 60,965 bytes, so that the first 60,966 of the input decide every answer.
// Its buffers are the record's and the line's two, 61,350 bytes together; to print an error std has 1,024 more.
#![tactic(auto)]

use std::io;

// A read or write that fails ends the program with an error.
fn main(rt: HostRuntime) -> io::Result<()> {
    let mut input = [0u8; 60_966];
    let n = inputs::fill(&mut rt.stdin(), &mut input)?;
    let mut output = [0u8; 200];
    let written = rejudging::line(rejudging::rejudge(&input[..n]), &mut output);
    if let Ok(k) = written {
        rt.write_all(&output[..k])?;
    }
    Ok(())
}
