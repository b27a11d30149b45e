// Runs the journal's reader and writer on the items of standard input and prints a line for each.
// An item is a topic byte and, little-endian:
//   1, read:  a journal: its length in 4 bytes, then its bytes.
//   2, write: the output's length in 4 bytes, its fill byte, V in 4 bytes, U in 2, and the length of the events' bytes in 4 bytes, then these
//             bytes: the events are those that they begin with, up to the first that is none.
// A length beyond the space of the program is cut to it. A journal that is read is written again from its events, and what is written is read
// again: the last word of such a line tells whether the same came back. The stored output is not the program's own.
#![tactic(auto)]

mod input;
mod items;

use std::alloc::Global;
use std::io;
use std::io::{BufReader, BufWriter, Read, Write};

// Whether there was an item. The topic is a byte of the input's format, and this match is all of its table.
fn item(input: &mut impl Read, output: &mut impl Write, alloc: Global) -> io::Result<bool> {
    match inputs::byte(input)? {
        1 => items::read(input, output, alloc)?,
        2 => items::write(input, output, alloc)?,
        _ => return Ok(false),
    }
    Ok(true)
}

// A proved loop has to end: the turns are more than any input has items.
fn run(input: &mut impl Read, output: &mut impl Write, alloc: Global) -> io::Result<()> {
    for _ in 0..u64::MAX {
        if !item(input, output, alloc)? {
            break;
        }
    }
    Ok(())
}

// A read or write that fails ends the run with an error, behind the answers before it.
fn main(rt: HostRuntime) -> io::Result<()> {
    let mut input = BufReader::new(rt.alloc(), rt.stdin())?;
    let mut output = BufWriter::new(rt.alloc(), rt.stdout())?;
    run(&mut input, &mut output, rt.alloc())?;
    output.flush()
}
