// Runs the record's reader and writer, the rejudge line and salvaging on the items of standard input and prints a line for each.
// An item is a topic byte and, little-endian:
//   1, read:  a record: its length in 4 bytes, then its bytes.
//   2, write: the output's length in 4 bytes, its fill byte, then the six runs of a content, each after its count (the cells'
//             in 4 bytes, the others' in 2).
//   3, line:  the output's length in 4 bytes, its fill byte, then a record as in 1.
//   4, salvages: as 3.
// A length or a count beyond the space of the program is cut to it. A record that is read is written again from its accessors,
// and what is written is read again: the last word of such a line tells whether the same came back. The stored output is
// not the program's own.
#![tactic(auto)]

mod content;
mod input;
mod lines;
mod reads;
mod salvages;
mod space;
mod writes;

use space::{CELLS, LARGE, RUN, Runs, Space};
use std::io;
use std::io::{BufReader, BufWriter, Read, Write};

// Whether there was an item. The topic is a byte of the input's format, and this match is all of its table.
fn item(input: &mut impl Read, output: &mut impl Write, space: &mut Space) -> io::Result<bool> {
    match inputs::byte(input)? {
        1 => reads::item(input, output, space)?,
        2 => writes::item(input, output, space)?,
        3 => lines::item(input, output, space)?,
        4 => salvages::item(input, output, space)?,
        _ => return Ok(false),
    }
    Ok(true)
}

// A proved loop has to end: the turns are more than any input has items.
fn run(input: &mut impl Read, output: &mut impl Write, space: &mut Space) -> io::Result<()> {
    for _ in 0..u64::MAX {
        if !item(input, output, space)? {
            break;
        }
    }
    Ok(())
}

// A read or write that fails ends the run with an error, behind the answers before it.
fn main(rt: HostRuntime) -> io::Result<()> {
    let mut input = BufReader::new(rt.alloc(), rt.stdin())?;
    let mut output = BufWriter::new(rt.alloc(), rt.stdout())?;
    // Made in place: what a function answers may be copied, and would take the stack twice.
    let mut space = Space {
        bytes: [0; LARGE],
        output: [0; LARGE],
        runs: Runs {
            codes: [0; RUN],
            settings: [0; RUN],
            saturation: [0; RUN],
            cells: [0; CELLS],
            pasts: [0; RUN],
            causes: [0; RUN],
        },
    };
    run(&mut input, &mut output, &mut space)?;
    output.flush()
}
