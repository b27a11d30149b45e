// Runs the averages in floats on the cases of standard input and prints for each the bits of the three: 16 lower-case hexadecimal digits each, HC,
// CO and NO.
// A case is 336 bytes, little-endian: the seven settings and p in 2 bytes each, then ten seconds of eight readings in 4 bytes each, the oldest
// second first. A last case that is cut off has no line.
#![tactic(auto)]

use averaging::FloatAverages;
use std::io;
use std::io::{BufReader, BufWriter, Read, Write};
use std::num::f64_to_bits_with_nan;

fn averages_of(mut case: &[u8]) -> io::Result<FloatAverages> {
    let settings = inputs::settings(&mut case)?;
    let saturation = inputs::short(&mut case)?;
    let mut seconds = [inputs::readings(&mut case)?; 10];
    for i in 1..10 {
        seconds[i] = inputs::readings(&mut case)?;
    }
    Ok(averaging::averages_of_readings(settings, saturation, seconds))
}

// Whether there was a case.
fn case(input: &mut impl Read, output: &mut impl Write) -> io::Result<bool> {
    let mut case = [0u8; 336];
    if inputs::fill(input, &mut case)? < 336 {
        return Ok(false);
    }
    let x = averages_of(&case)?;
    let (hc, co, no) = (
        f64_to_bits_with_nan(x.hc),
        f64_to_bits_with_nan(x.co),
        f64_to_bits_with_nan(x.no),
    );
    writeln!(output, "{hc:016x} {co:016x} {no:016x}")?;
    Ok(true)
}

// A proved loop has to end: the turns are more than any input has cases.
fn run(input: &mut impl Read, output: &mut impl Write) -> io::Result<()> {
    for _ in 0..u64::MAX {
        if !case(input, output)? {
            break;
        }
    }
    Ok(())
}

// A read or write that fails ends the run with an error, behind the answers before it.
fn main(rt: HostRuntime) -> io::Result<()> {
    let mut input = BufReader::new(rt.alloc(), rt.stdin())?;
    let mut output = BufWriter::new(rt.alloc(), rt.stdout())?;
    run(&mut input, &mut output)?;
    output.flush()
}
