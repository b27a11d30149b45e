// A test second by second: kind 9 begins one, 10 is a second, 11 a stop. Each prints what it did and the state after it.
use loaded_test::{Did, Next, Progress, Stage, Stepped, Test, Word};
use refusal::Refusal;
use std::io;
use std::io::{Read, Write};
use vehicle::Mode;

pub(crate) fn item(input: &mut impl Read, output: &mut impl Write, x: Test) -> io::Result<Test> {
    match inputs::byte(input)? {
        9 => begun(input, output, x),
        10 => second(input, output, x),
        _ => told(output, loaded_test::stop(x, inputs::byte(input)?)),
    }
}

fn begun(input: &mut impl Read, output: &mut impl Write, x: Test) -> io::Result<Test> {
    let s = inputs::settings(input)?;
    match loaded_test::begin(s, inputs::short(input)?) {
        Ok(test) => {
            writeln!(output, "begun")?;
            Ok(test)
        }
        Err(r) => refused(output, x, r),
    }
}

// 13 comes before 8.
fn second(input: &mut impl Read, output: &mut impl Write, x: Test) -> io::Result<Test> {
    match reading::second_of(inputs::readings(input)?, loaded_test::is_automatic(x)) {
        Ok(s) => told(output, loaded_test::second(x, s)),
        Err(r) if loaded_test::is_running(x) => refused(output, x, r),
        Err(_) => refused(output, x, Refusal::NoTest),
    }
}

fn refused(output: &mut impl Write, x: Test, r: Refusal) -> io::Result<Test> {
    writeln!(output, "{r}")?;
    Ok(x)
}

fn told(output: &mut impl Write, y: Stepped) -> io::Result<Test> {
    match y.answer {
        Ok(told) => {
            did_word(output, told.did)?;
            write!(output, " {}", next_word(told.next))?;
            state(output, loaded_test::progress_of(y.test))?;
            write!(output, " engine ")?;
            crate::output::engine(output, loaded_test::engine_speed_of(y.test))?;
            writeln!(output)?;
        }
        Err(r) => writeln!(output, "{r}")?,
    }
    Ok(y.test)
}

fn did_word(output: &mut impl Write, did: Did) -> io::Result<()> {
    match did {
        Did::Nothing => write!(output, "nothing"),
        Did::MeasuringBegan => write!(output, "began"),
        Did::Measured(_) => write!(output, "measured"),
        Did::Restarted => write!(output, "restarted"),
        Did::Voided(n) => write!(output, "void-{n}"),
    }
}

fn next_word(next: Next) -> &'static str {
    match next {
        Next::GoesOn => "goes-on",
        Next::Rests => "rests",
        Next::RestEnded => "rest-ended",
        Next::ModeTwo => "mode-2",
        Next::Ends(v) => match v.word {
            Word::Pass => "ends-pass",
            Word::Fail => "ends-fail",
            Word::Incomplete => "ends-incomplete",
        },
    }
}

// As the rejudge line has it; a number is all that either prints of a mode.
fn mode_number(mode: Mode) -> u8 {
    match mode {
        Mode::One => 1,
        Mode::Two => 2,
    }
}

fn stage_word(stage: Stage) -> &'static str {
    match stage {
        Stage::NotBegun => "none",
        Stage::Settling => "settling",
        Stage::Measuring => "measuring",
        Stage::Rest => "rest",
        Stage::Ended(_) => "ended",
    }
}

// Settling and measuring have a u and a w each; those of the one that does not run are 0.
fn state(output: &mut impl Write, p: Progress) -> io::Result<()> {
    let k = p.settling;
    let m = p.measuring;
    let u = u16::from(k.row) + u16::from(m.row);
    let w = u16::from(k.all) + u16::from(m.all);
    write!(
        output,
        " mode {} stage {}",
        mode_number(p.mode),
        stage_word(p.stage)
    )?;
    write!(
        output,
        " c {} n {} g {} t {}",
        p.counted, k.seconds, k.ready, m.seconds
    )?;
    write!(
        output,
        " u {u} w {w} passing {} failing {} invalid {}",
        m.windows.passing, m.windows.failing, m.windows.invalid
    )?;
    write!(
        output,
        " rest {} r {} q {}",
        p.resting, p.voids.voids, p.voids.inconclusive
    )
}
