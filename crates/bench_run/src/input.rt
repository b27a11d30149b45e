// Events from the input; 0 for what is past its end.
use bench::{Calibration, Event, Residue, Run, SpeedRange, Try, ZeroCheck};
use inputs::{byte, long, short};
use std::io;
use std::io::Read;

// The next event; none at the end of the input or at a kind that is none.
pub(crate) fn next(input: &mut impl Read) -> io::Result<Option<Event>> {
    let kind = byte(input)?;
    let clock = long(input)?;
    let event = match kind {
        1 => Event::PowerOn { clock },
        2 => Event::ClockSetting {
            clock,
            new_clock: long(input)?,
        },
        3 => Event::WarmUp { clock },
        4 => Event::Calibration {
            clock,
            outcome: calibration(input)?,
        },
        5 => Event::Try {
            clock,
            outcome: try_outcome(input)?,
        },
        6 => Event::AuthorityLock { clock },
        7 => Event::AuthorityUnlock { clock },
        8 => Event::Upload { clock },
        9 => start(input, clock)?,
        10 => second(input, clock)?,
        11 => Event::Stop {
            clock,
            cause: byte(input)?,
        },
        12 => Event::CoastDown {
            clock,
            run: coast_down(input)?,
        },
        13 => Event::Prepare {
            clock,
            check: zero_check(input)?,
        },
        _ => return Ok(None),
    };
    Ok(Some(event))
}

// The seven settings, then p: 16 bytes, taken at once.
fn start(input: &mut impl Read, clock: u32) -> io::Result<Event> {
    let mut bytes = [0; 16];
    inputs::bytes(input, &mut bytes)?;
    let mut left = bytes.as_slice();
    Ok(Event::Start {
        clock,
        settings: inputs::settings(&mut left)?,
        saturation: short(&mut left)?,
    })
}

// The readings of codes 1 to 8: 32 bytes, taken at once.
fn second(input: &mut impl Read, clock: u32) -> io::Result<Event> {
    let mut bytes = [0; 32];
    inputs::bytes(input, &mut bytes)?;
    Ok(Event::Second {
        clock,
        readings: inputs::readings(&mut bytes.as_slice())?,
    })
}

// 1 passed.
fn calibration(input: &mut impl Read) -> io::Result<Calibration> {
    match byte(input)? {
        1 => Ok(Calibration::Passed),
        _ => Ok(Calibration::Failed),
    }
}

// 1 good, then its expiry.
fn try_outcome(input: &mut impl Read) -> io::Result<Try> {
    match byte(input)? {
        1 => Ok(Try::Good {
            expiry: long(input)?,
        }),
        _ => Ok(Try::Wrong),
    }
}

// Inertia, power, which run (1 the faster) and the milliseconds.
fn coast_down(input: &mut impl Read) -> io::Result<Run> {
    Ok(Run {
        inertia: short(input)?,
        power: short(input)?,
        speeds: match byte(input)? {
            1 => SpeedRange::Faster,
            _ => SpeedRange::Slower,
        },
        milliseconds: long(input)?,
    })
}

// Background HC, CO, NO and the bits of the residue.
fn zero_check(input: &mut impl Read) -> io::Result<ZeroCheck> {
    Ok(ZeroCheck {
        hc: short(input)?,
        co: short(input)?,
        no: short(input)?,
        residue: Residue(short(input)?),
    })
}
