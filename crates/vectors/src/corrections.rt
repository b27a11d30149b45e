// DCF, k_H, the limits and loads of a vehicle, and the judgement of ten seconds.
use inputs::{byte, short};
use reading::{Channel, Hundredths, Reading, Second};
use refusal::Refusal;
use std::io;
use std::io::{Read, Write};
use vehicle::{Mode, Settings, Vehicle};
use window::Measured;

// Tag 1: CO2, CO. Tag 2: settings, p. Tag 3: mode, settings, p, ten seconds. Tag 4: kind, year, displacement, mode, load,
// speed, whether there is an engine speed, engine speed, gearbox.
pub(crate) fn item(input: &mut impl Read, output: &mut impl Write) -> io::Result<()> {
    match byte(input)? {
        1 => dcf(input, output),
        2 => factor(input, output),
        3 => ten(input, output),
        _ => limits(input, output),
    }
}

fn dcf(input: &mut impl Read, output: &mut impl Write) -> io::Result<()> {
    let co2 = Hundredths(short(input)?);
    let co = Hundredths(short(input)?);
    writeln!(output, "dcf {}", correction::dcf(co2, co))
}

fn factor(input: &mut impl Read, output: &mut impl Write) -> io::Result<()> {
    let s = inputs::settings(input)?;
    match vehicle::checked_of(s, short(input)?) {
        Ok(v) => writeln!(output, "k {}", vehicle::humidity_correction(v)),
        Err(r) => writeln!(output, "{r}"),
    }
}

// 2 the second.
fn mode_of(n: u8) -> Mode {
    match n {
        2 => Mode::Two,
        _ => Mode::One,
    }
}

// What ten seconds come to: the refusal of the first unfit one, or whether one is over range; and the window.
#[derive(Clone, Copy)]
struct Taken {
    over: Result<bool, Refusal>,
    last: [Measured; 10],
}

fn ten(input: &mut impl Read, output: &mut impl Write) -> io::Result<()> {
    let mode = mode_of(byte(input)?);
    let s = inputs::settings(input)?;
    match vehicle::checked_of(s, short(input)?) {
        Ok(v) => ten_of(input, output, v, mode),
        Err(r) => refused_window(input, output, r),
    }
}

fn ten_of(
    input: &mut impl Read,
    output: &mut impl Write,
    v: Vehicle,
    mode: Mode,
) -> io::Result<()> {
    let mut t = Taken {
        over: Ok(false),
        last: [window::blank(); 10],
    };
    for _ in 0..10 {
        t = match reading::second_of(inputs::readings(input)?, vehicle::automatic(v)) {
            Ok(s) => with_second(t, v, mode, s),
            Err(r) => Taken {
                over: t.over.and(Err(r)),
                ..t
            },
        };
    }
    match t.over {
        Ok(false) => judged(output, v, t.last),
        Ok(true) => writeln!(output, "over"),
        Err(r) => writeln!(output, "{r}"),
    }
}

// One second more, newest first.
fn with_second(t: Taken, v: Vehicle, mode: Mode, s: Second) -> Taken {
    let a = t.last;
    let m = window::measured_of(v, mode, s);
    Taken {
        over: t.over.map(|over| over | s.over()),
        last: [m, a[0], a[1], a[2], a[3], a[4], a[5], a[6], a[7], a[8]],
    }
}

// The ten seconds of a refused vehicle are passed over.
fn refused_window(input: &mut impl Read, output: &mut impl Write, r: Refusal) -> io::Result<()> {
    for _ in 0..10 {
        inputs::readings(input)?;
    }
    writeln!(output, "{r}")
}

// Whether the ten seconds are a valid window and whether they pass; their averages and their mean engine speed, valid or not.
fn judged(output: &mut impl Write, v: Vehicle, w: [Measured; 10]) -> io::Result<()> {
    let valid = if window::valid(w) { "valid" } else { "invalid" };
    let passing = if window::passes(v, w) {
        "passing"
    } else {
        "failing"
    };
    let a = window::averages_of(v, w);
    write!(
        output,
        "window {valid} {passing} {} {} {} ",
        a.hc, a.co, a.no
    )?;
    crate::output::engine(output, window::engine_speed_of(w))?;
    writeln!(output)
}

fn limits(input: &mut impl Read, output: &mut impl Write) -> io::Result<()> {
    let kind = short(input)?;
    let year = short(input)?;
    let displacement = short(input)?;
    let mode = mode_of(byte(input)?);
    let load = short(input)?;
    let _speed = short(input)?;
    let engine = engine_of(byte(input)?, short(input)?);
    let s = Settings {
        kind,
        year,
        displacement,
        gearbox: u16::from(byte(input)?),
        humidity: 0,
        temperature: 20,
        pressure: 1000,
    };
    match vehicle::checked_of(s, 2339) {
        Ok(v) => limits_line(output, v, mode, load, engine),
        Err(r) => writeln!(output, "{r}"),
    }
}

fn engine_of(present: u8, engine: u16) -> Reading {
    match present {
        1 => Reading::Value(f32::from(engine)),
        _ => Reading::Missing,
    }
}

fn yes(b: bool) -> &'static str {
    if b { "yes" } else { "no" }
}

fn limits_line(
    output: &mut impl Write,
    v: Vehicle,
    mode: Mode,
    load: u16,
    engine: Reading,
) -> io::Result<()> {
    let l = vehicle::limits_of(v);
    let set = vehicle::set_load(v, mode);
    let tolerance = yes(vehicle::in_tolerance(load, set));
    write!(
        output,
        "limits {} {} {} load {set} tolerance {tolerance}",
        l.co, l.hc, l.no
    )?;
    let target = vehicle::target(v, mode);
    writeln!(
        output,
        " target {target} engine {}",
        yes(engine_good(v, engine))
    )
}

// A second with this engine speed and 0 in the other codes; no second, no good engine speed.
fn engine_good(v: Vehicle, engine: Reading) -> bool {
    let alone = crate::readings::alone(Some(Channel::Engine), engine);
    match reading::second_of(alone, vehicle::automatic(v)) {
        Ok(s) => vehicle::engine_good(v, s),
        Err(_) => false,
    }
}
