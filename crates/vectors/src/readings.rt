// A reading of one code, or the eight readings of a second, and what they become.
use reading::{ByChannel, Channel, Level, Reading, Readings, Second, Tenths};
use std::io;
use std::io::{Read, Write};

// Tag 1: code, gearbox, bits. Tag 2: gearbox, the bits of codes 1 to 8.
pub(crate) fn item(input: &mut impl Read, output: &mut impl Write) -> io::Result<()> {
    if inputs::byte(input)? == 1 {
        return one(input, output);
    }
    let automatic = inputs::byte(input)? == 2;
    match reading::second_of(inputs::readings(input)?, automatic) {
        Ok(s) => all(output, s),
        Err(r) => writeln!(output, "{r}"),
    }
}

// The other seven codes read 0.
fn one(input: &mut impl Read, output: &mut impl Write) -> io::Result<()> {
    let channel = Channel::try_from(inputs::byte(input)?).ok();
    let automatic = inputs::byte(input)? == 2;
    let r = inputs::reading(input)?;
    match reading::second_of(alone(channel, r), automatic) {
        Ok(s) => unit_of(output, s, channel),
        Err(r) => writeln!(output, "{r}"),
    }
}

// A reading at its channel, and 0 at the other seven.
pub(crate) fn alone(channel: Option<Channel>, r: Reading) -> Readings {
    let at = |c: Channel| if channel == Some(c) {
        r
    } else {
        reading::from_bits(0)
    };
    ByChannel {
        speed: at(Channel::Speed),
        load: at(Channel::Load),
        engine: at(Channel::Engine),
        hc: at(Channel::Hc),
        co: at(Channel::Co),
        no: at(Channel::No),
        co2: at(Channel::Co2),
        o2: at(Channel::O2),
    }
}

// One channel's unit count, or why it has none.
fn unit_of(output: &mut impl Write, s: Second, channel: Option<Channel>) -> io::Result<()> {
    match level_of(s, channel) {
        _ if s.over() => writeln!(output, "over"),
        Level::Count(n) => writeln!(output, "{n}"),
        Level::Missing => writeln!(output, "missing"),
        Level::Over => writeln!(output, "over"),
    }
}

fn level_of(s: Second, channel: Option<Channel>) -> Level<u16> {
    match channel {
        Some(Channel::Speed) => Level::Count(s.speed()),
        Some(Channel::Load) => Level::Count(s.load()),
        Some(Channel::Engine) => s.engine().map_or(Level::Missing, Level::Count),
        Some(Channel::Hc) => Level::Count(s.hc()),
        Some(Channel::Co) => Level::Count(s.co().0),
        Some(Channel::No) => Level::Count(s.no()),
        Some(Channel::O2) => in_units(s.oxygen()),
        Some(Channel::Co2) | None => Level::Count(s.co2().0),
    }
}

fn in_units(oxygen: Level<Tenths>) -> Level<u16> {
    match oxygen {
        Level::Count(n) => Level::Count(n.0),
        Level::Missing => Level::Missing,
        Level::Over => Level::Over,
    }
}

// The counts of codes 1 to 7, 0 for an engine speed that is missing, the level of code 8, and what else there is to say.
fn all(output: &mut impl Write, s: Second) -> io::Result<()> {
    let engine = s.engine();
    write!(
        output,
        "{} {} {} ",
        s.speed(),
        s.load(),
        engine.unwrap_or(0)
    )?;
    write!(output, "{} {} {} {} ", s.hc(), s.co().0, s.no(), s.co2().0)?;
    match s.oxygen() {
        Level::Count(n) => write!(output, "{}", n.0)?,
        Level::Missing => write!(output, "missing")?,
        Level::Over => write!(output, "over")?,
    }
    if engine.is_none() {
        write!(output, " engine-missing")?;
    }
    if s.over() {
        write!(output, " over-range")?;
    }
    writeln!(output)
}
