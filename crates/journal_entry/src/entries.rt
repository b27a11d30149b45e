// The entry that bytes begin with: "each a kind byte, the clock, and that kind's fields". Each byte is judged in turn.
ghost use Rattle.std.specs.Prelude.{◌≡◌};
ghost use Rattle.journal_entry.specs.Claims.{EntryClaims};
ghost use Rattle.journal_entry.specs.Kinds.{kind_of};
ghost use Rattle.journal_entry.specs.Reading.{
  Gives,
  kind_at,
  calibration_at,
  try_at,
  settings_at,
  start_at,
  bits_at,
  speeds_of,
  coast_down_at,
  prepare_at,
  clock_setting_at,
  second_at,
  stop_at,
  fields_at,
  entry_of,
};

use crate::numbers::{byte_at, long_at, short_at, yes_no_at};
use crate::{Entry, Fault, Fields};
use coast_down::{Run, SpeedRange};
use locks::{Calibration, Kind, Try};
use prepare::{Residue, ZeroCheck};
use reading::{Bits, ByChannel};
use vehicle::Settings;

// The kinds in the order of their numbers.
const KINDS: [Kind; 13] = [
    Kind::PowerOn,
    Kind::ClockSetting,
    Kind::WarmUp,
    Kind::Calibration,
    Kind::Try,
    Kind::AuthorityLock,
    Kind::AuthorityUnlock,
    Kind::Upload,
    Kind::Start,
    Kind::Second,
    Kind::Stop,
    Kind::CoastDown,
    Kind::Prepare,
];

// The kind of a number, if there is one.
#[tactic(auto, unfolding(crate::specs::Kinds::kind_of))]
fn kind_of(number: u8) -> Option<Kind>
    ensures { result ≡ kind_of number }
{
    KINDS.iter().copied().find(|kind| kind.number() == number)
}

#[tactic(auto, unfolding(crate::specs::Reading::kind_at))]
fn kind_at(bytes: &[u8]) -> Result<(Kind, &[u8]), Fault>
    ensures { Gives (λ x. (x.0, x.1.now)) result (kind_at bytes.now) }
{
    let (number, rest) = byte_at(bytes)?;
    match kind_of(number) {
        Some(kind) => Ok((kind, rest)),
        None => Err(Fault::Event(bytes.len())),
    }
}

#[tactic(auto, unfolding(crate::specs::Reading::calibration_at))]
fn calibration_at(bytes: &[u8]) -> Result<(Fields, &[u8]), Fault>
    ensures { Gives (λ x. (x.0, x.1.now)) result (calibration_at bytes.now) }
{
    let (passed, rest) = yes_no_at(bytes)?;
    if passed {
        return Ok((Fields::Calibration(Calibration::Passed), rest));
    }
    Ok((Fields::Calibration(Calibration::Failed), rest))
}

// "a wrong try has no expiry"
#[tactic(auto, unfolding(crate::specs::Reading::try_at))]
fn try_at(bytes: &[u8]) -> Result<(Fields, &[u8]), Fault>
    ensures { Gives (λ x. (x.0, x.1.now)) result (try_at bytes.now) }
{
    let (good, rest) = yes_no_at(bytes)?;
    if good {
        let (expiry, rest) = long_at(rest)?;
        return Ok((Fields::Try(Try::Good { expiry }), rest));
    }
    Ok((Fields::Try(Try::Wrong), rest))
}

#[tactic(auto, unfolding(crate::specs::Reading::settings_at))]
fn settings_at(bytes: &[u8]) -> Result<(Settings, &[u8]), Fault>
    ensures { Gives (λ x. (x.0, x.1.now)) result (settings_at bytes.now) }
{
    let (kind, rest) = short_at(bytes)?;
    let (year, rest) = short_at(rest)?;
    let (displacement, rest) = short_at(rest)?;
    let (gearbox, rest) = short_at(rest)?;
    let (humidity, rest) = short_at(rest)?;
    let (temperature, rest) = short_at(rest)?;
    let (pressure, rest) = short_at(rest)?;
    let settings = Settings {
        kind,
        year,
        displacement,
        gearbox,
        humidity,
        temperature,
        pressure,
    };
    Ok((settings, rest))
}

// "the seven settings, then p"
#[tactic(auto, unfolding(crate::specs::Reading::start_at))]
fn start_at(bytes: &[u8]) -> Result<(Fields, &[u8]), Fault>
    ensures { Gives (λ x. (x.0, x.1.now)) result (start_at bytes.now) }
{
    let (settings, rest) = settings_at(bytes)?;
    let (saturation, rest) = short_at(rest)?;
    Ok((Fields::Start(settings, saturation), rest))
}

// "codes 1 to 8"
#[tactic(auto, unfolding(crate::specs::Reading::bits_at))]
fn bits_at(bytes: &[u8]) -> Result<(Bits, &[u8]), Fault>
    ensures { Gives (λ x. (x.0, x.1.now)) result (bits_at bytes.now) }
{
    let (speed, rest) = long_at(bytes)?;
    let (load, rest) = long_at(rest)?;
    let (engine, rest) = long_at(rest)?;
    let (hc, rest) = long_at(rest)?;
    let (co, rest) = long_at(rest)?;
    let (no, rest) = long_at(rest)?;
    let (co2, rest) = long_at(rest)?;
    let (o2, rest) = long_at(rest)?;
    let bits = ByChannel {
        speed,
        load,
        engine,
        hc,
        co,
        no,
        co2,
        o2,
    };
    Ok((bits, rest))
}

// "which run (yes for the faster)"
fn speeds_of(faster: bool) -> SpeedRange
    ensures { result ≡ speeds_of faster }
{
    if faster {
        SpeedRange::Faster
    } else {
        SpeedRange::Slower
    }
}

// "inertia, power (2 bytes each), which run .., milliseconds (4 bytes)"
#[tactic(auto, unfolding(crate::specs::Reading::coast_down_at))]
fn coast_down_at(bytes: &[u8]) -> Result<(Fields, &[u8]), Fault>
    ensures { Gives (λ x. (x.0, x.1.now)) result (coast_down_at bytes.now) }
{
    let (inertia, rest) = short_at(bytes)?;
    let (power, rest) = short_at(rest)?;
    let (faster, rest) = yes_no_at(rest)?;
    let (milliseconds, rest) = long_at(rest)?;
    let run = Run {
        inertia,
        power,
        speeds: speeds_of(faster),
        milliseconds,
    };
    Ok((Fields::CoastDown(run), rest))
}

// "background HC, CO, NO in units and the HC residue, a signed number (2 bytes each)"
#[tactic(auto, unfolding(crate::specs::Reading::prepare_at))]
fn prepare_at(bytes: &[u8]) -> Result<(Fields, &[u8]), Fault>
    ensures { Gives (λ x. (x.0, x.1.now)) result (prepare_at bytes.now) }
{
    let (hc, rest) = short_at(bytes)?;
    let (co, rest) = short_at(rest)?;
    let (no, rest) = short_at(rest)?;
    let (residue, rest) = short_at(rest)?;
    let check = ZeroCheck {
        hc,
        co,
        no,
        residue: Residue(residue),
    };
    Ok((Fields::Prepare(check), rest))
}

// A clock setting's new clock.
#[tactic(auto, unfolding(crate::specs::Reading::clock_setting_at))]
fn clock_setting_at(bytes: &[u8]) -> Result<(Fields, &[u8]), Fault>
    ensures { Gives (λ x. (x.0, x.1.now)) result (clock_setting_at bytes.now) }
{
    let (new_clock, rest) = long_at(bytes)?;
    Ok((Fields::ClockSetting(new_clock), rest))
}

#[tactic(auto, unfolding(crate::specs::Reading::second_at))]
fn second_at(bytes: &[u8]) -> Result<(Fields, &[u8]), Fault>
    ensures { Gives (λ x. (x.0, x.1.now)) result (second_at bytes.now) }
{
    let (bits, rest) = bits_at(bytes)?;
    Ok((Fields::Second(bits), rest))
}

#[tactic(auto, unfolding(crate::specs::Reading::stop_at))]
fn stop_at(bytes: &[u8]) -> Result<(Fields, &[u8]), Fault>
    ensures { Gives (λ x. (x.0, x.1.now)) result (stop_at bytes.now) }
{
    let (cause, rest) = byte_at(bytes)?;
    Ok((Fields::Stop(cause), rest))
}

#[tactic(auto, unfolding(crate::specs::Reading::fields_at))]
fn fields_at(kind: Kind, bytes: &[u8]) -> Result<(Fields, &[u8]), Fault>
    ensures { Gives (λ x. (x.0, x.1.now)) result (fields_at kind bytes.now) }
{
    match kind {
        Kind::PowerOn => Ok((Fields::PowerOn, bytes)),
        Kind::ClockSetting => clock_setting_at(bytes),
        Kind::WarmUp => Ok((Fields::WarmUp, bytes)),
        Kind::Calibration => calibration_at(bytes),
        Kind::Try => try_at(bytes),
        Kind::AuthorityLock => Ok((Fields::AuthorityLock, bytes)),
        Kind::AuthorityUnlock => Ok((Fields::AuthorityUnlock, bytes)),
        Kind::Upload => Ok((Fields::Upload, bytes)),
        Kind::Start => start_at(bytes),
        Kind::Second => second_at(bytes),
        Kind::Stop => stop_at(bytes),
        Kind::CoastDown => coast_down_at(bytes),
        Kind::Prepare => prepare_at(bytes),
    }
}

// The entry that bytes begin with, and the bytes behind it, or the first fault from the left; with it come the laws of entries.
// Ruled out: an expiry read for a wrong try; a yes-or-no of 2 taken for yes; 1 where the kind is unknown and nothing follows it.
#[tactic(auto, using(crate::proofs::EntryLaws::entry_claims), unfolding(crate::specs::Reading::entry_of))]
pub fn entry_of(bytes: &[u8]) -> Result<(Entry, &[u8]), Fault>
    ensures answer { Gives (λ x. (x.0, x.1.now)) result (entry_of bytes.now) }
    ensures claims { EntryClaims }
{
    let (kind, rest) = kind_at(bytes)?;
    let (clock, rest) = long_at(rest)?;
    let (fields, rest) = fields_at(kind, rest)?;
    Ok((Entry { clock, fields }, rest))
}
