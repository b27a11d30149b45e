// What a bench is given: the event of an entry.
ghost use Rattle.std.specs.Prelude.{◌≡◌};
ghost use Rattle.reading.specs.Kind.{reading_of, readings_by};
ghost use Rattle.journal_entry.specs.Events.{event_of};

use crate::{Entry, Fields};
use locks::Event;
use reading::{Bits, ByChannel, Readings};

fn readings_of(bits: Bits) -> Readings
    ensures { result ≡ readings_by reading_of bits }
{
    ByChannel {
        speed: reading::from_bits(bits.speed),
        load: reading::from_bits(bits.load),
        engine: reading::from_bits(bits.engine),
        hc: reading::from_bits(bits.hc),
        co: reading::from_bits(bits.co),
        no: reading::from_bits(bits.no),
        co2: reading::from_bits(bits.co2),
        o2: reading::from_bits(bits.o2),
    }
}

// An entry as an event: a second's bits become readings, all else is as it was.
// Ruled out: a clock setting's new clock given for its own; two kinds exchanged.
pub fn event_of(entry: Entry) -> Event
    ensures { result ≡ event_of entry }
{
    let clock = entry.clock;
    match entry.fields {
        Fields::PowerOn => Event::PowerOn { clock },
        Fields::ClockSetting(new_clock) => Event::ClockSetting { clock, new_clock },
        Fields::WarmUp => Event::WarmUp { clock },
        Fields::Calibration(outcome) => Event::Calibration { clock, outcome },
        Fields::Try(outcome) => Event::Try { clock, outcome },
        Fields::AuthorityLock => Event::AuthorityLock { clock },
        Fields::AuthorityUnlock => Event::AuthorityUnlock { clock },
        Fields::Upload => Event::Upload { clock },
        Fields::Start(settings, saturation) => Event::Start {
            clock,
            settings,
            saturation,
        },
        Fields::Second(bits) => Event::Second {
            clock,
            readings: readings_of(bits),
        },
        Fields::Stop(cause) => Event::Stop { clock, cause },
        Fields::CoastDown(run) => Event::CoastDown { clock, run },
        Fields::Prepare(check) => Event::Prepare { clock, check },
    }
}
