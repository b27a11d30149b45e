// What every event has: its kind, its clock and what it carries.
ghost use Rattle.std.specs.Prelude.{◌≡◌};
ghost use Rattle.locks.specs.Events.{described, contents_of, clock_of, clock_after};

use crate::{Carried, Contents, Event, Kind, Service};

// An event that is no start, second or stop.
fn service_event(kind: Kind, clock: u32, x: Service) -> Contents
    ensures { result ≡ described kind clock (Carried.Service x) }
{
    Contents {
        kind,
        clock,
        carried: Carried::Service(x),
    }
}

// An event's kind, its own clock and what it carries.
// Ruled out: a stop told as a second, and a clock setting's new clock for its own.
pub fn contents_of(event: Event) -> Contents
    ensures { result ≡ contents_of event }
{
    match event {
        Event::PowerOn { clock } => service_event(Kind::PowerOn, clock, Service::Nothing),
        Event::ClockSetting { clock, new_clock } => {
            service_event(Kind::ClockSetting, clock, Service::NewClock(new_clock))
        }
        Event::WarmUp { clock } => service_event(Kind::WarmUp, clock, Service::Nothing),
        Event::Calibration { clock, outcome } => {
            service_event(Kind::Calibration, clock, Service::Outcome(outcome))
        }
        Event::Try { clock, outcome } => service_event(Kind::Try, clock, Service::Tried(outcome)),
        Event::AuthorityLock { clock } => {
            service_event(Kind::AuthorityLock, clock, Service::Nothing)
        }
        Event::AuthorityUnlock { clock } => {
            service_event(Kind::AuthorityUnlock, clock, Service::Nothing)
        }
        Event::Upload { clock } => service_event(Kind::Upload, clock, Service::Nothing),
        Event::Start {
            clock,
            settings,
            saturation,
        } => Contents {
            kind: Kind::Start,
            clock,
            carried: Carried::Start(settings, saturation),
        },
        Event::Second { clock, readings } => Contents {
            kind: Kind::Second,
            clock,
            carried: Carried::Second(readings),
        },
        Event::Stop { clock, cause } => Contents {
            kind: Kind::Stop,
            clock,
            carried: Carried::Stop(cause),
        },
        Event::CoastDown { clock, run } => {
            service_event(Kind::CoastDown, clock, Service::Ran(run))
        }
        Event::Prepare { clock, check } => {
            service_event(Kind::Prepare, clock, Service::Prepared(check))
        }
    }
}

// An event's own clock.
// Ruled out: a clock setting's new clock, and another field of the event.
pub fn clock_of(event: Event) -> u32
    ensures { result ≡ clock_of event }
{
    contents_of(event).clock
}

// The last clock after an event: a clock setting takes its new one.
// Ruled out: a clock setting's own clock, and a clock kept from before.
pub fn clock_after(event: Event) -> u32
    ensures { result ≡ clock_after event }
{
    match event {
        Event::ClockSetting { new_clock, .. } => new_clock,
        _ => clock_of(event),
    }
}
