// What is kept to name the event that left a lock standing: the newest accepted event of each sort.
ghost use Rattle.std.specs.Prelude.{◌≡◌, ◌+◌, Some, is_some, option_and_then};
ghost use Rattle.locks.specs.Events.{kind_of, same_kind, calibration_in, run_at};
ghost use Rattle.locks.specs.Locks.{voids, renews, none_valid, some_passed, is_wrong, ends_prepare};
ghost use Rattle.tracing.specs.Origins.{no_trail, wanting, left_by};
ghost use Rattle.tracing.specs.Trails.{newer, trail_after};

use crate::Told;
use bench::{Calibration, Event, SpeedRange, Try};
use locks::{Kind, Lock};

// The newest of each sort: of what voids, of a warm-up or second, of a calibration or what voids one, and so on; `fourth` is the wrong try that
// made four in a row.
#[derive(Clone, Copy)]
pub(crate) struct Trail {
    voided: Option<Told>,
    active: Option<Told>,
    calibrated: Option<Told>,
    faster: Option<Told>,
    slower: Option<Told>,
    tried: Option<Told>,
    fourth: Option<Told>,
    authority: Option<Told>,
    judged: Option<Told>,
    prepared: Option<Told>,
}

pub(crate) fn no_trail() -> Trail
    ensures { result ≡ no_trail }
{
    Trail {
        voided: None,
        active: None,
        calibrated: None,
        faster: None,
        slower: None,
        tried: None,
        fourth: None,
        authority: None,
        judged: None,
        prepared: None,
    }
}

// This event where it is of the sort, else the one before.
fn newer(is: bool, told: Told, old: Option<Told>) -> Option<Told>
    ensures { result ≡ newer is told old }
{
    if is { Some(told) } else { old }
}

fn is_kind(kind: Kind, event: Event) -> bool
    ensures { result ≡ same_kind (kind_of event) kind }
{
    locks::contents_of(event).kind.number() == kind.number()
}

fn voids(event: Event) -> bool
    ensures { result ≡ voids (kind_of event) }
{
    matches!(event, Event::PowerOn { .. } | Event::ClockSetting { .. })
}

fn is_active(event: Event) -> bool
    ensures { result ≡ renews (kind_of event) }
{
    matches!(event, Event::WarmUp { .. } | Event::Second { .. })
}

#[tactic(auto, unfolding(locks::specs::Events::of_speeds, refusal::specs::Choice::pick))]
fn is_run(speeds: SpeedRange, event: Event) -> bool
    ensures { result ≡ is_some (run_at speeds event) }
{
    match event {
        Event::CoastDown { run, .. } => match (speeds, run.speeds) {
            (SpeedRange::Faster, SpeedRange::Faster) | (SpeedRange::Slower, SpeedRange::Slower) => {
                true
            }
            _ => false,
        },
        _ => false,
    }
}

fn is_wrong(event: Event) -> bool
    ensures { result ≡ is_wrong event }
{
    matches!(
        event,
        Event::Try {
            outcome: Try::Wrong,
            ..
        }
    )
}

fn ends_prepare(event: Event) -> bool
    ensures { result ≡ ends_prepare (kind_of event) }
{
    matches!(event, Event::Start { .. }) || voids(event)
}

// After one accepted event more; lock 5 stood before it or not.
pub(crate) fn trail_after(x: Trail, locked: bool, told: Told) -> Trail
    ensures { result ≡ trail_after x locked told }
{
    let event = told.event;
    let void = voids(event);
    Trail {
        voided: newer(void, told, x.voided),
        active: newer(is_active(event), told, x.active),
        calibrated: newer(
            is_kind(Kind::Calibration, event) || void,
            told,
            x.calibrated,
        ),
        faster: newer(is_run(SpeedRange::Faster, event) || void, told, x.faster),
        slower: newer(is_run(SpeedRange::Slower, event) || void, told, x.slower),
        tried: newer(is_kind(Kind::Try, event) || void, told, x.tried),
        fourth: newer(is_wrong(event) && !locked, told, x.fourth),
        authority: newer(is_kind(Kind::AuthorityLock, event), told, x.authority),
        judged: newer(told.verdict.is_some(), told, x.judged),
        prepared: newer(
            is_kind(Kind::Prepare, event) || ends_prepare(event),
            told,
            x.prepared,
        ),
    }
}

// Whether no calibration that passed, at most V old, is the newest that calibrates or voids.
#[tactic(auto, unfolding(locks::specs::Locks::none_valid, locks::specs::Locks::expired))]
fn none_valid(validity: u32, now: u32, calibrated: Option<Told>) -> bool
    ensures { result ≡ none_valid validity now (option_and_then (λ x. calibration_in x.event) calibrated) }
{
    match calibrated {
        Some(told) => match told.event {
            Event::Calibration {
                clock,
                outcome: Calibration::Passed,
            } => u64::from(clock) + u64::from(validity) < u64::from(now),
            _ => true,
        },
        None => true,
    }
}

// Whether a run of these speeds is the newest that runs or voids, and passed.
#[tactic(auto, unfolding(locks::specs::Locks::some_passed, locks::specs::Events::of_speeds, refusal::specs::Choice::pick))]
fn some_passed(speeds: SpeedRange, ran: Option<Told>) -> bool
    ensures { result ≡ some_passed (option_and_then (λ x. run_at speeds x.event) ran) }
{
    match ran {
        Some(told) => match told.event {
            Event::CoastDown { run, .. } => {
                is_run(speeds, told.event) && coast_down::run_passed(run)
            }
            _ => false,
        },
        None => false,
    }
}

// Of lock 3's parts the first that is wanting.
fn wanting(validity: u32, now: u32, x: Trail) -> Option<Told>
    ensures { result ≡ wanting validity now x }
{
    if none_valid(validity, now, x.calibrated) {
        return x.calibrated;
    }
    if some_passed(SpeedRange::Faster, x.faster) {
        return x.slower;
    }
    x.faster
}

// The event that left a lock standing for a start at this clock.
pub(crate) fn left_by(validity: u32, now: u32, lock: Lock, x: Trail) -> Option<Told>
    ensures { result ≡ left_by validity now lock x }
{
    match lock {
        Lock::NotWarm => x.voided,
        Lock::Inactive => x.active,
        Lock::NotCalibrated => wanting(validity, now, x),
        Lock::NotSignedIn => x.tried,
        Lock::Password => x.fourth,
        Lock::Authority => x.authority,
        Lock::Unsent => x.judged,
        Lock::Unprepared => x.prepared,
    }
}
