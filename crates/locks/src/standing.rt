// The latest activity, the unsent verdicts, and which lock stands.
ghost use Rattle.std.specs.Prelude.{◌≡◌, ◌+◌, ltb};
ghost use Rattle.locks.specs.Locks.{overdue};
ghost use Rattle.locks.specs.State.{active_after, unsent_after, standing_of};

use crate::preparing::unprepared;
use crate::validity::{sign_in_over, uncalibrated};
use crate::{Event, Lock, Locks};

// "the latest warm-up or accepted second"
pub(crate) fn active_after(active: Option<u32>, event: Event) -> Option<u32>
    ensures { result ≡ active_after active event }
{
    match event {
        Event::WarmUp { clock } | Event::Second { clock, .. } => Some(clock),
        _ => active,
    }
}

// An upload leaves no unsent verdict.
pub(crate) fn unsent_after(unsent: u16, event: Event) -> u16
    ensures { result ≡ unsent_after unsent event }
{
    match event {
        Event::Upload { .. } => 0,
        _ => unsent,
    }
}

// More than so many seconds from then to now.
pub(crate) fn older(then: u32, seconds: u32, now: u32) -> bool
    ensures { result ≡ ltb (then + seconds) now }
{
    u64::from(then) + u64::from(seconds) < u64::from(now)
}

// Lock 2.
fn overdue(now: u32, active: Option<u32>) -> bool
    ensures { result ≡ overdue now active }
{
    active.is_some_and(|clock| older(clock, 1_800, now))
}

// This lock stands for a start at this clock.
pub(crate) fn standing_of(validity: u32, limit: u16, k: Locks, now: u32, lock: Lock) -> bool
    ensures { result ≡ standing_of validity limit k now lock }
{
    match lock {
        Lock::NotWarm => !k.session.warm,
        Lock::Inactive => overdue(now, k.active),
        Lock::NotCalibrated => uncalibrated(validity, now, k.session),
        Lock::NotSignedIn => sign_in_over(now, k.session.signed),
        Lock::Password => k.security.password,
        Lock::Authority => k.security.authority,
        Lock::Unsent => k.unsent == limit,
        Lock::Unprepared => unprepared(now, k.prepared),
    }
}
