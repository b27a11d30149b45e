// Document 01, "Locks of the bench", and document 02, A.2 and A.5: the thirteen events, and what locks a start.
// Exported: Event, with its kind, its clocks and what it carries (Contents); Locks, what the eight locks are read from, after each
// accepted event and each verdict; first_lock, the first lock that stands. specs/Locks.antt reads the same locks from the list of
// accepted events, and specs/Plain.antt says in plain words when each stands.
#![tactic(auto)]

ghost use Rattle.std.specs.Prelude.{◌≡◌};
ghost use Rattle.locks.specs.Events.{kind_number};
ghost use Rattle.locks.specs.Claims.{LockClaims, FirstClaims};
ghost use Rattle.locks.specs.Locks.{lock_number, parameters_fit};
ghost use Rattle.locks.specs.State.{fresh_locks, locks_after, verdict_counted, password_stands, first_lock};

mod events;
mod preparing;
mod standing;
mod tries;
mod validity;

pub use crate::events::{clock_after, clock_of, contents_of};
use crate::preparing::prepared_after;
use crate::standing::{active_after, standing_of, unsent_after};
use crate::tries::{NO_SECURITY, security_after};
use crate::validity::{NO_SESSION, session_after};
use coast_down::Run;
use prepare::ZeroCheck;
use reading::Readings;
use vehicle::Settings;

// What a calibration came to.
#[derive(Clone, Copy, Debug, PartialEq, Eq)]
pub enum Calibration {
    Passed,
    Failed,
}

// What a try at the password came to: two cases of its own, as document 01 has it, since none would not say that it was wrong.
#[derive(Clone, Copy, Debug, PartialEq, Eq)]
pub enum Try {
    Good { expiry: u32 },
    Wrong,
}

// An event of the bench, each with its clock in seconds, in the order of document 01's kinds 1 to 11 and document 02's kinds 12 and 13. What it
// holds are the numbers that were sent: a stop's cause may be none of the four, and is refused then.
#[derive(Clone, Copy)]
pub enum Event {
    PowerOn {
        clock: u32,
    },
    ClockSetting {
        clock: u32,
        new_clock: u32,
    },
    WarmUp {
        clock: u32,
    },
    Calibration {
        clock: u32,
        outcome: Calibration,
    },
    Try {
        clock: u32,
        outcome: Try,
    },
    AuthorityLock {
        clock: u32,
    },
    AuthorityUnlock {
        clock: u32,
    },
    Upload {
        clock: u32,
    },
    Start {
        clock: u32,
        settings: Settings,
        saturation: u16,
    },
    Second {
        clock: u32,
        readings: Readings,
    },
    Stop {
        clock: u32,
        cause: u8,
    },
    CoastDown {
        clock: u32,
        run: Run,
    },
    Prepare {
        clock: u32,
        check: ZeroCheck,
    },
}

// The kinds of event, in the order of their numbers.
#[derive(Clone, Copy, Debug, PartialEq, Eq)]
pub enum Kind {
    PowerOn,
    ClockSetting,
    WarmUp,
    Calibration,
    Try,
    AuthorityLock,
    AuthorityUnlock,
    Upload,
    Start,
    Second,
    Stop,
    CoastDown,
    Prepare,
}

impl Kind {
    // Its number in documents 01 and 02.
    // Ruled out: kinds counted from 0, and a stop numbered as a second.
    pub fn number(self) -> u8
        ensures { result ≡ kind_number self }
    {
        self as u8 + 1
    }
}

// What an event that is no start, second or stop carries beside its clock.
#[derive(Clone, Copy)]
pub enum Service {
    Nothing,
    NewClock(u32),
    Outcome(Calibration),
    Tried(Try),
    Ran(Run),
    Prepared(ZeroCheck),
}

// What an event carries beside its clock; of a stop the number that was sent.
#[derive(Clone, Copy)]
pub enum Carried {
    Service(Service),
    Start(Settings, u16),
    Second(Readings),
    Stop(u8),
}

// An event by its kind, its clock and what it carries.
#[derive(Clone, Copy)]
pub struct Contents {
    pub kind: Kind,
    pub clock: u32,
    pub carried: Carried,
}

// The eight locks, in the order of their numbers.
#[derive(Clone, Copy, Debug, PartialEq, Eq)]
pub enum Lock {
    NotWarm,
    Inactive,
    NotCalibrated,
    NotSignedIn,
    Password,
    Authority,
    Unsent,
    Unprepared,
}

impl Lock {
    // Its number in documents 01 and 02.
    // Ruled out: locks counted from 0, and the authority lock numbered before the password lock.
    pub fn number(self) -> u8
        ensures { result ≡ lock_number self }
    {
        self as u8 + 1
    }
}

// "A start is locked by the first standing one": the order in which they are asked.
pub const IN_ORDER: [Lock; 8] = [
    Lock::NotWarm,
    Lock::Inactive,
    Lock::NotCalibrated,
    Lock::NotSignedIn,
    Lock::Password,
    Lock::Authority,
    Lock::Unsent,
    Lock::Unprepared,
];

// Whether the latest coast-down run of each speed passed.
#[derive(Clone, Copy)]
pub struct Rollers {
    faster: bool,
    slower: bool,
}

// What power-on and clock setting void.
#[derive(Clone, Copy)]
pub struct Session {
    warm: bool,
    calibrated: Option<u32>,
    rollers: Rollers,
    signed: Option<u32>,
}

// What authority unlock clears: the wrong tries in a row, counted up to four, password lock and authority lock.
#[derive(Clone, Copy)]
pub struct Security {
    wrong: u8,
    password: bool,
    authority: bool,
}

// What the locks are read from; unsent counts the verdicts since the last upload. State by value: a call takes it and gives the next one.
#[derive(Clone, Copy)]
pub struct Locks {
    session: Session,
    active: Option<u32>,
    security: Security,
    unsent: u16,
    prepared: Option<u32>,
}

// Whether V, in seconds, and U are fit: a bench and a journal are refused 15 by the same test.
// Ruled out: U = 256 taken, and V = 2,592,000 refused.
pub fn parameters_fit(validity: u32, limit: u16) -> bool
    ensures { result ≡ parameters_fit validity limit }
{
    (1..=2_592_000).contains(&validity) && (1..=255).contains(&limit)
}

// The locks of a fresh bench.
// Ruled out: a warm-up that nobody finished, and a password lock from the start.
pub fn fresh_locks() -> Locks
    ensures { result ≡ fresh_locks }
{
    Locks {
        session: NO_SESSION,
        active: None,
        security: NO_SECURITY,
        unsent: 0,
        prepared: None,
    }
}

// After an accepted event, but for its verdict.
// Ruled out: a calibration, a coast-down run or a prepare that outlives a clock setting, a prepare that a start does not use up, and wrong
// tries cleared at power-on.
pub fn locks_after(k: Locks, event: Event) -> Locks
    ensures { result ≡ locks_after k event }
{
    Locks {
        session: session_after(k.session, event),
        active: active_after(k.active, event),
        security: security_after(k.security, event),
        unsent: unsent_after(k.unsent, event),
        prepared: prepared_after(k.prepared, event),
    }
}

// After a verdict: one unsent more, held at the greatest number of its type, which no bench reaches.
// Ruled out: a verdict that is not counted, and one that renews lock 2.
pub fn verdict_counted(k: Locks) -> Locks
    ensures { result ≡ verdict_counted k }
{
    Locks {
        unsent: k.unsent.saturating_add(1),
        ..k
    }
}

// Whether lock 5 stands, which no clock decides.
// Ruled out: false after four wrong tries and a good one; true after an unlock.
pub fn password_stands(k: Locks) -> bool
    ensures { result ≡ password_stands k }
{
    k.security.password
}

// The first lock that stands for a start at this clock with V and U, if one does; with it comes when each stands, in plain words.
// Ruled out: a start at the very second of the sign-in's expiry locked by 4, lock 7 at U − 1 verdicts, and a start 121 s after the
// prepare admitted.
// V and U are the bench's: this and what it asks for one lock alone take them, and no struct holds the two.
pub fn first_lock(validity: u32, limit: u16, k: Locks, now: u32) -> Option<Lock>
    ensures answer { result ≡ first_lock validity limit k now }
    ensures claims { LockClaims }
    ensures first { FirstClaims }
{
    IN_ORDER
        .iter()
        .copied()
        .find(|lock| standing_of(validity, limit, k, now, *lock))
}
