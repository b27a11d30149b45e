// Warm-up, calibration, coast-down runs and sign-in: what power-on and clock setting void, and locks 1, 3 and 4, which are read from it.
ghost use Rattle.std.specs.Prelude.{◌≡◌};
ghost use Rattle.coast_down.specs.Passing.{run_passed};
ghost use Rattle.locks.specs.State.{
  ran_by,
  session_after,
  uncalibrated,
  calibration_old,
  uncoasted,
  sign_in_over,
};

use crate::standing::older;
use crate::{Calibration, Event, Rollers, Session, Try};
use coast_down::{Run, SpeedRange};

const NO_RUNS: Rollers = Rollers {
    faster: false,
    slower: false,
};

pub(crate) const NO_SESSION: Session = Session {
    warm: false,
    calibrated: None,
    rollers: NO_RUNS,
    signed: None,
};

// A run takes the place of the one before of its speeds.
fn ran_by(run: Run, rollers: Rollers) -> Rollers
    ensures { result ≡ ran_by run.speeds (run_passed run) rollers }
{
    let passed = coast_down::run_passed(run);
    match run.speeds {
        SpeedRange::Faster => Rollers {
            faster: passed,
            ..rollers
        },
        SpeedRange::Slower => Rollers {
            slower: passed,
            ..rollers
        },
    }
}

// The latest calibration, run and try stand, whatever stood before them. "A wrong try also signs out."
pub(crate) fn session_after(s: Session, event: Event) -> Session
    ensures { result ≡ session_after s event }
{
    match event {
        Event::PowerOn { .. } | Event::ClockSetting { .. } => NO_SESSION,
        Event::WarmUp { .. } => Session { warm: true, ..s },
        Event::Calibration {
            clock,
            outcome: Calibration::Passed,
        } => Session {
            calibrated: Some(clock),
            ..s
        },
        Event::Calibration {
            outcome: Calibration::Failed,
            ..
        } => Session {
            calibrated: None,
            ..s
        },
        Event::CoastDown { run, .. } => Session {
            rollers: ran_by(run, s.rollers),
            ..s
        },
        Event::Try {
            outcome: Try::Good { expiry },
            ..
        } => Session {
            signed: Some(expiry),
            ..s
        },
        Event::Try {
            outcome: Try::Wrong,
            ..
        } => Session { signed: None, ..s },
        _ => s,
    }
}

fn calibration_old(validity: u32, now: u32, calibrated: Option<u32>) -> bool
    ensures { result ≡ calibration_old validity now calibrated }
{
    calibrated.is_none_or(|clock| older(clock, validity, now))
}

// Lock 3, as to the rollers.
fn uncoasted(rollers: Rollers) -> bool
    ensures { result ≡ uncoasted rollers }
{
    !rollers.faster || !rollers.slower
}

// Lock 3.
pub(crate) fn uncalibrated(validity: u32, now: u32, s: Session) -> bool
    ensures { result ≡ uncalibrated validity now s }
{
    calibration_old(validity, now, s.calibrated) || uncoasted(s.rollers)
}

// Lock 4.
pub(crate) fn sign_in_over(now: u32, signed: Option<u32>) -> bool
    ensures { result ≡ sign_in_over now signed }
{
    signed.is_none_or(|expiry| expiry < now)
}
