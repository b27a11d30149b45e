// The locks and the kinds of event in words.
ghost use Rattle.std.specs.Prelude.{◌≡◌};
ghost use Rattle.tracing.specs.Names.{lock_name, kind_name};

use locks::{Kind, Lock};

pub(crate) fn lock_name(lock: Lock) -> &'static str
    ensures { result.now ≡ lock_name lock }
{
    match lock {
        Lock::NotWarm => "not warm",
        Lock::Inactive => "inactive",
        Lock::NotCalibrated => "not calibrated",
        Lock::NotSignedIn => "not signed in",
        Lock::Password => "password lock",
        Lock::Authority => "authority lock",
        Lock::Unsent => "unsent verdicts",
        Lock::Unprepared => "not prepared",
    }
}

pub(crate) fn kind_name(kind: Kind) -> &'static str
    ensures { result.now ≡ kind_name kind }
{
    match kind {
        Kind::PowerOn => "power-on",
        Kind::ClockSetting => "clock setting",
        Kind::WarmUp => "warm-up finished",
        Kind::Calibration => "calibration",
        Kind::Try => "try",
        Kind::AuthorityLock => "authority lock",
        Kind::AuthorityUnlock => "authority unlock",
        Kind::Upload => "upload",
        Kind::Start => "start",
        Kind::Second => "second",
        Kind::Stop => "stop",
        Kind::CoastDown => "coast-down run",
        Kind::Prepare => "prepare",
    }
}
