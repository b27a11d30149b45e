// What is printed of a test: of the attempt that runs, or that the verdict ended. Functions as begin, second and stop are, since methods would
// say no more.
ghost use Rattle.std.specs.Prelude.{◌≡◌};
ghost use Rattle.loaded_test.specs.Going.{is_running, has_ended};
ghost use Rattle.loaded_test.specs.State.{last_window, averages_shown, engine_shown};

use crate::{Progress, Stage, Test};
use vehicle::{Mode, Vehicle};
use window::{Averages, Measured};

// Mode, stage and all counts of document 01's state.
// Ruled out: the counts before the last second, and those of another attempt.
pub fn progress_of(x: Test) -> Progress
    ensures { result ≡ x.progress }
{
    x.progress
}

// The stage; an ended one has the verdict's word.
// Ruled out: Settling for every test, and the stage before the last second.
pub fn stage_of(x: Test) -> Stage
    ensures { result ≡ x.progress.stage }
{
    x.progress.stage
}

// Whether the test runs: it has begun, and has no verdict.
// Ruled out: a test in rest taken for none, and one that goes on after its verdict.
pub fn is_running(x: Test) -> bool
    ensures { result ≡ is_running x.progress.stage }
{
    x.progress.stage.is_running()
}

// Whether the test's vehicle has an automatic gearbox.
// Ruled out: a manual gearbox for every test, and that of another vehicle.
pub fn is_automatic(x: Test) -> bool
    ensures { result ≡ x.vehicle.automatic }
{
    vehicle::automatic(x.vehicle)
}

// The test's vehicle.
// Ruled out: the blank one, and one with another k.
pub fn vehicle_of(x: Test) -> Vehicle
    ensures { result ≡ x.vehicle }
{
    x.vehicle
}

// Whether the test has its verdict.
// Ruled out: a test in rest taken for ended, and a pass alone taken for the end.
pub fn has_ended(x: Test) -> bool
    ensures { result ≡ has_ended x.progress.stage }
{
    x.progress.stage.has_ended()
}

// The mode, in which the verdict fell where there is one.
// Ruled out: mode 1 for every test, and the mode that would come next.
pub fn mode_of(x: Test) -> Mode
    ensures { result ≡ x.progress.mode }
{
    x.progress.mode
}

// Document 01's t.
// Ruled out: c in its place, and a t of an earlier attempt.
pub fn seconds_of(x: Test) -> u8
    ensures { result ≡ x.progress.measuring.seconds }
{
    x.progress.measuring.seconds
}

// Valid windows that pass.
// Ruled out: those that fail, and all windows.
pub fn passing_of(x: Test) -> u8
    ensures { result ≡ x.progress.measuring.windows.passing }
{
    x.progress.measuring.windows.passing
}

// Valid windows that fail.
// Ruled out: those that pass, and all windows.
pub fn failing_of(x: Test) -> u8
    ensures { result ≡ x.progress.measuring.windows.failing }
{
    x.progress.measuring.windows.failing
}

// Windows that are not valid.
// Ruled out: those that fail, and t with neither passing nor failing taken off it.
pub fn invalid_of(x: Test) -> u8
    ensures { result ≡ x.progress.measuring.windows.invalid }
{
    x.progress.measuring.windows.invalid
}

// The last valid window, if there is one, whatever windows an earlier attempt had.
// Ruled out: the last ten seconds, and the window of an earlier attempt.
#[tactic(auto, unfolding(crate::specs::State::last_window, refusal::specs::Choice::pick))]
pub fn last_window(x: Test) -> Option<[Measured; 10]>
    ensures { result ≡ last_window x }
{
    x.progress.measuring.kept.then_some(x.window)
}

// The averages of the last valid window; absent where there is none.
// Ruled out: those of the last ten seconds, those of an earlier attempt, and averages of 0 where there is no window.
#[tactic(auto, unfolding(crate::specs::State::averages_shown))]
pub fn averages_of(x: Test) -> Option<Averages>
    ensures { result ≡ averages_shown x }
{
    let w = last_window(x)?;
    Some(window::averages_of(x.vehicle, w))
}

// The engine speed of the last valid window; absent where there is none, or where one of its ten seconds has none.
// Ruled out: that of the last ten seconds, and that of an earlier attempt.
#[tactic(auto, unfolding(crate::specs::State::engine_shown))]
pub fn engine_speed_of(x: Test) -> Option<u16>
    ensures { result ≡ engine_shown x }
{
    window::engine_speed_of(last_window(x)?)
}
