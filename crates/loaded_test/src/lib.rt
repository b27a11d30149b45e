// Document 01, "One test, second by second": the test of one vehicle, from its beginning to its verdict.
// Exported: begin, second and stop, which tell what happened; what is printed of a test; the types of state and answers.
// Inside: settling.rt (with rest) and measuring.rt have a second at a stage each, voids.rt what follows a void, steps.rt what they share.

#![tactic(auto)]

ghost use Rattle.std.specs.Prelude.{◌≡◌};
ghost use Rattle.loaded_test.specs.State.{test_of, began, none_running};
ghost use Rattle.loaded_test.specs.Steps.{begin, second, stop};
ghost use Rattle.loaded_test.specs.Laws.{BackIfRefused};
ghost use Rattle.loaded_test.specs.Claims.{TestClaims};

mod measuring;
mod printed;
mod settling;
mod steps;
mod voids;

use attempt::{MeasuringCounts, SettlingCounts};
pub use printed::{
    averages_of, engine_speed_of, failing_of, has_ended, invalid_of, is_automatic, is_running,
    last_window, mode_of, passing_of, progress_of, seconds_of, stage_of, vehicle_of,
};
use reading::Second;
use refusal::Refusal;
use vehicle::{Mode, Settings, Vehicle};
use window::Measured;

#[derive(Clone, Copy, Debug, PartialEq, Eq)]
pub enum Word {
    Pass,
    Fail,
    Incomplete,
}

// A verdict with t, passing, failing and invalid of the attempt that it ends.
#[derive(Clone, Copy, Debug, PartialEq, Eq)]
pub struct Verdict {
    pub word: Word,
    pub t: u8,
    pub passing: u8,
    pub failing: u8,
    pub invalid: u8,
}

// What a second or a stop did: measured with its t, void with its number. Document 01 names voids 1 to 9 by number, programs print it, and no
// rule asks more of it than whether it is 9: an enum of nine variants would be turned back into it.
#[derive(Clone, Copy, Debug, PartialEq, Eq)]
pub enum Did {
    Nothing,
    MeasuringBegan,
    Measured(u8),
    Restarted,
    Voided(u8),
}

// What comes next.
#[derive(Clone, Copy, Debug, PartialEq, Eq)]
pub enum Next {
    GoesOn,
    Rests,
    RestEnded,
    ModeTwo,
    Ends(Verdict),
}

// What a second or a stop that is taken tells.
#[derive(Clone, Copy, Debug, PartialEq, Eq)]
pub struct Told {
    pub did: Did,
    pub next: Next,
}

// NotBegun stands where there is no test.
#[derive(Clone, Copy, Debug, PartialEq, Eq)]
pub enum Stage {
    NotBegun,
    Settling,
    Measuring,
    Rest,
    Ended(Word),
}

// Document 01's r and q.
#[derive(Clone, Copy, Debug, PartialEq, Eq)]
pub struct VoidCounts {
    pub voids: u8,
    pub inconclusive: u8,
}

// The state of a test without its vehicle and its seconds. counted is document 01's c, resting the rest count.
#[derive(Clone, Copy)]
pub struct Progress {
    pub mode: Mode,
    pub stage: Stage,
    pub counted: u8,
    pub resting: u8,
    pub settling: SettlingCounts,
    pub measuring: MeasuringCounts,
    pub voids: VoidCounts,
}

// The last ten measured seconds and the last valid window, newest first. The first t of last are of this run, all ten from t = 10
// on; window is the last valid one where kept, of the counts, tells that there is one: as an Option among the counts, which each step
// hands on, it cost 689 instructions a row at rest and 1,838 in a long test, where 600 and 850 are the bars, which the flag meets. An
// Option here would have to be emptied where the counts are, by functions that have the counts alone. Arrays, since memory is fixed.
#[derive(Clone, Copy)]
pub struct Test {
    vehicle: Vehicle,
    progress: Progress,
    last: [Measured; 10],
    window: [Measured; 10],
}

// A test after a second or a stop, which takes the test and gives the next one: a refused one leaves it as it was.
#[derive(Clone, Copy)]
pub struct Stepped {
    pub answer: Result<Told, Refusal>,
    pub test: Test,
}

// What one second or stop makes of the progress.
#[derive(Clone, Copy)]
pub(crate) struct Turn {
    told: Told,
    progress: Progress,
}

// A test of no seconds.
fn test_of(v: Vehicle, p: Progress) -> Test
    ensures { result ≡ test_of v p }
{
    let none = [window::blank(); 10];
    Test {
        vehicle: v,
        progress: p,
        last: none,
        window: none,
    }
}

// No test, which a bench holds by value as it does one: a stage of its own in place of an Option, so that the test itself refuses a second or a
// stop, by 13. One that began differs in vehicle and stage.
// Ruled out: a test that takes a second, and one that shows the word incomplete.
pub fn none_running() -> Test
    ensures { result ≡ none_running }
{
    test_of(
        vehicle::blank(),
        voids::emptied(Mode::One, Stage::NotBegun, voids::NO_VOIDS),
    )
}

// A test that began: at mode 1, in settling, with no voids.
fn began(v: Vehicle) -> Test
    ensures { result ≡ began v }
{
    test_of(
        v,
        voids::emptied(Mode::One, Stage::Settling, voids::NO_VOIDS),
    )
}

// A test begins, or the start is refused 4 with the setting's place, 1 to 7, or 5 with place 0; with it come the claims about every test.
// Ruled out: a test that begins in mode 2, and one that begins with an unfit setting.
#[tactic(auto, using(crate::proofs::Claimed::test_claims), unfolding(crate::specs::Steps::begin, crate::specs::Steps::begun_by))]
pub fn begin(settings: Settings, saturation: u16) -> Result<Test, Refusal>
    ensures answer { result ≡ begin settings saturation }
    ensures claims { TestClaims }
{
    Ok(began(vehicle::checked_of(settings, saturation)?))
}

// A second. Where no test runs it is refused 13, which gives back the test as it was.
// Ruled out: a step that returns the test as it was, a pass at t = 24, and a refusal that loses the last valid window.
#[tactic(auto, using(crate::proofs::Refusing::second_back_as), unfolding(crate::specs::Steps::second, crate::specs::Steps::second_at))]
pub fn second(test: Test, s: Second) -> Stepped
    ensures answer { result ≡ second test s }
    ensures back { BackIfRefused test result }
{
    match test.progress.stage {
        Stage::Settling => steps::in_attempt(test, s, |p| settling::settled(test, s, p)),
        Stage::Measuring => steps::in_attempt(test, s, |p| measuring::measured(test, s, p)),
        Stage::Rest => settling::in_rest(test, s),
        Stage::NotBegun | Stage::Ended(_) => steps::refused(Refusal::NoTest, test),
    }
}

// A stop, of the number that was sent. Where no test runs it is refused 13, of another cause than 1 to 4 refused 15; either gives back the test as it was.
// Ruled out: a stop in rest that counts as a void, and cause 9 taken for void 9.
#[tactic(auto, using(crate::proofs::Refusing::stop_back), unfolding(crate::specs::Steps::stop, refusal::specs::Choice::pick))]
pub fn stop(test: Test, cause: u8) -> Stepped
    ensures answer { result ≡ stop test cause }
    ensures back { BackIfRefused test result }
{
    let p = test.progress;
    if !p.stage.is_running() {
        return steps::refused(Refusal::NoTest, test);
    }
    if !steps::cause_fit(cause) {
        return steps::refused(Refusal::CauseUnfit, test);
    }
    steps::stepped(test, steps::stop_taken(cause, p))
}
