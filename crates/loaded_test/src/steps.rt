// What the stages share: steps 2 and 3, a refusal, what is asked of a stage, and a stop.
ghost use Rattle.std.specs.Prelude.{◌≡◌};
ghost use Rattle.attempt.specs.Screening.{screened};
ghost use Rattle.loaded_test.specs.State.{stepped, refused};
ghost use Rattle.loaded_test.specs.Going.{is_running, has_ended};
ghost use Rattle.loaded_test.specs.Steps.{counted, in_attempt, is_resting, cause_fit, stop_taken};

use crate::voids::{nothing, voided};
use crate::{Progress, Stage, Stepped, Test, Turn};
use attempt::{Screen, bump};
use reading::Second;
use refusal::Refusal;

impl Stage {
    #[tactic(auto, unfolding(crate::specs::Going::is_running))]
    pub(crate) fn is_running(self) -> bool
        ensures { result ≡ is_running self }
    {
        matches!(self, Stage::Settling | Stage::Measuring | Stage::Rest)
    }

    #[tactic(auto, unfolding(crate::specs::Going::has_ended))]
    pub(crate) fn has_ended(self) -> bool
        ensures { result ≡ has_ended self }
    {
        matches!(self, Stage::Ended(_))
    }

    #[tactic(auto, unfolding(crate::specs::Steps::is_resting))]
    fn is_resting(self) -> bool
        ensures { result ≡ is_resting self }
    {
        matches!(self, Stage::Rest)
    }
}

// The test after a turn.
pub(crate) fn stepped(x: Test, turn: Turn) -> Stepped
    ensures { result ≡ stepped x turn }
{
    Stepped {
        answer: Ok(turn.told),
        test: Test {
            progress: turn.progress,
            ..x
        },
    }
}

// The test stays as it was.
pub(crate) fn refused(r: Refusal, x: Test) -> Stepped
    ensures { result ≡ refused r x }
{
    Stepped {
        answer: Err(r),
        test: x,
    }
}

fn counted(p: Progress) -> Progress
    ensures { result ≡ counted p }
{
    Progress {
        counted: bump(p.counted),
        ..p
    }
}

// A second in an attempt: at c = 0 it may change nothing, and over range or diluted it is a void; else clear tells what step 4 makes of it.
#[tactic(auto, unfolding(crate::specs::Steps::in_attempt))]
pub(crate) fn in_attempt<F: FnOnce(Progress) -> Stepped>(x: Test, s: Second, clear: F) -> Stepped
    requires { F.IsAlwaysCallable clear }
    ensures { (y : Stepped) → ((z : Stepped) → F.post clear (counted x.progress) z → z ≡ y) → result ≡ in_attempt (screened x.progress.counted s) x y }
{
    let p = x.progress;
    match attempt::screened(p.counted, s) {
        Screen::Waits => stepped(x, nothing(p)),
        Screen::Flawed(n) => stepped(x, voided(n, counted(p))),
        Screen::Clear => clear(counted(p)),
    }
}

#[tactic(auto, unfolding(crate::specs::Steps::cause_fit))]
pub(crate) fn cause_fit(n: u8) -> bool
    ensures { result ≡ cause_fit n }
{
    matches!(n, 1..=4)
}

#[tactic(auto, unfolding(crate::specs::Steps::stop_taken, refusal::specs::Choice::pick))]
pub(crate) fn stop_taken(n: u8, p: Progress) -> Turn
    ensures { result ≡ stop_taken (is_resting p.stage) n p }
{
    if p.stage.is_resting() || p.counted == 0 {
        return nothing(p);
    }
    voided(n, p)
}
