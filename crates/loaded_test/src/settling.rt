// Rest, and settling in both modes.
ghost use Rattle.std.specs.Prelude.{◌≡◌};
ghost use Rattle.loaded_test.specs.declared.Stage.TheVariants.{Rest};
ghost use Rattle.loaded_test.specs.Rest.{rest_count, rested};
ghost use Rattle.loaded_test.specs.Settling.{measuring_from, settling_left, closed_one, closed_two, settles};
ghost use Rattle.loaded_test.specs.Steps.{settled, second_at};

use crate::steps::stepped;
use crate::voids::{NO_SETTLING, emptied, nothing, step_five, turn, voided};
use crate::{Did, Next, Progress, Stage, Stepped, Test, Turn};
use attempt::{NO_MEASURING, SettlingCounts, in_row};
use reading::Second;
use vehicle::{Mode, Vehicle};

#[tactic(auto, unfolding(crate::specs::Rest::rest_count))]
fn rest_count(k: u8, s: Second) -> u8
    ensures { result ≡ rest_count k s }
{
    in_row(s.speed() < 10, k)
}

// The attempt begins anew at a rest count of 10.
#[tactic(auto, unfolding(crate::specs::Rest::rested, refusal::specs::Choice::pick))]
fn rested(k: u8, p: Progress) -> Turn
    ensures { result ≡ rested k p }
{
    if k == 10 {
        return turn(
            Did::Nothing,
            Next::RestEnded,
            emptied(p.mode, Stage::Settling, p.voids),
        );
    }
    nothing(Progress { resting: k, ..p })
}

// A second of rest.
#[tactic(auto, unfolding(crate::specs::Steps::second_at))]
pub(crate) fn in_rest(x: Test, s: Second) -> Stepped
    ensures { result ≡ second_at Rest x s }
{
    let p = x.progress;
    stepped(x, rested(rest_count(p.resting, s), p))
}

fn measuring_from(p: Progress) -> Progress
    ensures { result ≡ measuring_from p }
{
    Progress {
        stage: Stage::Measuring,
        settling: NO_SETTLING,
        measuring: NO_MEASURING,
        ..p
    }
}

#[tactic(auto, unfolding(crate::specs::Settling::settling_left, refusal::specs::Choice::pick))]
fn settling_left(begins: bool, used: bool, k: SettlingCounts, p: Progress) -> Turn
    ensures { result ≡ settling_left begins used k p }
{
    if begins {
        return step_five(Did::MeasuringBegan, measuring_from(p));
    }
    let q = Progress { settling: k, ..p };
    if used {
        return voided(7, q);
    }
    step_five(Did::Nothing, q)
}

// Modes 1 and 2 have a function each, since their rules differ: only mode 1 may begin sooner.
#[tactic(auto, unfolding(crate::specs::Settling::closed_one))]
fn closed_one(k: SettlingCounts, p: Progress) -> Turn
    ensures { result ≡ closed_one k p }
{
    let used = k.seconds == 25;
    settling_left(11 <= k.ready || (used && 5 <= k.ready), used, k, p)
}

#[tactic(auto, unfolding(crate::specs::Settling::closed_two))]
fn closed_two(k: SettlingCounts, p: Progress) -> Turn
    ensures { result ≡ closed_two k p }
{
    settling_left(5 <= k.ready, k.seconds == 15, k, p)
}

#[tactic(auto, unfolding(crate::specs::Settling::settles, crate::specs::Settling::settles_in))]
fn settles(v: Vehicle, s: Second, p: Progress) -> Turn
    ensures { result ≡ settles v s p }
{
    let k = p.settling;
    match p.mode {
        Mode::One => closed_one(attempt::second_one(v, s, k), p),
        Mode::Two => closed_two(attempt::second_two(v, s, k), p),
    }
}

// A counted second of settling.
pub(crate) fn settled(x: Test, s: Second, p: Progress) -> Stepped
    ensures { result ≡ settled x s p }
{
    stepped(x, settles(x.vehicle, s, p))
}
