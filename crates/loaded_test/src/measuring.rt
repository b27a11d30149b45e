// Measuring: the counts, the window that ends here, and the ending rule.
ghost use Rattle.std.specs.Prelude.{◌≡◌, ◌∷◌, take};
ghost use Rattle.loaded_test.specs.Measuring.{
  closed,
  concluded,
  window_taken,
  outcome_of,
  judged,
  measures,
};
ghost use Rattle.loaded_test.specs.Steps.{measured};

use crate::steps::stepped;
use crate::voids::{ended, mode_ended, step_five, voided};
use crate::{Did, Progress, Stepped, Test, Turn, Word};
use attempt::{
    Ending, MeasuringCounts, WindowOutcome, ending_rule, restarts, tallied, window_counted,
    window_ends,
};
use reading::Second;
use vehicle::Vehicle;
use window::Measured;

#[tactic(auto, unfolding(crate::specs::Measuring::closed))]
fn closed(ending: Ending, p: Progress) -> Turn
    ensures { result ≡ closed ending p }
{
    let did = Did::Measured(p.measuring.seconds);
    match ending {
        Ending::NotYet => step_five(did, p),
        Ending::Passes => ended(did, Word::Pass, p.voids, p),
        Ending::ModeEnds => mode_ended(did, p.voids, p),
        Ending::Inconclusive => voided(9, p),
    }
}

#[tactic(auto, unfolding(crate::specs::Measuring::concluded))]
fn concluded(k: MeasuringCounts, p: Progress) -> Turn
    ensures { result ≡ concluded k p }
{
    let ending = ending_rule(k.seconds, k.windows, k.held);
    closed(ending, Progress { measuring: k, ..p })
}

#[tactic(auto, unfolding(crate::specs::Measuring::window_taken))]
fn window_taken(t: u8, last: [Measured; 10]) -> bool
    ensures { result ≡ window_taken t last }
{
    window_ends(t) && window::valid(last)
}

#[tactic(auto, unfolding(crate::specs::Measuring::outcome_of, refusal::specs::Choice::pick))]
fn outcome_of(valid: bool, v: Vehicle, last: [Measured; 10]) -> WindowOutcome
    ensures { result ≡ outcome_of valid v last }
{
    if !valid {
        return WindowOutcome::Invalid;
    }
    if window::passes(v, last) {
        return WindowOutcome::Passing;
    }
    WindowOutcome::Failing
}

// Where no valid window ends here, the last one stays.
#[tactic(auto, unfolding(crate::specs::Measuring::judged, crate::specs::Measuring::window_judged, crate::specs::Measuring::window_kept, refusal::specs::Choice::pick))]
fn judged(valid: bool, x: Test, k: MeasuringCounts, p: Progress, last: [Measured; 10]) -> Stepped
    ensures { result ≡ judged valid x k p last }
{
    let turn = concluded(window_counted(outcome_of(valid, x.vehicle, last), k), p);
    if !valid {
        return stepped(Test { last, ..x }, turn);
    }
    let kept = Test {
        last,
        window: last,
        ..x
    };
    stepped(kept, turn)
}

// The last ten seconds with this one.
fn pushed(m: Measured, a: [Measured; 10]) -> [Measured; 10]
    ensures { result ≡ take 10 (m ∷ a) }
{
    [m, a[0], a[1], a[2], a[3], a[4], a[5], a[6], a[7], a[8]]
}

#[tactic(auto, unfolding(crate::specs::Measuring::measures, refusal::specs::Choice::pick))]
fn measures(x: Test, m: Measured, k: MeasuringCounts, p: Progress) -> Stepped
    ensures { result ≡ measures x m k p }
{
    if restarts(k) {
        let anew = Progress {
            measuring: attempt::restarted(k),
            ..p
        };
        return stepped(x, step_five(Did::Restarted, anew));
    }
    let last = pushed(m, x.last);
    judged(window_taken(k.seconds, last), x, k, p, last)
}

// A counted second while measuring. x is the test before it, p its progress with c grown: two values, so no struct has both.
#[tactic(auto, unfolding(crate::specs::Steps::measured))]
pub(crate) fn measured(x: Test, s: Second, p: Progress) -> Stepped
    ensures { result ≡ measured x s p }
{
    let v = x.vehicle;
    let m = window::measured_of(v, p.mode, s);
    let out = window::second_out(v, p.mode, s);
    measures(x, m, tallied(out, s.speed(), p.measuring), p)
}
