// The counts of one attempt: what a second is before its stage is looked at, what it adds to the counts of settling and of
// measuring, and the ending rule. Document 01, "One test, second by second", steps 2 to 4.
// Exported: the counts and what grows them. Every function is total; loaded_test puts them together.
#![tactic(auto)]

ghost use Rattle.std.specs.Prelude.{◌≡◌};
ghost use Rattle.attempt.specs.Counting.{bump, in_row, in_all};
ghost use Rattle.attempt.specs.Screening.{waits, diluted, flaw_of, screened};
ghost use Rattle.attempt.specs.Ready.{within, ready};
ghost use Rattle.attempt.specs.Settling.{
  ready_counted,
  grown,
  begun_anew,
  watched,
  settled_one,
  settled_two,
  second_one,
  second_two,
};
ghost use Rattle.attempt.specs.Ending.{at_ninety, ending_rule};
ghost use Rattle.attempt.specs.Measuring.{
  first_speed,
  still_held,
  tallied,
  one_more,
  kept_with,
  window_ends,
  window_counted,
  restarts,
  restarted,
};
ghost use Rattle.attempt.specs.Laws.{
  ScreenedExactly,
  SixHundred,
  FirstMost,
  NextMost,
  HeldExactly,
  HeldMore,
  OneWindowMore,
  CountsTold,
  RuledExactly,
};

use reading::Second;
use vehicle::{Mode, Vehicle};

// Settling: document 01's n, g, u, w.
#[derive(Clone, Copy, Debug, Default, PartialEq, Eq)]
pub struct SettlingCounts {
    pub seconds: u8,
    pub ready: u8,
    pub row: u8,
    pub all: u8,
}

// Valid windows that pass and that fail, and windows that are not valid.
#[derive(Clone, Copy, Debug, Default, PartialEq, Eq)]
pub struct WindowCounts {
    pub passing: u8,
    pub failing: u8,
    pub invalid: u8,
}

// What the window that ends with a measured second is.
#[derive(Clone, Copy, Debug, PartialEq, Eq)]
pub enum WindowOutcome {
    Passing,
    Failing,
    Invalid,
}

// Measuring: document 01's t, u, w, the counts of windows, the speed of measured second 1, whether the speeds up to second 10 have held, and
// whether there is a last valid window (`loaded_test::Test` says why that is a flag).
#[derive(Clone, Copy, Debug, PartialEq, Eq)]
pub struct MeasuringCounts {
    pub seconds: u8,
    pub row: u8,
    pub all: u8,
    pub windows: WindowCounts,
    pub first: u16,
    pub held: bool,
    pub kept: bool,
}

// Where measuring begins or begins anew.
pub const NO_MEASURING: MeasuringCounts = MeasuringCounts {
    seconds: 0,
    row: 0,
    all: 0,
    windows: WindowCounts {
        passing: 0,
        failing: 0,
        invalid: 0,
    },
    first: 0,
    held: true,
    kept: false,
};

// What is looked at before the stage: the test waits for its first counted second, the second is void (by its number, as in
// `loaded_test::Did`), or neither.
#[derive(Clone, Copy, Debug, PartialEq, Eq)]
pub enum Screen {
    Waits,
    Flawed(u8),
    Clear,
}

// What the ending rule says.
#[derive(Clone, Copy, Debug, PartialEq, Eq)]
pub enum Ending {
    NotYet,
    Passes,
    ModeEnds,
    Inconclusive,
}

// One more, held at 255.
// Ruled out: 0 after 255, and a count that stays where it was below 255.
pub fn bump(n: u8) -> u8
    ensures { result ≡ bump n }
{
    n.saturating_add(1)
}

// One more where it holds, else 0.
// Ruled out: a count kept where the row breaks, and one that grows by 2.
#[tactic(auto, unfolding(crate::specs::Counting::in_row, refusal::specs::Choice::pick))]
pub fn in_row(holds: bool, n: u8) -> u8
    ensures { result ≡ in_row holds n }
{
    if holds { bump(n) } else { 0 }
}

// One more where it holds, else what it was. Beside `in_row`, since the rules speak of both.
#[tactic(auto, unfolding(crate::specs::Counting::in_all, refusal::specs::Choice::pick))]
fn in_all(holds: bool, n: u8) -> u8
    ensures { result ≡ in_all holds n }
{
    if holds { bump(n) } else { n }
}

fn waits(counted: u8, s: Second) -> bool
    ensures { result ≡ waits counted s }
{
    (counted == 0) & (s.speed() <= 10)
}

fn diluted(s: Second) -> bool
    ensures { result ≡ diluted s }
{
    correction::dilution_sum(s.co2(), s.co()) < 600
}

#[tactic(auto, unfolding(refusal::specs::Choice::pick))]
fn flaw_of(over: bool, thin: bool) -> Screen
    ensures { result ≡ flaw_of over thin }
{
    if over {
        return Screen::Flawed(6);
    }
    if thin {
        return Screen::Flawed(5);
    }
    Screen::Clear
}

// What a second is before its stage is looked at.
// Ruled out: a diluted second over range void 5, and dilution looked at while the test waits.
#[tactic(auto, using(crate::proofs::Screens::screened_exactly, crate::proofs::Sums::six_hundred), unfolding(crate::specs::Screening::screened, refusal::specs::Choice::pick))]
pub fn screened(counted: u8, s: Second) -> Screen
    ensures { (result ≡ screened counted s) × ScreenedExactly × SixHundred }
{
    if waits(counted, s) {
        return Screen::Waits;
    }
    flaw_of(s.over(), diluted(s))
}

fn within(k: u16, speed: u16, target: u16) -> bool
    ensures { result ≡ within k speed target }
{
    vehicle::apart(speed, target) <= k
}

#[tactic(auto, unfolding(crate::specs::Ready::ready))]
fn ready(v: Vehicle, mode: Mode, s: Second) -> bool
    ensures { result ≡ ready v mode s }
{
    let near = within(15, s.speed(), vehicle::target(v, mode));
    let held = vehicle::in_tolerance(s.load(), vehicle::set_load(v, mode));
    let good = vehicle::engine_good(v, s);
    near & held & good & (600 < correction::dilution_sum(s.co2(), s.co()))
}

fn ready_counted(fit: bool, k: SettlingCounts) -> SettlingCounts
    ensures { result ≡ ready_counted fit k }
{
    SettlingCounts {
        ready: in_row(fit, k.ready),
        ..k
    }
}

#[tactic(auto, unfolding(crate::specs::Settling::begun_anew, refusal::specs::Choice::pick))]
fn begun_anew(k: SettlingCounts) -> SettlingCounts
    ensures { result ≡ begun_anew k }
{
    if (k.row == 2) | (k.all == 5) {
        return SettlingCounts {
            seconds: 0,
            row: 0,
            all: 0,
            ..k
        };
    }
    k
}

#[tactic(auto, unfolding(crate::specs::Settling::watched, refusal::specs::Choice::pick))]
fn watched(out: bool, k: SettlingCounts) -> SettlingCounts
    ensures { result ≡ watched out k }
{
    if k.seconds <= 20 {
        return begun_anew(SettlingCounts {
            row: in_row(out, k.row),
            all: in_all(out, k.all),
            ..k
        });
    }
    k
}

fn grown(k: SettlingCounts) -> SettlingCounts
    ensures { result ≡ grown k }
{
    SettlingCounts {
        seconds: bump(k.seconds),
        ..k
    }
}

#[tactic(auto, unfolding(crate::specs::Settling::settled_one, refusal::specs::Choice::pick))]
fn settled_one(out: bool, k: SettlingCounts) -> SettlingCounts
    ensures { result ≡ settled_one out k }
{
    if (k.seconds == 0) & out {
        return k;
    }
    watched(out, grown(k))
}

#[tactic(auto, unfolding(crate::specs::Settling::settled_two, refusal::specs::Choice::pick))]
fn settled_two(near: bool, k: SettlingCounts) -> SettlingCounts
    ensures { result ≡ settled_two near k }
{
    if (k.seconds == 0) & !near {
        return k;
    }
    grown(k)
}

// A counted second of settling in mode 1.
// Ruled out: n that starts at a second more than 50 from target, and u counted past n = 20.
#[tactic(auto, using(crate::proofs::Most::first_most), unfolding(crate::specs::Settling::second_one))]
pub fn second_one(v: Vehicle, s: Second, k: SettlingCounts) -> SettlingCounts
    ensures { (result ≡ second_one v s k) × FirstMost }
{
    let far = !within(50, s.speed(), vehicle::target(v, Mode::One));
    settled_one(far, ready_counted(ready(v, Mode::One, s), k))
}

// A counted second of settling in mode 2. Its rule differs from mode 1's in more than a number: no second is watched for being out.
// Ruled out: n that starts at a second more than 15 from target, and n that stops at one.
#[tactic(auto, using(crate::proofs::Most::next_most), unfolding(crate::specs::Settling::second_two))]
pub fn second_two(v: Vehicle, s: Second, k: SettlingCounts) -> SettlingCounts
    ensures { (result ≡ second_two v s k) × NextMost }
{
    let near = within(15, s.speed(), vehicle::target(v, Mode::Two));
    settled_two(near, ready_counted(ready(v, Mode::Two, s), k))
}

#[tactic(auto, unfolding(crate::specs::Measuring::first_speed, refusal::specs::Choice::pick))]
fn first_speed(t: u8, speed: u16, first: u16) -> u16
    ensures { result ≡ first_speed t speed first }
{
    if t == 1 { speed } else { first }
}

fn still_held(t: u8, first: u16, speed: u16, held: bool) -> bool
    ensures { result ≡ still_held t first speed held }
{
    ((10 < t) | (u32::from(first) <= u32::from(speed) + 8)) & held
}

// A measured second, before its window is judged.
// Ruled out: t that stays, the drop looked at in second 10 alone, and a drop from the second before.
#[tactic(auto, using(crate::proofs::Runs::counts_told, crate::proofs::Speeds::held_more, crate::proofs::Speeds::held_exactly), unfolding(crate::specs::Measuring::tallied))]
pub fn tallied(out: bool, speed: u16, k: MeasuringCounts) -> MeasuringCounts
    ensures { (result ≡ tallied out speed k) × CountsTold × HeldMore × HeldExactly }
{
    let t = bump(k.seconds);
    let first = first_speed(t, speed, k.first);
    MeasuringCounts {
        seconds: t,
        row: in_row(out, k.row),
        all: in_all(out, k.all),
        first,
        held: still_held(t, first, speed, k.held),
        ..k
    }
}

#[tactic(auto, unfolding(crate::specs::Measuring::one_more))]
fn one_more(x: WindowOutcome, w: WindowCounts) -> WindowCounts
    ensures { result ≡ one_more x w }
{
    match x {
        WindowOutcome::Passing => WindowCounts {
            passing: bump(w.passing),
            ..w
        },
        WindowOutcome::Failing => WindowCounts {
            failing: bump(w.failing),
            ..w
        },
        WindowOutcome::Invalid => WindowCounts {
            invalid: bump(w.invalid),
            ..w
        },
    }
}

#[tactic(auto, unfolding(crate::specs::Measuring::kept_with))]
fn kept_with(x: WindowOutcome, kept: bool) -> bool
    ensures { result ≡ kept_with x kept }
{
    match x {
        WindowOutcome::Passing | WindowOutcome::Failing => true,
        WindowOutcome::Invalid => kept,
    }
}

// Whether a window ends at this t.
// Ruled out: a window of nine seconds, and none at t = 10.
pub fn window_ends(t: u8) -> bool
    ensures { result ≡ window_ends t }
{
    10 <= t
}

// The window that ends with a measured second, counted; a valid one is kept.
// Ruled out: a window counted at t = 9, an invalid one left out of the counts, and a valid one not kept.
#[tactic(auto, using(crate::proofs::Windows::one_window_more, crate::proofs::Runs::counts_told), unfolding(crate::specs::Measuring::window_counted, refusal::specs::Choice::pick))]
pub fn window_counted(x: WindowOutcome, k: MeasuringCounts) -> MeasuringCounts
    ensures { (result ≡ window_counted x k) × OneWindowMore × CountsTold }
{
    if window_ends(k.seconds) {
        return MeasuringCounts {
            windows: one_more(x, k.windows),
            kept: kept_with(x, k.kept),
            ..k
        };
    }
    k
}

// Whether measuring begins anew: u = 3 or w = 6.
// Ruled out: a restart at u = 2, and none at w = 6 with u = 1.
pub fn restarts(k: MeasuringCounts) -> bool
    ensures { result ≡ restarts k }
{
    (k.row == 3) | (k.all == 6)
}

// The counts of measuring, begun anew where it restarts.
// Ruled out: a dip of before the restart that is kept, and windows of before it.
#[tactic(auto, using(crate::proofs::Runs::counts_told), unfolding(crate::specs::Measuring::restarted, refusal::specs::Choice::pick))]
pub fn restarted(k: MeasuringCounts) -> MeasuringCounts
    ensures { (result ≡ restarted k) × CountsTold }
{
    if restarts(k) {
        return NO_MEASURING;
    }
    k
}

#[tactic(auto, unfolding(crate::specs::Ending::at_ninety, refusal::specs::Choice::pick))]
fn at_ninety(k: WindowCounts) -> Ending
    ensures { result ≡ at_ninety k }
{
    if 15 <= k.passing {
        return Ending::Passes;
    }
    if 25 <= k.failing {
        return Ending::ModeEnds;
    }
    Ending::Inconclusive
}

// The ending rule.
// Ruled out: a pass at t = 24, and a mode that ends at t = 90 with 15 passing.
#[tactic(auto, using(crate::proofs::Ruled::ruled_exactly), unfolding(crate::specs::Ending::ending_rule, crate::specs::Ending::early_pass, refusal::specs::Choice::pick))]
pub fn ending_rule(t: u8, k: WindowCounts, held: bool) -> Ending
    ensures { (result ≡ ending_rule t k held) × RuledExactly }
{
    if (25 <= t) & (15 <= k.passing) & held {
        return Ending::Passes;
    }
    if t == 90 {
        return at_ninety(k);
    }
    Ending::NotYet
}
