// Document 01, "Locks of the bench", and document 02, A.2 and A.5: one bench, which takes the thirteen kinds of event in any order.
// Exported: open, which gives a fresh bench or refuses V or U, and step, which takes one event and answers it; Event and what it carries.
// specs/History.antt, Causes.antt and Telling.antt are the plain history; specs/Demand.antt is demand 3, which open carries.
#![tactic(auto)]

ghost use Rattle.std.specs.Prelude.{◌≡◌};
ghost use Rattle.bench.specs.Causes.{inside_test, outside_test};
ghost use Rattle.bench.specs.Stepping.{fresh_bench, opened_of, order_check, step};
ghost use Rattle.bench.specs.Claims.{Opens};
ghost use Rattle.bench.specs.Laws.{BackIfRefused};

mod taking;

use crate::taking::{refused, taken};
pub use coast_down::{Run, SpeedRange};
use loaded_test::{Test, Verdict};
use locks::{Contents, Kind, Locks};
pub use locks::{Calibration, Event, Try};
pub use prepare::{Residue, ZeroCheck};
use refusal::{Check, Refusal};

// The answer to an event: accepted, with its verdict if it brings one, or refused.
pub type Answer = Result<Option<Verdict>, Refusal>;

// What a bench keeps beside its test: document 01's V in seconds and U, the last clock, and what the locks are read from.
#[derive(Clone, Copy)]
pub struct Desk {
    validity: u32,
    limit: u16,
    clock: u32,
    locks: Locks,
}

// The state of one bench. test is the one that runs, where one does.
#[derive(Clone, Copy)]
pub struct Bench {
    desk: Desk,
    test: Test,
}

// A bench after an event, beside the answer and not in it: the state goes by value, and a refused event gives it back as it was.
#[derive(Clone, Copy)]
pub struct Handled {
    pub answer: Answer,
    pub bench: Bench,
}

fn fresh_bench(validity: u32, limit: u16) -> Bench
    ensures { result ≡ fresh_bench validity limit }
{
    Bench {
        desk: Desk {
            validity,
            limit,
            clock: 0,
            locks: locks::fresh_locks(),
        },
        test: loaded_test::none_running(),
    }
}

// A fresh bench of V and U, or refusal 15; with it comes demand 3 about every list of events.
// Ruled out: U = 256 taken, and a bench that opens with a lock lifted.
#[tactic(auto, using(crate::proofs::Lawful::opens), unfolding(crate::specs::Stepping::opened_of, refusal::specs::Choice::pick))]
pub fn open(validity: u32, limit: u16) -> Result<Bench, Refusal>
    ensures answer { result ≡ opened_of validity limit }
    ensures claims { Opens validity limit }
{
    if locks::parameters_fit(validity, limit) {
        return Ok(fresh_bench(validity, limit));
    }
    Err(Refusal::CauseUnfit)
}

// "second or stop"
fn inside_test(kind: Kind) -> bool
    ensures { result ≡ inside_test kind }
{
    matches!(kind, Kind::Second | Kind::Stop)
}

// "all but power-on, second, stop"
fn outside_test(kind: Kind) -> bool
    ensures { result ≡ outside_test kind }
{
    !matches!(kind, Kind::PowerOn | Kind::Second | Kind::Stop)
}

// 11, then 12 or 13: the clock, and whether a test runs. Nested tests: joined by && in one, the last goal did not close.
#[tactic(auto, using(refusal::proofs::Checks::after_fine, refusal::proofs::Checks::after_refused), unfolding(refusal::specs::Checking::need))]
fn order_check(bench: Bench, contents: Contents) -> Check
    ensures { result ≡ order_check bench contents }
{
    let last = bench.desk.clock;
    if contents.clock < last {
        return Err(Refusal::ClockEarlier(last));
    }
    if loaded_test::is_running(bench.test) {
        if outside_test(contents.kind) {
            return Err(Refusal::TestRunning);
        }
        return Ok(());
    }
    if inside_test(contents.kind) {
        return Err(Refusal::NoTest);
    }
    Ok(())
}

// One event: its answer and the next bench. 11, 12 or 13, then 4, 5, 15, 8, 16, 17 or 18, then 14; a refused event gives back the same
// bench.
// Ruled out: a refused event that moves the clock, a start told of its lock before its settings are looked at, 17 for a coast-down run whose
// inertia is unfit too, and a refused prepare that takes the place of a standing one.
#[tactic(auto, using(crate::proofs::Refusing::stepped), unfolding(crate::specs::Stepping::step_by))]
pub fn step(bench: Bench, event: Event) -> Handled
    ensures { (result ≡ step bench event) × BackIfRefused bench result }
{
    let contents = locks::contents_of(event);
    match order_check(bench, contents) {
        Ok(()) => taken(bench, event, contents.carried),
        Err(r) => refused(r, bench),
    }
}
