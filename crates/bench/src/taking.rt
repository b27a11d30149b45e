// An event that 11, 12 and 13 do not refuse: a start, a second, a stop, or any other.
// The bench and the event stay two parameters: the definitions take them so, and a struct of both would be made for one call alone.
ghost use Rattle.std.specs.Prelude.{◌≡◌};
ghost use Rattle.bench.specs.Stepping.{
  refused,
  desk_after,
  gone_on,
  plain_taken,
  run_check,
  background_check,
  service_check,
  service_taken,
  lock_check,
  start_check,
  start_taken,
  judged_with,
  followed,
  test_taken,
  second_taken,
  stop_taken,
  taken,
};

use crate::{Bench, Desk, Handled};
use coast_down::Run;
use loaded_test::{Next, Stepped, Test, Verdict};
use locks::{Carried, Event, Lock, Locks, Service};
use reading::{Channel, Readings};
use refusal::{Check, Refusal};
use vehicle::Settings;

// A refused event gives back the same bench.
pub(crate) fn refused(r: Refusal, bench: Bench) -> Handled
    ensures { result ≡ refused r bench }
{
    Handled {
        answer: Err(r),
        bench,
    }
}

fn desk_after(d: Desk, event: Event, locks: Locks) -> Desk
    ensures { result ≡ desk_after d event locks }
{
    Desk {
        clock: locks::clock_after(event),
        locks,
        ..d
    }
}

// No verdict comes, and this test or none is left.
fn gone_on(d: Desk, event: Event, test: Test) -> Handled
    ensures { result ≡ gone_on d event test }
{
    let locks = locks::locks_after(d.locks, event);
    Handled {
        answer: Ok(None),
        bench: Bench {
            desk: desk_after(d, event, locks),
            test,
        },
    }
}

// An event that is no start, second or stop leaves no test: power-on ends one, the others come where there is none.
fn plain_taken(d: Desk, event: Event) -> Handled
    ensures { result ≡ plain_taken d event }
{
    gone_on(d, event, loaded_test::none_running())
}

// "16 inertia out of range, then 17 power"
#[tactic(auto, using(refusal::proofs::Checks::after_fine, refusal::proofs::Checks::after_refused), unfolding(refusal::specs::Checking::need))]
fn run_check(run: Run) -> Check
    ensures { result ≡ run_check run }
{
    if !coast_down::inertia_fit(run.inertia) {
        return Err(Refusal::InertiaUnfit);
    }
    if !coast_down::power_fit(run.power) {
        return Err(Refusal::PowerUnfit);
    }
    Ok(())
}

// "18 a prepare with a background value above its channel's greatest, place the lowest such code"
// Alike with the lock's check below, but each is a row of the table of its own.
fn background_check(above: Option<Channel>) -> Check
    ensures { result ≡ background_check above }
{
    match above {
        Some(channel) => Err(Refusal::BackgroundUnfit(channel.code())),
        None => Ok(()),
    }
}

// Of the events that are no start, second or stop, a coast-down run and a prepare alone can be unfit.
fn service_check(x: Service) -> Check
    ensures { result ≡ service_check x }
{
    match x {
        Service::Ran(run) => run_check(run),
        Service::Prepared(check) => background_check(prepare::above_greatest(check)),
        Service::Nothing | Service::NewClock(_) | Service::Outcome(_) | Service::Tried(_) => Ok(()),
    }
}

// An event that is no start, second or stop.
#[tactic(auto, unfolding(crate::specs::Stepping::service_taken))]
fn service_taken(bench: Bench, event: Event, x: Service) -> Handled
    ensures { result ≡ service_taken bench event x }
{
    match service_check(x) {
        Ok(()) => plain_taken(bench.desk, event),
        Err(r) => refused(r, bench),
    }
}

// 14, by the first lock.
#[tactic(auto, unfolding(refusal::specs::Checking::need))]
fn lock_check(lock: Option<Lock>) -> Check
    ensures { result ≡ lock_check lock }
{
    match lock {
        Some(lock) => Err(Refusal::StartLocked(lock.number())),
        None => Ok(()),
    }
}

// "then 4, 5 .., then 14": the test that begins.
fn start_check(d: Desk, now: u32, settings: Settings, saturation: u16) -> Result<Test, Refusal>
    ensures { result ≡ start_check d now settings saturation }
{
    let test = loaded_test::begin(settings, saturation)?;
    lock_check(locks::first_lock(d.validity, d.limit, d.locks, now))?;
    Ok(test)
}

// A start where no test runs.
#[tactic(auto, unfolding(crate::specs::Stepping::start_taken))]
fn start_taken(bench: Bench, event: Event, settings: Settings, saturation: u16) -> Handled
    ensures { result ≡ start_taken bench event settings saturation }
{
    match start_check(bench.desk, locks::clock_of(event), settings, saturation) {
        Ok(test) => gone_on(bench.desk, event, test),
        Err(r) => refused(r, bench),
    }
}

// A verdict ends the test and is unsent.
fn judged_with(d: Desk, event: Event, verdict: Verdict) -> Handled
    ensures { result ≡ judged_with d event verdict }
{
    let locks = locks::verdict_counted(locks::locks_after(d.locks, event));
    Handled {
        answer: Ok(Some(verdict)),
        bench: Bench {
            desk: desk_after(d, event, locks),
            test: loaded_test::none_running(),
        },
    }
}

fn followed(next: Next, d: Desk, event: Event, test: Test) -> Handled
    ensures { result ≡ followed next d event test }
{
    match next {
        Next::Ends(verdict) => judged_with(d, event, verdict),
        Next::GoesOn | Next::Rests | Next::RestEnded | Next::ModeTwo => gone_on(d, event, test),
    }
}

// What the test told, or that it refused a stop's cause.
fn test_taken(stepped: Stepped, bench: Bench, event: Event) -> Handled
    ensures { result ≡ test_taken stepped bench event }
{
    match stepped.answer {
        Ok(told) => followed(told.next, bench.desk, event, stepped.test),
        Err(r) => refused(r, bench),
    }
}

// A second where a test runs: 8, then the test's step.
#[tactic(auto, unfolding(crate::specs::Stepping::second_taken))]
fn second_taken(bench: Bench, event: Event, readings: Readings) -> Handled
    ensures { result ≡ second_taken bench event readings }
{
    match reading::second_of(readings, loaded_test::is_automatic(bench.test)) {
        Ok(s) => test_taken(loaded_test::second(bench.test, s), bench, event),
        Err(r) => refused(r, bench),
    }
}

// A stop where a test runs, by the number that was sent.
#[tactic(auto, unfolding(crate::specs::Stepping::stop_taken))]
fn stop_taken(bench: Bench, event: Event, cause: u8) -> Handled
    ensures { result ≡ stop_taken bench event cause }
{
    test_taken(loaded_test::stop(bench.test, cause), bench, event)
}

pub(crate) fn taken(bench: Bench, event: Event, carried: Carried) -> Handled
    ensures { result ≡ taken bench event carried }
{
    match carried {
        Carried::Service(x) => service_taken(bench, event, x),
        Carried::Start(settings, saturation) => start_taken(bench, event, settings, saturation),
        Carried::Second(readings) => second_taken(bench, event, readings),
        Carried::Stop(cause) => stop_taken(bench, event, cause),
    }
}
