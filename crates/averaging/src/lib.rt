// Document 02, A.11: the three averages of a window in 64-bit floats, before anything is rounded to millionths or to the unit.
// Exported: FloatAverages; averages_of_readings, of ten seconds with settings and p; averages_of_test, of a test's last valid window;
// print_record, which writes those of a record in decimal. Verdicts do not come from here.
// Inside: factors.rt has DCF and k, sums.rt the sums of ten products, decimals.rt a float's digits, printing.rt the line.

#![tactic(auto)]

mod decimals;
mod factors;
mod printing;
mod sums;

ghost use Rattle.std.specs.Prelude.{◌≡◌, true, map};
ghost use Rattle.std.specs.List.{list_all};
ghost use Rattle.window.specs.Measuring.{counts_of};
ghost use Rattle.averaging.specs.Answers.{
  AllNear,
  no_averages,
  Answered,
  seconds_of,
  exact_of_readings,
  exact_of_counts,
  exact_of_test,
};
ghost use Rattle.averaging.specs.Claims.{AveragesClaims, WindowsMeet};
ghost use Rattle.averaging.specs.Exact.{exact_averages};
ghost use Rattle.averaging.specs.Premise.{
  undiluted,
  conditions_fit,
  counts_of_second,
  second_meets,
  counts_of_reading,
};

use factors::humidity_correction;
use loaded_test::Test;
pub use printing::print_record;
use reading::{Hundredths, Readings, Second};
use refusal::Refusal;
use sums::sums_of;
use vehicle::{Conditions, Settings};
use window::{Counts, Measured};

// The averages of HC, CO and NO, in units; -1 each where there are none.
#[derive(Clone, Copy)]
pub struct FloatAverages {
    pub hc: f64,
    pub co: f64,
    pub no: f64,
}

// -1 each: outside the premise, and without a window.
fn no_averages() -> FloatAverages
    ensures { result ≡ no_averages }
{
    FloatAverages {
        hc: -1.0,
        co: -1.0,
        no: -1.0,
    }
}

fn undiluted(c: Counts) -> bool
    ensures { result ≡ undiluted c }
{
    600 <= correction::dilution_sum(c.co2, c.co)
}

fn all_undiluted(w: &[Counts; 10]) -> bool
    ensures { result ≡ list_all undiluted w.now }
{
    w.iter().all(|c| undiluted(*c))
}

fn conditions_fit(x: Conditions) -> bool
    ensures { result ≡ conditions_fit x }
{
    correction::humidity_fit(x.humidity)
        & (correction::pressure_fit(x.pressure) & correction::saturation_fit(x.saturation))
}

// The averages of a window under fit conditions.
fn averages(x: Conditions, w: [Counts; 10]) -> FloatAverages
    requires { conditions_fit x ≡ true }
    ensures { AllNear (exact_averages x w) result }
{
    let sums = sums_of(&w);
    let k = humidity_correction(x);
    FloatAverages {
        hc: sums.hc / 10.0,
        co: sums.co / 10.0,
        no: sums.no / 10.0 * k,
    }
}

fn counts_of_second(s: Second) -> Counts
    ensures { result ≡ counts_of_second s }
{
    Counts {
        hc: s.hc(),
        co: s.co(),
        no: s.no(),
        co2: s.co2(),
    }
}

fn seconds_of(settings: Settings, w: [Readings; 10]) -> [Result<Second, Refusal>; 10]
    ensures { result ≡ seconds_of settings w }
{
    let automatic = vehicle::is_automatic(settings);
    w.map(|r| reading::second_of(r, automatic))
}

#[tactic(auto, unfolding(crate::specs::Premise::second_meets))]
fn second_meets(r: Result<Second, Refusal>) -> bool
    ensures { result ≡ second_meets r }
{
    match r {
        Ok(s) => !s.over() & undiluted(counts_of_second(s)),
        Err(_) => false,
    }
}

fn all_meet(seconds: &[Result<Second, Refusal>; 10]) -> bool
    ensures { result ≡ list_all second_meets seconds.now }
{
    seconds.iter().all(|r| second_meets(*r))
}

#[tactic(auto, unfolding(crate::specs::Premise::counts_of_reading))]
fn counts_of_reading(r: Result<Second, Refusal>) -> Counts
    ensures { result ≡ counts_of_reading r }
{
    match r {
        Ok(s) => counts_of_second(s),
        Err(_) => Counts {
            hc: 0,
            co: Hundredths(0),
            no: 0,
            co2: Hundredths(0),
        },
    }
}

fn counts_of_readings(seconds: [Result<Second, Refusal>; 10]) -> [Counts; 10]
    ensures { result ≡ map counts_of_reading seconds }
{
    seconds.map(|r| counts_of_reading(r))
}

// The averages of ten seconds as readings, with settings and p.
// Ruled out: a sum of nine seconds, and NO without k; a DCF above 3; averages of seconds of which one is diluted.
pub fn averages_of_readings(settings: Settings, saturation: u16, w: [Readings; 10]) -> FloatAverages
    ensures answer { Answered (exact_of_readings settings saturation w) result }
    ensures claims { AveragesClaims }
{
    let Ok(vehicle) = vehicle::checked_of(settings, saturation) else {
        return no_averages();
    };
    let seconds = seconds_of(settings, w);
    if !all_meet(&seconds) {
        return no_averages();
    }
    averages(vehicle::conditions_of(vehicle), counts_of_readings(seconds))
}

fn counts_of_window(w: [Measured; 10]) -> [Counts; 10]
    ensures { result ≡ map counts_of w }
{
    w.map(|m| window::counts_of(m))
}

fn averages_of_counts(x: Conditions, w: [Counts; 10]) -> FloatAverages
    ensures { Answered (exact_of_counts x w) result }
{
    if !(conditions_fit(x) & all_undiluted(&w)) {
        return no_averages();
    }
    averages(x, w)
}

// The averages of a test's last valid window, whatever the state that is passed in.
// Ruled out: those of the last ten seconds, and those of an earlier attempt; averages where there is no window.
pub fn averages_of_test(x: Test) -> FloatAverages
    ensures answer { Answered (exact_of_test x) result }
    ensures claims { WindowsMeet }
{
    let Some(w) = loaded_test::last_window(x) else {
        return no_averages();
    };
    let conditions = vehicle::conditions_of(loaded_test::vehicle_of(x));
    averages_of_counts(conditions, counts_of_window(w))
}
