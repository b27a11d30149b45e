// Document 02, A.2, and 004, annex E1.1: a coast-down run of the rollers, what is fit in it, and when it passes.
// Exported: Run with its SpeedRange, inertia_fit, power_fit and run_passed.
#![tactic(auto)]

ghost use Rattle.std.specs.Prelude.{◌≡◌};
ghost use Rattle.coast_down.specs.Passing.{inertia_fit, power_fit, whole_nominal, run_passed};
ghost use Rattle.coast_down.specs.Claims.{InertiaExactly, PowerExactly, RunClaims};

// Which run: the faster, from 48 to 32 km/h, or the slower, from 33 to 17.
#[derive(Clone, Copy, Debug, PartialEq, Eq)]
pub enum SpeedRange {
    Faster,
    Slower,
}

// A run: inertia in 0.1 kg, the sum of set and friction power in 0.01 kW, and the measured time.
#[derive(Clone, Copy, Debug, PartialEq, Eq)]
pub struct Run {
    pub inertia: u16,
    pub power: u16,
    pub speeds: SpeedRange,
    pub milliseconds: u32,
}

// Inertia in 0.1 kg: 1050 to 1350.
// Ruled out: 1049 taken, and 1350 refused.
pub fn inertia_fit(inertia: u16) -> bool
    ensures { (result ≡ inertia_fit inertia) × InertiaExactly }
{
    (1_050..=1_350).contains(&inertia)
}

// Power in 0.01 kW: 50 to 325.
// Ruled out: 326 taken, and 50 refused.
pub fn power_fit(power: u16) -> bool
    ensures { (result ≡ power_fit power) × PowerExactly }
{
    (50..=325).contains(&power)
}

// The nominal time in milliseconds, times 81 times the power.
fn whole_nominal(speeds: SpeedRange, inertia: u16) -> u32
    ensures { result ≡ whole_nominal speeds inertia }
{
    match speeds {
        SpeedRange::Faster => 40_000 * u32::from(inertia),
        SpeedRange::Slower => 25_000 * u32::from(inertia),
    }
}

// Whether the measured time is within 7 percent of nominal, ends included, for every inertia, power and time of their types; with it comes
// that this is said of annex E1.1's own formula, in exact fractions.
// Ruled out: 5511 ms passed for inertia 1200 and power 100, and 11,984 ms, which is 107 percent exactly, failed for 1134 and 50.
pub fn run_passed(run: Run) -> bool
    ensures { (result ≡ run_passed run) × RunClaims }
{
    let nominal = u64::from(whole_nominal(run.speeds, run.inertia));
    let time = 8_100 * u64::from(run.power) * u64::from(run.milliseconds);
    (93 * nominal..=107 * nominal).contains(&time)
}
