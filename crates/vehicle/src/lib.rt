// The seven settings checked, and what a test needs of a checked vehicle: document 01's "Limits and loads".
// A `Vehicle` comes only from `checked_of`, or is the blank one; all functions are total for every value that can be passed in.

#![tactic(auto)]

ghost use Rattle.std.specs.Prelude.{◌≡◌};
ghost use Rattle.refusal.specs.Checking.{need};
ghost use Rattle.refusal.specs.declared.Refusal.TheVariants.{SettingUnfit};
ghost use Rattle.vehicle.specs.Settings.{setting_fit, settings_checked, automatic};
ghost use Rattle.vehicle.specs.Limits.{limits_for};
ghost use Rattle.vehicle.specs.Loads.{load_for, target_for, aim_for};
ghost use Rattle.vehicle.specs.Checked.{checked_of};
ghost use Rattle.vehicle.specs.Driving.{
  blank_vehicle,
  conditions_of,
  limits_of,
  aim_of,
  set_load,
  target_of,
  apart,
  in_tolerance,
  engine_good,
};
ghost use Rattle.vehicle.specs.Claims.{CheckedFit};

use reading::Second;
use refusal::{Check, Refusal};

// The settings in document 01's order, places 1 to 7: the numbers that were sent. Each may be unfit and is refused by its place, so kind and
// gearbox are no enums here; what the check makes of them is a `Vehicle`.
#[derive(Clone, Copy, Debug, PartialEq, Eq)]
pub struct Settings {
    pub kind: u16,
    pub year: u16,
    pub displacement: u16,
    pub gearbox: u16,
    pub humidity: u16,
    pub temperature: u16,
    pub pressure: u16,
}

#[derive(Clone, Copy, Debug, PartialEq, Eq)]
pub enum Mode {
    One,
    Two,
}

// What CO, HC and NO have each.
#[derive(Clone, Copy, Debug, Default, PartialEq, Eq)]
pub struct Gases<T> {
    pub co: T,
    pub hc: T,
    pub no: T,
}

// Limits in units: CO 0.01 %, HC and NO 10^-6.
pub type Limits = Gases<u16>;

// What a mode asks: target speed in 0.1 km/h, set load P in 0.01 kW.
#[derive(Clone, Copy, Debug, Default, PartialEq, Eq)]
pub struct Aim {
    pub speed: u16,
    pub load: u16,
}

// What k_H is worked out from: document 01's r in %, B in 0.1 kPa and p in Pa.
#[derive(Clone, Copy, Debug, PartialEq, Eq)]
pub struct Conditions {
    pub humidity: u16,
    pub pressure: u16,
    pub saturation: u16,
}

// Checked settings, as the test needs them.
#[derive(Clone, Copy, Debug, Default, PartialEq, Eq)]
pub struct Vehicle {
    automatic: bool,
    limits: Limits,
    first: Aim,
    second: Aim,
    // k_H in millionths, and what it was worked out from, document 01's r, B and p: the float averages work the unrounded k out from them.
    k: u32,
    humidity: u16,
    pressure: u16,
    saturation: u16,
}

// Kind and place are numbers here as well: an enum of two kinds would be made of the one and taken apart at once, and a place is told as it is.
const MOPED: u16 = 2;

// Whether a value is fit for the setting at a place, 1 to 7, of a vehicle of this kind.
// Ruled out: a moped of 51 ml taken, and place 0 or 8 taken for a setting.
#[tactic(auto, unfolding(crate::specs::Settings::setting_fit, crate::specs::Settings::range_at, crate::specs::Settings::ranges, refusal::specs::Choice::pick))]
pub fn setting_fit(place: u8, kind: u16, value: u16) -> bool
    ensures { result ≡ setting_fit place kind value }
{
    match place {
        1 | 4 => (1..=2).contains(&value),
        2 => (1_900..=2_100).contains(&value),
        3 if kind == MOPED => (1..=50).contains(&value),
        3 => (1..=2_000).contains(&value),
        5 => value <= 100,
        6 => (2..=43).contains(&value),
        7 => (800..=1_100).contains(&value),
        _ => false,
    }
}

#[tactic(auto, unfolding(refusal::specs::Checking::need))]
fn setting_checked(place: u8, kind: u16, value: u16) -> Check
    ensures { result ≡ need (setting_fit place kind value) (SettingUnfit place) }
{
    if setting_fit(place, kind, value) {
        return Ok(());
    }
    Err(Refusal::SettingUnfit(place as usize))
}

// The seven settings in their order.
#[tactic(auto, unfolding(crate::specs::Settings::unfit_place, refusal::specs::Choice::first_unfit, refusal::specs::Checking::need))]
fn settings_checked(s: Settings) -> Check
    ensures { result ≡ settings_checked s }
{
    setting_checked(1, s.kind, s.kind)?;
    setting_checked(2, s.kind, s.year)?;
    setting_checked(3, s.kind, s.displacement)?;
    setting_checked(4, s.kind, s.gearbox)?;
    setting_checked(5, s.kind, s.humidity)?;
    setting_checked(6, s.kind, s.temperature)?;
    setting_checked(7, s.kind, s.pressure)
}

// The limits of a kind and a registration year.
#[tactic(auto, unfolding(crate::specs::Limits::limits_for, refusal::specs::Choice::pick))]
fn limits_for(kind: u16, year: u16) -> Limits
    ensures { result ≡ limits_for kind year }
{
    match (kind == MOPED, year < 2_001) {
        (false, true) => Limits {
            co: 1_100,
            hc: 750,
            no: 340,
        },
        (false, false) => Limits {
            co: 950,
            hc: 600,
            no: 1_300,
        },
        (true, true) => Limits {
            co: 1_400,
            hc: 3_000,
            no: 450,
        },
        (true, false) => Limits {
            co: 750,
            hc: 570,
            no: 1_000,
        },
    }
}

// Modes 1 and 2, by the displacement.
#[tactic(auto, unfolding(crate::specs::Loads::load_for, crate::specs::Loads::loads, crate::specs::Loads::row_up_to, crate::specs::Loads::displacement_bounds, refusal::specs::Choice::pick))]
fn load_for(displacement: u16, mode: Mode) -> u16
    ensures { result ≡ load_for displacement mode }
{
    let (one, two) = match displacement {
        0..=50 => (25, 20),
        51..=100 => (35, 27),
        101..=125 => (85, 69),
        126..=200 => (120, 100),
        201..=250 => (180, 150),
        _ => (225, 187),
    };
    match mode {
        Mode::One => one,
        Mode::Two => two,
    }
}

#[tactic(auto, unfolding(crate::specs::Loads::target_for, refusal::specs::Choice::pick))]
fn target_for(kind: u16, mode: Mode) -> u16
    ensures { result ≡ target_for kind mode }
{
    match (mode, kind == MOPED) {
        (Mode::One, false) => 250,
        (Mode::One, true) => 200,
        (Mode::Two, false) => 400,
        (Mode::Two, true) => 300,
    }
}

fn aim_for(kind: u16, displacement: u16, mode: Mode) -> Aim
    ensures { result ≡ aim_for kind displacement mode }
{
    Aim {
        speed: target_for(kind, mode),
        load: load_for(displacement, mode),
    }
}

// The settings checked in order, then p: refusal 4 with the place of the first unfit setting, or 5 with place 0.
// With it comes the claim about every vehicle that the check gives.
// Ruled out: 5 given while a setting is unfit, and limits of 2001 given to a vehicle of 2000.
pub fn checked_of(s: Settings, saturation: u16) -> Result<Vehicle, Refusal>
    ensures { (result ≡ checked_of s saturation) × CheckedFit }
{
    settings_checked(s)?;
    let Some(k) = correction::humidity_factor(s.humidity, s.pressure, saturation) else {
        return Err(Refusal::SaturationUnfit(0));
    };
    Ok(Vehicle {
        automatic: is_automatic(s),
        limits: limits_for(s.kind, s.year),
        first: aim_for(s.kind, s.displacement, Mode::One),
        second: aim_for(s.kind, s.displacement, Mode::Two),
        k,
        humidity: s.humidity,
        pressure: s.pressure,
        saturation,
    })
}

// Whether settings name an automatic gearbox.
// Ruled out: gearbox 1 taken for automatic, and any other than 1.
pub fn is_automatic(s: Settings) -> bool
    ensures { result ≡ automatic s }
{
    s.gearbox == 2
}

// Whether the gearbox is automatic.
// Ruled out: always true, and the opposite.
pub fn automatic(v: Vehicle) -> bool
    ensures { result ≡ v.automatic }
{
    v.automatic
}

// k_H in millionths.
// Ruled out: a k of other settings, and 1,000,000 for every vehicle.
pub fn humidity_correction(v: Vehicle) -> u32
    ensures { result ≡ v.k }
{
    v.k
}

// What k_H was worked out from.
// Ruled out: pressure and saturation pressure exchanged, and the temperature for the humidity.
pub fn conditions_of(v: Vehicle) -> Conditions
    ensures { result ≡ conditions_of v }
{
    Conditions {
        humidity: v.humidity,
        pressure: v.pressure,
        saturation: v.saturation,
    }
}

// The limits CO, HC, NO.
// Ruled out: HC and NO exchanged, and the limits of another kind.
pub fn limits_of(v: Vehicle) -> Limits
    ensures { result ≡ limits_of v }
{
    v.limits
}

// What a mode asks of the vehicle.
// Ruled out: mode 2's target in mode 1, and the load of one mode with the target of the other.
#[tactic(auto, unfolding(crate::specs::Driving::aim_of))]
pub fn aim_of(v: Vehicle, mode: Mode) -> Aim
    ensures { result ≡ aim_of v mode }
{
    match mode {
        Mode::One => v.first,
        Mode::Two => v.second,
    }
}

// The set load P of a mode.
// Ruled out: mode 1's load in mode 2, and the target speed for the load.
pub fn set_load(v: Vehicle, mode: Mode) -> u16
    ensures { result ≡ set_load v mode }
{
    aim_of(v, mode).load
}

// The target speed of a mode.
// Ruled out: mode 2's target in mode 1, and the load for the target.
pub fn target(v: Vehicle, mode: Mode) -> u16
    ensures { result ≡ target_of v mode }
{
    aim_of(v, mode).speed
}

// |a − b|.
// Ruled out: a difference that wraps, and 0 where a is below b.
pub fn apart(a: u16, b: u16) -> u16
    ensures { result ≡ apart a b }
{
    a.abs_diff(b)
}

// Whether a load is in tolerance of the set load.
// Ruled out: load 230 in at P 225, and load 26 out at P 25.
#[tactic(auto, unfolding(crate::specs::Driving::in_tolerance))]
pub fn in_tolerance(load: u16, set: u16) -> bool
    ensures { result ≡ in_tolerance load set }
{
    50 * u32::from(apart(load, set)) <= u32::from(set.max(100))
}

// Whether a second's engine speed is good.
// Ruled out: 2999 good with a manual gearbox, and any speed bad with an automatic one.
pub fn engine_good(v: Vehicle, s: Second) -> bool
    ensures { result ≡ engine_good v s }
{
    v.automatic | matches!(s.engine(), Some(3_000..=5_000))
}

// A vehicle of no settings, for a test that is not running.
// Ruled out: a vehicle with a limit above 0, and one with an automatic gearbox.
pub fn blank() -> Vehicle
    ensures { result ≡ blank_vehicle }
{
    Vehicle::default()
}
