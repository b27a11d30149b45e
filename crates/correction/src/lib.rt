// The dilution sum, the dilution correction DCF and the humidity correction k_H of document 01's "Corrections", in whole
// numbers. Exports: dilution_sum, dilution_divisor, dcf, humidity_factor with E, its divisor and the three ranges, and half_up, the rounding
// of every quotient that is rounded to the unit. A factor is cast to its narrower type where it is proved to fit.

#![tactic(auto)]

ghost use Rattle.std.specs.Prelude.{◌≡◌};
ghost use Rattle.correction.specs.Rounding.{half_up, HalfUpExact};
ghost use Rattle.correction.specs.Dilution.{dilution_sum, dilution_divisor, dcf_of};
ghost use Rattle.correction.specs.Humidity.{
  humidity_fit,
  pressure_fit,
  saturation_fit,
  dry_pressure,
  humidity_divisor,
  humidity_factor,
};
ghost use Rattle.correction.specs.Claims.{DilutionClaims, HumidityClaims};
ghost use Rattle.correction.specs.Annex.{SumOfPercentages};

use reading::Hundredths;

// a/b rounded half up, for all numbers of 64 bits; 0 where b is 0. With it comes the claim that every quotient is so rounded.
// Ruled out: 1/2 giving 0, and 2a + b wrapping for a large a.
pub fn half_up(a: u64, b: u64) -> u64
    ensures { (result ≡ half_up a b) × HalfUpExact }
{
    if b == 0 {
        return 0;
    }
    let whole = a / b;
    let rest = a % b;
    if rest < b - rest {
        return whole;
    }
    whole + 1
}

// CO2 + CO in hundredths of a %. With it comes the claim that it is the sum of the two in %.
// Ruled out: ten hundredths a unit of CO2, as its tenths were, and a sum of one gas alone.
#[tactic(auto, using(crate::proofs::Reduced::sum_of_percentages))]
pub fn dilution_sum(co2: Hundredths, co: Hundredths) -> u32
    ensures { (result ≡ dilution_sum co2 co) × SumOfPercentages }
{
    (co2.0 as u32) + (co.0 as u32)
}

// D = 6,524a + 4,644b.
// Ruled out: CO taken for CO2, and 65,240a, as it was for tenths.
pub fn dilution_divisor(co2: Hundredths, co: Hundredths) -> u64
    ensures { result ≡ dilution_divisor co2 co }
{
    6_524 * (co2.0 as u64) + 4_644 * (co.0 as u64)
}

// DCF in millionths, for every pair of counts. With it come the claims that it is annex AB1's fraction, rounded half up, and that it is held.
// Ruled out: a quotient rounded down, CO taken for CO2, and a DCF above 3 where there is little or no carbon.
#[tactic(auto, using(crate::proofs::Reduced::dilution_claims), unfolding(crate::specs::Dilution::dcf_of, refusal::specs::Choice::pick))]
pub fn dcf(co2: Hundredths, co: Hundredths) -> u32
    ensures { (result ≡ dcf_of co2 co) × DilutionClaims }
{
    match dilution_divisor(co2, co) {
        0 => 3_000_000,
        d => half_up(10_000_000_000_000, d).clamp(1_000_000, 3_000_000) as u32,
    }
}

// Humidity in %: 0 to 100.
// Ruled out: 101 taken, and 0 refused.
pub fn humidity_fit(humidity: u16) -> bool
    ensures { result ≡ humidity_fit humidity }
{
    humidity <= 100
}

// Pressure in 0.1 kPa: 800 to 1100.
// Ruled out: 799 taken, and 1100 refused.
pub fn pressure_fit(pressure: u16) -> bool
    ensures { result ≡ pressure_fit pressure }
{
    (800..=1_100).contains(&pressure)
}

// Saturation pressure in Pa: 500 to 4300.
// Ruled out: 499 taken, and 4300 refused.
pub fn saturation_fit(saturation: u16) -> bool
    ensures { result ≡ saturation_fit saturation }
{
    (500..=4_300).contains(&saturation)
}

// E = 10,000B − rp, 0 where rp is greater.
// Ruled out: a difference that wraps, and pressure and saturation pressure exchanged.
pub fn dry_pressure(humidity: u16, pressure: u16, saturation: u16) -> u64
    ensures { result ≡ dry_pressure humidity pressure saturation }
{
    let vapour = (humidity as u64) * (saturation as u64);
    (10_000 * (pressure as u64)).saturating_sub(vapour)
}

// 1,352,359E − 20,434,190rp, 0 where it would be less.
// Ruled out: a difference that wraps, and E taken for rp.
pub fn humidity_divisor(humidity: u16, pressure: u16, saturation: u16) -> u64
    ensures { result ≡ humidity_divisor humidity pressure saturation }
{
    let vapour = (humidity as u64) * (saturation as u64);
    let dry = dry_pressure(humidity, pressure, saturation);
    (1_352_359 * dry).saturating_sub(20_434_190 * vapour)
}

// k_H in millionths from humidity r, pressure B and saturation pressure p, each tested here. With it come the claims that it is annex
// AB2's fraction, that its divisor is above zero and how large it is at most.
// Ruled out: k worked out from a humidity of 101, and 10^12·E wrapping at B = 1100.
pub fn humidity_factor(humidity: u16, pressure: u16, saturation: u16) -> Option<u32>
    ensures { (result ≡ humidity_factor humidity pressure saturation) × HumidityClaims }
{
    if !(humidity_fit(humidity) & (pressure_fit(pressure) & saturation_fit(saturation))) {
        return None;
    }
    let dry = dry_pressure(humidity, pressure, saturation);
    let divisor = humidity_divisor(humidity, pressure, saturation);
    Some(half_up(1_000_000_000_000 * dry, divisor) as u32)
}
