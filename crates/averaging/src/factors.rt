// DCF and k_H in floats, unrounded.
ghost use Rattle.std.specs.Prelude.{◌≡◌, ◌*◌, true};
ghost use Rattle.nearness.specs.Near.{Sound};
ghost use Rattle.averaging.specs.Exact.{exact_dcf, exact_k};
ghost use Rattle.averaging.specs.Premise.{conditions_fit};

use vehicle::Conditions;
use window::Counts;

// DCF: held within 1 and 3 by whole numbers, and divided only where it lies between.
pub(crate) fn dilution_correction(c: Counts) -> f64
    ensures { Sound result 1 4 (exact_dcf c) }
{
    let d = correction::dilution_divisor(c.co2, c.co);
    if 10_000_000 < d {
        return 1.0;
    }
    if 3 * d < 10_000_000 {
        return 3.0;
    }
    10_000_000.0 / d as f64
}

// k_H of conditions that are fit.
pub(crate) fn humidity_correction(x: Conditions) -> f64
    requires { conditions_fit x ≡ true }
    ensures { Sound result 1 8 (exact_k x) }
{
    let dry = correction::dry_pressure(x.humidity, x.pressure, x.saturation);
    let divisor = correction::humidity_divisor(x.humidity, x.pressure, x.saturation);
    (1_000_000 * dry) as f64 / divisor as f64
}
