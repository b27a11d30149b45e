// The sums of HC·DCF, CO·DCF and NO·DCF over a window, in floats.
ghost use Rattle.std.specs.Prelude.{◌≤◌, ◌∷◌, List, length};
ghost use Rattle.averaging.specs.Sums.{SumsSound};

use crate::factors::dilution_correction;
use vehicle::Gases;
use window::Counts;

// The sums with one second more.
fn with_second(sums: Gases<f64>, c: Counts) -> Gases<f64>
    ensures { (l : List Counts) → length l ≤ 9 → SumsSound l sums → SumsSound (c ∷ l) result }
{
    let dcf = dilution_correction(c);
    Gases {
        hc: c.hc as f64 * dcf + sums.hc,
        co: c.co.0 as f64 * dcf + sums.co,
        no: c.no as f64 * dcf + sums.no,
    }
}

// From the last second to the first, as the exact sum is built up.
pub(crate) fn sums_of(w: &[Counts; 10]) -> Gases<f64>
    ensures { SumsSound w.now result }
{
    let mut sums = Gases {
        hc: 0.0,
        co: 0.0,
        no: 0.0,
    };
    let mut i = 10;
    while 0 < i {
        i -= 1;
        sums = with_second(sums, w[i]);
    }
    sums
}
