// A float's exact value in decimal.
ghost use Rattle.std.specs.Prelude.{◌≡◌, ◌<◌, ◌+◌, ◌*◌, ◌%◌, ◌^◌, Some};
ghost use Rattle.std.specs.Float.Ieee.{of_bits};
ghost use Rattle.std.specs.Float.{binary64};
ghost use Rattle.averaging.specs.Decimals.{billionths};

// The bits of 2^34.
const GREATEST: u64 = 0x4210_0000_0000_0000;

// The 53 digits of a number whose exponent field is not 0, times 10^9.
fn scaled(bits: u64) -> u128
    ensures { result ≡ (4503599627370496 + bits % 4503599627370496) * 10 ^ 9 }
{
    (0x10_0000_0000_0000 + bits % 0x10_0000_0000_0000) as u128 * 1_000_000_000
}

// Of the bits of a number from 0 up to below 2^34.
fn billionths_of(bits: u64) -> u64
    requires { bits < 0x4210000000000000 }
    ensures { Some result ≡ billionths (of_bits binary64 bits) }
{
    let field = bits / 0x10_0000_0000_0000;
    if field < 992 {
        return 0;
    }
    (scaled(bits) >> (1_075 - field)) as u64
}

// The whole billionths of a number, for every float. Only a NaN differs from itself.
pub(crate) fn billionths(x: f64) -> Option<u64>
    ensures { result ≡ billionths x }
{
    if x != x {
        return None;
    }
    let bits = x.to_bits();
    if GREATEST <= bits {
        return None;
    }
    Some(billionths_of(bits))
}
