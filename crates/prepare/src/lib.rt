// Document 02, A.5, and 004, A2.3.3: what a prepare carries, when it stands, and what is unfit in it.
// Exported: ZeroCheck with its Residue, prepare_stands and above_greatest.
#![tactic(auto)]

ghost use Rattle.std.specs.Prelude.{◌≡◌};
ghost use Rattle.prepare.specs.Standing.{residue_fit, prepare_stands, above, above_greatest};
ghost use Rattle.prepare.specs.Claims.{PrepareClaims, BackgroundClaims};

use reading::Channel;

// The HC residue in 10^-6, background less ambient air: the 16 bits of a signed number in two's complement. Bits, and not an `i16`, since
// document 02 gives two bytes, and a test of the bits needs no signed arithmetic.
#[derive(Clone, Copy, Debug, PartialEq, Eq)]
pub struct Residue(pub u16);

// The background in units, HC 10^-6, CO 0.01 %, NO 10^-6, and the HC residue.
#[derive(Clone, Copy, Debug, PartialEq, Eq)]
pub struct ZeroCheck {
    pub hc: u16,
    pub co: u16,
    pub no: u16,
    pub residue: Residue,
}

// A negative number has its highest bit set, so its bits, read as an unsigned number, are above 7.
fn residue_fit(residue: Residue) -> bool
    ensures { result ≡ residue_fit residue }
{
    residue.0 <= 7
}

// Whether a prepare stands; with it come the same in plain numbers, and the signed number of a residue's bits.
// Ruled out: a residue of -1, whose bits are 65,535, taken for 0 or above, and CO 2 taken for below 2.
pub fn prepare_stands(p: ZeroCheck) -> bool
    ensures { (result ≡ prepare_stands p) × PrepareClaims }
{
    p.hc < 15 && p.co < 2 && p.no < 25 && residue_fit(p.residue)
}

// A background value above the greatest of its channel, by the table of `reading`.
fn above(channel: Channel, value: u16) -> bool
    ensures { result ≡ above channel value }
{
    reading::greatest_value(channel.code()) < value
}

// The channel of the lowest code whose background is above its channel's greatest, if one is.
// Ruled out: CO where HC is above too, and HC for an HC of 9999.
// Three tests in turn: over an array of pairs with `find` and `map` the proof did not close.
pub fn above_greatest(p: ZeroCheck) -> Option<Channel>
    ensures { (result ≡ above_greatest p) × BackgroundClaims }
{
    if above(Channel::Hc, p.hc) {
        Some(Channel::Hc)
    } else if above(Channel::Co, p.co) {
        Some(Channel::Co)
    } else if above(Channel::No, p.no) {
        Some(Channel::No)
    } else {
        None
    }
}
