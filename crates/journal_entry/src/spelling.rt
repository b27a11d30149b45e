// An entry's bytes: one form for each entry.
ghost use Rattle.std.specs.Prelude.{◌≡◌, ◌+◌, ◌≤◌, ◌++◌, List, [], ℕ, length, take};
ghost use Rattle.std.specs.Int.{w16, w32, to_le_bytes};
ghost use Rattle.journal_entry.specs.Spelling.{
  yes_no_bytes,
  settings_bytes,
  bits_bytes,
  run_bytes,
  check_bytes,
  kind_in,
  fields_bytes,
  entry_bytes,
};

use crate::{Entry, Fields};
use coast_down::{Run, SpeedRange};
use locks::{Calibration, Kind, Try};
use prepare::ZeroCheck;
use reading::Bits;
use std::marker::Model;
use vehicle::Settings;

// The longest entry is a second's: kind, clock and eight readings.
const LONGEST: usize = 37;

// Bytes as far as they are put: those of one entry once it is whole.
#[derive(Drop)]
pub struct EntryBytes {
    bytes: [u8; LONGEST],
    len: usize,
}

impl Model for EntryBytes {
    ghost Value = { List ℕ };

    ghost view = { λ x. take x.len x.bytes };

    ghost invariant = { λ x. x.len ≤ 37 };
}

// Each method puts bytes behind the others, and asks for their room.
impl EntryBytes {
    fn new() -> Self
        ensures { result ≡ [] }
    {
        EntryBytes {
            bytes: [0; LONGEST],
            len: 0,
        }
    }

    // The bytes. Ruled out: bytes behind the last one put; a byte left out.
    pub fn as_slice(&self) -> &[u8]
        ensures { result.now ≡ self.now }
    {
        &self.bytes[..self.len]
    }

    #[tactic(auto, using(std::proofs::lemmas::Slice::overwrites))]
    fn push(&mut self, piece: &[u8])
        requires { length self.old + length piece.now ≤ 37 }
        ensures { self.new ≡ self.old ++ piece.now }
    {
        let end = self.len + piece.len();
        self.bytes[self.len..end].copy_from_slice(piece);
        self.len = end;
    }

    fn short(&mut self, n: u16)
        requires { length self.old + 2 ≤ 37 }
        ensures { self.new ≡ self.old ++ to_le_bytes w16 n }
    {
        self.push(&n.to_le_bytes());
    }

    fn long(&mut self, n: u32)
        requires { length self.old + 4 ≤ 37 }
        ensures { self.new ≡ self.old ++ to_le_bytes w32 n }
    {
        self.push(&n.to_le_bytes());
    }

    fn yes_no(&mut self, yes: bool)
        requires { length self.old + 1 ≤ 37 }
        ensures { self.new ≡ self.old ++ yes_no_bytes yes }
    {
        if yes {
            self.push(&[1]);
        } else {
            self.push(&[0]);
        }
    }

    fn settings(&mut self, x: Settings)
        requires { length self.old + 14 ≤ 37 }
        ensures { self.new ≡ self.old ++ settings_bytes x }
    {
        self.short(x.kind);
        self.short(x.year);
        self.short(x.displacement);
        self.short(x.gearbox);
        self.short(x.humidity);
        self.short(x.temperature);
        self.short(x.pressure);
    }

    fn bits(&mut self, x: Bits)
        requires { length self.old + 32 ≤ 37 }
        ensures { self.new ≡ self.old ++ bits_bytes x }
    {
        self.long(x.speed);
        self.long(x.load);
        self.long(x.engine);
        self.long(x.hc);
        self.long(x.co);
        self.long(x.no);
        self.long(x.co2);
        self.long(x.o2);
    }

    fn run(&mut self, x: Run)
        requires { length self.old + 9 ≤ 37 }
        ensures { self.new ≡ self.old ++ run_bytes x }
    {
        self.short(x.inertia);
        self.short(x.power);
        self.yes_no(x.speeds == SpeedRange::Faster);
        self.long(x.milliseconds);
    }

    fn check(&mut self, x: ZeroCheck)
        requires { length self.old + 8 ≤ 37 }
        ensures { self.new ≡ self.old ++ check_bytes x }
    {
        self.short(x.hc);
        self.short(x.co);
        self.short(x.no);
        self.short(x.residue.0);
    }

    // What an entry carries beside kind and clock: at most the 32 bytes of a second.
    fn fields(&mut self, fields: Fields)
        requires { length self.old + 32 ≤ 37 }
        ensures { self.new ≡ self.old ++ fields_bytes fields }
    {
        match fields {
            Fields::PowerOn
            | Fields::WarmUp
            | Fields::AuthorityLock
            | Fields::AuthorityUnlock
            | Fields::Upload => {}
            Fields::ClockSetting(new_clock) => self.long(new_clock),
            Fields::Calibration(outcome) => self.yes_no(outcome == Calibration::Passed),
            Fields::Try(Try::Good { expiry }) => {
                self.yes_no(true);
                self.long(expiry);
            }
            Fields::Try(Try::Wrong) => self.yes_no(false),
            Fields::Start(settings, saturation) => {
                self.settings(settings);
                self.short(saturation);
            }
            Fields::Second(bits) => self.bits(bits),
            Fields::Stop(cause) => self.push(&[cause]),
            Fields::CoastDown(run) => self.run(run),
            Fields::Prepare(check) => self.check(check),
        }
    }
}

fn kind_in(fields: Fields) -> Kind
    ensures { result ≡ kind_in fields }
{
    match fields {
        Fields::PowerOn => Kind::PowerOn,
        Fields::ClockSetting(_) => Kind::ClockSetting,
        Fields::WarmUp => Kind::WarmUp,
        Fields::Calibration(_) => Kind::Calibration,
        Fields::Try(_) => Kind::Try,
        Fields::AuthorityLock => Kind::AuthorityLock,
        Fields::AuthorityUnlock => Kind::AuthorityUnlock,
        Fields::Upload => Kind::Upload,
        Fields::Start(_, _) => Kind::Start,
        Fields::Second(_) => Kind::Second,
        Fields::Stop(_) => Kind::Stop,
        Fields::CoastDown(_) => Kind::CoastDown,
        Fields::Prepare(_) => Kind::Prepare,
    }
}

// The bytes of an entry. Ruled out: an expiry spelt for a wrong try; the clock before the kind.
pub fn spelt(entry: Entry) -> EntryBytes
    ensures { result ≡ entry_bytes entry }
{
    let mut spelt = EntryBytes::new();
    spelt.push(&[kind_in(entry.fields).number()]);
    spelt.long(entry.clock);
    spelt.fields(entry.fields);
    spelt
}
