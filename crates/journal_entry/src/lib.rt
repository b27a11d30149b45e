// Document 02, A.7: one event as a journal has it, "each a kind byte, the clock, and that kind's fields in the order document 01, A.2 and
// A.5 name them"; it is read from bytes and spelt as bytes. What a journal holds beside its events stands in crate journaling.
// Exported: Entry with its Fields, Fault; byte_at, short_at and long_at, a number and the bytes behind it; entry_of, the entry that bytes
// begin with, and spelt, its bytes; event_of, what a bench is given.
#![tactic(auto)]

ghost use Rattle.std.specs.Prelude.{◌≡◌};
ghost use Rattle.journal_entry.specs.Reading.{placed};

mod entries;
mod events;
mod numbers;
mod spelling;

pub use crate::entries::entry_of;
pub use crate::events::event_of;
pub use crate::numbers::{byte_at, long_at, short_at};
pub use crate::spelling::{EntryBytes, spelt};
use coast_down::Run;
use locks::{Calibration, Try};
use prepare::ZeroCheck;
use reading::Bits;
use refusal::Refusal;
use vehicle::Settings;

// What a kind of event carries beside its clock, in the order of the kinds' numbers. A second has the bits of its readings: a reading that is
// no number would lose its pattern as a `Reading`.
#[derive(Clone, Copy, Debug, PartialEq, Eq)]
pub enum Fields {
    PowerOn,
    ClockSetting(u32),
    WarmUp,
    Calibration(Calibration),
    Try(Try),
    AuthorityLock,
    AuthorityUnlock,
    Upload,
    Start(Settings, u16),
    Second(Bits),
    Stop(u8),
    CoastDown(Run),
    Prepare(ZeroCheck),
}

// An event of a journal.
#[derive(Clone, Copy, Debug, PartialEq, Eq)]
pub struct Entry {
    pub clock: u32,
    pub fields: Fields,
}

// What is wrong with a journal's bytes: the first fault from the left. Where a place is to be told, the bytes left there are kept.
#[derive(Clone, Copy, Debug, PartialEq, Eq)]
pub enum Fault {
    // the bytes end too early
    Short,
    // a count that is not allowed
    Count(usize),
    // V or U unfit
    Parameters,
    // an unknown kind, or a yes-or-no byte above 1
    Event(usize),
    // bytes left behind the last event
    Left(usize),
}

impl Fault {
    // What a journal of so many bytes is refused by. Ruled out: 20 at the offset behind the byte; 1 at the offset where bytes are wanting.
    pub fn refusal(self, size: usize) -> Refusal
        ensures { result ≡ placed size self }
    {
        match self {
            Fault::Short => Refusal::EndsEarly(size),
            Fault::Count(left) => Refusal::CountNotAllowed(size.saturating_sub(left)),
            Fault::Parameters => Refusal::CauseUnfit,
            Fault::Event(left) => Refusal::EventUnfit(size.saturating_sub(left)),
            Fault::Left(left) => Refusal::BytesLeft(size.saturating_sub(left)),
        }
    }
}
